//! A file system of one path, whose calls answer as a test says.
ghost use Rattle.std.specs.Prelude.{◌≡◌};

use psu_disk::{DiskFault, FileCalls, FileFacts, FileSystem, LockAnswer, OpenFault};

/// A call of those that open a file or make a new one.
#[derive(Clone, Copy, Debug, PartialEq, Eq, Drop)]
pub(crate) enum Step {
    Read,
    Write,
    SyncAll,
    SyncFolder,
}

/// What the system answers.
#[derive(Clone, Copy, Debug, Drop)]
pub(crate) struct Script {
    /// To an attempt to lock a file.
    pub(crate) lock: LockAnswer,
    /// The calls that fail.
    pub(crate) fails: Option<Step>,
}

impl Script {
    // The result of a call.
    fn answer(self, step: Step) -> Result<(), DiskFault> {
        if self.fails == Some(step) {
            Err(DiskFault)
        } else {
            Ok(())
        }
    }
}

/// A file of such a system. It keeps no bytes.
#[derive(Drop)]
pub(crate) struct ScriptedFile {
    script: Script,
    size: u64,
}

impl FileCalls for ScriptedFile {
    ghost use Rattle.std.specs.Prelude.{[], false};
    ghost use Rattle.psu_disk.specs.Memory.{memory};

    ghost made = { λ _ _ _. Unit {0} };

    ghost keeps = { ⊥ };

    ghost records = { ⊥ };

    ghost extent = { λ f. f.size };

    ghost state = { λ _. memory [] [] };

    ghost past = { λ _. [] };

    ghost forgotten = { λ _ _. false };

    ghost works = { λ _. ⊥ };

    ghost sized = { λ keeps. absurd keeps };

    ghost at_risk = { λ keeps. absurd keeps };

    ghost effect = { λ keeps. absurd keeps };

    ghost passes = { λ records. absurd records };

    ghost working = { λ _ _ _ works. absurd works };

    fn size(&self) -> u64 {
        self.size
    }

    fn read_at(&mut self, _at: u64, _into: &mut [u8]) -> Result<(), DiskFault> {
        self.script.answer(Step::Read)
    }

    fn write_at(&mut self, _at: u64, _bytes: &[u8]) -> Result<(), DiskFault> {
        self.script.answer(Step::Write)
    }

    fn sync_data(&mut self) -> Result<(), DiskFault> {
        Ok(())
    }

    fn sync_all(&mut self) -> Result<(), DiskFault> {
        self.script.answer(Step::SyncAll)
    }

    fn look(&mut self) -> Option<FileFacts> {
        Some(FileFacts {
            length: self.size,
            names: 1,
            is_file: true,
        })
    }

    fn try_lock(&mut self) -> LockAnswer {
        self.script.lock
    }
}

/// Such a file system.
#[derive(Drop)]
pub(crate) struct ScriptedFiles {
    pub(crate) script: Script,
    /// Whether a file is at the path.
    pub(crate) is_there: bool,
}

impl FileSystem<ScriptedFile> for ScriptedFiles {
    ghost made = { λ _ _ _. Unit {0} };

    fn open(&mut self, _path: &str) -> Result<ScriptedFile, OpenFault> {
        if self.is_there {
            Ok(ScriptedFile {
                script: self.script,
                size: 4_096,
            })
        } else {
            Err(OpenFault::NoFile)
        }
    }

    fn create(&mut self, _path: &str, size: u64) -> Result<ScriptedFile, OpenFault> {
        if self.is_there {
            return Err(OpenFault::Exists);
        }
        self.is_there = true;
        Ok(ScriptedFile {
            script: self.script,
            size,
        })
    }

    fn sync_folder(&mut self, _path: &str, _file: &ScriptedFile) -> Result<(), DiskFault> {
        self.script.answer(Step::SyncFolder)
    }

    fn remove(&mut self, _path: &str) {
        self.is_there = false;
    }
}
