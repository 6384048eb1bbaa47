//! Files that can't be locked or finished, over a scripted file system: which are refused, and what is left.
use crate::holds::holds;
use crate::scripted_files::{Script, ScriptedFile, ScriptedFiles, Step};
use psu_disk::{KeptDisk, LockAnswer, OpenFault, SystemFile};
use std::alloc::Global;
use std::process::Abort;

// The result of opening or making a disk.
type Outcome = Result<KeptDisk<SystemFile<ScriptedFile, Global>, Global>, OpenFault>;

const NAME: &str = "a.image";

// Checks why a file that is there is not opened, or that it is; it stays in any case.
fn opens(rt: &impl Abort, alloc: Global, script: Script, cause: Option<OpenFault>) {
    let mut files = ScriptedFiles {
        script,
        is_there: true,
    };
    let opened: Outcome = KeptDisk::of(&mut files, alloc, NAME);
    holds(rt, opened.err() == cause, &script);
    holds(rt, files.is_there, &script);
}

// Makes a file where one is, or none. Returns why it is not made, `None` where it is, and whether one is there then.
fn unmade(alloc: Global, script: Script, is_there: bool) -> (Option<OpenFault>, bool) {
    let mut files = ScriptedFiles { script, is_there };
    let made: Outcome = KeptDisk::make(&mut files, alloc, NAME, 5_000);
    (made.err(), files.is_there)
}

// Checks why a file is not made where none is, or that it is; it is there exactly if it is made.
fn makes(rt: &impl Abort, alloc: Global, script: Script, cause: Option<OpenFault>) {
    let (found, is_there) = unmade(alloc, script, false);
    holds(rt, found == cause, &script);
    holds(rt, is_there == cause.is_none(), &script);
}

// Checks both.
fn is_locked(rt: &impl Abort, alloc: Global, lock: LockAnswer, cause: Option<OpenFault>) {
    let script = Script { lock, fails: None };
    opens(rt, alloc, script, cause);
    makes(rt, alloc, script, cause);
}

// Only a file system that has no locks is served without one.
#[test]
fn a_file_that_is_not_locked_is_refused(rt: HostRuntime) {
    is_locked(&rt, rt.alloc(), LockAnswer::Locked, None);
    is_locked(&rt, rt.alloc(), LockAnswer::NoLocks, None);
    is_locked(
        &rt,
        rt.alloc(),
        LockAnswer::InUse,
        Some(OpenFault::NotOpened),
    );
    is_locked(
        &rt,
        rt.alloc(),
        LockAnswer::Failed,
        Some(OpenFault::NotOpened),
    );
}

// Returns the script in which this call fails.
fn failing(step: Step) -> Script {
    Script {
        lock: LockAnswer::Locked,
        fails: Some(step),
    }
}

// Checks that no file is left where this call fails.
fn leaves_nothing(rt: &impl Abort, alloc: Global, step: Step) {
    makes(rt, alloc, failing(step), Some(OpenFault::NotOpened));
}

#[test]
fn a_file_that_is_not_finished_is_removed(rt: HostRuntime) {
    leaves_nothing(&rt, rt.alloc(), Step::Write);
    leaves_nothing(&rt, rt.alloc(), Step::SyncAll);
    leaves_nothing(&rt, rt.alloc(), Step::SyncFolder);
    leaves_nothing(&rt, rt.alloc(), Step::Read);
}

#[test]
fn a_file_that_is_not_read_is_refused(rt: HostRuntime) {
    let refused = Some(OpenFault::NotOpened);
    opens(&rt, rt.alloc(), failing(Step::Read), refused);
}

// Checks that a file that is there is not made, and stays.
fn stays(rt: &impl Abort, alloc: Global, lock: LockAnswer) {
    let script = Script { lock, fails: None };
    let (found, is_there) = unmade(alloc, script, true);
    holds(rt, found == Some(OpenFault::Exists), &script);
    holds(rt, is_there, &script);
}

#[test]
fn a_file_that_is_there_stays(rt: HostRuntime) {
    stays(&rt, rt.alloc(), LockAnswer::Locked);
    stays(&rt, rt.alloc(), LockAnswer::InUse);
}
