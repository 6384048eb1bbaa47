//! Disks in files of the system: how one is opened, and how one is created.
ghost use Rattle.std.specs.Prelude.{◌≡◌, ◌+◌, ◌≤◌, ◌<◌, ◌-◌, ℕ, List, true, false, length, replicate, IfOk, IfErr, OnOk, OnErr};
ghost use Rattle.psu_disk.specs.declared.faults.OpenFault.TheVariants.{NotOpened};
ghost use Rattle.psu_disk.specs.FileCalls.{FileCall, PathCall, AreFileCalls, AreZeros, IsLocked, IsLockRefused, IsTakenUp, IsOpened, IsFilled, IsLoaded, IsMade, MaySyncFolder, LeavesNoFile};

use crate::file_calls::{FileCalls, FileSystem, LockAnswer};
use crate::{DiskFault, KeptDisk, OpenFault, SystemFile};
use std::alloc::{AllocError, Allocator};

// The number of bytes of a new file that are written at a time.
const ZEROS_PIECE: u64 = 4_096;

// The maximum length of a file that is opened, 16 MiB: its bytes are kept in memory.
const LENGTH_MOST: u64 = 16_777_216;

impl<F: FileCalls + Drop, A: Allocator + Copy> KeptDisk<SystemFile<F, A>, A> {
    /// Opens the disk in the existing file at a path, and reads the file. The disk's size is the file's, which stays
    /// unchanged. A file of more than 16 MiB is refused before it is read. The file is locked while it is open; a file
    /// that another program has locked is refused, and so is one whose lock fails, unless the file system has no locks.
    pub fn of<S: FileSystem<F>>(
        system: &mut S,
        alloc: A,
        path: &str,
    ) -> Result<KeptDisk<SystemFile<F, A>, A>, OpenFault>
        ensures opened { IfOk result (λ disk. (file : F) × IsOpened S.made F.made path.now system.old file system.new × IsLoaded F.made (F.extent file) file disk.medium.file) }
        ensures most { IfOk result (λ disk. F.extent disk.medium.file ≤ 16777216) }
        ensures faults { IfOk result (λ disk. disk.faults ≡ 0) }
    {
        let file = system.open(path)?;
        let file = taken_up(file)?;
        over(alloc, file)
    }

    /// Creates a disk of `size` bytes in a new file at a path. Each byte is written as 00, and the bytes and the file's
    /// name are made durable. A file that exists already is refused and stays unchanged. If anything fails after the
    /// new file was created, its lock, a write for lack of space, a sync or an allocation, it is removed.
    pub fn make<S: FileSystem<F>>(
        system: &mut S,
        alloc: A,
        path: &str,
        size: u64,
    ) -> Result<KeptDisk<SystemFile<F, A>, A>, OpenFault>
        ensures made { IfOk result (λ disk. (file : F) × IsMade S.made F.made path.now size system.old file system.new × IsLoaded F.made size file disk.medium.file) }
        ensures size { IfOk result (λ disk. F.extent disk.medium.file ≡ size) }
        ensures faults { IfOk result (λ disk. disk.faults ≡ 0) }
        ensures refused { IfErr result (λ _. LeavesNoFile S.made path.now system.old system.new) }
    {
        let file = system.create(path, size)?;
        match filled(system, alloc, path, file) {
            Ok(disk) => Ok(disk),
            Err(fault) => {
                system.remove(path);
                Err(fault)
            }
        }
    }
}

// Makes a disk of a file that was created: it locks it, fills it with zeros, and makes it and its name durable.
fn filled<F: FileCalls + Drop, S: FileSystem<F>, A: Allocator + Copy>(
    system: &mut S,
    alloc: A,
    path: &str,
    file: F,
) -> Result<KeptDisk<SystemFile<F, A>, A>, OpenFault>
    requires known { F.keeps → (k : ℕ) → F.forgotten file k ≡ false }
    ensures filled { IfOk result (λ disk. (locked filled : F) × IsLocked F.made file locked × IsFilled F.made (F.extent file) locked filled
        × S.made system.old (PathCall.SyncedFolder path.now filled true) system.new
        × IsLoaded F.made (F.extent file) filled disk.medium.file) }
    ensures size { IfOk result (λ disk. F.extent disk.medium.file ≡ F.extent file) }
    ensures faults { IfOk result (λ disk. disk.faults ≡ 0) }
    ensures refused { IfErr result (λ _. MaySyncFolder S.made path.now system.old system.new) }
{
    let mut file = locked(file)?;
    match make_durable(system, path, &mut file) {
        Ok(()) => over(alloc, file),
        Err(DiskFault) => Err(OpenFault::NotOpened),
    }
}

// Returns the disk over a file of which no byte is forgotten, once it has read it.
fn over<F: FileCalls + Drop, A: Allocator + Copy>(
    alloc: A,
    file: F,
) -> Result<KeptDisk<SystemFile<F, A>, A>, OpenFault>
    requires { F.keeps → (k : ℕ) → F.forgotten file k ≡ false }
    ensures loaded { IfOk result (λ disk. IsLoaded F.made (F.extent file) file disk.medium.file) }
    ensures extent { IfOk result (λ disk. F.extent disk.medium.file ≡ F.extent file) }
    ensures faults { IfOk result (λ disk. disk.faults ≡ 0) }
{
    let medium = SystemFile::load(alloc, file)?;
    match KeptDisk::new(alloc, medium) {
        Ok(disk) => Ok(disk),
        Err(AllocError) => Err(OpenFault::Memory),
    }
}

// Takes an existing file for this program alone: it has to be a regular file of at most 16 MiB that no other opening of
// it has locked.
fn taken_up<F: FileCalls + Drop>(mut file: F) -> Result<F, OpenFault>
    ensures taken { IfOk result (λ taken. IsTakenUp F.made file taken) }
    ensures most { IfOk result (λ taken. F.extent taken ≤ 16777216) }
    ensures refused { IfErr result (λ fault. fault ≡ NotOpened) }
    ensures known { F.keeps → ((k : ℕ) → F.forgotten file k ≡ false) → IfOk result (λ taken. (k : ℕ) → F.forgotten taken k ≡ false) }
{
    match file.look() {
        Some(facts) if facts.is_file && file.size() <= LENGTH_MOST => locked(file),
        _ => Err(OpenFault::NotOpened),
    }
}

// Locks a file, unless the file system has no locks. A file that another opening of it has locked is refused, and so is
// one whose lock fails.
fn locked<F: FileCalls + Drop>(mut file: F) -> Result<F, OpenFault>
    ensures locked { IfOk result (λ locked. IsLocked F.made file locked) }
    ensures refused { IfErr result (λ fault. (fault ≡ NotOpened) × IsLockRefused F.made file) }
    ensures extent { IfOk result (λ locked. F.extent locked ≡ F.extent file) }
    ensures known { F.keeps → ((k : ℕ) → F.forgotten file k ≡ false) → IfOk result (λ locked. (k : ℕ) → F.forgotten locked k ≡ false) }
{
    match file.try_lock() {
        LockAnswer::Locked | LockAnswer::NoLocks => Ok(file),
        LockAnswer::InUse | LockAnswer::Failed => Err(OpenFault::NotOpened),
    }
}

// Fills a new file with zeros, and makes it and its name durable.
fn make_durable<F: FileCalls, S: FileSystem<F>>(
    system: &mut S,
    path: &str,
    file: &mut F,
) -> Result<(), DiskFault>
    ensures extent { F.extent file.new ≡ F.extent file.old }
    ensures filled { OnOk result (IsFilled F.made (F.extent file.old) file.old file.new) }
    ensures folder { OnOk result (S.made system.old (PathCall.SyncedFolder path.now file.new true) system.new) }
    ensures refused { OnErr result (MaySyncFolder S.made path.now system.old system.new) }
    ensures known { F.keeps → ((k : ℕ) → F.forgotten file.old k ≡ false) → OnOk result ((k : ℕ) → F.forgotten file.new k ≡ false) }
{
    fill(file)?;
    file.sync_all()?;
    system.sync_folder(path, file)
}

// Writes 00 into each byte of a file, in order, so that its space is allocated.
fn fill<F: FileCalls>(file: &mut F) -> Result<(), DiskFault>
    ensures extent { F.extent file.new ≡ F.extent file.old }
    ensures zeros { OnOk result ((calls : List FileCall) × AreFileCalls F.made calls file.old file.new × AreZeros 0 (F.extent file.old) calls) }
    ensures known { F.keeps → ((k : ℕ) → F.forgotten file.old k ≡ false) → OnOk result ((k : ℕ) → F.forgotten file.new k ≡ false) }
{
    let size = file.size();
    let mut at = 0;
    while at < size {
        let n = (size - at).min(ZEROS_PIECE);
        write_zeros(file, at, n)?;
        at += n;
    }
    Ok(())
}

// Writes `n` zeros from `at` on.
fn write_zeros<F: FileCalls>(file: &mut F, at: u64, n: u64) -> Result<(), DiskFault>
    requires within { at + n ≤ F.extent file.old }
    requires piece { n ≤ 4096 }
    ensures extent { F.extent file.new ≡ F.extent file.old }
    ensures made { OnOk result (F.made file.old (FileCall.WriteAt at (replicate n 0) true) file.new) }
    ensures known { F.keeps → ((k : ℕ) → F.forgotten file.old k ≡ false) → OnOk result ((k : ℕ) → F.forgotten file.new k ≡ false) }
{
    let zeros = [0; ZEROS_PIECE as usize];
    file.write_at(at, &zeros[..n as usize])?;
    Ok(())
}
