//! Runs on disks that stop or fail once: what is written, and what a restart finds.
use crate::holds::{count, either, holds};
use crate::images::{least, written_on};
use crate::runs::{NOT_OPENED, Ran, run_on};
use psu_disk::{Choice, FailingDisk, MemDisk};
use psu_items::Store;
use psu_run::RunCause;
use std::alloc::Global;

type Failed = Ran<FailingDisk<MemDisk<Global>>>;

// Runs on a disk that stops after this many calls.
fn run_on_stopping(alloc: Global, input: &str, calls: u64) -> Option<Failed> {
    let disk = FailingDisk::from_then_on(least(alloc)?, calls);
    Some(run_on(alloc, input.as_bytes(), disk))
}

// Runs on a disk of which one call fails.
fn run_on_failing(alloc: Global, input: &str, call: u64) -> Option<Failed> {
    let disk = FailingDisk::once(least(alloc)?, call);
    Some(run_on(alloc, input.as_bytes(), disk))
}

// The five ways in which a power loss may leave bytes that were not synced.
const CHOICES: [Choice; 5] = [
    Choice::Old,
    Choice::New,
    Choice::Fill(0),
    Choice::Fill(0xa5),
    Choice::Fill(0xff),
];

const FILE: &str = "MMEM:DATA \"A\",#13xyz;*OPC?\n";

// Whether the crash image has the file; otherwise it has nothing.
fn has_file(alloc: Global, mut disk: MemDisk<Global>, choice: Choice) -> Option<bool> {
    disk.lose(choice);
    let held = written_on(alloc, disk, b"MMEM:CAT?;:MMEM:DATA? \"A\"\n")?;
    either(
        held.as_slice() == b"0,2048\n".as_slice(),
        held.as_slice() == b"1024,1024,\"A,BIN,3\";#13xyz\n".as_slice(),
    )
}

// Places of a stop: outside the commit, before the device was powered on or once the file was confirmed; in the commit,
// without the file; in it, with the file.
const OUTSIDE: usize = 0;

const WITHOUT: usize = 1;

const WITH: usize = 2;

// Where the disk stopped; `None` where the text or the file is not as it must be then.
fn stop_of(text: &[u8], cause: Option<RunCause>, has: bool) -> Option<usize> {
    if cause.is_none() {
        return (has && text == b"1\n".as_slice()).then_some(OUTSIDE);
    }
    if cause == Some(NOT_OPENED) {
        return (!has && text.is_empty()).then_some(OUTSIDE);
    }
    let in_commit = text.is_empty() && cause == Some(RunCause::Device);
    in_commit.then_some(if has { WITH } else { WITHOUT })
}

// Where a disk stopped that stops after this many calls, followed by a power loss.
fn stopped(alloc: Global, calls: u64, choice: Choice) -> Option<usize> {
    let ran = run_on_stopping(alloc, FILE, calls)?;
    let has = has_file(alloc, ran.disk.into_inner(), choice)?;
    stop_of(&ran.text, ran.cause, has)
}

// The disk stops after each number of calls, and power is lost: the file is there or not, and it is where it was
// confirmed.
#[test]
fn a_disk_that_stops_leaves_the_file_or_none(rt: HostRuntime) {
    let mut seen = [0u32; 3];
    for calls in 0..24u64 {
        for choice in CHOICES {
            count(&rt, &mut seen, stopped(rt.alloc(), calls, choice), &calls);
        }
    }
    // At least two writes and three syncs, each with five losses; after the last write the file may be there.
    holds(&rt, seen[WITHOUT].saturating_add(seen[WITH]) >= 25, &seen);
    holds(&rt, seen[WITHOUT] > 0 && seen[WITH] > 0, &seen);
}

// The bytes of a register: output 1 at 1 volt, the rest as after `*RST`.
const SAVED: [u8; 28] = [
    3, 0xe8, 0, 0, 0xea, 0x60, 0, 0, 0, 0, 0, 0xea, 0x60, 0, 0, 0, 0, 0, 0xea, 0x60, 0, 0, 0, 0, 0,
    0xea, 0x60, 0,
];

// Whether the image has register 1 as saved; `None` where it does not open.
fn has_register(alloc: Global, disk: MemDisk<Global>) -> Option<bool> {
    let store = Store::open(alloc, disk).ok()?;
    Some(store.items().get(&[2, 1]) == Some(SAVED.as_slice()))
}

/// The effect of a call that failed.
#[derive(Clone, Copy, PartialEq, Eq)]
enum Failure {
    /// The opening failed, and nothing is saved.
    Opening,
    /// The commit failed, and was repeated.
    Commit,
    /// None: the save was confirmed at once.
    None,
}

// Whether this effect of a call may follow `broken` calls that failed in the commit and `whole` calls that did not
// fail: those of the opening come first.
fn follows(failure: Option<Failure>, broken: u32, whole: u32) -> bool {
    match failure {
        Some(Failure::Opening) => broken == 0,
        Some(Failure::Commit) => whole == 0,
        Some(Failure::None) => true,
        None => false,
    }
}

const SAVE: &str = "VOLT 1;*SAV 1;*OPC?\nSYST:ERR?\n*OPC?\n";

// The effect; `None` where the text or the register is not as it must be then.
fn failure_of(text: &[u8], cause: Option<RunCause>, has: bool) -> Option<Failure> {
    if !has {
        return (text.is_empty() && cause == Some(NOT_OPENED)).then_some(Failure::Opening);
    }
    if cause.is_some() {
        None
    } else if text == b"-320,\"Storage fault\"\n1\n".as_slice() {
        Some(Failure::Commit)
    } else {
        (text == b"1\n0,\"No error\"\n1\n".as_slice()).then_some(Failure::None)
    }
}

// Saves on a disk of which this call fails.
fn saved_on_failing(alloc: Global, call: u64) -> Option<Failure> {
    let ran = run_on_failing(alloc, SAVE, call)?;
    let has = has_register(alloc, ran.disk.into_inner())?;
    failure_of(&ran.text, ran.cause, has)
}

// Each call of the first commit fails once: the wait ends with -320, the store is reopened, and the save is flushed.
#[test]
fn a_commit_that_fails_once_is_made_again(rt: HostRuntime) {
    let mut broken = 0u32;
    let mut whole = 0u32;
    for call in 0..40u64 {
        let failure = saved_on_failing(rt.alloc(), call);
        holds(&rt, follows(failure, broken, whole), &call);
        broken = broken.saturating_add(u32::from(failure == Some(Failure::Commit)));
        whole = whole.saturating_add(u32::from(failure == Some(Failure::None)));
    }
    // At least two writes and three syncs.
    holds(&rt, broken >= 5 && whole > 0, &(broken, whole));
}

// What register 1 holds after power has returned, in volts.
fn volts_of(alloc: Global, disk: MemDisk<Global>) -> Option<usize> {
    let held = written_on(alloc, disk, b"*RCL 1;VOLT?\n")?;
    if held.len() != 6 || !held.ends_with(b".000\n") {
        return None;
    }
    Some(usize::from(held[0].checked_sub(b'0')?))
}

const THREE_SAVES: &str = "VOLT 1;*SAV 1;*OPC?\nVOLT 2;*SAV 1;*OPC?\nVOLT 3;*SAV 1;*OPC?\n";

// The number of confirmed saves; `None` where the responses are not as they must be.
fn confirmed_of(text: &[u8], cause: Option<RunCause>) -> Option<usize> {
    let is_right = b"1\n1\n1\n".starts_with(text) && cause.is_none() == (text.len() == 6);
    is_right.then_some(text.len() / 2)
}

// Whether the register holds one save more than the confirmed ones, on a disk that stops after this many calls, after a
// power loss; otherwise it holds the last confirmed one.
fn is_ahead(alloc: Global, calls: u64, choice: Choice) -> Option<bool> {
    let ran = run_on_stopping(alloc, THREE_SAVES, calls)?;
    let confirmed = confirmed_of(&ran.text, ran.cause)?;
    let mut disk = ran.disk.into_inner();
    disk.lose(choice);
    let volts = volts_of(alloc, disk)?;
    either(volts == confirmed, volts == confirmed.saturating_add(1))
}

// Three saves one after another, each confirmed: of those confirmed before a stop none is lost, and at most one more is
// there.
#[test]
fn confirmed_saves_outlast_a_stop(rt: HostRuntime) {
    let mut ahead = 0u32;
    for calls in 0..36u64 {
        for choice in CHOICES {
            let is_ahead = is_ahead(rt.alloc(), calls, choice);
            holds(&rt, is_ahead.is_some(), &calls);
            ahead = ahead.saturating_add(u32::from(is_ahead == Some(true)));
        }
    }
    assert!(rt; ahead > 0);
}

const SAVE_AND_LOSS: &str = "VOLT 1;*SAV 1;*OPC?\n!POWER\n*RCL 1;VOLT?\n";

// The number of the outcome of a save and a power loss where one call failed, by whether the run succeeded, its text,
// and the register.
fn way_of(ended: bool, text: &[u8], volts: usize) -> Option<usize> {
    if volts == 0 {
        return (!ended && text.is_empty()).then_some(0);
    }
    if volts != 1 {
        None
    } else if !ended {
        (text == b"1\n".as_slice()).then_some(2)
    } else if text == b"1.000\n".as_slice() {
        Some(1)
    } else {
        (text == b"1\n1.000\n".as_slice()).then_some(3)
    }
}

// Saves and loses power on a disk of which this call fails: the run succeeds, or is not opened.
fn lost_on_failing(alloc: Global, call: u64) -> Option<usize> {
    let ran = run_on_failing(alloc, SAVE_AND_LOSS, call)?;
    let ended = either(ran.cause == Some(NOT_OPENED), ran.cause.is_none())?;
    let volts = volts_of(alloc, ran.disk.into_inner())?;
    way_of(ended, &ran.text, volts)
}

// A call that fails at any time around a power loss: the flush continues after a commit that failed, so the register is
// there once a unit has reported its end, by `1` or by -320.
#[test]
fn a_loss_after_a_call_that_failed(rt: HostRuntime) {
    let mut seen = [0u32; 4];
    for call in 0..40u64 {
        count(&rt, &mut seen, lost_on_failing(rt.alloc(), call), &call);
    }
    let all = seen[0] > 0 && seen[1] >= 5 && seen[2] > 0 && seen[3] > 0;
    holds(&rt, all, &seen);
}

const PENDING: &str = "*SAV 1;*OPC;*OPC?\n*ESR?;:SYST:ERR?\n";

// The effect on a pending completion where this call fails.
fn completed(alloc: Global, call: u64) -> Option<Failure> {
    let ran = run_on_failing(alloc, PENDING, call)?;
    let text = ran.text.as_slice();
    if text == b"137;-320,\"Storage fault\"\n".as_slice() {
        Some(Failure::Commit)
    } else if ran.cause.is_none() {
        (text == b"1\n129;0,\"No error\"\n".as_slice()).then_some(Failure::None)
    } else {
        text.is_empty().then_some(Failure::Opening)
    }
}

// A pending `*OPC` is not a wait: it survives the broken store, and its bit (1) is set once the save is flushed, in
// addition to DDE (8) of the wait that ended and PON (128).
#[test]
fn a_pending_completion_outlasts_a_broken_store(rt: HostRuntime) {
    let mut broken = 0u32;
    for call in 0..24u64 {
        let failure = completed(rt.alloc(), call);
        holds(&rt, follows(failure, broken, 0), &call);
        broken = broken.saturating_add(u32::from(failure == Some(Failure::Commit)));
    }
    holds(&rt, broken >= 5, &broken);
}

const WHILE_BROKEN: &str =
    "VOLT 1;*SAV 1;*OPC?\nSYST:ERR?\n*SAV 2;*OPC;*WAI;*OPC?;*SRE 4;*SRE?;:SYST:ERR:COUN?;*CLS\n\
*PUD #10;:MMEM:DEL \"X\";DATA \"A\",#10;:SYST:ERR?;:SYST:ERR?;:SYST:ERR?\n\
VOLT 2;*RCL 1;VOLT?;*SAV 100;SYST:ERR?;:MMEM:CAT?\n";

const TOLD_WHILE_BROKEN: &str = "-320,\"Storage fault\"\n4;4\n\
-203,\"Command protected\";-256,\"File name not found\";-320,\"Storage fault\"\n\
1.000;-222,\"Data out of range\";1024,1024\n";

// Whether the store broke in the first commit, where the disk stops after this many calls; `None` where the text is not
// what it must be then.
fn breaks(alloc: Global, calls: u64) -> Option<bool> {
    let ran = run_on_stopping(alloc, WHILE_BROKEN, calls)?;
    if ran.cause != Some(RunCause::Device) || ran.text.starts_with(b"1\n") {
        return Some(false);
    }
    (ran.text.as_slice() == TOLD_WHILE_BROKEN.as_bytes()).then_some(true)
}

// While the store is broken, a unit that would change it or would wait for it fails with -320, unless the unit itself
// is refused for another reason first; the rest continues, with the changes accepted before.
#[test]
fn a_broken_store_refuses_changes(rt: HostRuntime) {
    let mut broken = 0u32;
    for calls in 0..24u64 {
        let breaks = breaks(rt.alloc(), calls);
        holds(&rt, breaks.is_some(), &calls);
        broken = broken.saturating_add(u32::from(breaks == Some(true)));
    }
    holds(&rt, broken >= 5, &broken);
}
