//! Threads that call the device as those of a server do, each by a caller of its own. The
//! replies of all of them are those of one legal order of their calls.
//!
//! Each of four threads defines eight macros, one after another, and after each of them queries the labels of all that
//! are defined: its set. No macro is removed. So the replies are those of one order if and only if of each two sets one
//! contains the other, and each set has those of its thread's own macros that were defined before it.
use crate::benches::{formatted, read};
use psu_bench::operations::{OpenSession, Try};
use psu_bench::{Access, Caller, LockedRegistry, Open, Others, Served, power_on};
use psu_disk::MemDisk;
use psu_exec::{Grant, Outcome, Session, Sessions};
use std::alloc::{AllocError, Global};
use std::process::Abort;
use std::sync::Wait;
use std::sync::atomic::{AtomicU64, Ordering};
use std::thread::{self, Threads, join};

// The number of threads.
const THREADS: u8 = 4;

// How many macros each thread defines: together as many as there may be.
const EACH: u8 = 8;

// How often a thread looks whether the others have begun its step too. It then continues alone, which makes the calls
// less concurrent, and fails nothing.
const LOOKS: u32 = 100_000;

type Disk = Served<MemDisk<Global>, Open>;

/// The other threads of a server, to which these tests report nothing.
#[derive(Drop)]
struct Unreported;

impl LockedRegistry for Unreported {
    ghost passes = { λ _ _ _. Unit {0} };

    fn pass_on(&mut self, _sessions: &Sessions, _grant: Grant) {}
}

impl Others for Unreported {
    type Registry = Unreported;

    ghost tells = { λ _ _ _. Unit {0} };

    fn lock_registry(&self) -> Unreported {
        Unreported
    }

    fn service_requested(&mut self, _sessions: &Sessions) {}

    fn wake_flusher(&mut self) {}

    fn job_ended(&mut self, _over: &Sessions) {}
}

/// What the threads share beside the device: how many steps they have begun in all, and the sets, a bit for each
/// label, in the order of threads and steps.
#[derive(Drop)]
struct Shared {
    begun: AtomicU64,
    sets: Vec<AtomicU64>,
}

impl Shared {
    // Returns it for threads that have begun no step.
    fn new(alloc: Global) -> Result<Shared, AllocError> {
        let mut sets = Vec::new(alloc);
        for _ in 0..THREADS {
            for _ in 0..EACH {
                sets.push(AtomicU64::new(0))?;
            }
        }
        Ok(Shared {
            begun: AtomicU64::new(0),
            sets,
        })
    }

    // Begins a thread's step, together with the others where they come in time.
    fn meet(&self, step: u8) {
        self.begun.fetch_add(1, Ordering::SeqCst);
        let all = u64::from(THREADS) * (u64::from(step) + 1);
        for _ in 0..LOOKS {
            if self.begun.load(Ordering::SeqCst) >= all {
                return;
            }
            thread::yield_now();
        }
    }

    // Notes the set that a thread has found in a step.
    fn note(&self, thread: u8, step: u8, set: u64) {
        if let Some(place) = self.sets.get(place_of(thread, step) as usize) {
            place.store(set, Ordering::SeqCst);
        }
    }

    // Returns the set that a thread has found in a step.
    fn set(&self, thread: u8, step: u8) -> u64 {
        match self.sets.get(place_of(thread, step) as usize) {
            Some(place) => place.load(Ordering::SeqCst),
            None => 0,
        }
    }
}

// Returns the place of a thread's step among those of all threads; it is also that of its label's bit.
fn place_of(thread: u8, step: u8) -> u32 {
    u32::from(thread) * u32::from(EACH) + u32::from(step)
}

// Returns the bit of a label; none for what no thread defines.
fn bit_of(label: &[u8]) -> Option<u64> {
    let thread = label.get(1)?.checked_sub(b'A')?;
    let step = label.get(2)?.checked_sub(b'A')?;
    if thread < THREADS && step < EACH {
        Some(1u64.wrapping_shl(place_of(thread, step)))
    } else {
        None
    }
}

// Returns the set of an answer, such as `"AA","BA"`; none where it has another label.
fn set_of(answer: &[u8]) -> Option<u64> {
    let mut set = 0;
    for label in answer.chunks(5) {
        set |= bit_of(label)?;
    }
    Some(set)
}

// Executes a unit, and reports what it has caused.
fn executed<R: Wait>(
    rt: &R,
    caller: &mut Caller<'_, Disk>,
    session: Session,
    text: &[u8],
) -> Outcome<Global> {
    let (outcome, caused) = caller.try_unit(rt, session, Try::Execute(&read(text)));
    caller.leave();
    if let Some(caused) = caused {
        caused.report(&mut Unreported);
    }
    outcome
}

// Defines the macro of a thread's step, and returns the set that is then found.
fn defined<R: Wait>(
    rt: &R,
    caller: &mut Caller<'_, Disk>,
    session: Session,
    thread: u8,
    step: u8,
) -> Option<u64> {
    let mut definition = *b"*DMC \"AA\",#10";
    definition[6] = b'A'.saturating_add(thread);
    definition[7] = b'A'.saturating_add(step);
    if !matches!(executed(rt, caller, session, &definition), Outcome::Done) {
        return None;
    }
    match executed(rt, caller, session, b"*LMC?") {
        Outcome::Answer(text) => set_of(text.as_slice()),
        _ => None,
    }
}

// Makes the calls of a thread, and notes its sets up to a step that fails.
fn one_thread<R: Wait>(rt: &R, access: Access<Disk>, shared: &Shared, thread: u8) {
    let Access {
        bench,
        mut seat,
        gate,
    } = access;
    let Ok(session) = bench.call(rt, &mut seat, OpenSession) else {
        return;
    };
    let mut caller = Caller::new(&bench, seat, &gate);
    for step in 0..EACH {
        shared.meet(step);
        match defined(rt, &mut caller, session, thread, step) {
            Some(set) => shared.note(thread, step, set),
            None => return,
        }
    }
}

// Makes the calls of two threads.
fn two_threads<R: Threads + Wait + Sync>(
    rt: &R,
    mut access: Access<Disk>,
    shared: &Shared,
    first: u8,
) -> Result<(), AllocError> {
    let other = access.split()?;
    join(
        rt,
        || one_thread(rt, access, shared, first),
        || one_thread(rt, other, shared, first.saturating_add(1)),
    );
    Ok(())
}

// Makes the calls of all threads.
fn all_threads<R: Threads + Wait + Sync>(
    rt: &R,
    mut access: Access<Disk>,
    shared: &Shared,
) -> Result<(), AllocError> {
    let other = access.split()?;
    let (some, more) = join(
        rt,
        || two_threads(rt, access, shared, 0),
        || two_threads(rt, other, shared, 2),
    );
    some?;
    more
}

// Whether the set of each step of a thread has its labels up to this step's, and no later one.
fn has_its_own(shared: &Shared, thread: u8) -> bool {
    for step in 0..EACH {
        let own = shared.set(thread, step).wrapping_shr(place_of(thread, 0)) & 0xff;
        if own != 2u64.wrapping_shl(u32::from(step)).wrapping_sub(1) {
            return false;
        }
    }
    true
}

// Whether a set contains each other one, or is contained in it.
fn is_in_line(shared: &Shared, set: u64) -> bool {
    for place in &shared.sets {
        let other = place.load(Ordering::SeqCst);
        if set & other != set && set & other != other {
            return false;
        }
    }
    true
}

// Whether the sets are those of one order of all calls.
fn are_of_one_order(shared: &Shared) -> bool {
    for thread in 0..THREADS {
        if !has_its_own(shared, thread) {
            return false;
        }
        for step in 0..EACH {
            if !is_in_line(shared, shared.set(thread, step)) {
                return false;
            }
        }
    }
    true
}

// Whether the replies of threads on a new device are those of one order.
fn is_in_order<R: Threads + Wait + Sync + Abort>(rt: &R, alloc: Global) -> bool {
    let access = power_on(alloc, formatted(rt, alloc), Open)
        .ok()
        .expect(rt, "a device");
    let shared = Shared::new(alloc).ok().expect(rt, "memory");
    all_threads(rt, access, &shared).is_ok() && are_of_one_order(&shared)
}

// How often the threads try, each time with a new device.
const TIMES: u32 = 20;

#[test]
fn replies_of_four_threads_are_those_of_one_order(rt: HostRuntime) {
    for _ in 0..TIMES {
        assert!(rt; is_in_order(&rt, rt.alloc()));
    }
}
