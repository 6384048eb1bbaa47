//! Rows of transmissions, played on a new device: without a break, and with one at each call of its executors.
use crate::engine::devices::{Power, is_flushed, new_device, opened};
use crate::engine::holds::holds;
use crate::engine::log::{Log, Turn};
use crate::engine::probe::{Probe, Stopped};
use crate::engine::spelled::{input, spelled};
use psu_exec::Session;
use psu_messages::{Input, Need, ResponseBuffer, Transmission};
use psu_tables::row;
use std::alloc::Global;
use std::process::Abort;

// More waits than a transmission of a row has.
const WAITS: u32 = 16;

// Executes a transmission by one executor, up to a unit that has to wait.
fn proceeds(
    alloc: Global,
    exec: &mut Power,
    session: Session,
    log: &mut Log,
    transmission: &mut Transmission<Global, Session>,
) -> Result<Option<Need>, Stopped> {
    let mut probe = Probe { exec, session, log };
    transmission.proceed(&mut probe, alloc)
}

// Whether a unit waits for what it is to wait for, and that occurs: a flush has to succeed.
fn occurs(exec: &mut Power, log: &Log, need: Need) -> bool {
    need == log.need && (need != Need::Flush || is_flushed(exec))
}

// Executes a transmission, each time by another executor, and returns whether it is over. It is not where an executor
// stopped permanently.
fn runs_to_end(
    alloc: Global,
    exec: &mut Power,
    session: Session,
    log: &mut Log,
    input: Input<Global>,
) -> bool {
    let mut transmission = Transmission::new(alloc, input, ResponseBuffer::new(alloc));
    for _ in 0..WAITS {
        match proceeds(alloc, exec, session, log, &mut transmission) {
            Ok(None) => return true,
            Ok(Some(need)) if occurs(exec, log, need) => {}
            _ => return false,
        }
    }
    false
}

// Executes the transmissions of a row on a device, and returns whether all of them are over.
fn all_run_to_end(alloc: Global, exec: &mut Power, log: &mut Log, given: &str) -> Option<bool> {
    let session = opened(exec)?;
    for cell in given.split(" & ") {
        let input = input(alloc, cell)?;
        if !runs_to_end(alloc, exec, session, log, input) {
            return Some(false);
        }
    }
    Some(true)
}

// Transmissions, and the texts that are sent for them.
#[derive(Drop)]
struct Row<'r> {
    alloc: Global,
    // The number of pages of their device's image.
    pages: u16,
    given: &'r str,
    wanted: Vec<u8, Global>,
}

impl<'r> Row<'r> {
    // Executes them on a device of their own, and returns whether all of them are over.
    fn is_played(&self, log: &mut Log) -> Option<bool> {
        let mut exec = new_device(self.alloc, self.pages)?;
        all_run_to_end(self.alloc, &mut exec, log, self.given)
    }

    // Returns the number of calls of their executors where one of them breaks off this way; `None` where other texts
    // are sent.
    fn calls(&self, at: u32, turn: Turn) -> Option<u32> {
        let mut log = Log::new(self.alloc, at, turn);
        let has_finished = self.is_played(&mut log)?;
        (has_finished && log.has_sent(self.wanted.as_slice())).then_some(log.calls)
    }

    // Whether another executor that continues where one broke off sends the rest, and executes nothing again.
    fn is_taken_up(&self, at: u32, turn: Turn, most: u32) -> bool {
        match self.calls(at, turn) {
            Some(calls) => calls <= most,
            None => false,
        }
    }

    // Whether no call follows the one at which an executor stops permanently, and the texts that were sent before it
    // are the first ones.
    fn is_cut(&self, at: u32) -> Option<bool> {
        let mut log = Log::new(self.alloc, at, Turn::Ends);
        let has_finished = self.is_played(&mut log)?;
        Some(!has_finished && log.calls == at && log.has_sent_first(self.wanted.as_slice()))
    }

    // Whether all of this holds where an executor breaks off at this call of that many.
    fn is_so_at(&self, at: u32, calls: u32) -> bool {
        let most = calls.saturating_add(1);
        self.is_taken_up(at, Turn::Held, most)
            && self.is_taken_up(at, Turn::Later, most)
            && self.is_cut(at) == Some(true)
    }
}

// Plays a row without a break, and then with each break at each of its calls.
fn play_row(rt: &impl Abort, row: &Row<'_>) {
    let calls = row.calls(0, Turn::Continues);
    holds(rt, calls.is_some(), &row.given);
    let calls = calls.unwrap_or(0);
    for before in 0..calls {
        let at = before.saturating_add(1);
        holds(rt, row.is_so_at(at, calls), &(row.given, at));
    }
}

/// Plays rows, each a line: transmissions with ` & ` between them, and the texts that are sent for them. Each text is
/// followed by `|` where it is the last of its message, and otherwise by `~`. The images of their devices have this
/// many pages.
pub(crate) fn play(rt: &impl Abort, alloc: Global, pages: u16, rows: &str) {
    for line in rows.lines() {
        if let Some((given, wanted)) = row(line) {
            let wanted = spelled(alloc, wanted).expect(rt, "what is sent");
            play_row(
                rt,
                &Row {
                    alloc,
                    pages,
                    given,
                    wanted,
                },
            );
        }
    }
}
