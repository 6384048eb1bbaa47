//! The calls of an executor and the texts that were sent: where it breaks off, and how.
use psu_messages::Need;
use std::alloc::Global;

/// What an executor does at the call at which it breaks off.
#[derive(Clone, Copy, PartialEq)]
pub(crate) enum Turn {
    /// It does what it is called for.
    Continues,
    /// It stops permanently, and has had no effect.
    Ends,
    /// A unit is held, or its wait continues.
    Held,
    /// A unit comes too early, or memory is refused at the end of its wait.
    Later,
}

/// The calls of the executors of a play, and the texts that they sent.
#[derive(Drop)]
pub(crate) struct Log {
    /// The texts, each followed by `|` where it is the last of its message, and otherwise by `~`.
    sent: Vec<u8, Global>,
    /// The number of calls.
    pub(crate) calls: u32,
    /// What the unit of the last call waits for, if it waits.
    pub(crate) need: Need,
    at: u32,
    turn: Turn,
}

impl Log {
    /// Returns a log without calls. At the call with number `at` an executor does this.
    pub(crate) fn new(alloc: Global, at: u32, turn: Turn) -> Log {
        Log {
            sent: Vec::new(alloc),
            calls: 0,
            need: Need::Flush,
            at,
            turn,
        }
    }

    /// Counts a call, and returns what the executor does at it.
    pub(crate) fn turn(&mut self) -> Turn {
        self.calls = self.calls.saturating_add(1);
        self.need = Need::Flush;
        if self.calls == self.at {
            self.turn
        } else {
            Turn::Continues
        }
    }

    /// Records a text that is sent; `None` where memory is refused.
    pub(crate) fn send(&mut self, text: &[u8], is_last: bool) -> Option<()> {
        let mark = if is_last { b'|' } else { b'~' };
        self.sent.extend_from_slice(text).ok()?;
        self.sent.push(mark).ok()
    }

    /// Whether exactly these texts were sent.
    pub(crate) fn has_sent(&self, wanted: &[u8]) -> bool {
        self.sent.as_slice() == wanted
    }

    /// Whether a prefix of these texts was sent, each whole and once, and no others.
    pub(crate) fn has_sent_first(&self, wanted: &[u8]) -> bool {
        let ends_whole = match self.sent.last() {
            Some(mark) => matches!(*mark, b'|' | b'~'),
            None => true,
        };
        ends_whole && wanted.starts_with(self.sent.as_slice())
    }
}
