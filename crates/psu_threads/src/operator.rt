//! What an operator reads of the store's condition.
use crate::server::Server;
use psu_bench::{ConditionLines, ReportedCondition};
use std::io::Eprint;
use std::rt::Clock;
use std::sync::{Condvar, Mutex, Wait};
use std::thread;
use std::time::Duration;

/// The lines on the store's condition that an operator is to read, as the flusher and the thread that writes them share
/// them. The flusher only notes the condition, and waits for no line.
#[derive(Drop)]
pub struct Operator {
    lines: Mutex<ConditionLines>,
    changed: Condvar,
}

impl Operator {
    /// Returns that the store works, and that there is no line to be written.
    pub fn new() -> Operator {
        Operator {
            lines: Mutex::new(ConditionLines::new()),
            changed: Condvar::new(),
        }
    }

    /// Notes the condition that the store has now. This neither allocates nor waits for a line to be written.
    pub fn note<R: Wait>(&self, rt: &R, condition: ReportedCondition) {
        self.lines.lock(rt).note(condition);
        self.changed.notify_all();
    }

    // Waits until the condition has changed since the last line, and writes the next one once it is due. The condition may
    // change while it is written.
    fn write_next<R: Wait + Clock, E: Eprint>(&self, rt: &R, server: &Server, errors: &E) {
        let lines = self.lines.lock(rt);
        let lines = self
            .changed
            .wait_while(rt, lines, |lines| !lines.has_changed());
        let left = lines.time_left(server.now(rt));
        drop(lines);
        thread::sleep(rt, Duration::from_millis(left));
        let now = server.now(rt);
        let due = self.lines.lock(rt).line_due(now);
        if let Some(line) = due {
            let _ = eprintln!(errors; "psu: {line}");
        }
    }
}

/// Writes the lines on the store's condition for an operator, for ever: each once it is due, and as soon as it can be
/// written. No other thread waits for it.
pub fn write_lines<R: Wait + Clock, E: Eprint>(rt: &R, server: &Server, errors: &E) {
    for _ in rt.forever() {
        server.operator.write_next(rt, server, errors);
    }
}
