//! What an operator reads of the store's condition, and when.
ghost use Rattle.std.specs.Prelude.{◌≡◌, ◌≢◌, ◌↔◌, ◌<◌, IfNone, IfSome, IsSome, IsTrue, None};
ghost use Rattle.psu_bench.specs.Lines.{IsDue, condition_shown, due_line, with_change, with_line};
ghost use Rattle.psu_bench.specs.Reopenings.{left_of_second};
ghost use Rattle.psu_bench.specs.declared.condition_lines.ReportedCondition.TheVariants.{Works};

use crate::JobEnding;
use crate::reopenings::left_of_second;
use std::fmt;
use thiserror::Error;

/// The condition of the store, as it is reported to an operator on standard error once it has changed.
#[derive(Clone, Copy, Debug, PartialEq, Eq, Error)]
pub enum ReportedCondition {
    /// Changes are stored. This is reported only after another condition was.
    #[error("store reopened")]
    Works,
    /// A call of the disk failed: changes are refused until the store is opened again.
    #[error("store broken")]
    Broken,
    /// Its numbers are used up: no more changes are stored.
    #[error("store worn")]
    Worn,
}

impl ReportedCondition {
    /// Returns the condition that the end of a job shows; none after a reopening, since a disk without room can be read
    /// and synced, but stores nothing.
    pub fn shown_by(ending: JobEnding) -> Option<ReportedCondition>
        ensures { result ≡ condition_shown ending }
    {
        match ending {
            JobEnding::Stored => Some(ReportedCondition::Works),
            JobEnding::Broken => Some(ReportedCondition::Broken),
            JobEnding::Worn => Some(ReportedCondition::Worn),
            JobEnding::Reopened | JobEnding::OutOfMemory => None,
        }
    }
}

/// A line on the store's condition for an operator.
#[derive(Clone, Copy, Debug, PartialEq, Eq)]
pub struct ConditionLine {
    /// The latest condition.
    pub condition: ReportedCondition,
    /// How often the condition has changed since the line before.
    pub changes: u64,
}

impl fmt::Display for ConditionLine {
    fn fmt<W: fmt::Write>(&self, f: &mut fmt::Formatter<W>) -> fmt::Result {
        let condition = self.condition;
        let changes = self.changes;
        write!(f, "{condition}")?;
        if changes > 1 {
            write!(f, " (changed {changes} times)")?;
        }
        Ok(())
    }
}

/// Which lines on the store's condition an operator is to read, and when: at most one a second, with how often the
/// condition has changed since the line before.
#[derive(Clone, Copy, Debug, PartialEq, Eq)]
pub struct ConditionLines {
    // The condition at present.
    latest: ReportedCondition,
    // How often it has changed since the last line.
    changes: u64,
    // When the last line was due, in milliseconds.
    last: Option<u64>,
}

impl ConditionLines {
    /// Returns that the store works, and that no line was due yet.
    pub fn new() -> ConditionLines
        ensures latest { result.latest ≡ Works }
        ensures changes { result.changes ≡ 0 }
        ensures last { result.last ≡ None }
    {
        ConditionLines {
            latest: ReportedCondition::Works,
            changes: 0,
            last: None,
        }
    }

    /// Notes the condition that the store has now.
    pub fn note(&mut self, condition: ReportedCondition)
        ensures same { condition ≡ self.old.latest → self.new ≡ self.old }
        ensures change { condition ≢ self.old.latest → self.new ≡ with_change self.old condition }
    {
        if condition != self.latest {
            self.latest = condition;
            self.changes = self.changes.saturating_add(1);
        }
    }

    /// Whether the condition has changed since the last line.
    pub fn has_changed(&self) -> bool
        ensures { IsTrue result ↔ (0 < self.now.changes) }
    {
        self.changes > 0
    }

    /// Returns how many milliseconds it is until a line may be due.
    pub fn time_left(&self, now: u64) -> u64
        ensures { result ≡ left_of_second self.now.last now }
    {
        left_of_second(self.last, now)
    }

    /// Returns the line that is due at this time, if one is. It is then the last one.
    pub fn line_due(&mut self, now: u64) -> Option<ConditionLine>
        ensures due { IsSome result ↔ IsDue self.old now }
        ensures line { IfSome result (λ line. line ≡ due_line self.old) }
        ensures last { IfSome result (λ _. self.new ≡ with_line self.old now) }
        ensures none { IfNone result (self.new ≡ self.old) }
    {
        if !self.has_changed() || self.time_left(now) > 0 {
            return None;
        }
        let line = ConditionLine {
            condition: self.latest,
            changes: self.changes,
        };
        self.changes = 0;
        self.last = Some(now);
        Some(line)
    }
}
