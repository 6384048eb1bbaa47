//! The lines on the store's condition, and when a store that broke is opened again.
use psu_bench::{ConditionLines, JobEnding, Reopenings, ReportedCondition};
use psu_tables::row;
use std::alloc::Global;

// At this time in milliseconds, the condition that is noted, if one is, and the line that is then due.
const LINES: &str = "
0 - -> -
5 works -> -
10 broken -> store broken
11 broken -> -
12 works -> -
500 broken -> -
1009 - -> -
1010 - -> store broken (changed 2 times)
1500 works -> -
2009 worn -> -
2010 worn -> store worn (changed 2 times)
9000 - -> -
9001 works -> store reopened
9002 broken -> -
9003 works -> -
99999 - -> store reopened (changed 2 times)
";

// At this time in milliseconds, what the store does, if anything, and how long its next job is then put off.
const REOPENINGS: &str = "
0 - -> 0
1 breaks -> 0
5 reopens -> 0
1004 breaks -> 1000
1005 - -> 999
2003 - -> 1
2004 breaks -> 0
2005 reopens -> 0
3005 breaks -> 0
";

// The condition of this name, if it is one.
fn condition_of(name: &str) -> Option<ReportedCondition> {
    match name {
        "works" => Some(ReportedCondition::Works),
        "broken" => Some(ReportedCondition::Broken),
        "worn" => Some(ReportedCondition::Worn),
        _ => None,
    }
}

// Returns the text of the line that is due, or `-`.
fn line_due(alloc: Global, lines: &mut ConditionLines, now: u64) -> Option<String> {
    match lines.line_due(now) {
        Some(line) => format!(in alloc; "{line}").ok(),
        None => String::from_str(alloc, "-").ok(),
    }
}

// Whether the line of a row is due after its step.
fn is_due(alloc: Global, lines: &mut ConditionLines, line: &str) -> Option<bool> {
    let (step, wanted) = row(line)?;
    let (time, name) = step.split_once(" ")?;
    if let Some(condition) = condition_of(name) {
        lines.note(condition);
    }
    Some(line_due(alloc, lines, time.parse().ok()?)?.as_str() == wanted)
}

// Whether the next job is put off, after a row's step, for as long as the row says.
fn is_put_off(reopenings: &mut Reopenings, line: &str) -> Option<bool> {
    let (step, wanted) = row(line)?;
    let (time, name) = step.split_once(" ")?;
    let now = time.parse::<u64>().ok()?;
    match name {
        "breaks" => reopenings.note(JobEnding::Broken, now),
        "reopens" => reopenings.note(JobEnding::Reopened, now),
        _ => {}
    }
    Some(reopenings.time_left(now) == wanted.parse::<u64>().ok()?)
}

#[test]
fn a_line_a_second_is_due(rt: HostRuntime) {
    let mut lines = ConditionLines::new();
    for line in LINES.trim().lines() {
        let due = is_due(rt.alloc(), &mut lines, line);
        assert!(rt; due == Some(true), "{line}");
    }
}

#[test]
fn a_store_that_breaks_again_is_opened_after_a_second(rt: HostRuntime) {
    let mut reopenings = Reopenings::new();
    for line in REOPENINGS.trim().lines() {
        let put_off = is_put_off(&mut reopenings, line);
        assert!(rt; put_off == Some(true), "{line}");
    }
}
