//! Transcripts of runs as texts: what is sent, and what is written. A text costs a proof far less than an array of rows,
//! and reads like a session at a terminal.
use crate::holds::holds;
use crate::images::written_on;
use crate::texts::add_line;
use psu_call_steps::image;
use std::alloc::Global;
use std::process::Abort;

/// Returns the lines of a transcript after this mark, each with its end.
pub(crate) fn lines_after(alloc: Global, transcript: &str, mark: &str) -> Option<Vec<u8>> {
    let mut lines = Vec::new(alloc);
    for row in transcript.split('\n') {
        if let Some(line) = row.strip_prefix(mark) {
            add_line(alloc, &mut lines, line)?;
        }
    }
    Some(lines)
}

// Returns what a transcript writes on a fresh image of this many pages.
fn written_by(alloc: Global, pages: u16, transcript: &str) -> Option<Vec<u8>> {
    let input = lines_after(alloc, transcript, "> ")?;
    written_on(alloc, image(alloc, pages)?, &input)
}

/// Plays transcripts, each on a fresh image of this many pages, with an empty line between two. The lines that begin
/// with `> ` are sent, and those that begin with `< ` are all that is to be written; `{x*64}` in one means 64 x. Other
/// lines say what a transcript is for.
pub(crate) fn play_on(rt: &impl Abort, alloc: Global, pages: u16, transcripts: &str) {
    let mut written_lines = 0usize;
    for transcript in transcripts.split("\n\n") {
        let want = lines_after(alloc, transcript, "< ").expect(rt, "memory");
        let got = written_by(alloc, pages, transcript).expect(rt, "the run ends well");
        holds(rt, got == want, &(transcript, &got));
        written_lines = written_lines.saturating_add(want.len());
    }
    holds(rt, written_lines > 0, &transcripts);
}

/// Plays transcripts, each on a fresh image of 256 pages.
pub(crate) fn play(rt: &impl Abort, alloc: Global, transcripts: &str) {
    play_on(rt, alloc, 256, transcripts);
}
