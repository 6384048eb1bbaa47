//! Writing whole texts to a writer.
ghost use Rattle.std.specs.Prelude.{◌≡◌, ◌++◌, OnOk, OnErr, IfErr};
ghost use Rattle.psu_run.specs.Output.{Writes, WritesShort};

use crate::{RunCause, Sink};

/// Writes the text. Where a write fails, a proper prefix of it was written, and no further write is made.
pub(crate) fn put<W: Sink>(writer: &mut W, text: &[u8]) -> Result<(), RunCause>
    ensures whole { OnOk result (Writes (W.written writer.old) (W.written writer.new) text.now) }
    ensures short { OnErr result (WritesShort (W.written writer.old) (W.written writer.new) text.now) }
    ensures own { IfErr result (λ cause. cause ≡ RunCause.Write) }
{
    let mut at = 0;
    while at < text.len() {
        match writer.write_some(&text[at..]) {
            Ok(0) => return Err(RunCause::Write),
            Ok(count) => at += count,
            Err(_) => return Err(RunCause::Write),
        }
    }
    Ok(())
}

/// Writes two texts, one after the other, as if they were one.
pub(crate) fn put_both<W: Sink>(writer: &mut W, first: &[u8], second: &[u8]) -> Result<(), RunCause>
    ensures whole { OnOk result (Writes (W.written writer.old) (W.written writer.new) (first.now ++ second.now)) }
    ensures short { OnErr result (WritesShort (W.written writer.old) (W.written writer.new) (first.now ++ second.now)) }
    ensures own { IfErr result (λ cause. cause ≡ RunCause.Write) }
{
    put(writer, first)?;
    put(writer, second)?;
    Ok(())
}
