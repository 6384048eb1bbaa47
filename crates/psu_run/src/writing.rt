//! The output buffer, which is written when it has grown too long.
ghost use Rattle.std.specs.Prelude.{◌≡◌, ◌⊎◌, ◌≤◌, [], OnOk, IfErr, Some, length};
ghost use Rattle.psu_run.specs.Output.{HoldsLittle, Says, SaysUntil, held};
ghost use Rattle.psu_run.specs.Parts.{IsMemory};

use crate::memory::append;
use crate::output::put;
use crate::{RunCause, Sink};
use psu_messages::RESPONSE_ROOM;
use std::alloc::Allocator;

/// Appends a text to the output buffer. A buffer that has grown too long is written first.
#[inline(always)]
pub(crate) fn append_output<W: Sink, A: Allocator + Copy>(
    output: &mut Vec<u8, A>,
    text: &[u8],
    writer: &mut W,
) -> Result<(), RunCause>
    ensures says { OnOk result (Says (held (W.written writer.old) output.old.items) (held (W.written writer.new) output.new.items) text.now) }
    ensures until { IfErr result (λ cause. SaysUntil (Some cause) (held (W.written writer.old) output.old.items) (held (W.written writer.new) output.new.items) []) }
    ensures own { IfErr result (λ cause. IsMemory cause ⊎ (cause ≡ RunCause.Write)) }
    // Of what was sent before, at most 65,536 bytes are still in the buffer.
    ensures little { OnOk result (HoldsLittle (held (W.written writer.new) output.new.items) text.now) }
{
    write_on(output, writer)?;
    append(output, text)?;
    Ok(())
}

// Writes the buffer where it has grown too long, also before the end of a line.
fn write_on<W: Sink, A: Allocator + Copy>(
    output: &mut Vec<u8, A>,
    writer: &mut W,
) -> Result<(), RunCause>
    ensures says { OnOk result (Says (held (W.written writer.old) output.old.items) (held (W.written writer.new) output.new.items) []) }
    ensures until { IfErr result (λ cause. SaysUntil (Some cause) (held (W.written writer.old) output.old.items) (held (W.written writer.new) output.new.items) []) }
    ensures own { IfErr result (λ cause. cause ≡ RunCause.Write) }
    ensures little { OnOk result (length output.new.items ≤ 65536) }
{
    if output.len() <= RESPONSE_ROOM {
        return Ok(());
    }
    put(writer, output.as_slice())?;
    output.clear();
    Ok(())
}
