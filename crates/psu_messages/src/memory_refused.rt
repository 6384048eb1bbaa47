//! What requests memory, and the sign that it was refused.
ghost use Rattle.std.specs.Prelude.{◌≡◌, OnOk, OnErr};
ghost use Rattle.psu_messages.specs.ResponseBuffer.{ended, appended};

use crate::ResponseBuffer;
use std::alloc::Allocator;

/// Memory was refused. Only the functions of this file, which request memory, can make one; so nothing else stops an
/// execution for that reason. No contract can say that an allocation failed.
#[derive(Drop)]
pub struct MemoryRefused(());

impl MemoryRefused {
    // The sign of an allocation that failed.
    fn new() -> MemoryRefused {
        MemoryRefused(())
    }
}

/// Appends a response to the response buffer.
#[inline(always)]
pub(crate) fn append_to<A: Allocator + Copy>(
    buffer: &mut ResponseBuffer<A>,
    answer: &[u8],
) -> Result<(), MemoryRefused>
    ensures ok { OnOk result (buffer.new ≡ appended buffer.old answer.now) }
    ensures same { OnErr result (buffer.new ≡ buffer.old) }
{
    match buffer.append(answer) {
        Ok(()) => Ok(()),
        Err(_) => Err(MemoryRefused::new()),
    }
}

/// Appends NL to the response buffer.
#[inline(always)]
pub(crate) fn end<A: Allocator + Copy>(buffer: &mut ResponseBuffer<A>) -> Result<(), MemoryRefused>
    ensures ended { OnOk result (buffer.new ≡ ended buffer.old) }
    ensures same { OnErr result (buffer.new ≡ buffer.old) }
{
    match buffer.end() {
        Ok(()) => Ok(()),
        Err(_) => Err(MemoryRefused::new()),
    }
}
