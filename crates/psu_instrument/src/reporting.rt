//! Errors and the groups of status registers.
ghost use Rattle.std.specs.Prelude.{◌≡◌, ℕ, Bool, IfOk, OnErr};
ghost use Rattle.psu_lex.specs.ByteStorage.{NeedsAllocation};
ghost use Rattle.psu_nv.specs.Contents.{Contents as Kept};
ghost use Rattle.psu_status.specs.Registers.{fifteen_bits, with_filter};
ghost use Rattle.psu_status.specs.Status.{all_preset, with_group};
ghost use Rattle.psu_status.specs.Status as status;
ghost use Rattle.psu_instrument.specs.Instrument.{with_status};
ghost use Rattle.psu_instrument.specs.Meaning.{ActsAs, situation};
ghost use Rattle.psu_instrument.specs.Reporting.{error_text, events, next_error};

use crate::{Act, Instrument};
use psu_lex::{Bytes, ScpiError, whole};
use psu_status::{Filter, Group};
use std::alloc::{AllocError, Allocator};

// Returns an error as response data.
fn error_text<A: Allocator + Copy>(
    alloc: A,
    error: Option<ScpiError>,
) -> Result<Bytes<A>, AllocError>
    ensures ok { IfOk result (λ text. text ≡ error_text error) }
    ensures many { OnErr result (NeedsAllocation (error_text error)) }
{
    let Some(error) = error else {
        return Bytes::of(alloc, b"0,\"No error\"");
    };
    let mut text = Bytes::of(alloc, b"-")?;
    text.put_number(error.magnitude() as u128)?;
    text.put(b",\"")?;
    text.put(error.text().as_bytes())?;
    text.put(b"\"")?;
    Ok(text)
}

impl Instrument {
    // `SYSTem:ERRor?`.
    pub(crate) fn next_error<'c, A: Allocator + Copy>(
        &mut self,
        alloc: A,
    ) -> Result<Act<'c, A>, ScpiError>
        ensures { (limit : ℕ) (contents : Kept) (available : Bool)
            → ActsAs (next_error (situation limit contents self.old available)) self.old result self.new }
    {
        let text = error_text(alloc, self.status.oldest())?;
        let _ = self.status.pop_error();
        Ok(Act::Answer(text))
    }

    // `[:EVENt]?`.
    pub(crate) fn events<'c, A: Allocator + Copy>(
        &mut self,
        alloc: A,
        group: Group,
    ) -> Result<Act<'c, A>, ScpiError>
        ensures { (limit : ℕ) (contents : Kept) (available : Bool)
            → ActsAs (events (situation limit contents self.old available) group) self.old result self.new }
    {
        let text = whole(alloc, self.status.group_event(group) as u64)?;
        let _ = self.status.take_group_events(group);
        Ok(Act::Answer(text))
    }

    // `:ENABle`, `:PTRansition`, `:NTRansition`.
    pub(crate) fn filter(&mut self, group: Group, filter: Filter, bits: u16)
        ensures { self.new ≡ with_status self.old (with_group self.old.status group
            (with_filter (status.group_of self.old.status group) filter (fifteen_bits bits))) }
    {
        self.status.set_group_filter(group, filter, bits);
    }

    // `STATus:PRESet`.
    pub(crate) fn preset(&mut self)
        ensures { self.new ≡ with_status self.old (all_preset self.old.status) }
    {
        self.status.preset();
    }
}
