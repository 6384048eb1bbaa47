//! The common commands, except those of macros.
ghost use Rattle.std.specs.Prelude.{◌≡◌, ℕ, Bool, false, Option, Some, None, Ok, IfOk, OnErr, decimal, if◌then◌else◌};
ghost use Rattle.psu_lex.specs.ByteStorage.{NeedsAllocation};
ghost use Rattle.psu_nv.specs.Contents.{Contents as Kept};
ghost use Rattle.psu_outputs.specs.Outputs.{restored};
ghost use Rattle.psu_settings.specs.Settings.{reset};
ghost use Rattle.psu_status.specs.Status.{cleared};
ghost use Rattle.psu_instrument.specs.Common.{choice, digit, enabled, enables_queried, event_status, flag_queried, flagged, recalled, saved, user_data};
ghost use Rattle.psu_instrument.specs.Instrument.{with_supplies};
ghost use Rattle.psu_instrument.specs.Meaning.{ActsAs, situation};

use crate::{Act, Instrument};
use psu_lex::{Bytes, ScpiError, whole};
use psu_nv::{Contents, NvCommand, Register, UserData};
use psu_settings::Settings;
use psu_status::Enables;
use psu_tree::{Enable, Flag};
use std::alloc::{AllocError, Allocator};

/// The response to `*IDN?`: manufacturer, model, serial number, version.
pub(crate) const IDENTITY: &[u8] = b"EXAMPLE,PSU4,0,1.0";

// Returns a flag as response data.
pub(crate) fn flag_response<A: Allocator + Copy>(alloc: A, on: bool) -> Result<Bytes<A>, AllocError>
    ensures ok { IfOk result (λ text. text ≡ decimal (digit on)) }
    ensures many { OnErr result (NeedsAllocation (decimal (digit on))) }
{
    if on { whole(alloc, 1) } else { whole(alloc, 0) }
}

// Returns the choice of the power-on settings as response data.
fn choice<A: Allocator + Copy>(alloc: A, recall: bool) -> Result<Bytes<A>, AllocError>
    ensures ok { IfOk result (λ text. text ≡ choice recall) }
    ensures many { OnErr result (NeedsAllocation (choice recall)) }
{
    if recall {
        Bytes::of(alloc, b"RCL0")
    } else {
        Bytes::of(alloc, b"RST")
    }
}

impl Instrument {
    // `*CLS`.
    pub(crate) fn clear_status(&mut self)
        ensures { self.new ≡ record self.old { status = cleared self.old.status; pending = None } }
    {
        self.status.clear();
        self.pending = None;
    }

    // `*RST`.
    pub(crate) fn reset_all(&mut self)
        ensures { self.new ≡ record (with_supplies self.old (restored self.old.supplies reset)) { expands = false; pending = None } }
    {
        self.restore(Settings::reset());
        self.expands = false;
        self.pending = None;
    }

    // `*ESE`, `*SRE`.
    pub(crate) fn enable<'c, A: Allocator + Copy>(
        &mut self,
        contents: &Contents<A>,
        which: Enable,
        bits: u8,
    ) -> Act<'c, A>
        ensures { (limit : ℕ) (available : Bool) → ActsAs (enabled (situation limit contents.now self.old available) which bits) self.old (Ok result) self.new }
    {
        let kept = contents.enables().is_some();
        match which {
            Enable::EventStatus => {
                if kept {
                    Act::Keep(NvCommand::EventEnable(bits))
                } else {
                    self.status.set_ese(bits);
                    Act::Done
                }
            }
            Enable::ServiceRequest => {
                if kept {
                    Act::Keep(NvCommand::ServiceEnable(bits))
                } else {
                    self.status.set_sre(bits);
                    Act::Done
                }
            }
        }
    }

    // Returns the enables that `*PSC` makes nonvolatile: none where its flag (`cleared`) is true.
    fn enables_kept(&self, cleared: bool) -> Option<Enables>
        ensures { result ≡ (if cleared then None else Some (record { sre = self.now.status.sre; ese = self.now.status.ese })) }
    {
        if cleared {
            None
        } else {
            Some(Enables {
                sre: self.status.sre(),
                ese: self.status.ese(),
            })
        }
    }

    // `*PSC`, `*EMC`, `DIAGnostic:PUD:PROTect`, `OUTPut:PON:STATe`.
    pub(crate) fn flag<'c, A: Allocator + Copy>(&mut self, which: Flag, on: bool) -> Act<'c, A>
        ensures { (limit : ℕ) (contents : Kept) (available : Bool)
            → ActsAs (flagged (situation limit contents self.old available) which on) self.old
            (Ok result) self.new }
    {
        match which {
            Flag::PowerOnClear => Act::Keep(NvCommand::PowerOnClear(self.enables_kept(on))),
            Flag::Macros => {
                self.expands = on;
                Act::Done
            }
            Flag::UserDataProtection => {
                self.protected = on;
                Act::Done
            }
            Flag::Recall => Act::Keep(NvCommand::Recall(on)),
        }
    }

    // `*ESE?`, `*SRE?`.
    pub(crate) fn enable_query<'c, A: Allocator + Copy>(
        &self,
        alloc: A,
        which: Enable,
    ) -> Result<Act<'c, A>, ScpiError>
        ensures { (limit : ℕ) (contents : Kept) (available : Bool)
            → ActsAs (enables_queried (situation limit contents self.now available) which) self.now result
            self.now }
    {
        match which {
            Enable::EventStatus => Ok(Act::Answer(whole(alloc, self.status.ese() as u64)?)),
            Enable::ServiceRequest => Ok(Act::Answer(whole(alloc, self.status.sre() as u64)?)),
        }
    }

    // `*PSC?`, `*EMC?`, `DIAGnostic:PUD:PROTect?`, `OUTPut:PON:STATe?`.
    pub(crate) fn flag_query<'c, A: Allocator + Copy>(
        &self,
        alloc: A,
        contents: &Contents<A>,
        which: Flag,
    ) -> Result<Act<'c, A>, ScpiError>
        ensures { (limit : ℕ) (available : Bool) → ActsAs (flag_queried (situation limit contents.now self.now available) which) self.now result self.now }
    {
        match which {
            Flag::PowerOnClear => Ok(Act::Answer(flag_response(
                alloc,
                contents.enables().is_none(),
            )?)),
            Flag::Macros => Ok(Act::Answer(flag_response(alloc, self.expands)?)),
            Flag::UserDataProtection => Ok(Act::Answer(flag_response(alloc, self.protected)?)),
            Flag::Recall => Ok(Act::Answer(choice(alloc, contents.recall())?)),
        }
    }

    // `*ESR?`.
    pub(crate) fn event_status<'c, A: Allocator + Copy>(
        &mut self,
        alloc: A,
    ) -> Result<Act<'c, A>, ScpiError>
        ensures { (limit : ℕ) (contents : Kept) (available : Bool)
            → ActsAs (event_status (situation limit contents self.old available)) self.old result self.new }
    {
        let text = whole(alloc, self.status.event() as u64)?;
        let _ = self.status.read_event();
        Ok(Act::Answer(text))
    }

    // `*SAV`.
    pub(crate) fn save<'c, A: Allocator + Copy>(&self, number: u8) -> Result<Act<'c, A>, ScpiError>
        ensures { (limit : ℕ) (contents : Kept) (available : Bool)
            → ActsAs (saved (situation limit contents self.now available) number) self.now result self.now }
    {
        let Some(register) = Register::of(number) else {
            return Err(ScpiError::DataOutOfRange);
        };
        Ok(Act::Keep(NvCommand::Save(register, self.outputs.get())))
    }

    // `*RCL`.
    pub(crate) fn recall<'c, A: Allocator + Copy>(
        &mut self,
        contents: &Contents<A>,
        number: u8,
    ) -> Result<Act<'c, A>, ScpiError>
        ensures { (limit : ℕ) (available : Bool) → ActsAs (recalled (situation limit contents.now self.old available) number) self.old result self.new }
    {
        let Some(register) = Register::of(number) else {
            return Err(ScpiError::DataOutOfRange);
        };
        self.restore(contents.register(register));
        Ok(Act::Done)
    }

    // `*PUD`.
    pub(crate) fn user_data<'c, A: Allocator + Copy>(
        &self,
        bytes: &[u8],
    ) -> Result<Act<'c, A>, ScpiError>
        ensures { (limit : ℕ) (contents : Kept) (available : Bool)
            → ActsAs (user_data (situation limit contents self.now available) bytes.now) self.now result self.now }
    {
        let Some(user) = UserData::of(bytes) else {
            return Err(ScpiError::TooMuchData);
        };
        if self.protected {
            return Err(ScpiError::CommandProtected);
        }
        Ok(Act::Keep(NvCommand::User(user)))
    }
}
