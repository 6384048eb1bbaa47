//! The instrument.
ghost use Rattle.std.specs.Prelude.{◌≡◌};
ghost use Rattle.psu_status.specs.Status.{enabled, first_request, polled, status_byte};
ghost use Rattle.psu_nv.specs.Views.{command_of};
ghost use Rattle.psu_instrument.specs.Instrument.{outputs_at_power_on, power_on, with_kept, with_error, with_completion, with_pending, with_flushed};

use psu_lex::ScpiError;
use psu_nv::{Contents, NvCommand, Register};
use psu_outputs::Outputs;
use psu_status::Status;
use std::alloc::Allocator;
use std::marker::Model;

/// Bit 0 of the event status register: operation complete.
const OPC: u8 = 1;

/// The instrument: its status, its outputs, whether macro calls are expanded, whether user data is protected, and a
/// pending `*OPC`. Contracts see the `Instrument` of `specs/`. A call allocates only for a response.
#[derive(Drop)]
pub struct Instrument {
    pub(crate) status: Status,
    pub(crate) outputs: Outputs,
    pub(crate) expands: bool,
    pub(crate) protected: bool,
    pub(crate) pending: Option<usize>,
}

impl Model for Instrument {
    ghost use Rattle.psu_instrument.specs.Instrument.{Instrument};

    ghost Value = { Instrument };

    ghost view = { λ i. record { status = i.status; supplies = i.outputs; expands = i.expands; protected = i.protected; pending = i.pending } };
}

// Returns the outputs at power-on: those after `*RST` with loads of 10 ohms, or these with the settings of register 0
// applied.
fn outputs_at_power_on<A: Allocator + Copy>(contents: &Contents<A>) -> Outputs
    ensures { result ≡ outputs_at_power_on contents.now }
{
    let mut outputs = Outputs::new();
    if contents.recall() {
        outputs.restore(contents.register(Register::first()));
    }
    outputs
}

impl Instrument {
    /// Returns the instrument at power-on, from the nonvolatile contents: the enables, and the settings of register 0
    /// where these are the power-on settings. An output may trip at once, which sets no event bit.
    pub fn power_on<A: Allocator + Copy>(contents: &Contents<A>) -> Instrument
        ensures { result ≡ power_on contents.now }
    {
        let outputs = outputs_at_power_on(contents);
        Instrument {
            status: Status::power_on(contents.enables(), outputs.conditions()),
            outputs,
            expands: false,
            protected: true,
            pending: None,
        }
    }

    /// Applies what concerns the instrument itself of a nonvolatile command: the enable registers.
    pub fn keep(&mut self, command: &NvCommand<'_>)
        ensures { self.new ≡ with_kept self.old (command_of command.now) }
    {
        match command {
            NvCommand::ServiceEnable(bits) => self.status.set_sre(*bits),
            NvCommand::EventEnable(bits) => self.status.set_ese(*bits),
            NvCommand::PowerOnClear(_)
            | NvCommand::Save(_, _)
            | NvCommand::User(_)
            | NvCommand::DefineMacro(_, _)
            | NvCommand::RemoveMacro(_)
            | NvCommand::PurgeMacros
            | NvCommand::StoreBytes(_, _)
            | NvCommand::Delete(_)
            | NvCommand::Copy(_, _)
            | NvCommand::Move(_, _)
            | NvCommand::StoreState(_, _)
            | NvCommand::LoadState(_, _)
            | NvCommand::StoreMacro(_, _)
            | NvCommand::LoadMacro(_, _)
            | NvCommand::Recall(_) => {}
        }
    }

    /// Queues an error and sets its bit of the event status register.
    pub fn refuse(&mut self, error: ScpiError)
        ensures { self.new ≡ with_error self.old error }
    {
        self.status.push_error(error);
    }

    // Sets bit 0 of the event status register (operation complete); no `*OPC` is pending afterwards.
    fn complete(&mut self)
        ensures { self.new ≡ with_completion self.old }
    {
        self.status.raise(OPC);
        self.pending = None;
    }

    /// Executes `*OPC` while `unflushed` accepted changes are not flushed. With none it sets the operation complete bit
    /// at once; otherwise it waits for them, in place of an earlier `*OPC`.
    pub fn pend(&mut self, unflushed: usize)
        ensures { self.new ≡ with_pending self.old unflushed }
    {
        if unflushed == 0 {
            self.complete();
        } else {
            self.pending = Some(unflushed);
        }
    }

    /// Records that the `flushed` oldest of the unflushed changes are now flushed: a pending `*OPC` that waited for no
    /// others sets its bit.
    pub fn flush(&mut self, flushed: usize)
        ensures { self.new ≡ with_flushed self.old flushed }
    {
        let Some(unflushed) = self.pending else {
            return;
        };
        if unflushed <= flushed {
            self.complete();
        } else {
            self.pending = Some(unflushed - flushed);
        }
    }

    /// Returns the service request of the present status, with no message available: the status byte, where MSS is 1.
    pub fn first_request(&self) -> Option<u8>
        ensures { result ≡ first_request self.now.status }
    {
        self.status.first_request()
    }

    /// Returns the status byte, with MSS in bit 6. The message available bit is the session's own.
    pub fn status_byte(&self, available: bool) -> u8
        ensures { result ≡ status_byte self.now.status available }
    {
        self.status.status_byte(available)
    }

    /// Returns the status byte as a status query (serial poll) reports it, with the session's own service request (RQS)
    /// in bit 6.
    pub fn polled(&self, available: bool, requests: bool) -> u8
        ensures { result ≡ polled self.now.status available requests }
    {
        self.status.polled(available, requests)
    }

    /// Returns the enabled bits of the status byte, without bit 6: a service request is made when one of them changes
    /// from 0 to 1.
    pub fn enabled(&self, available: bool) -> u8
        ensures { result ≡ enabled self.now.status available }
    {
        self.status.enabled(available)
    }

    /// Whether macro calls are expanded (`*EMC`).
    pub fn expands(&self) -> bool
        ensures { result ≡ self.now.expands }
    {
        self.expands
    }
}
