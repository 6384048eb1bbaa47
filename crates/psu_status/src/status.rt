//! The status of the instrument.
ghost use Rattle.std.specs.Prelude.{◌≡◌, ◌≤◌, length, drop};
ghost use Rattle.psu_status.specs.Registers.{filter_of, with_filter, with_condition, without_events, fifteen_bits};
ghost use Rattle.psu_status.specs.Status.{without_mss, raised, group_of, with_group, all_preset, status_byte, with_error, oldest, cleared, power_on, first_request, prescribed, summaries, enabled, polled, IsReported};

use crate::registers::Registers;
use crate::{Enables, Filter, Group};
use arrayvec::ArrayVec;
use psu_lex::ScpiError;
use std::marker::Model;

/// The maximum number of errors in the queue.
const ERRORS_MOST: usize = 16;

/// Bit 7 of the event status register: power on.
const PON: u8 = 128;

/// The bits of SRE that count: all but bit 6.
const ENABLE_BITS: u8 = 191;

/// Bit 2 of the status byte: an error is queued.
const ERROR_QUEUE: u8 = 4;

/// Bit 3 of the status byte: the summary of QUEStionable.
const QUESTIONABLE: u8 = 8;

/// Bit 4 of the status byte: a message is available.
const MAV: u8 = 16;

/// Bit 5 of the status byte: an event of the event status register is enabled.
const ESB: u8 = 32;

/// Bit 6 of the status byte: a bit of it is enabled by SRE.
const MSS: u8 = 64;

/// Bit 7 of the status byte: the summary of OPERation.
const OPERATION: u8 = 128;

/// The status of the instrument. No call allocates.
#[derive(Drop)]
pub struct Status {
    esr: u8,
    sre: u8,
    ese: u8,
    operation: Registers,
    questionable: Registers,
    errors: ArrayVec<ScpiError, ERRORS_MOST>,
}

impl Model for Status {
    ghost use Rattle.psu_status.specs.Status.{Reported};

    ghost Value = { Reported };

    ghost use Rattle.psu_status.specs.Status.{IsReported};

    ghost view = { λ s. record { esr = s.esr; sre = s.sre; ese = s.ese; operation = s.operation; questionable = s.questionable; errors = s.errors.items } };

    ghost invariant = { λ s. IsReported (record {
      esr = s.esr;
      sre = s.sre;
      ese = s.ese;
      operation = s.operation;
      questionable = s.questionable;
      errors = s.errors.items;
    }) };
}

impl Status {
    /// The status at power-on: PON alone in the event status register, SRE and ESE as kept or 0 where none are kept
    /// (the power-on status clear flag is true), the groups as after PRESet with no event, no error. The QUEStionable
    /// condition is this one, without bit 15.
    pub fn power_on(enables: Option<Enables>, condition: u16) -> Status
        ensures status { result ≡ power_on enables condition }

        // The first service request is the one that IEEE 488.2 prescribes for the flag, whatever the condition.
        ensures request { first_request result ≡ prescribed enables }
    {
        let kept = enables.unwrap_or(Enables { sre: 0, ese: 0 });
        Status {
            esr: PON,
            sre: kept.sre & ENABLE_BITS,
            ese: kept.ese,
            operation: Registers::new(),
            questionable: Registers::standing(condition),
            errors: ArrayVec::new(),
        }
    }

    /// Sets bits of the event status register.
    pub fn raise(&mut self, bits: u8)
        ensures { self.new ≡ raised self.old bits }
    {
        self.esr |= bits;
    }

    /// Returns the event status register, and clears it (`*ESR?`).
    pub fn read_event(&mut self) -> u8
        ensures events { result ≡ self.old.esr }
        ensures cleared { self.new ≡ record self.old { esr = 0 } }
    {
        let events = self.esr;
        self.esr = 0;
        events
    }

    /// Returns the event status register, without clearing it.
    pub fn event(&self) -> u8
        ensures { result ≡ self.now.esr }
    {
        self.esr
    }

    /// The service request enable register; bit 6 reads 0 (`*SRE?`).
    pub fn sre(&self) -> u8
        ensures { result ≡ self.now.sre }
    {
        self.sre
    }

    /// The event status enable register (`*ESE?`).
    pub fn ese(&self) -> u8
        ensures { result ≡ self.now.ese }
    {
        self.ese
    }

    /// Sets the service request enable register, without bit 6 (`*SRE`).
    pub fn set_sre(&mut self, bits: u8)
        ensures { self.new ≡ record self.old { sre = without_mss bits } }
    {
        self.sre = bits & ENABLE_BITS;
    }

    /// Sets the event status enable register (`*ESE`).
    pub fn set_ese(&mut self, bits: u8)
        ensures { self.new ≡ record self.old { ese = bits } }
    {
        self.ese = bits;
    }

    /// Sets the QUEStionable condition, without bit 15, and the events of its rising and falling bits that pass the
    /// filters.
    pub fn condition(&mut self, bits: u16)
        ensures { self.new ≡ record self.old { questionable = with_condition self.old.questionable (fifteen_bits bits) } }
    {
        self.questionable.set_condition(bits);
    }

    /// The condition register of a group.
    pub fn group_condition(&self, group: Group) -> u16
        ensures { result ≡ (group_of self.now group).condition }
    {
        match group {
            Group::Operation => self.operation.condition,
            Group::Questionable => self.questionable.condition,
        }
    }

    /// Returns the event register of a group, without clearing it.
    pub fn group_event(&self, group: Group) -> u16
        ensures { result ≡ (group_of self.now group).event }
    {
        match group {
            Group::Operation => self.operation.event,
            Group::Questionable => self.questionable.event,
        }
    }

    /// Returns the event register of a group, and clears it.
    pub fn take_group_events(&mut self, group: Group) -> u16
        ensures events { result ≡ (group_of self.old group).event }
        ensures cleared { self.new ≡ with_group self.old group (without_events (group_of self.old group)) }
    {
        match group {
            Group::Operation => self.operation.take_events(),
            Group::Questionable => self.questionable.take_events(),
        }
    }

    /// A filter of a group.
    pub fn group_filter(&self, group: Group, filter: Filter) -> u16
        ensures { result ≡ filter_of (group_of self.now group) filter }
    {
        match group {
            Group::Operation => self.operation.filter(filter),
            Group::Questionable => self.questionable.filter(filter),
        }
    }

    /// Sets a filter of a group, without bit 15. It makes no event.
    pub fn set_group_filter(&mut self, group: Group, filter: Filter, bits: u16)
        ensures { self.new ≡ with_group self.old group (with_filter (group_of self.old group) filter (fifteen_bits bits)) }
    {
        match group {
            Group::Operation => self.operation.set_filter(filter, bits),
            Group::Questionable => self.questionable.set_filter(filter, bits),
        }
    }

    /// Sets the filters of both groups as `STATus:PRESet` does, so that no event is enabled. Conditions and events
    /// stay.
    pub fn preset(&mut self)
        ensures { self.new ≡ all_preset self.old }
    {
        self.operation.preset();
        self.questionable.preset();
    }

    // The bits of the status byte without bit 6.
    fn summaries(&self, mav: bool) -> u8
        ensures value { result ≡ summaries self.now mav }
        ensures most { result ≤ 188 }
    {
        let queued = if self.errors.is_empty() {
            0
        } else {
            ERROR_QUEUE
        };
        let questionable = if self.questionable.summary() {
            QUESTIONABLE
        } else {
            0
        };
        let available = if mav { MAV } else { 0 };
        let event = if self.esr & self.ese == 0 { 0 } else { ESB };
        let operation = if self.operation.summary() {
            OPERATION
        } else {
            0
        };
        queued + (questionable + (available + (event + operation)))
    }

    /// The bits of the status byte, without bit 6, that SRE enables: service is requested when one of them goes from 0
    /// to 1.
    pub fn enabled(&self, mav: bool) -> u8
        ensures value { result ≡ enabled self.now mav }
        ensures always { IsReported self.now }
    {
        if self.sre == 0 {
            return 0;
        }
        self.summaries(mav) & self.sre
    }

    /// The status byte, with MSS in bit 6 (`*STB?`). The message available bit is the session's own.
    pub fn status_byte(&self, mav: bool) -> u8
        ensures value { result ≡ status_byte self.now mav }
        ensures always { IsReported self.now }
    {
        if self.enabled(mav) == 0 {
            self.summaries(mav)
        } else {
            self.summaries(mav) + MSS
        }
    }

    /// The status byte as a status query returns it, with a session's own request for service in bit 6 (RQS).
    pub fn polled(&self, mav: bool, rqs: bool) -> u8
        ensures { result ≡ polled self.now mav rqs }
    {
        if rqs {
            self.summaries(mav) + MSS
        } else {
            self.summaries(mav)
        }
    }

    /// Queues an error and sets its bit. If the queue is full, its newest entry becomes Queue overflow, whose bit is
    /// set beside the error's own.
    pub fn push_error(&mut self, error: ScpiError)
        ensures { self.new ≡ with_error self.old error }
    {
        if self.errors.is_full() {
            self.esr |= error.event_bit() | ScpiError::QueueOverflow.event_bit();
            self.errors.truncate(ERRORS_MOST - 1);
            self.errors.push(ScpiError::QueueOverflow);
            return;
        }
        self.esr |= error.event_bit();
        self.errors.push(error);
    }

    /// Returns the oldest error, which stays in the queue; `None` if the queue is empty.
    pub fn oldest(&self) -> Option<ScpiError>
        ensures { result ≡ oldest self.now.errors }
    {
        match self.errors.as_slice() {
            [] => None,
            [oldest, ..] => Some(*oldest),
        }
    }

    /// Removes the oldest error from the queue and returns it; `None` if the queue is empty.
    pub fn pop_error(&mut self) -> Option<ScpiError>
        ensures oldest { result ≡ oldest self.old.errors }
        ensures left { self.new ≡ record self.old { errors = drop 1 self.old.errors } }
    {
        if self.errors.is_empty() {
            return None;
        }
        Some(self.errors.remove(0))
    }

    /// How many errors are queued, 16 at most.
    pub fn count(&self) -> usize
        ensures value { result ≡ length self.now.errors }
        ensures most { result ≤ 16 }
    {
        self.errors.as_slice().len()
    }

    /// Clears the event registers and the queue (`*CLS`). Conditions, filters and enables stay.
    pub fn clear(&mut self)
        ensures { self.new ≡ cleared self.old }
    {
        self.esr = 0;
        self.operation.event = 0;
        self.questionable.event = 0;
        self.errors.clear();
    }

    /// The service request of the present status with no message available: the status byte if MSS is 1.
    pub fn first_request(&self) -> Option<u8>
        ensures { result ≡ first_request self.now }
    {
        if self.enabled(false) == 0 {
            None
        } else {
            Some(self.status_byte(false))
        }
    }
}
