//! The registers of one group.
ghost use Rattle.std.specs.Prelude.{◌≡◌};
ghost use Rattle.psu_status.specs.Registers.{preset, filter_of, with_filter, with_condition, without_events, summary, fifteen_bits, HaveFifteenBits};
ghost use Rattle.psu_status.specs.Status.{standing};

use crate::Filter;

/// The 15 bits of a register of a group.
const FIFTEEN_BITS: u16 = 32767;

/// The registers of a group, each of 15 bits: bit 15 is always 0.
#[derive(Clone, Copy, Debug, PartialEq, Eq)]
pub(crate) struct Registers {
    pub condition: u16,
    pub event: u16,
    pub enable: u16,
    pub positive: u16,
    pub negative: u16,
}

impl Registers {
    /// Registers with no condition and no event, and the filters of PRESet.
    pub(crate) fn new() -> Registers
        ensures registers { result ≡ preset (record { condition = 0; event = 0; enable = 0; positive = 0; negative = 0 }) }
        ensures fifteen { HaveFifteenBits result }
    {
        Registers {
            condition: 0,
            event: 0,
            enable: 0,
            positive: FIFTEEN_BITS,
            negative: 0,
        }
    }

    /// Registers with no event, the filters of PRESet, and this condition from the start, without bit 15.
    pub(crate) fn standing(condition: u16) -> Registers
        ensures registers { result ≡ standing (fifteen_bits condition) }
        ensures fifteen { HaveFifteenBits result }
    {
        let mut registers = Registers::new();
        registers.condition = condition & FIFTEEN_BITS;
        registers
    }

    /// Sets the filters of PRESet: each rise is an event, no fall is one, and no event is enabled. Condition and events
    /// stay.
    pub(crate) fn preset(&mut self)
        ensures registers { self.new ≡ preset self.old }
        ensures fifteen { HaveFifteenBits self.old → HaveFifteenBits self.new }
    {
        self.enable = 0;
        self.positive = FIFTEEN_BITS;
        self.negative = 0;
    }

    pub(crate) fn filter(&self, filter: Filter) -> u16
        ensures { result ≡ filter_of self.now filter }
    {
        match filter {
            Filter::Enable => self.enable,
            Filter::Positive => self.positive,
            Filter::Negative => self.negative,
        }
    }

    /// Sets a filter, without bit 15. It makes no event.
    pub(crate) fn set_filter(&mut self, filter: Filter, bits: u16)
        ensures registers { self.new ≡ with_filter self.old filter (fifteen_bits bits) }
        ensures fifteen { HaveFifteenBits self.old → HaveFifteenBits self.new }
    {
        let bits = bits & FIFTEEN_BITS;
        match filter {
            Filter::Enable => self.enable = bits,
            Filter::Positive => self.positive = bits,
            Filter::Negative => self.negative = bits,
        }
    }

    /// Sets the condition, without bit 15, and the events of its rising and falling bits that pass the filters.
    pub(crate) fn set_condition(&mut self, bits: u16)
        ensures registers { self.new ≡ with_condition self.old (fifteen_bits bits) }
        ensures fifteen { HaveFifteenBits self.old → HaveFifteenBits self.new }
    {
        let bits = bits & FIFTEEN_BITS;
        let changed = self.condition ^ bits;
        let rising = changed & bits;
        let falling = changed & self.condition;
        self.event = self.event | (rising & self.positive) | (falling & self.negative);
        self.condition = bits;
    }

    /// Returns the events, and clears them.
    pub(crate) fn take_events(&mut self) -> u16
        ensures events { result ≡ self.old.event }
        ensures cleared { self.new ≡ without_events self.old }
        ensures fifteen { HaveFifteenBits self.old → HaveFifteenBits self.new }
    {
        let events = self.event;
        self.event = 0;
        events
    }

    /// Whether an event is enabled.
    pub(crate) fn summary(&self) -> bool
        ensures { result ≡ summary self.now }
    {
        self.event & self.enable != 0
    }
}
