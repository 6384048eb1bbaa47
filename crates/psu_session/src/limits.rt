//! How much a session holds, executes and waits. Contracts state these as numbers.

use psu_hislip::TRANSMISSION_MOST;

/// How much may be held before a reader waits, in bytes.
pub(crate) const HELD_BEFORE_WAIT: usize = 1_048_576;

/// The most that is ever held, in bytes. What the next 65,536 received bytes complete fits in beside the amount above: at
/// most 4,096 items, with the text of one transmission that was received before.
pub(crate) const HELD_MOST: usize = 4_194_304;

/// What an item counts as beside its bytes.
pub(crate) const ITEM_COST: usize = 128;

/// The number of bytes of output at which others are let in, and beyond which a reader waits.
pub(crate) const OUTPUT_ROOM: usize = 65_536;

/// The size of a message without payload, in bytes.
pub(crate) const REPLY_SIZE: usize = 16;

/// How much room for such messages is allocated at once, in bytes.
pub(crate) const REPLIES_ROOM: usize = 64;

/// How far ahead of the last message that was received one may be.
pub(crate) const AHEAD_MOST: u32 = 65_536;

/// The number of units that a call tries before others are let in.
pub(crate) const UNITS_AT_ONCE: u32 = 64;

/// How many units of what a session was sent before its end are tried after that, in all: as many as a transmission has
/// bytes, so one without macros is executed.
pub(crate) const UNITS_AFTER_END: u32 = TRANSMISSION_MOST as u32;

/// The time that a release waits for a message, in milliseconds.
pub(crate) const RELEASE_PATIENCE: u64 = 100;
