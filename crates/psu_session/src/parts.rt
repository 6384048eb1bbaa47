//! The parts of a session.
ghost use Rattle.std.specs.Prelude.{◌≡◌, []};
ghost use Rattle.psu_hislip.specs.Channel.{Awaited, Fed};
ghost use Rattle.psu_session.specs.Shown.{state_of};
ghost use Rattle.psu_session.specs.State.{fresh};

use crate::numbers::BEFORE_FIRST;
use crate::{Credit, Release, Running, Work};
use psu_hislip::{Channel, Message, SessionCore};
use psu_messages::ResponseBuffer;
use std::alloc::Global;
use std::collections::VecDeque;

/// The parts of a session.
#[derive(Drop)]
pub(crate) struct Parts {
    pub alloc: Global,
    /// The frame readers of the two channels.
    pub sync_channel: Channel<Global>,
    pub async_channel: Channel<Global>,
    /// The core of the protocol.
    pub core: SessionCore<Global>,
    /// The queue: what was received and has not begun, in the order of arrival.
    pub waiting: VecDeque<Work>,
    /// The releases that wait for a message, in the order of their requests.
    pub releases: VecDeque<Release>,
    /// The number of the message that was received last.
    pub last: u32,
    /// The transmission in execution.
    pub running: Option<Running>,
    /// Whether a lock request waits for its result.
    pub lock_waits: bool,
    /// The bytes that are to be sent on the synchronous connection.
    pub sync_output: Vec<u8>,
    /// The bytes that are to be sent on the asynchronous connection.
    pub async_output: Vec<u8>,
    /// Whether a thread writes bytes on the synchronous connection that were taken before.
    pub sync_writes: bool,
    /// Whether a thread writes bytes on the asynchronous connection that were taken before.
    pub async_writes: bool,
    /// How much the transmissions that are queued or in execution count as.
    pub held: Credit,
    /// How much the releases that are queued or wait count as.
    pub owed: Credit,
    // Kept from one call to the next for their allocations:
    /// The messages of a call that receives bytes; none between calls.
    pub messages: VecDeque<Message<Global>>,
    /// The response buffer for the next transmission, which was that of the one before.
    pub buffer: ResponseBuffer<Global>,
}

impl Parts {
    /// Returns a session of this number, which has only its synchronous connection.
    pub fn new(alloc: Global, session: u16, channel: Channel<Global>) -> Parts
        ensures { (async : Awaited) × Fed async [] [] × (state_of result ≡ fresh (record { session = session; sync = channel; async = async })) }
    {
        Parts {
            alloc,
            sync_channel: channel,
            async_channel: Channel::new(alloc),
            core: SessionCore::new(alloc, session),
            waiting: VecDeque::new(alloc),
            releases: VecDeque::new(alloc),
            last: BEFORE_FIRST,
            running: None,
            lock_waits: false,
            sync_output: Vec::new(alloc),
            async_output: Vec::new(alloc),
            sync_writes: false,
            async_writes: false,
            held: Credit::new(),
            owed: Credit::new(),
            messages: VecDeque::new(alloc),
            buffer: ResponseBuffer::new(alloc),
        }
    }
}
