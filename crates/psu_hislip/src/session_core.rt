//! The session core: the protocol state of one session.
ghost use Rattle.std.specs.Prelude.{◌≡◌, ◌+◌, ◌&&◌, not, ◌++◌, ◌∷◌, [], length, ◌↔◌, IsTrue, true, IfOk, IfSome, IsSome, OnOk, OnErr, None, Some};
ghost use Rattle.psu_hislip.specs.Stream.{received};
ghost use Rattle.psu_hislip.specs.Action.{act, acts};
ghost use Rattle.psu_hislip.specs.PartialTransmission.{HasBytes};
ghost use Rattle.psu_hislip.specs.Core.{is_sync, joins, initializes, misplaced, fatal, ill_formed, is_delivered, delivered, is_begun, completes, completed, cleared, origin, IsCurrent, locked, sized, joining, triggered, row, is_part, NeedsMemory, outcome_of};
ghost use Rattle.psu_hislip.specs.Frame.{header_of};
ghost use Rattle.psu_hislip.specs.Runs.{started};
ghost use Rattle.psu_hislip.specs.Answer.{answer_size, IsAnswer, IsPart};
ghost use Rattle.psu_hislip.specs.declared.message_type.MessageType.TheVariants.{InitializeResponse, Data, DataEnd, AsyncMaximumMessageSize};

use crate::answer::{answer_frames, answer_size, part_frames};
use crate::faults::error;
use crate::frames::{one, reply, send_with, two};
use crate::limits::MESSAGE_SIZE;
use crate::partial_transmission::PartialTransmission;
use crate::{
    Action, Actions, DeviceClear, FatalCode, Header, LockResponse, Message, MessageType, Origin,
    Side,
};
use arrayvec::ArrayVec;
use psu_locks::LOCK_STRING_MOST;
use std::alloc::{AllocError, Allocator};
use std::marker::Model;

/// Version 1.0 of the protocol, in the upper half of InitializeResponse's parameter.
const PROTOCOL_VERSION: u32 = 0x0100_0000;

/// The state of a session between two messages: whether it is joined or has failed, the client's maximum message size,
/// the transmission received so far, the device clear and the number of device clears. Contracts see just that.
#[derive(Drop)]
pub struct SessionCore<A: Allocator + Copy> {
    alloc: A,
    session: u16,
    joined: bool,
    failed: bool,
    size: Option<u64>,
    transmission: PartialTransmission<A>,
    clear: DeviceClear,
    clears: u64,
}

impl<A: Allocator + Copy> Model for SessionCore<A> {
    ghost use Rattle.psu_hislip.specs.Core.{Core};

    ghost Value = { Core };

    ghost view = { λ c. record {
      session = c.session;
      joined = c.joined;
      failed = c.failed;
      size = c.size;
      transmission = c.transmission;
      clear = c.clear;
      clears = c.clears;
    } };
}

fn initializes(header: Header) -> bool
    ensures { result ≡ initializes header }
{
    header.kind == MessageType::Initialize.code()
        || header.kind == MessageType::AsyncInitialize.code()
}

// Whether bit 0 of the control code (RMT-delivered) is set.
fn is_delivered(header: Header) -> bool
    ensures { result ≡ is_delivered header }
{
    header.control % 2 == 1
}

// The action Delivered, where bit 0 of the control code is set.
fn delivered<A: Allocator + Copy>(header: Header) -> Actions<A>
    ensures { acts result.items ≡ delivered header }
{
    if is_delivered(header) {
        return one(Action::Delivered);
    }
    ArrayVec::new()
}

// The action Delivered, where bit 0 of the control code is set, and then another action.
fn delivered_and<A: Allocator + Copy>(header: Header, last: Action<A>) -> Actions<A>
    ensures { acts result.items ≡ delivered header ++ act last ∷ [] }
{
    if is_delivered(header) {
        return two(Action::Delivered, last);
    }
    one(last)
}

// The action that an AsyncLock asks for.
fn locked<A: Allocator + Copy>(header: Header, string: Vec<u8, A>) -> Action<A>
    ensures { act result ≡ locked header string.items }
{
    if header.control == 0 {
        return Action::Release;
    }
    if string.len() > LOCK_STRING_MOST {
        let kind = MessageType::AsyncLockResponse;
        return reply(Side::Async, kind, LockResponse::Error.code());
    }
    Action::Lock(header.parameter, string)
}

impl<A: Allocator + Copy> SessionCore<A> {
    /// Returns the core of a session of this number, of which only the synchronous channel is established.
    pub fn new(alloc: A, session: u16) -> SessionCore<A>
        ensures { result ≡ started session }
    {
        SessionCore {
            alloc,
            session,
            joined: false,
            failed: false,
            size: None,
            transmission: PartialTransmission::new(alloc),
            clear: DeviceClear::Idle,
            clears: 0,
        }
    }

    /// Returns the response to Initialize: version 1.0 and the session number.
    pub fn response(&self) -> Header
        ensures { result ≡ header_of InitializeResponse 0 (16777216 + self.now.session) 0 }
    {
        let parameter = PROTOCOL_VERSION + self.session as u32;
        Header::new(MessageType::InitializeResponse, 0, parameter, 0)
    }

    /// Whether the asynchronous channel is established. An AsyncInitialize on a new connection belongs to this session
    /// only while the channel is not established and the session has not failed.
    pub fn is_joined(&self) -> bool
        ensures { result ≡ self.now.joined }
    {
        self.joined
    }

    /// Whether the session has ended with a FatalError.
    pub fn is_failed(&self) -> bool
        ensures { result ≡ self.now.failed }
    {
        self.failed
    }

    /// Whether neither a device clear nor a FatalError has occurred since a message of this origin. Nothing more is
    /// done for a message that is not current.
    pub fn is_current(&self, origin: Origin) -> bool
        ensures { IsTrue result ↔ IsCurrent self.now origin }
    {
        !self.failed && origin.clears == self.clears
    }

    // Whether this is the AsyncInitialize that joins the session's second connection.
    fn joins(&self, side: Side, header: Header) -> bool
        ensures { result ≡ joins self.now side header }
    {
        match side {
            Side::Sync => false,
            Side::Async => {
                !self.joined
                    && header.kind == MessageType::AsyncInitialize.code()
                    && header.parameter == self.session as u32
            }
        }
    }

    // The fatal error that a message causes by its place in the order of messages, if there is one.
    fn misplaced(&self, side: Side, header: Header, joins: bool) -> Option<FatalCode>
        ensures { result ≡ misplaced self.now side header joins }
    {
        if matches!(side, Side::Sync) && !self.joined {
            return Some(FatalCode::ChannelsNotJoined);
        }
        if !joins && (initializes(header) || !self.joined) {
            return Some(FatalCode::InvalidInitialization);
        }
        None
    }

    // The fatal error that a message causes, if there is one.
    fn fatal(&self, side: Side, message: &Message<A>) -> Option<FatalCode>
        ensures { result ≡ fatal self.now side (received message.now) }
    {
        match message {
            Message::BadHeader => Some(FatalCode::PoorlyFormedHeader),
            Message::Oversize(header) => self.misplaced(side, *header, false),
            Message::Frame(header, _) => {
                self.misplaced(side, *header, self.joins(side, *header))
            }
        }
    }

    // Whether a message is discarded: during a device clear every message on the synchronous channel is, except the one
    // that completes it.
    fn discards(&self, side: Side, message: &Message<A>) -> bool
        ensures { result ≡ (is_sync side && is_begun self.now.clear && not (completes (received message.now))) }
    {
        side == Side::Sync
            && self.clear == DeviceClear::InProgress
            && !matches!(message, Message::Frame(header, _) if header.kind == MessageType::DeviceClearComplete.code())
    }

    fn origin(&self, header: Header) -> Origin
        ensures { result ≡ origin self.now header }
    {
        Origin {
            id: header.parameter,
            clears: self.clears,
        }
    }

    fn data(&mut self, header: Header, payload: Vec<u8, A>) -> Result<Actions<A>, AllocError>
        ensures done { IfOk result (λ actions. acts actions.items ≡ (row self.old Data header payload.items).actions) }
        ensures core { OnOk result (self.new ≡ (row self.old Data header payload.items).core) }
        ensures refused { OnErr result (self.new ≡ self.old) }
        ensures memory { OnErr result (HasBytes self.old.transmission) }
    {
        self.transmission.add(payload)?;
        self.clear = DeviceClear::Idle;
        Ok(delivered(header))
    }

    fn data_end(&mut self, header: Header, payload: Vec<u8, A>) -> Result<Actions<A>, AllocError>
        ensures done { IfOk result (λ actions. acts actions.items ≡ (row self.old DataEnd header payload.items).actions) }
        ensures core { OnOk result (self.new ≡ (row self.old DataEnd header payload.items).core) }
        ensures refused { OnErr result (self.new ≡ self.old) }
        ensures memory { OnErr result (HasBytes self.old.transmission) }
    {
        let origin = self.origin(header);
        let last = self.transmission.end(origin, payload)?;
        self.clear = DeviceClear::Idle;
        Ok(delivered_and(header, last))
    }

    fn trigger(&mut self, header: Header) -> Actions<A>
        ensures done { acts result.items ≡ (triggered self.old header).actions }
        ensures core { self.new ≡ (triggered self.old header).core }
    {
        self.clear = DeviceClear::Idle;
        one(Action::Trigger(self.origin(header)))
    }

    fn device_clear(&mut self) -> Actions<A>
        ensures done { acts result.items ≡ (cleared self.old).actions }
        ensures core { self.new ≡ (cleared self.old).core }
    {
        self.transmission.clear();
        self.clear = match self.clear {
            DeviceClear::Early => DeviceClear::Idle,
            _ => DeviceClear::InProgress,
        };
        self.clears = self.clears.wrapping_add(1);
        let kind = MessageType::AsyncDeviceClearAcknowledge;
        two(Action::Clear, reply(Side::Async, kind, 0))
    }

    fn complete_clear(&mut self) -> Actions<A>
        ensures done { acts result.items ≡ (completed self.old).actions }
        ensures core { self.new ≡ (completed self.old).core }
    {
        self.clear = match self.clear {
            DeviceClear::InProgress => DeviceClear::Idle,
            _ => DeviceClear::Early,
        };
        one(reply(Side::Sync, MessageType::DeviceClearAcknowledge, 0))
    }

    fn message_size(&mut self, size: &[u8]) -> Actions<A>
        requires { length size.now ≡ 8 }
        ensures done { acts result.items ≡ (sized self.old size.now).actions }
        ensures core { self.new ≡ (sized self.old size.now).core }
    {
        let size = u64::from_be_bytes([
            size[0], size[1], size[2], size[3], size[4], size[5], size[6], size[7],
        ]);
        self.size = Some(size);
        let kind = MessageType::AsyncMaximumMessageSizeResponse;
        one(send_with(Side::Async, kind, &MESSAGE_SIZE))
    }

    fn join(&mut self) -> Actions<A>
        ensures done { acts result.items ≡ (joining self.old).actions }
        ensures core { self.new ≡ (joining self.old).core }
    {
        self.joined = true;
        one(reply(Side::Async, MessageType::AsyncInitializeResponse, 0))
    }

    // Processes a message without fault, by its type, and returns its actions.
    fn row(
        &mut self,
        kind: MessageType,
        header: Header,
        payload: Vec<u8, A>,
    ) -> Result<Actions<A>, AllocError>
        requires { ill_formed kind header payload.items ≡ None }
        ensures done { IfOk result (λ actions. acts actions.items ≡ (row self.old kind header payload.items).actions) }
        ensures core { OnOk result (self.new ≡ (row self.old kind header payload.items).core) }
        ensures refused { OnErr result (self.new ≡ self.old) }
        ensures memory { OnErr result ((is_part (Some kind) ≡ true) × HasBytes self.old.transmission) }
    {
        match kind {
            MessageType::AsyncInitialize => Ok(self.join()),
            MessageType::Data => self.data(header, payload),
            MessageType::DataEnd => self.data_end(header, payload),
            MessageType::Trigger => Ok(self.trigger(header)),
            MessageType::DeviceClearComplete => Ok(self.complete_clear()),
            MessageType::AsyncDeviceClear => Ok(self.device_clear()),
            MessageType::AsyncLock => Ok(one(locked(header, payload))),
            MessageType::AsyncLockInfo => Ok(one(Action::Info)),
            MessageType::AsyncRemoteLocalControl => {
                let kind = MessageType::AsyncRemoteLocalResponse;
                Ok(one(reply(Side::Async, kind, 0)))
            }
            MessageType::AsyncMaximumMessageSize => Ok(self.message_size(&payload)),
            MessageType::AsyncStatusQuery => Ok(one(Action::Status(is_delivered(header)))),
            _ => Ok(ArrayVec::new()),
        }
    }

    /// Processes a message of one of the session's channels and returns the actions that it asks for, in order. The
    /// first message of the asynchronous channel, its AsyncInitialize, is one of these messages; the first message of
    /// the synchronous channel is not.
    ///
    /// The actions of the messages of both channels are performed in the order of these calls, and the bytes for the
    /// synchronous channel are sent in the order in which this call, `part` and `answer` returned them. After a fatal
    /// error each message returns the one action Closed.
    ///
    /// The payload is moved into the action or into the transmission. Only a Data or a DataEnd whose transmission has
    /// bytes already is copied to them and needs memory. Where allocation fails, nothing has changed and an equal
    /// message can be passed.
    pub fn on(&mut self, side: Side, message: Message<A>) -> Result<Actions<A>, AllocError>
        ensures done { IfOk result (λ actions. acts actions.items ≡ (outcome_of self.old side (received message)).actions) }
        ensures core { OnOk result (self.new ≡ (outcome_of self.old side (received message)).core) }
        ensures refused { OnErr result (self.new ≡ self.old) }
        ensures memory { OnErr result (NeedsMemory self.old (received message)) }
    {
        if self.failed {
            return Ok(one(Action::Closed));
        }
        if let Some(code) = self.fatal(side, &message) {
            self.failed = true;
            let fault = reply(side, MessageType::FatalError, code.code());
            return Ok(two(fault, Action::Closed));
        }
        if self.discards(side, &message) {
            return Ok(ArrayVec::new());
        }
        if let Some(code) = error(side, &message) {
            return Ok(one(reply(side, MessageType::Error, code.code())));
        }
        let Message::Frame(header, payload) = message else {
            return Ok(ArrayVec::new());
        };
        match header.message_type() {
            Some(kind) => self.row(kind, header, payload),
            None => Ok(ArrayVec::new()),
        }
    }

    /// Returns the frames of a response to a transmission of this origin, or `None` where the origin is no longer
    /// current.
    ///
    /// The maximum payload size is the client's maximum message size less the 16 bytes of a header, but at least 1 and
    /// at most 65,520 bytes; an empty response is one empty frame.
    pub fn answer(&self, origin: Origin, bytes: &[u8]) -> Result<Option<Vec<u8, A>>, AllocError>
        ensures current { IfOk result (λ answer. IsSome answer ↔ IsCurrent self.now origin) }
        ensures refused { OnErr result (IsCurrent self.now origin) }
        ensures frames { IfOk result (λ answer. IfSome answer (λ frames. IsAnswer (answer_size self.now.size) origin.id bytes.now frames.items)) }
    {
        if !self.is_current(origin) {
            return Ok(None);
        }
        let frames = answer_frames(self.alloc, answer_size(self.size), origin.id, bytes)?;
        Ok(Some(frames))
    }

    /// Returns the frames of a part of a response to a transmission of this origin, or `None` where the origin is no
    /// longer current. The response continues: after its parts it ends with an `answer` of the rest.
    pub fn part(&self, origin: Origin, bytes: &[u8]) -> Result<Option<Vec<u8, A>>, AllocError>
        ensures current { IfOk result (λ part. IsSome part ↔ IsCurrent self.now origin) }
        ensures refused { OnErr result (IsCurrent self.now origin) }
        ensures frames { IfOk result (λ part. IfSome part (λ frames. IsPart (answer_size self.now.size) origin.id bytes.now frames.items)) }
    {
        if !self.is_current(origin) {
            return Ok(None);
        }
        let frames = part_frames(self.alloc, answer_size(self.size), origin.id, bytes)?;
        Ok(Some(frames))
    }
}
