//! The steps of a session, a line each. Who sends and gets, says and hears, is the client, as over sockets.
//!
//! | step | holds where |
//! |---|---|
//! | `1 opens` | session 1 opens, with its synchronous connection |
//! | `1 joins` | it gets its asynchronous connection, on which AsyncInitialize is answered |
//! | `1 sends FRAMES`, `1 async-sends FRAMES` | the client's frames are received on the synchronous, the asynchronous connection |
//! | `1 gets FRAMES`, `1 async-gets FRAMES` | these frames are taken to be sent on a connection, and are written |
//! | `1 fetches FRAMES` | these frames are taken to be sent on the synchronous connection, and not yet written |
//! | `1 written` | what was taken from the synchronous connection is written |
//! | `1 unsent` | bytes are to be sent on the synchronous connection |
//! | `1 says *IDN?` | a message is received in one DataEnd, and executed |
//! | `1 hears 0` | a response is taken in one DataEnd, and nothing else |
//! | `1 proceeds lock` | one call that continues the execution has this result, one of those below |
//! | `1 runs idle` | such calls are made while they complete something or let others in, and end with this result |
//! | `1 full sync`, `1 full async` | so much is held of a connection that its reader waits |
//! | `1 room sync`, `1 room async` | its reader does not wait |
//! | `1 overflows FRAMES` | these frames, received on the synchronous connection, are more than is ever held: it is over for that |
//! | `at 50` | the time, in milliseconds |
//! | `1 ticks` | the time is passed to the session |
//! | `2 granted`, `2 refused` | a release granted the session a lock, its request failed; this is passed to it |
//! | `1 due 150`, `1 due never` | this is when the first release that waits is due at the latest, none waits |
//! | `1 notified` | it looks for a service request |
//! | `1 fatal`, `1 serves` | it has failed with a FatalError, it has not |
//! | `1 leaves` | the client ends a connection: what was sent before may still be executed |
//! | `1 over` | the session is over: calls return an error |
//!
//! Any other line is a step of the device, of psu_call_steps. The result of a call is `idle`, `completed`, the need for
//! which a unit waits, as `flush`, `lock` or `room`, `turn`, where others are let in, or why the session is over:
//! `memory`, `too-much` for too much that is held, or `disconnected`. Empty lines, and those that begin with `#`, are not
//! steps.
use crate::frames::frames;
use crate::mem_device::MemDevice;
use psu_exec::Grant;
use psu_hislip::Side;
use psu_messages::Need;
use psu_session::{EndCause, HislipSession, Phase, Proceeded};
use psu_tables::parted;
use std::alloc::Global;

// More calls than the execution of a script's transmissions takes.
const CALLS: u32 = 10_000;

/// The setting of a step: the time in milliseconds, and how many bytes are received at once.
#[derive(Clone, Copy)]
pub(crate) struct Setting {
    pub(crate) alloc: Global,
    pub(crate) now: u64,
    pub(crate) size: usize,
}

// Whether a session is over.
fn has_ended(session: &HislipSession) -> bool {
    matches!(session.phase(), Phase::Over(_))
}

// Whether the session is open after these bytes were received on a connection, as many at once as the setting says.
fn receives(
    session: &mut HislipSession,
    device: &mut MemDevice<'_>,
    setting: Setting,
    side: Side,
    frames: &[u8],
) -> bool {
    for some in frames.chunks(setting.size.max(1)) {
        if session.receive(setting.now, side, some, device).is_err() {
            return false;
        }
    }
    true
}

// Whether a session is over once these frames are received on its synchronous connection, and was not before.
fn overflows(
    session: &mut HislipSession,
    device: &mut MemDevice<'_>,
    setting: Setting,
    frames: &[u8],
) -> bool {
    !has_ended(session)
        && !receives(session, device, setting, Side::Sync, frames)
        && session.phase() == Phase::Over(EndCause::TooMuchHeld)
}

// Whether these bytes are taken to be sent on a connection, or none where these are empty.
fn fetches(session: &mut HislipSession, side: Side, wanted: &[u8]) -> bool {
    match session.take_output(side) {
        Ok(Some(bytes)) => !wanted.is_empty() && bytes.as_slice() == wanted,
        Ok(None) => wanted.is_empty(),
        Err(_) => false,
    }
}

// Whether these bytes are taken to be sent on a connection, on which they are written then.
fn gets(session: &mut HislipSession, side: Side, wanted: &[u8]) -> bool {
    let is_so = fetches(session, side, wanted);
    if !wanted.is_empty() {
        session.written(side);
    }
    is_so
}

// Whether the first release that waits is due at a time in milliseconds at the latest, or `never`.
fn is_due(session: &HislipSession, word: &str) -> bool {
    match session.next_due() {
        Some(at) => word.parse() == Ok(at),
        None => word == "never",
    }
}

// Returns the side of a connection.
fn side(word: &str) -> Option<Side> {
    match word {
        "sync" => Some(Side::Sync),
        "async" => Some(Side::Async),
        _ => None,
    }
}

// Notes that a connection of an open session has ended. 65,536 units of what was sent before may be tried then.
fn leaves(session: &mut HislipSession) -> bool {
    let was = session.phase();
    session.disconnect();
    was == Phase::Open && session.phase() == Phase::Ending(65_536)
}

// Whether a session is over: calls return an error.
fn refuses_calls(session: &mut HislipSession, now: u64) -> bool {
    has_ended(session) && session.tick(now).is_err() && session.take_output(Side::Sync).is_err()
}

// What was taken from the synchronous connection is written.
fn is_written(session: &mut HislipSession) -> bool {
    session.written(Side::Sync);
    true
}

// Whether a session gets its second connection.
fn joins(
    session: &mut HislipSession,
    device: &mut MemDevice<'_>,
    setting: Setting,
) -> Option<bool> {
    let mut message = frames(setting.alloc, "AsyncInitialize")?;
    *message.get_mut(7)? = device.session.number();
    let wanted = frames(setting.alloc, "AsyncInitializeResponse")?;
    Some(
        receives(session, device, setting, Side::Async, message.as_slice())
            && gets(session, Side::Async, wanted.as_slice())
            && session.is_joined(),
    )
}

// Returns the word for the result of a call that continues the execution.
fn called(proceeded: Result<Proceeded, EndCause>) -> &'static str {
    match proceeded {
        Ok(Proceeded::Idle) => "idle",
        Ok(Proceeded::Completed) => "completed",
        Ok(Proceeded::Waits(Need::Flush)) => "flush",
        Ok(Proceeded::Waits(Need::Lock)) => "lock",
        Ok(Proceeded::Waits(Need::Room)) => "room",
        Ok(Proceeded::Waits(Need::Turn)) => "turn",
        Err(EndCause::Memory) => "memory",
        Err(EndCause::TooMuchHeld) => "too-much",
        Err(EndCause::Disconnected) => "disconnected",
    }
}

// Continues the execution while something is completed or others are let in, and returns the word for the result.
fn run(session: &mut HislipSession, device: &mut MemDevice<'_>) -> &'static str {
    for _ in 0..CALLS {
        match session.proceed(device) {
            Ok(Proceeded::Completed | Proceeded::Waits(Need::Turn)) => {}
            other => return called(other),
        }
    }
    "endless"
}

// Returns a text in one DataEnd, with the MessageID of a client's first message.
fn in_one(alloc: Global, text: &str) -> Option<Vec<u8>> {
    let mut cell = "DataEnd 0 xffffff00 ".to_string(alloc).ok()?;
    cell.push_str(text).ok()?;
    cell.push_str("\\n").ok()?;
    frames(alloc, &cell)
}

// Whether a message is received and executed.
fn says(
    session: &mut HislipSession,
    device: &mut MemDevice<'_>,
    setting: Setting,
    text: &str,
) -> Option<bool> {
    let message = in_one(setting.alloc, text)?;
    Some(
        receives(session, device, setting, Side::Sync, message.as_slice())
            && run(session, device) == "idle",
    )
}

// Whether a response is taken to be sent, and nothing else.
fn hears(session: &mut HislipSession, alloc: Global, text: &str) -> Option<bool> {
    let message = in_one(alloc, text)?;
    Some(
        gets(session, Side::Sync, message.as_slice()) && gets(session, Side::Async, b"".as_slice()),
    )
}

// Whether a lock request that waited has this result, which is passed to the session.
fn is_passed_on(session: &mut HislipSession, device: &mut MemDevice<'_>, grant: Grant) -> bool {
    let is_so = grant == Grant::Failed || device.granted.as_slice().contains(&device.session);
    session.lock_granted(grant, device);
    is_so && !has_ended(session)
}

// Whether a service request, if the device has one, is to be sent.
fn is_notified(session: &mut HislipSession, device: &mut MemDevice<'_>) -> bool {
    session.service_requested(device);
    !has_ended(session)
}

// Whether a step in which frames are received or are to be sent holds; `None` for any other step.
fn frames_step(
    session: &mut HislipSession,
    device: &mut MemDevice<'_>,
    setting: Setting,
    word: &str,
    cell: &str,
) -> Option<bool> {
    let frames = frames(setting.alloc, cell)?;
    match word {
        "sends" => Some(receives(session, device, setting, Side::Sync, frames.as_slice())),
        "async-sends" => Some(receives(session, device, setting, Side::Async, frames.as_slice())),
        "overflows" => Some(overflows(session, device, setting, frames.as_slice())),
        "gets" => Some(gets(session, Side::Sync, frames.as_slice())),
        "async-gets" => Some(gets(session, Side::Async, frames.as_slice())),
        "fetches" => Some(fetches(session, Side::Sync, frames.as_slice())),
        _ => None,
    }
}

// Whether a step that passes something to a session, or asks it something, holds; `None` for any other step.
fn plain_step(
    session: &mut HislipSession,
    device: &mut MemDevice<'_>,
    now: u64,
    word: &str,
) -> Option<bool> {
    match word {
        "granted" => Some(is_passed_on(session, device, Grant::Granted)),
        "refused" => Some(is_passed_on(session, device, Grant::Failed)),
        "notified" => Some(is_notified(session, device)),
        "ticks" => Some(session.tick(now).is_ok()),
        "fatal" => Some(session.has_failed()),
        "serves" => Some(!session.has_failed()),
        "written" => Some(is_written(session)),
        "unsent" => Some(session.has_output(Side::Sync)),
        "leaves" => Some(leaves(session)),
        "over" => Some(refuses_calls(session, now)),
        _ => None,
    }
}

/// Whether a step of a session holds; `None` where it is not a step.
pub(crate) fn session_step(
    session: &mut HislipSession,
    device: &mut MemDevice<'_>,
    setting: Setting,
    step: &str,
) -> Option<bool> {
    let (word, rest) = parted(step);
    match word {
        "joins" => joins(session, device, setting),
        "says" => says(session, device, setting, rest),
        "hears" => hears(session, setting.alloc, rest),
        "proceeds" => Some(called(session.proceed(device)) == rest),
        "runs" => Some(run(session, device) == rest),
        "due" => Some(is_due(session, rest)),
        "full" => Some(session.is_full(side(rest)?)),
        "room" => Some(!session.is_full(side(rest)?)),
        _ if rest.is_empty() => plain_step(session, device, setting.now, word),
        _ => frames_step(session, device, setting, word, rest),
    }
}
