//! The first message of a connection, and sessions that open and close.
ghost use Rattle.std.specs.Prelude.{◌≡◌, [], IfOk, IfSome, IsNone, None};
ghost use Rattle.std.specs.Arc.{arc_value};
ghost use Rattle.psu_turn.specs.Seats.{SeatCalls, Sight};
ghost use Rattle.psu_exec.specs.Device.{State};
ghost use Rattle.psu_exec.specs.Calls.{Entry};
ghost use Rattle.psu_bench.specs.Calls.{AllowsOn};
ghost use Rattle.psu_session_io.specs.NewConnection.{IsRequested};
ghost use Rattle.psu_session_io.specs.Opening.{initialize_response};
ghost use Rattle.psu_threads.specs.Seated.{HasBegun};

use psu_bench::{Access, Granted, Others, ServedDisk};
use psu_exec::Session;
use psu_session::HislipSession;
use psu_session_io::{
    Closed, FirstRead, FirstReply, Mailbox, NewConnection, ServedSession, SharedSession,
    Synchronous, Unanswered,
};
use psu_threads::{MustClose, Reporter, SILENCE_SECONDS, SeatedSession, Server, SessionOf, space};
use std::alloc::Global;
use std::io::{self, ErrorKind};
use std::rt::Clock;
use std::sync::{Arc, Wait};
use std::time::{Duration, Instant};

/// How much is read at once before a connection has sent its first message.
const FIRST_READ_SIZE: usize = 4_096;

/// Waits for the first message of a connection, as long as it may take.
pub(crate) fn first_message<R: Clock>(
    rt: &R,
    alloc: Global,
    connection: NewConnection,
) -> io::Result<FirstRead>
    ensures { IfOk result IsRequested }
{
    let start = Instant::now(rt)?;
    let mut space = space(alloc, FIRST_READ_SIZE)?;
    let mut connection = connection;
    for _ in 0..u64::MAX {
        let left = Duration::from_secs(SILENCE_SECONDS).saturating_sub(start.elapsed(rt)?);
        if left < Duration::from_millis(1) {
            return Ok(FirstRead::Ended);
        }
        match connection.read(space.as_mut_slice(), left)? {
            FirstRead::Awaited(awaited) => connection = awaited,
            begun => return Ok(begun),
        }
    }
    Ok(FirstRead::Ended)
}

/// A session that was opened, and the response to its Initialize.
pub(crate) struct Opened<D: ServedDisk> {
    pub response: FirstReply,
    pub served: Arc<SessionOf<D>>,
    pub must_close: MustClose,
}

// Returns a session of this number, whose synchronous connection has sent these bytes first, with its response to them.
fn session_of(
    alloc: Global,
    number: Session,
    message: &[u8],
) -> io::Result<(FirstReply, SharedSession)>
    ensures response { IfOk result (λ made. made.0.bytes ≡ initialize_response number) }
    ensures session { IfOk result (λ made. HasBegun number message.now made.1.phase made.1.state) }
{
    match HislipSession::open(alloc, u16::from(number.number()), message) {
        Ok(session) => {
            let response = FirstReply::initialized(&session);
            Ok((response, SharedSession::new(alloc, session)?))
        }
        Err(_) => Err(io::Error::from(ErrorKind::OutOfMemory)),
    }
}

// Returns a session with its seat, as its connections share it. Where memory is refused it is closed, and what is returned
// is which sessions' lock requests were then granted.
fn shared<R: Wait, D: ServedDisk>(
    rt: &R,
    alloc: Global,
    session: SeatedSession<D>,
    must_close: MustClose,
    mailbox: Arc<Mailbox>,
    connection: &Unanswered<Synchronous>,
) -> Result<(Arc<SessionOf<D>>, MustClose), Option<Granted>>
    ensures { IfOk result (λ made. (arc_value made.0).number ≡ session.number) }
{
    let served = match ServedSession::new(session, mailbox, connection) {
        Ok(served) => served,
        Err(mut session) => return Err(session.close(rt, must_close)),
    };
    match Arc::new(alloc, served) {
        Ok(served) => Ok((served, must_close)),
        Err(refused) => Err(
            refused
                .value
                .session
                .lock_to_close(rt)
                .close(rt, must_close),
        ),
    }
}

/// Opens a session over its synchronous connection, by the Initialize that this has sent; `None` where there are too many
/// sessions. Its number is the one that the device has given it. The session keeps the seat that has opened it, and is
/// closed under this where memory for it is refused.
pub(crate) fn open<R: Wait, D: ServedDisk>(
    rt: &R,
    server: &Server,
    access: Access<D>,
    connection: &Unanswered<Synchronous>,
) -> io::Result<Option<Opened<D>>>
    requires { access.seat.mine ≡ [] }
    ensures response { IfOk result (λ some. IfSome some (λ opened. opened.response.bytes ≡ initialize_response (arc_value opened.served).number)) }
    ensures crowded { IfOk result (λ some. IsNone some → (seat : Sight State Entry) × SeatCalls (AllowsOn D.honest) access.seat (Entry.Opened None) seat) }
{
    let mailbox = Mailbox::new(server.alloc)?;
    let known = Arc::try_clone(&mailbox)?;
    let others = Reporter { rt, server };
    let mut registry = others.lock_registry();
    let Ok(opened) = access.open_session(rt) else {
        return Ok(None);
    };
    let (response, session) = match session_of(
        server.alloc,
        opened.number(),
        connection.message(),
    ) {
        Ok(made) => made,
        Err(error) => {
            opened.close(rt).pass_on(&mut registry);
            return Err(error);
        }
    };
    let (session, must_close) = SeatedSession::new(session, opened);
    match shared(rt, server.alloc, session, must_close, mailbox, connection) {
        Ok((served, must_close)) => {
            registry.registry.set(served.number, Some(known));
            Ok(Some(Opened {
                response,
                served,
                must_close,
            }))
        }
        Err(granted) => {
            if let Some(granted) = granted {
                granted.pass_on(&mut registry);
            }
            Err(io::Error::from(ErrorKind::OutOfMemory))
        }
    }
}

/// Closes a session, whose threads have ended, under its own seat, and frees its number.
pub(crate) fn close<R: Wait, D: ServedDisk>(
    rt: &R,
    server: &Server,
    served: &SessionOf<D>,
    must_close: MustClose,
    closed: Closed,
) {
    let _ = closed;
    let mut session = served.session.lock_to_close(rt);
    let others = Reporter { rt, server };
    let mut registry = others.lock_registry();
    registry.registry.set(served.number, None);
    if let Some(granted) = session.close(rt, must_close) {
        granted.pass_on(&mut registry);
    }
}
