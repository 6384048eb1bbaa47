//! The notices to the threads of a session.
ghost use Rattle.psu_session_io.specs.Leaving.{IsNext};

use crate::line::Line;
use crate::linear::{AfterWrite, Arrived, Closed, Closing, NextTask, Outgoing, Pending, Remainder};
use crate::{ConnectionSide, Notice, Token};
use psu_hislip::Side;
use psu_replies::CannotDrop;
use std::alloc::{AllocError, Global};
use std::marker::PhantomData;
use std::rt::Clock;
use std::sync::atomic::{AtomicBool, Ordering};
use std::sync::{Arc, Wait};
use std::time::Duration;

/// The notices to the threads of a session: its worker, its notifier and its two readers. Other sessions and the
/// flusher post notices here while they hold locks, since to post one neither waits for another thread nor allocates.
#[derive(Drop)]
pub struct Mailbox {
    worker: Line,
    notifier: Line,
    sync_reader: Line,
    async_reader: Line,
    // Whether the next unit waits for room for its changes, and is to be tried again once there may be room.
    late: AtomicBool,
}

impl Mailbox {
    /// Returns a mailbox without notices, for the session and the registry to share.
    pub fn new(alloc: Global) -> Result<Arc<Mailbox>, AllocError> {
        let mailbox = Mailbox {
            worker: Line::new(alloc)?,
            notifier: Line::new(alloc)?,
            sync_reader: Line::new(alloc)?,
            async_reader: Line::new(alloc)?,
            late: AtomicBool::new(false),
        };
        Ok(Arc::new(alloc, mailbox)?)
    }

    // ---- by other sessions and the flusher

    /// Posts a notice: to the worker that what a unit waits for may have come, or any other to the notifier.
    pub fn post<R: Wait>(&self, rt: &R, notice: Notice) {
        match notice {
            Notice::Continue => self.worker.post(rt, notice),
            _ => self.notifier.post(rt, notice),
        }
    }

    /// Reports that there may be room for changes, where a unit waits for it.
    pub fn wake_late<R: Wait>(&self, rt: &R) {
        if self.late.swap(false, Ordering::SeqCst) {
            self.worker.post(rt, Notice::Continue);
        }
    }

    // ---- by the session's own threads

    // The line of the reader of a connection.
    fn reader(&self, side: Side) -> &Line {
        match side {
            Side::Sync => &self.sync_reader,
            Side::Async => &self.async_reader,
        }
    }

    // Notifies the readers that wait for room.
    fn notify_readers<R: Wait>(&self, rt: &R, sync_room: bool, async_room: bool) {
        if sync_room {
            self.sync_reader.post(rt, Notice::Room);
        }
        if async_room {
            self.async_reader.post(rt, Notice::Room);
        }
    }

    // Notifies the threads of the other side: the notifier of output, or the worker of that or of a transmission.
    fn notify_other_side<R: Wait>(&self, rt: &R, side: Side) {
        match side {
            Side::Sync => self.notifier.post(rt, Notice::Output),
            Side::Async => self.worker.post(rt, Notice::Continue),
        }
    }

    // Whether a unit that waits for room is tried once more, since there may have been room in the meantime: where it was
    // not known yet that it waits. From now on it is.
    fn tries_again(&self, side: Side, late: bool) -> bool {
        match side {
            Side::Sync => late && !self.late.swap(true, Ordering::SeqCst),
            Side::Async => false,
        }
    }

    /// Notifies the other threads of what a thread leaves to them. Returns what the thread does then.
    #[inline(always)]
    pub fn notify_others<R: Wait, S: ConnectionSide>(
        &self,
        rt: &R,
        remainder: Remainder<S>,
    ) -> NextTask<S>
        ensures { IsNext remainder result }
    {
        let Remainder {
            bytes,
            more,
            late,
            other,
            sync_room,
            async_room,
            due,
            duty,
            side,
        } = remainder;
        self.notify_readers(rt, sync_room, async_room);
        if other {
            self.notify_other_side(rt, S::SIDE);
        }
        let again = self.tries_again(S::SIDE, late);
        let more = more || again;
        if let Some(bytes) = bytes {
            let after = AfterWrite { more, again, due };
            return NextTask::Write(Outgoing {
                bytes,
                after,
                duty,
                side,
            });
        }
        if more {
            return NextTask::Continue(Pending { again, duty, side });
        }
        duty.end();
        NextTask::Wait(due)
    }

    /// Waits for the next notice: to the worker, for at most some time if one is given, or to the notifier.
    pub fn wait<R: Wait + Clock, S: ConnectionSide>(
        &self,
        rt: &R,
        token: &mut Token<S>,
        left: Option<Duration>,
    ) -> Arrived<S> {
        let _ = token;
        let notice = match (S::SIDE, left) {
            (Side::Sync, Some(left)) => self.worker.next_within(rt, left),
            (Side::Sync, None) => self.worker.next(rt),
            (Side::Async, _) => self.notifier.next(rt),
        };
        Arrived {
            notice,
            duty: CannotDrop::begin(),
            side: PhantomData,
        }
    }

    /// Waits until the reader of a connection may try again.
    pub fn wait_for_room<R: Wait, S: ConnectionSide>(&self, rt: &R, token: &mut Token<S>) {
        let _ = token;
        let _ = self.reader(S::SIDE).next(rt);
    }

    /// Notifies all threads that the session is over. Its connections are shut.
    pub(crate) fn end<R: Wait>(&self, rt: &R, closing: Closing) -> Closed {
        let Closing { duty } = closing;
        self.worker.post(rt, Notice::End);
        self.notifier.post(rt, Notice::End);
        self.sync_reader.post(rt, Notice::End);
        self.async_reader.post(rt, Notice::End);
        duty.end();
        Closed(())
    }
}
