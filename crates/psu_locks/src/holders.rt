//! The lock holders, and which locks can be granted.
ghost use Rattle.std.specs.Prelude.{◌≡◌};
ghost use Rattle.psu_locks.specs.Locks.{shares, is_shared, holds_exclusive, may_command, can_grant, with_grant, holds_kind, freed_of, without, without_session, info_of, with_exclusive, with_sharer};

use crate::{Freed, Info, Kind, LockString, SESSIONS, Session};

/// The holder of the exclusive lock, and the sessions that share the string: a flag for each session, in the order of
/// the session numbers. The string is meaningful only while a session shares it.
#[derive(Drop)]
pub(crate) struct Holders {
    pub exclusive: Option<Session>,
    pub string: LockString,
    pub sharers: [bool; SESSIONS],
}

impl Holders {
    /// Whether a session shares the string.
    pub(crate) fn shares(&self, session: Session) -> bool
        ensures { result ≡ shares self.now session }
    {
        self.sharers[session.place()]
    }

    // All flags are looked at, without a branch: mostly none is set.
    #[inline(always)]
    #[tactic(auto, using(std::proofs::lemmas::List::Folds::list_any_more, std::proofs::lemmas::List::take_all))]
    fn is_shared(&self) -> bool
        ensures { result ≡ is_shared self.now }
    {
        let mut some = false;
        for place in 0..SESSIONS {
            some = some || self.sharers[place];
        }
        some
    }

    fn holds_exclusive(&self, session: Session) -> bool
        ensures { result ≡ holds_exclusive self.now session }
    {
        match self.exclusive {
            None => false,
            Some(holder) => holder.number() == session.number(),
        }
    }

    /// Whether a session may execute commands.
    pub(crate) fn may_command(&self, session: Session) -> bool
        ensures { result ≡ may_command self.now session }
    {
        if self.exclusive.is_some() {
            self.holds_exclusive(session)
        } else {
            !self.is_shared() || self.shares(session)
        }
    }

    /// Whether a lock can be granted to a session.
    pub(crate) fn can_grant(&self, session: Session, kind: &Kind) -> bool
        ensures { result ≡ can_grant self.now session kind.now }
    {
        match kind {
            Kind::Exclusive => {
                self.exclusive.is_none() && (!self.is_shared() || self.shares(session))
            }
            Kind::Shared(string) => {
                (self.exclusive.is_none() || self.holds_exclusive(session))
                    && (!self.is_shared() || self.string.is_same(string))
            }
        }
    }

    /// Whether a session holds a lock of this kind, under any string.
    pub(crate) fn holds_kind(&self, session: Session, kind: &Kind) -> bool
        ensures { result ≡ holds_kind self.now session kind.now }
    {
        match kind {
            Kind::Exclusive => self.holds_exclusive(session),
            Kind::Shared(_) => self.shares(session),
        }
    }

    /// Grants a lock to a session.
    pub(crate) fn put(&mut self, session: Session, kind: Kind)
        ensures { self.new ≡ with_grant self.old session kind }
    {
        match kind {
            Kind::Exclusive => self.exclusive = Some(session),
            Kind::Shared(string) => {
                self.string = string;
                self.sharers[session.place()] = true;
            }
        }
    }

    /// Returns the lock that a release by a session would release, if it holds one.
    pub(crate) fn freed(&self, session: Session) -> Option<Freed>
        ensures { result ≡ freed_of self.now session }
    {
        if self.holds_exclusive(session) {
            Some(Freed::Exclusive)
        } else if self.shares(session) {
            Some(Freed::Shared)
        } else {
            None
        }
    }

    /// Removes a lock of a session.
    pub(crate) fn remove(&mut self, session: Session, freed: Freed)
        ensures { self.new ≡ without self.old session freed }
    {
        match freed {
            Freed::Exclusive => self.exclusive = None,
            Freed::Shared => self.sharers[session.place()] = false,
        }
    }

    /// Removes all locks of a session.
    pub(crate) fn remove_all(&mut self, session: Session)
        ensures { self.new ≡ without_session self.old session }
    {
        if self.holds_exclusive(session) {
            self.exclusive = None;
        }
        self.sharers[session.place()] = false;
    }

    /// Returns the lock information.
    pub(crate) fn info(&self) -> Info
        ensures { result ≡ info_of self.now }
    {
        let mut flags = self.sharers;
        if let Some(holder) = self.exclusive {
            flags[holder.place()] = true;
        }
        Info {
            exclusive: self.exclusive.is_some(),
            holders: flags.iter().filter(|flag| **flag).count() as u8,
        }
    }
}
