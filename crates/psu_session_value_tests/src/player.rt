//! The sessions of a script, over one device.
use crate::frames::frames;
use crate::mem_device::{MemDevice, Power};
use crate::session_steps::{Setting, session_step};
use psu_call_steps::step_holds;
use psu_exec::{Session, Sessions};
use psu_session::HislipSession;
use psu_tables::{parted, repeated};
use std::alloc::Global;

/// A session, and its number on the device.
#[derive(Drop)]
struct Member {
    number: Session,
    session: HislipSession,
}

///! The sessions of a script, over one device.
#[derive(Drop)]
pub(crate) struct Player<'a> {
    device: MemDevice<'a>,
    setting: Setting,
    members: Vec<Member>,
}

impl<'a> Player<'a> {
    /// Returns a player without sessions, which will receive at most this many bytes at once.
    pub(crate) fn new(
        alloc: Global,
        exec: &'a mut Power,
        first: Session,
        size: usize,
    ) -> Player<'a> {
        Player {
            device: MemDevice {
                exec,
                session: first,
                granted: Sessions::new(),
            },
            setting: Setting {
                alloc,
                now: 0,
                size,
            },
            members: Vec::new(alloc),
        }
    }

    // Returns the place of the session with a number.
    fn place(&self, number: Session) -> Option<usize> {
        for (at, member) in self.members.iter().enumerate() {
            if member.number == number {
                return Some(at);
            }
        }
        None
    }

    // Opens a session, which has its synchronous connection, and returns whether it has this number.
    fn opens(&mut self, number: Session) -> Option<bool> {
        let alloc = self.setting.alloc;
        let opened = self.device.exec.open_session().ok()?;
        let opening = frames(alloc, "Initialize 0 x01000000 hislip0")?;
        let session = HislipSession::open(
            alloc,
            u16::from(opened.number()),
            opening.as_slice(),
        ).ok()?;
        self.members.push(Member { number, session }).ok()?;
        Some(opened == number)
    }

    // Whether a step of a session holds; `None` where it is not a step.
    fn session_step(&mut self, number: Session, step: &str) -> Option<bool> {
        if step == "opens" {
            return self.opens(number);
        }
        let at = self.place(number)?;
        let member = self.members.get_mut(at)?;
        self.device.session = number;
        session_step(&mut member.session, &mut self.device, self.setting, step)
    }

    // Sets the time; `None` where the word is not a time.
    fn set_time(&mut self, word: &str) -> Option<()> {
        self.setting.now = word.parse().ok()?;
        Some(())
    }

    /// Whether a line is a step that holds, each time that it is made.
    pub(crate) fn line(&mut self, line: &str) -> bool {
        let (count, step) = repeated(line);
        for _ in 0..count {
            if !self.step(step) {
                return false;
            }
        }
        true
    }

    // Whether a step holds.
    fn step(&mut self, line: &str) -> bool {
        let (who, rest) = parted(line);
        if who == "at" {
            return self.set_time(rest).is_some();
        }
        let number = match who.parse() {
            Ok(number) => Session::new(number),
            Err(_) => None,
        };
        match number {
            Some(number) => self.session_step(number, rest) == Some(true),
            None => step_holds(&mut *self.device.exec, line),
        }
    }
}
