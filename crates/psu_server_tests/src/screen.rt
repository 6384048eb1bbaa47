//! Standard error, as a test reads it.
use crate::ground::allocated;
use psu_client::{Missed, holds};
use std::alloc::Global;
use std::fmt::Display;
use std::io::{self, Eprint};
use std::sync::atomic::{AtomicBool, Ordering};
use std::sync::{Arc, Mutex, Wait};
use std::thread;
use std::time::{Clock, Duration};

// How often a flag is checked, once a millisecond.
const LOOKS: u32 = 20_000;

/// What a server writes on standard error.
#[derive(Drop)]
pub(crate) struct Screen<R: Drop> {
    rt: R,
    alloc: Global,
    text: Arc<Mutex<String>>,
    is_full: Arc<AtomicBool>,
}

impl<R: Wait + Clock + Copy> Screen<R> {
    /// Returns standard error with no text yet, which accepts what is written.
    pub(crate) fn new(rt: R, alloc: Global) -> Result<Screen<R>, Missed> {
        let text = allocated(Arc::new(alloc, Mutex::new(String::new(alloc))))?;
        let is_full = allocated(Arc::new(alloc, AtomicBool::new(false)))?;
        Ok(Screen {
            rt,
            alloc,
            text,
            is_full,
        })
    }

    /// Returns another handle to the text, for the server.
    pub(crate) fn another(&self) -> Result<Screen<R>, Missed> {
        Ok(Screen {
            rt: self.rt,
            alloc: self.alloc,
            text: allocated(Arc::try_clone(&self.text))?,
            is_full: allocated(Arc::try_clone(&self.is_full))?,
        })
    }

    /// Makes each thread that writes wait from now on, as a full pipe does, or not.
    pub(crate) fn be_full(&self, is_full: bool) {
        self.is_full.store(is_full, Ordering::SeqCst);
    }

    fn is(&self, lines: &str) -> bool {
        self.text.lock(&self.rt).as_str() == lines
    }

    /// The number of lines that were written.
    pub(crate) fn count(&self) -> usize {
        self.text.lock(&self.rt).as_str().lines().count()
    }

    /// Checks that this was written among other things.
    pub(crate) fn says(&self, words: &str) -> Result<(), Missed> {
        let is_there = self.text.lock(&self.rt).as_str().contains(words);
        holds(is_there, "these words on standard error")
    }

    /// Checks that these lines were written.
    pub(crate) fn shows(&self, lines: &str) -> Result<(), Missed> {
        holds(self.is(lines), "these lines on standard error")
    }

    /// Waits for at most five seconds until these lines were written.
    pub(crate) fn shows_soon(&self, lines: &str) -> Result<(), Missed> {
        for _ in 0..500u32 {
            if self.is(lines) {
                return Ok(());
            }
            thread::sleep(&self.rt, Duration::from_millis(10));
        }
        self.shows(lines)
    }

    // Waits while nothing can be written.
    fn wait(&self) {
        for _ in 0..LOOKS {
            if !self.is_full.load(Ordering::SeqCst) {
                return;
            }
            thread::sleep(&self.rt, Duration::from_millis(1));
        }
    }
}

impl<R: Wait + Clock + Copy> Eprint for Screen<R> {
    fn eprint<D: Display + Drop>(&self, value: D) -> io::Result<()> {
        self.wait();
        let text = format!(in self.alloc; "{value}")?;
        self.text.lock(&self.rt).push_str(text.as_str())?;
        Ok(())
    }

    fn eprintln<D: Display + Drop>(&self, value: D) -> io::Result<()> {
        self.eprint(value)?;
        self.eprint("\n")
    }
}
