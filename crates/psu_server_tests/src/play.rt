//! Scripts that are played with servers, one after another.
//!
//! A script begins with a heading: `== shared_lock.image` has the server's image, and `== late_wait.image run` also has
//! the point at which its flusher is held, before a job runs (`run`) or before a page is written (`write`). The contents
//! of an image may cost 256 pages; `== items.image run 480` has another limit. The steps are those of
//! `psu_client::Cast`, and two of the flusher:
//!
//! | step | means |
//! |---|---|
//! | `flusher held` | it is held |
//! | `flusher released` | it was held until now, and is released |
//!
//! An empty line, and one that begins with `#`, has no effect.
use crate::hold::Hold;
use crate::server::{formatted, served};
use psu_client::{Cast, Missed};
use psu_server::Point;
use psu_tables::{is_step, repeated};
use std::alloc::Global;
use std::fs::File;
use std::io::{Eprint, Print};
use std::net::{Net, TcpListener, TcpStream};
use std::rt::{Clock, Files};
use std::sync::Wait;
use std::thread::Threads;

/// A line of a script whose step failed, and why.
#[derive(Clone, Copy, Debug)]
pub(crate) struct Mismatch {
    pub(crate) line: &'static str,
    pub(crate) missed: Missed,
}

/// A server with the parties of its script.
#[derive(Drop)]
struct Stage<R: Drop> {
    cast: Cast<R>,
    hold: Hold<R>,
}

/// A heading: the image, with its limit, and where the flusher is held.
#[derive(Clone, Copy)]
struct Heading<'s> {
    image: &'s str,
    point: Option<Point>,
    limit: u16,
}

// Reads the point at which the flusher is held, if there is one.
fn held_at(word: &str) -> Option<Option<Point>> {
    match word {
        "" => Some(None),
        "run" => Some(Some(Point::BeforeRun)),
        "write" => Some(Some(Point::BeforeWrite)),
        _ => None,
    }
}

// Reads a heading.
fn heading_of(line: &str) -> Option<Heading<'_>> {
    let heading = line.strip_prefix("== ")?;
    let (image, rest) = heading.split_once(" ").unwrap_or((heading, ""));
    let (word, limit) = rest.split_once(" ").unwrap_or((rest, "256"));
    Some(Heading {
        image,
        point: held_at(word)?,
        limit: limit.parse().ok()?,
    })
}

// Serves a new image, with no client yet.
fn begun<R>(rt: R, alloc: Global, line: &'static str) -> Result<Stage<R>, Missed>
where
    R: Net<Listener = TcpListener, Stream = TcpStream>
        + Files<File = File>
        + Threads
        + Wait
        + Clock
        + Print
        + Eprint
        + Copy
        + Send
        + Sync
        + 'static,
    R::Dir: Send,
{
    let Some(heading) = heading_of(line) else {
        return Err(Missed::Ground("a heading"));
    };
    let hold = Hold::new(rt, alloc, heading.point)?;
    let gate = hold.another()?;
    formatted(&rt, alloc, heading.image, heading.limit)?;
    let port = served(rt, alloc, heading.image, gate)?;
    Ok(Stage {
        cast: Cast::new(rt, alloc, port),
        hold,
    })
}

impl<R: Net<Stream = TcpStream> + Clock + Copy> Stage<R> {
    fn step(&mut self, line: &str) -> Result<(), Missed> {
        match line {
            "flusher held" => self.hold.wait_until_held(),
            "flusher released" => self.hold.release(),
            _ => self.cast.step(line),
        }
    }

    // Makes the step of a line as often as it says.
    fn line(&mut self, line: &str) -> Result<(), Missed> {
        let (count, step) = repeated(line);
        for _ in 0..count {
            self.step(step)?;
        }
        Ok(())
    }
}

// Plays a line: starts a server, or makes a step.
fn take<R>(
    stage: &mut Option<Stage<R>>,
    rt: R,
    alloc: Global,
    line: &'static str,
) -> Result<(), Missed>
where
    R: Net<Listener = TcpListener, Stream = TcpStream>
        + Files<File = File>
        + Threads
        + Wait
        + Clock
        + Print
        + Eprint
        + Copy
        + Send
        + Sync
        + 'static,
    R::Dir: Send,
{
    if line.starts_with("== ") {
        *stage = Some(begun(rt, alloc, line)?);
        return Ok(());
    }
    match stage {
        Some(stage) => stage.line(line),
        None => Err(Missed::Ground("a heading")),
    }
}

/// Plays scripts; returns the line whose step failed, and why.
pub(crate) fn plays<R>(rt: R, alloc: Global, scripts: &'static str) -> Result<(), Mismatch>
where
    R: Net<Listener = TcpListener, Stream = TcpStream>
        + Files<File = File>
        + Threads
        + Wait
        + Clock
        + Print
        + Eprint
        + Copy
        + Send
        + Sync
        + 'static,
    R::Dir: Send,
{
    let mut stage = None;
    for line in scripts.lines() {
        if is_step(line) {
            if let Err(missed) = take(&mut stage, rt, alloc, line) {
                return Err(Mismatch { line, missed });
            }
        }
    }
    match stage {
        Some(_) => Ok(()),
        None => Err(Mismatch {
            line: scripts,
            missed: Missed::Ground("a heading"),
        }),
    }
}
