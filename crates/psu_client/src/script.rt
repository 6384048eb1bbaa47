//! Scripts of what clients do with a server, and of the results: one step a line. A text costs a proof far less than one
//! call a step, and reads as a sequence of events. In a message or a response `{x*64}` means 64 x.
//!
//! | step | means |
//! |---|---|
//! | `1 joins`, `1 rejoins` | a client opens session 1, at once or once the number is free |
//! | `1 leaves` | it ends both of its connections |
//! | `1 says *SRE?`, `1 hears 0` | it sends a transmission, reads a response; `\n` is NL, omitted at a response's end |
//! | `1 continues *SRE?` | it sends a transmission that reports the responses before it as delivered |
//! | `1 asks *SRE? -> 0` | it sends a query and reads the response |
//! | `1 named`, `1 works` | it queries the device's name and reads it, once or a hundred times |
//! | `1 fills` | it saves as often as changes may be unflushed |
//! | `1 denied` | it queries the name, and nothing is received |
//! | `1 polls 0 60`, `1 polls 1 00` | its status byte; the responses sent are delivered where the first is 1 |
//! | `1 srq 60` | it receives a service request with this status byte |
//! | `1 awaits` | it queries its status until a message is available |
//! | `1 shares`, `1 locks` | it requests the shared lock, the exclusive one, and is granted it |
//! | `1 requests 300`, `1 lock-response 1` | it requests the exclusive lock with a timeout in milliseconds; the response |
//! | `1 queues` | it requests the exclusive lock, and nothing is received |
//! | `1 expires 300` | it requests the exclusive lock, which is refused, and not before that time |
//! | `1 drops`, `1 releases 1` | it requests the release of a lock, without and with the response |
//! | `1 lock-info 1 2` | whether the exclusive lock is held, and how many clients hold a lock |
//! | `1 clears`, `1 clearing`, `1 cleared` | a device clear: the whole, its beginning, its end |
//! | `1 much`, `1 drained` | it queries 134 million bytes; a clear ends after some of them |
//! | `1 sends 48 53 'HS`, `1 gets 07*2` | bytes on its synchronous connection, as tables spell them |
//! | `1 floods 2 48 53` | bytes, twice each time, until no more are accepted |
//! | `1 silent` | nothing is received for a fifth of a second |
//! | `1 async-sends 48 53` | `async-` before one of the last four: the same on its asynchronous connection |
//! | `1 ends` | both of its connections are ended |
//! | `a connects`, `a begins` | a connection, plain or of a session that is not joined |
//! | `a sends 48 53`, `a gets 48 53`, `a silent`, `a ends` | these steps on that connection |
//! | `pause`, `sleep 700` | wait until the effects so far have settled, 300 milliseconds; wait this many milliseconds |
use crate::actions::{UNREAD, client_does, expires, number, stream_does};
use crate::client::Client;
use crate::joining::{begun, connected, joined_again, joined_as, settle};
use crate::missed::Missed;
use psu_tables::parted;
use std::alloc::Global;
use std::net::{Net, TcpStream};
use std::thread;
use std::time::{Clock, Duration};

/// A connection with its letter.
#[derive(Drop)]
struct Named {
    name: String,
    stream: TcpStream,
}

/// The parties of a script: clients by the numbers of their sessions, and connections by letters, with their server.
#[derive(Drop)]
pub struct Cast<R: Drop> {
    rt: R,
    alloc: Global,
    port: u16,
    clients: Vec<Client>,
    streams: Vec<Named>,
}

// Waits this many milliseconds.
fn sleeps<R: Clock>(rt: &R, milliseconds: &str) -> Result<(), Missed> {
    let count = u64::from(number(milliseconds)?);
    thread::sleep(rt, Duration::from_millis(count));
    Ok(())
}

impl<R: Net<Stream = TcpStream> + Clock + Copy> Cast<R> {
    /// Returns a cast with no client and no connection yet, with the server at a port.
    pub fn new(rt: R, alloc: Global, port: u16) -> Cast<R> {
        Cast {
            rt,
            alloc,
            port,
            clients: Vec::new(alloc),
            streams: Vec::new(alloc),
        }
    }

    // Returns the place of the client with this number.
    fn place(&self, number: u8) -> Option<usize> {
        for (at, client) in self.clients.iter().enumerate() {
            if client.number == number {
                return Some(at);
            }
        }
        None
    }

    // Returns the client with this number.
    fn client(&mut self, number: u8) -> Result<&mut Client, Missed> {
        let Some(at) = self.place(number) else {
            return Err(UNREAD);
        };
        match self.clients.get_mut(at) {
            Some(client) => Ok(client),
            None => Err(UNREAD),
        }
    }

    // Returns the place of the connection with this letter.
    fn place_of_stream(&self, name: &str) -> Option<usize> {
        for (at, named) in self.streams.iter().enumerate() {
            if named.name.as_str() == name {
                return Some(at);
            }
        }
        None
    }

    fn add(&mut self, client: Client) -> Result<(), Missed> {
        match self.clients.push(client) {
            Ok(()) => Ok(()),
            Err(_) => Err(Missed::Ground("memory")),
        }
    }

    fn joins(&mut self, number: u8) -> Result<(), Missed> {
        let client = joined_as(&self.rt, self.port, number)?;
        self.add(client)
    }

    fn rejoins(&mut self, number: u8) -> Result<(), Missed> {
        let client = joined_again(&self.rt, self.port, number)?;
        self.add(client)
    }

    fn leaves(&mut self, number: u8) -> Result<(), Missed> {
        match self.place(number) {
            Some(at) if at < self.clients.len() => {
                drop(self.clients.remove(at));
                Ok(())
            }
            _ => Err(UNREAD),
        }
    }

    fn expires(&mut self, session: u8, rest: &str) -> Result<(), Missed> {
        let rt = self.rt;
        expires(&rt, self.client(session)?, number(rest)?)
    }

    // Makes a step of the client with this number.
    fn acts(&mut self, number: u8, word: &str, rest: &str) -> Result<(), Missed> {
        let alloc = self.alloc;
        client_does(self.client(number)?, alloc, word, rest)
    }

    fn session_does(&mut self, session: u8, word: &str, rest: &str) -> Result<(), Missed> {
        match word {
            "joins" => self.joins(session),
            "rejoins" => self.rejoins(session),
            "leaves" => self.leaves(session),
            "expires" => self.expires(session, rest),
            _ => self.acts(session, word, rest),
        }
    }

    fn add_stream(&mut self, name: &str, stream: TcpStream) -> Result<(), Missed> {
        let Ok(name) = name.to_string(self.alloc) else {
            return Err(Missed::Ground("memory"));
        };
        match self.streams.push(Named { name, stream }) {
            Ok(()) => Ok(()),
            Err(_) => Err(Missed::Ground("memory")),
        }
    }

    fn connects(&mut self, name: &str) -> Result<(), Missed> {
        let stream = connected(&self.rt, self.port)?;
        self.add_stream(name, stream)
    }

    fn begins(&mut self, name: &str) -> Result<(), Missed> {
        let (_, stream) = begun(&self.rt, self.port)?;
        self.add_stream(name, stream)
    }

    // Makes a step of the connection with this letter.
    fn carries(&mut self, name: &str, word: &str, rest: &str) -> Result<(), Missed> {
        let Some(at) = self.place_of_stream(name) else {
            return Err(UNREAD);
        };
        match self.streams.get_mut(at) {
            Some(named) => stream_does(&mut named.stream, self.alloc, word, rest),
            None => Err(UNREAD),
        }
    }

    fn connection_does(&mut self, name: &str, word: &str, rest: &str) -> Result<(), Missed> {
        match word {
            "connects" => self.connects(name),
            "begins" => self.begins(name),
            _ => self.carries(name, word, rest),
        }
    }

    /// Makes a step; returns why it failed.
    pub fn step(&mut self, step: &str) -> Result<(), Missed> {
        if step == "pause" {
            settle(&self.rt);
            return Ok(());
        }
        let (who, action) = parted(step);
        if who == "sleep" {
            return sleeps(&self.rt, action);
        }
        let (word, rest) = parted(action);
        match who.parse::<u8>() {
            Ok(session) => self.session_does(session, word, rest),
            Err(_) => self.connection_does(who, word, rest),
        }
    }
}
