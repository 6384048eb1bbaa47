//! A client with a session: a synchronous and an asynchronous connection.
use crate::missed::{Missed, holds};
use crate::wire::{bare, expect_bytes, expect_header, is_silent, length, next, send, skip};
use psu_tables::header;
use std::net::TcpStream;

/// The MessageID of the messages that a client sends.
const MESSAGE: u32 = 0xffff_ff00;

/// The MessageID that means that a client has sent no message yet.
pub(crate) const NO_MESSAGE: u32 = 0xffff_fefe;

/// A client with a session.
#[derive(Drop)]
pub struct Client {
    pub number: u8,
    pub sync: TcpStream,
    pub other: TcpStream,
    /// The MessageID of the last message that was sent.
    pub last: u32,
}

impl Client {
    /// Sends a transmission in one DataEnd.
    pub fn say(&mut self, text: &[u8]) -> Result<(), Missed> {
        self.say_as(MESSAGE, text)
    }

    /// Sends a transmission with this MessageID.
    pub fn say_as(&mut self, number: u32, text: &[u8]) -> Result<(), Missed> {
        self.last = number;
        send(&mut self.sync, &header(7, 0, number, text.len() as u64))?;
        send(&mut self.sync, text)
    }

    /// Sends a transmission, and reports that the responses before it were delivered.
    pub(crate) fn say_on(&mut self, text: &[u8]) -> Result<(), Missed> {
        self.last = MESSAGE;
        send(&mut self.sync, &header(7, 1, MESSAGE, text.len() as u64))?;
        send(&mut self.sync, text)
    }

    /// Reads this response, in one DataEnd.
    pub fn hear(&mut self, text: &[u8]) -> Result<(), Missed> {
        expect_header(&mut self.sync, header(7, 0, MESSAGE, text.len() as u64))?;
        expect_bytes(&mut self.sync, text)
    }

    /// Sends a query and reads this response.
    pub fn ask(&mut self, question: &[u8], answer: &[u8]) -> Result<(), Missed> {
        self.say(question)?;
        self.hear(answer)
    }

    /// Queries the device's name and reads it.
    pub fn is_served(&mut self) -> Result<(), Missed> {
        self.ask(b"*IDN?\n", b"EXAMPLE,PSU4,0,1.0\n")
    }

    /// Queries the device's name a hundred times.
    pub fn works(&mut self) -> Result<(), Missed> {
        for _ in 0..100u32 {
            self.is_served()?;
        }
        Ok(())
    }

    /// Saves as often as changes may be unflushed; the flusher is held meanwhile.
    pub fn fill(&mut self) -> Result<(), Missed> {
        for _ in 0..1_024u32 {
            self.ask(b"*SAV 2;*SRE?", b"0\n")?;
        }
        Ok(())
    }

    /// Sends a frame on the asynchronous connection and reads this answer.
    pub(crate) fn exchange(&mut self, question: [u8; 16], answer: [u8; 16]) -> Result<(), Missed> {
        send(&mut self.other, &question)?;
        expect_header(&mut self.other, answer)
    }

    /// Queries the status byte, which must be this; `control` reports whether the responses that were sent are
    /// delivered.
    pub fn poll(&mut self, control: u8, byte: u8) -> Result<(), Missed> {
        self.exchange(bare(21, control), bare(22, byte))
    }

    /// Reads a service request with this status byte.
    pub fn is_requested(&mut self, byte: u8) -> Result<(), Missed> {
        expect_header(&mut self.other, bare(20, byte))
    }

    /// Requests the exclusive lock, with a timeout in milliseconds.
    pub fn request_lock(&mut self, timeout: u32) -> Result<(), Missed> {
        send(&mut self.other, &header(4, 1, timeout, 0))
    }

    /// Reads the answer to a lock request or to a release.
    pub fn expect_lock_response(&mut self, control: u8) -> Result<(), Missed> {
        expect_header(&mut self.other, bare(5, control))
    }

    /// Requests the exclusive lock, which another client has; no answer comes.
    pub(crate) fn queue_for_lock(&mut self) -> Result<(), Missed> {
        self.request_lock(60_000)?;
        is_silent(&mut self.other)
    }

    /// Takes the shared lock by the name `k`.
    pub(crate) fn share(&mut self) -> Result<(), Missed> {
        send(&mut self.other, &header(4, 1, 0, 1))?;
        send(&mut self.other, b"k")?;
        self.expect_lock_response(1)
    }

    /// Sends a query that a lock holds back; no answer comes.
    pub(crate) fn is_denied(&mut self) -> Result<(), Missed> {
        self.say(b"*IDN?\n")?;
        is_silent(&mut self.sync)
    }

    /// Takes the exclusive lock, which no client has.
    pub fn lock(&mut self) -> Result<(), Missed> {
        self.request_lock(0)?;
        self.expect_lock_response(1)
    }

    /// Requests the release of a lock, after the message of this number.
    pub fn request_release(&mut self, number: u32) -> Result<(), Missed> {
        send(&mut self.other, &header(4, 0, number, 0))
    }

    /// Releases a lock; the answer is 1 for the exclusive one, 2 for the shared one, 3 where none was held.
    pub fn release(&mut self, control: u8) -> Result<(), Missed> {
        self.request_release(self.last)?;
        self.expect_lock_response(control)
    }

    /// Queries the locks: whether the exclusive lock is held, and how many clients hold one.
    pub(crate) fn lock_info_is(&mut self, exclusive: u8, holders: u32) -> Result<(), Missed> {
        self.exchange(bare(24, 0), header(25, exclusive, holders, 0))
    }

    /// Begins a device clear.
    pub fn begin_clear(&mut self) -> Result<(), Missed> {
        self.exchange(bare(19, 0), bare(23, 0))
    }

    /// Ends a device clear: nothing is received before it is acknowledged.
    pub fn end_clear(&mut self) -> Result<(), Missed> {
        send(&mut self.sync, &bare(8, 0))?;
        expect_header(&mut self.sync, bare(9, 0))
    }

    /// Ends a device clear: a response from before it may be on its way.
    pub fn end_late(&mut self) -> Result<(), Missed> {
        send(&mut self.sync, &bare(8, 0))?;
        let got = next(&mut self.sync)?;
        if got == bare(9, 0) {
            return Ok(());
        }
        holds(got[2] == 7, "an answer")?;
        skip(&mut self.sync, length(&got))?;
        expect_header(&mut self.sync, bare(9, 0))
    }

    /// Clears the device for this session.
    pub fn clear(&mut self) -> Result<(), Missed> {
        self.begin_clear()?;
        self.end_clear()
    }

    /// Queries the status byte until a message is available, at most a million times.
    pub fn await_message(&mut self) -> Result<(), Missed> {
        for _ in 0..1_000_000u32 {
            send(&mut self.other, &bare(21, 0))?;
            let got = next(&mut self.other)?;
            holds(got[2] == 22 && length(&got) == 0, "a status response")?;
            if got[3] & 16 != 0 {
                return Ok(());
            }
        }
        Err(Missed::Claim("a message is available"))
    }
}
