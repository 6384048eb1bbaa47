//! The results of reads of a connection, as POSIX defines those of `read`. Here, since only threads that read a socket see
//! them; no test over sockets can interrupt a read.
use psu_session_io::ReadResult;
use std::io::{Error, ErrorKind};

// Whether a read that fails so has this result.
fn fails_as(kind: ErrorKind, wanted: ReadResult) -> bool {
    ReadResult::of(&Err(Error::from(kind))) == wanted
}

// EINTR, as where the server is stopped and continued, and the two errors of a read whose time is over do not end the
// connection: the read is made again.
#[test]
fn an_interrupted_read_is_no_end(rt: HostRuntime) {
    assert!(rt; fails_as(ErrorKind::Interrupted, ReadResult::Nothing));
    assert!(rt; fails_as(ErrorKind::WouldBlock, ReadResult::Nothing));
    assert!(rt; fails_as(ErrorKind::TimedOut, ReadResult::Nothing));
}

// A read of no byte is the end of the stream, and so is another error.
#[test]
fn a_read_of_nothing_is_the_end(rt: HostRuntime) {
    assert!(rt; ReadResult::of(&Ok(0)) == ReadResult::End);
    assert!(rt; fails_as(ErrorKind::ConnectionReset, ReadResult::End));
    assert!(rt; ReadResult::of(&Ok(16)) == ReadResult::Bytes(16));
}
