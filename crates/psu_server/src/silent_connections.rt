//! The connections that have not sent their first message.
use psu_session_io::ConnectionEnd;
use std::alloc::Global;
use std::collections::VecDeque;

/// How many connections may be silent.
const SILENT_MOST: usize = 64;

#[derive(Drop)]
struct Connection {
    number: u64,
    end: ConnectionEnd,
}

/// The connections that have not sent their first message, oldest first. Where there are too many the oldest ends, so a
/// client that sends at once is served however many are silent.
#[derive(Drop)]
pub(crate) struct SilentConnections {
    next: u64,
    connections: VecDeque<Connection>,
}

impl SilentConnections {
    /// Returns an empty list.
    pub fn new(alloc: Global) -> SilentConnections {
        SilentConnections {
            next: 0,
            connections: VecDeque::new(alloc),
        }
    }

    /// Adds a connection. Returns its number in the list.
    pub fn add(&mut self, end: ConnectionEnd) -> u64 {
        let number = self.next;
        self.next = self.next.wrapping_add(1);
        if self.connections.len() >= SILENT_MOST {
            if let Some(oldest) = self.connections.pop_front() {
                oldest.end.shut();
            }
        }
        if let Err(refused) = self.connections.push_back(Connection { number, end }) {
            refused.value.end.shut();
        }
        number
    }

    /// Removes a connection, which has sent its first message or has ended.
    pub fn remove(&mut self, number: u64) {
        self.connections
            .retain(|connection| connection.number != number);
    }
}
