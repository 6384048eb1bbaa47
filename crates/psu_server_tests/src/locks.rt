//! Locks: which sessions are granted them, which they hold back, and how a lock passes from one session to another.
use crate::play::{Mismatch, plays};

const LOCKS: &str = "
# Two share a lock; one of them has the exclusive lock beside it, and releases one after the other.
== shared_lock.image
1 joins
2 joins
1 shares
2 shares
1 locks
2 denied
1 lock-info 1 2
1 releases 1
2 hears EXAMPLE,PSU4,0,1.0
1 releases 2
1 releases 3
2 lock-info 0 1

# A request without time fails at once, one with some after it; where the lock is released before, it is granted.
== lock_timeout.image
1 joins
2 joins
1 locks
2 requests 0
2 lock-response 0
2 expires 300
2 queues
1 releases 1
2 lock-response 1
2 lock-info 1 1

# A lock that is held already is refused, and so is a string of more than 256 bytes.
== lock_twice.image
1 joins
1 locks
1 requests 0
1 lock-response 3
1 async-sends 'HS 04 01 00*4 00*6 01 01
1 async-sends 6b*257
1 lock-response 3
1 lock-info 1 1

# A session that is denied requests the shared lock, and is denied no more.
== lock_of_the_denied.image
1 joins
2 joins
1 shares
2 denied
2 shares
2 hears EXAMPLE,PSU4,0,1.0
";

#[test]
fn locks_hold_back_and_free(rt: HostRuntime) -> Result<(), Mismatch> {
    plays(rt, rt.alloc(), LOCKS)
}

const TURNS: &str = "
# A session ends while its request waits: the next of its number gets no response and holds nothing.
== request_of_an_end.image
1 joins
1 locks
2 joins
2 queues
2 leaves
2 rejoins
1 releases 1
2 lock-info 0 0
2 async-silent
2 releases 3
2 named

# A session ends while it holds the lock: who waits for it is granted it, and what it held back is executed.
== lock_of_an_end.image
1 joins
1 locks
2 joins
2 queues
2 denied
1 leaves
2 lock-response 1
2 hears EXAMPLE,PSU4,0,1.0

# The same where it has requested no lock.
== lock_of_a_holder.image
1 joins
1 locks
2 joins
2 denied
1 leaves
2 hears EXAMPLE,PSU4,0,1.0

# Three request the lock; each is granted it in the order of their requests, by a release or an end.
== lock_in_turn.image
1 joins
2 joins
3 joins
1 locks
3 queues
2 queues
1 releases 1
3 lock-response 1
2 async-silent
3 leaves
2 lock-response 1

# A release is made once what came before it has been executed; other questions are answered meanwhile.
== late_release.image run
1 joins
1 locks
1 says *SAV 1;*OPC?
1 silent
1 drops
1 async-silent
1 polls 0 00
1 lock-info 1 1
flusher released
1 hears 1
1 lock-response 1
1 lock-info 0 0
";

#[test]
fn a_lock_goes_from_one_to_another(rt: HostRuntime) -> Result<(), Mismatch> {
    plays(rt, rt.alloc(), TURNS)
}
