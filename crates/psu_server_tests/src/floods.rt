//! Clients that do not read, and clients that flood.
use crate::play::{Mismatch, plays};

const UNREAD: &str = "
# A client that does not read its answer delays itself alone, and its session ends when it does.
== unread_answer.image
1 joins
2 joins
1 much
1 awaits
pause
2 works
1 polls 0 10
1 leaves
1 rejoins
1 works

# So does one that reads no status: status queries, 4,096 at once. A call for it and what it waits for delay nobody else; the one that calls is called
# too.
== unread_status.image
1 joins
2 joins
2 async-floods 4096 'HS 15 00 00*12
1 says *CLS;*ESE 1;*SRE 32;*OPC
1 srq 60
1 works
1 locks
1 releases 1
2 leaves
2 rejoins
2 works
";

#[test]
fn a_client_that_does_not_read_delays_itself(rt: HostRuntime) -> Result<(), Mismatch> {
    plays(rt, rt.alloc(), UNREAD)
}

const HELD_BACK: &str = "
# Sessions that a lock denies are read no further at some time; the others work, and a clear begins. Transmissions of 65,520 bytes; Triggers, and
# releases after a unit that is held back, 4,096 at once.
== floods.image
1 joins
1 locks
2 joins
2 floods 1 'HS 07 00 00*4 00*6 ff f0 78*65520
1 works
2 clearing
3 joins
3 floods 4096 'HS 0c 00 00*12
4 joins
4 says *IDN?
4 async-floods 4096 'HS 04 00 00*12
1 works
3 clearing
1 releases 1
1 works
";

#[test]
fn a_flood_is_held_back(rt: HostRuntime) -> Result<(), Mismatch> {
    plays(rt, rt.alloc(), HELD_BACK)
}
