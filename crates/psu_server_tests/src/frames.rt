//! Invalid frames, and first messages.
use crate::play::{Mismatch, plays};

const ERRORS: &str = "
# An unknown type, one of a vendor, an unknown control code, a size without its bytes, frames of the other channel: the session continues after each.
== errors.image
1 joins
1 sends 'HS 1a 00 00*12
1 gets 'HS 03 01 00*12
1 async-sends 'HS 1a 00 00*12
1 async-gets 'HS 03 01 00*12
1 sends 'HS c8 00 00*12
1 gets 'HS 03 03 00*12
1 async-sends 'HS c8 00 00*12
1 async-gets 'HS 03 03 00*12
1 async-sends 'HS 04 02 00*12
1 async-gets 'HS 03 02 00*12
1 async-sends 'HS 0f 00 00*12
1 async-gets 'HS 03 00 00*12
1 sends 'HS 15 00 00*12
1 gets 'HS 03 01 00*12
1 async-sends 'HS 0c 00 00*12
1 async-gets 'HS 03 01 00*12
1 named
1 polls 1 00

# A length of eight bytes ff: all that follows is its payload, on that connection.
== endless_frame.image
1 joins
1 sends 'HS 07 00 ff*3 00 ff*8
1 gets 'HS 03 04 00*12
1 says *IDN?
1 silent
1 polls 0 00
1 async-sends 'HS 15 00 00*4 ff*8
1 async-gets 'HS 03 04 00*12
1 async-sends 'HS 15 00 00*12
1 async-silent
2 joins
2 named
";

#[test]
fn errors_are_sent_and_the_session_continues(rt: HostRuntime) -> Result<(), Mismatch> {
    plays(rt, rt.alloc(), ERRORS)
}

const FIRST: &str = "
# No header, a type that begins nothing, sessions that wait for no connection, a payload that is too long: each ends its own connection alone.
== first_frames.image
1 joins
a connects
a sends 'HT 00*14
a gets 'HS 02 01 00*12
a ends
b connects
b sends 'HS 15 00 00*12
b gets 'HS 02 03 00*12
b ends
c connects
c sends 'HS 11 00 00*3 09 00*8
c gets 'HS 02 03 00*12
c ends
d connects
d sends 'HS 11 00 00 01 00 01 00*8
d gets 'HS 02 03 00*12
d ends
e connects
e sends 'HS 11 00 00*3 01 00*8
e gets 'HS 02 03 00*12
e ends
f connects
f sends 'HS 00 00 01 00*3 00*5 01 00 01
f gets 'HS 02 03 00*12
f ends
1 named
1 polls 1 00

# A session is not used before it is joined.
== early_frame.image
1 joins
a begins
a sends 'HS 06 00 00*12
a gets 'HS 02 02 00*12
a ends
1 named

# Messages are read in whatever pieces their bytes arrive: Initialize for the device hislip0 in three pieces; AsyncInitialize and
# AsyncLockInfo in one.
== first_messages.image
a connects
a sends 'HS 00 00 01
a silent
a sends 00*10 07 'hi
a silent
a sends 'slip0
a gets 'HS 01 00 01 00 00 01 00*8
b connects
b sends 'HS 11 00 00*3 01 00*8 'HS 18 00 00*12
b gets 'HS 12 00 00*12 'HS 19 00 00*12

# Initialize and a question in one piece: the session begins, and ends for what came before its second connection.
== asked_too_early.image
a connects
a sends 'HS 00 00 01 00*11 'HS 07 00 ff*3 00*8 05 '*IDN?
a gets 'HS 01 00 01 00 00 01 00*8
a gets 'HS 02 02 00*12
a ends
";

#[test]
fn a_first_frame_may_be_fatal(rt: HostRuntime) -> Result<(), Mismatch> {
    plays(rt, rt.alloc(), FIRST)
}

const FATAL: &str = "
# It comes where the fault came, and both connections end; another session continues.
== fatal_errors.image
1 joins
2 joins
3 joins
2 sends 'HT 00*14
2 gets 'HS 02 01 00*12
2 ends
3 async-sends 'HS 11 00 00*3 03 00*8
3 async-gets 'HS 02 03 00*12
3 ends
1 named
";

#[test]
fn a_fatal_error_ends_its_session(rt: HostRuntime) -> Result<(), Mismatch> {
    plays(rt, rt.alloc(), FATAL)
}
