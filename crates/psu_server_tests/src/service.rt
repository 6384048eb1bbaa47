//! Service requests: their causes, and how often they are made.
use crate::play::{Mismatch, plays};

const CALLS: &str = "
# A message that is available calls its client, a further answer calls it again, and one before it was delivered does not. A further message reports
# that what came before is delivered.
== called_by_a_message.image
1 joins
2 joins
1 says *SRE 16
1 named
1 srq 50
1 polls 0 50
1 polls 0 10
1 polls 1 00
1 named
1 srq 50
1 polls 0 50
1 named
1 async-silent
1 polls 0 10
1 continues VOLT 1
1 silent
1 polls 0 00
2 polls 0 00

# What the flusher completes calls all clients, and one that comes later.
== called_by_a_flush.image run
1 joins
2 joins
1 says *CLS;*ESE 1;*SRE 32;*SAV 1;*OPC
1 async-silent
flusher released
1 srq 60
1 polls 0 60
1 polls 0 20
2 srq 60
2 polls 0 60
2 polls 0 20
3 joins
3 srq 60
3 polls 0 60
3 polls 0 20

# A session that joins is called for what was there before, also where its AsyncInitialize comes in two parts.
== called_at_a_long_join.image
1 joins
1 says *SRE 4;FOO
1 srq 44
a begins
b connects
b sends 48 53 11 00 00 00 00 02 00*5 01 00 00 00*65536
b gets 48 53 12 00*13
b gets 48 53 14 44 00*12

# An error calls by its bit of the status byte, and by its class. Nothing is flushed meanwhile, which would make others look.
== called_by_errors.image
1 joins
1 asks *CLS;*SRE 4;*OPC? -> 1
1 continues FOO
1 srq 44
1 polls 0 44
1 asks *CLS;*ESE 32;*SRE 32;*OPC? -> 1
1 continues FOO
1 srq 64
1 polls 0 64
";

#[test]
fn clients_are_called(rt: HostRuntime) -> Result<(), Mismatch> {
    plays(rt, rt.alloc(), CALLS)
}
