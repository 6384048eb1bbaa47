//! A day's typical use.
use crate::play::{Mismatch, plays};

const DAY: &str = "
# Twelve volts into ten ohms, where one ampere is the limit.
== a_day.image
1 joins
1 named
1 continues VOLT 12;CURR 1;OUTP ON
1 asks MEAS:VOLT?;:MEAS:CURR?;:STAT:QUES:COND? -> 10.000;1.000;2
1 asks *SAV 1;*OPC? -> 1

# What waits for the lock: a request, and a transmission.
2 joins
1 locks
2 requests 10000
2 async-silent
2 says VOLT 3;VOLT?
2 silent
1 releases 1
2 lock-response 1
2 hears 3.000
2 lock-info 1 1
2 releases 1

# All answers are delivered; then service is to be requested where an operation is complete.
1 polls 1 00
2 polls 1 00
1 says *CLS;*ESE 1;*SRE 32;*OPC
1 srq 60
1 polls 0 60
1 polls 0 20
2 srq 60
2 polls 0 60
2 polls 0 20
1 asks *ESR? -> 1
1 polls 0 10
1 polls 1 00
1 says VOLT 4
1 clears
1 named

# The settings are recalled as they were saved.
1 leaves
2 leaves
1 rejoins
1 asks *RST;VOLT?;OUTP? -> 0.000;0
1 asks *RCL 1;VOLT?;CURR?;OUTP? -> 12.000;1.000;1
1 asks SYST:ERR? -> 0,\"No error\"
";

#[test]
fn a_day(rt: HostRuntime) -> Result<(), Mismatch> {
    plays(rt, rt.alloc(), DAY)
}
