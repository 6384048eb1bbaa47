//! Units that wait.
use crate::plays::play;

const FLUSHES: &str = r#"
== A unit waits until the changes before it are flushed
1 opens
1 joins
1 sends DataEnd 0 xffffff00 *SAV 1;*OPC?;*TST?\n
1 proceeds flush
1 gets nothing
1 proceeds flush
1 gets nothing
flush 1
1 proceeds completed
1 gets DataEnd 0 xffffff00 1;0\n
1 proceeds idle

== What was executed before a wait is not executed again
1 opens
1 joins
1 sends DataEnd 0 xffffff00 FOO;*SAV 1;*OPC?;*SAV 2;*WAI;SYST:ERR:COUN?\n
1 proceeds flush
1 proceeds flush
flush 1
1 proceeds flush
flush 1
1 proceeds completed
1 gets DataEnd 0 xffffff00 1;1\n

== A transmission is queued after one that waits
1 opens
1 joins
1 sends DataEnd 0 xffffff00 *SAV 1;*OPC?\n
1 proceeds flush
1 sends DataEnd 0 xffffff02 *TST?\n
1 proceeds flush
1 gets nothing
flush 1
1 runs idle
1 gets DataEnd 0 xffffff00 1\n & DataEnd 0 xffffff02 0\n

== Another session is served meanwhile
1 opens
1 joins
2 opens
2 joins
1 sends DataEnd 0 xffffff00 VOLT 3;*SAV 1;*OPC?\n
1 proceeds flush
2 says VOLT?
2 hears 3.000
flush 1
1 runs idle
1 hears 1
2 runs idle
2 gets nothing
"#;

#[test]
fn units_that_wait_for_a_flush(rt: HostRuntime) {
    play(&rt, rt.alloc(), FLUSHES);
}

const ROOM: &str = r#"
== A unit waits while 1,024 changes are not flushed
1 opens
1 joins
1 sends DataEnd 0 xffffff00 {*SAV 2;*1024}*SAV 3;*TST?\n
1 runs room
1 proceeds room
flush
1 runs idle
1 gets DataEnd 0 xffffff00 0\n
"#;

#[test]
fn a_unit_that_waits_for_room(rt: HostRuntime) {
    play(&rt, rt.alloc(), ROOM);
}
