//! What a session was sent before a connection ended is executed: 65,536 units of it at most, up to one that has to wait.
use crate::plays::play_at_once;
use std::process::Abort;

const AFTER_THE_END: &str = r#"
== 65,536 units are tried, and the last of them too
1 opens
1 joins
7 times 1 sends DataEnd 0 xffffff00 {VOLT 1;*8192}\n
1 sends DataEnd 0 xffffff00 {VOLT 1;*8191}VOLT 7\n
1 leaves
1 runs disconnected
1 over
2 opens
2 joins
2 says VOLT?
2 hears 7.000

== One unit more is not tried
1 opens
1 joins
7 times 1 sends DataEnd 0 xffffff00 {VOLT 1;*8192}\n
1 sends DataEnd 0 xffffff00 {VOLT 1;*8192}VOLT 7\n
1 leaves
1 runs disconnected
1 over
2 opens
2 joins
2 says VOLT?
2 hears 1.000

== Nothing is lost where all is executed
1 opens
1 joins
1 sends DataEnd 0 xffffff00 VOLT 2;VOLT 3\n
1 leaves
1 runs idle
1 sends DataEnd 0 xffffff04 VOLT 4\n
1 runs idle
2 opens
2 joins
2 says VOLT?
2 hears 4.000

== A unit that has to wait ends it
1 opens
1 joins
1 sends DataEnd 0 xffffff00 VOLT 2;*SAV 1;*OPC?;VOLT 3\n
1 leaves
1 runs flush
1 over
2 opens
2 joins
2 says VOLT?
2 hears 2.000
"#;

#[test]
fn after_the_end(rt: HostRuntime) {
    play_at_once(&rt, rt.alloc(), AFTER_THE_END);
}
