//! Bytes that are taken and are not yet written, and a session that is over.
use crate::plays::play;

const WRITING: &str = r#"
== Bytes are taken once those before are written
1 opens
1 joins
1 says *IDN?
1 unsent
1 fetches DataEnd 0 xffffff00 EXAMPLE,PSU4,0,1.0\n
1 sends DataEnd 1 xffffff02 *TST?\n
1 runs idle
1 unsent
1 fetches nothing
1 written
1 fetches DataEnd 0 xffffff02 0\n
1 sends DataEnd 1 xffffff04 VOLT?\n & DataEnd 1 xffffff06 *TST?\n
1 runs idle
1 fetches nothing
1 written
1 fetches DataEnd 0 xffffff04 0.000\n & DataEnd 0 xffffff06 0\n
1 written
1 fetches nothing

== One connection is written while the other is
1 opens
1 joins
1 says *TST?
1 fetches DataEnd 0 xffffff00 0\n
1 async-sends AsyncLockInfo
1 async-gets AsyncLockInfoResponse
1 fetches nothing
"#;

#[test]
fn bytes_that_are_written(rt: HostRuntime) {
    play(&rt, rt.alloc(), WRITING);
}

const ENDS: &str = r#"
== Nothing more is done for a session that is over
1 opens
1 joins
1 sends DataEnd 0 xffffff00 *SAV 1;*OPC?\n
1 leaves
1 runs flush
1 over
1 runs disconnected
1 written
1 over
"#;

#[test]
fn sessions_that_are_over(rt: HostRuntime) {
    play(&rt, rt.alloc(), ENDS);
}
