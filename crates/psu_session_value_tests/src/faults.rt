//! Errors and FatalErrors.
use crate::plays::play;

const ERRORS: &str = r#"
== The session continues after an error
1 opens
1 joins
1 sends 26 & 200 & AsyncStatusQuery
1 gets Error 1 & Error 3 & Error 1
1 async-sends 26 & 200 & DataEnd 0 xffffff00 *TST?\n
1 async-gets Error 1 & Error 3 & Error 1
1 async-sends AsyncLock 2 & AsyncRemoteLocalControl 7 & AsyncMaximumMessageSize 0 0 1234567
1 async-gets Error 2 & Error 2 & Error 0
1 says *TST?
1 hears 0
1 serves

== A payload over 65,536 bytes
1 opens
1 joins
1 sends Data 0 xffffff00 VOLT 3; & Data 0 xffffff02 {x*65537} & DataEnd 0 xffffff04 VOLT?\n
1 runs idle
1 gets Error 4 & DataEnd 0 xffffff04 3.000\n
1 async-sends AsyncStatusQuery 0 0 {x*65537} & AsyncLockInfo
1 async-gets Error 4 & AsyncLockInfoResponse
1 serves
"#;

#[test]
fn errors(rt: HostRuntime) {
    play(&rt, rt.alloc(), ERRORS);
}

const FATAL_ERRORS: &str = r#"
== A header that is not one
1 opens
1 joins
1 serves
1 says *TST?
1 sends = 'HT 00*14
1 fatal
1 sends DataEnd 0 xffffff02 VOLT?\n
1 async-sends AsyncStatusQuery
1 runs idle
1 gets DataEnd 0 xffffff00 0\n & FatalError 1
1 async-gets nothing

== A message before the second connection
1 opens
1 sends DataEnd 0 xffffff00 *TST?\n
1 runs idle
1 gets FatalError 2
1 fatal

== Initialize where it is not first
1 opens
1 joins
1 async-sends AsyncInitialize 0 1
1 async-gets FatalError 3
1 gets nothing
1 fatal
"#;

#[test]
fn fatal_errors(rt: HostRuntime) {
    play(&rt, rt.alloc(), FATAL_ERRORS);
}
