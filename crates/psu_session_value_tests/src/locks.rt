//! Locks between two sessions.
use crate::plays::play;

const REQUESTS: &str = r#"
== A request is granted, fails, waits, and is refused
1 opens
1 joins
2 opens
2 joins
1 async-sends AsyncLock 1 0
1 async-gets AsyncLockResponse 1
2 async-sends AsyncLock 1 0
2 async-gets AsyncLockResponse 0
2 async-sends AsyncLock 1 1000
2 async-gets nothing
2 async-sends AsyncLock 1 1000
2 async-gets AsyncLockResponse 3
1 async-sends AsyncLock 1 0 & AsyncLock 1 0 {k*257}
1 async-gets AsyncLockResponse 3 & AsyncLockResponse 3
2 async-sends AsyncLockInfo
2 async-gets AsyncLockInfoResponse 1 1

== One that waits is granted when the lock is released
1 opens
1 joins
2 opens
2 joins
1 async-sends AsyncLock 1 0
1 async-gets AsyncLockResponse 1
2 async-sends AsyncLock 1 1000
2 runs idle
2 async-gets nothing
1 async-sends AsyncLock 0 xfffffefe
1 runs idle
1 async-gets AsyncLockResponse 1
2 granted
2 async-gets AsyncLockResponse 1
2 refused
2 async-gets nothing
lock-info exclusive 1

== One that waits fails when its timeout is over
1 opens
1 joins
2 opens
2 joins
1 async-sends AsyncLock 1 0
1 async-gets AsyncLockResponse 1
2 async-sends AsyncLock 1 1000
2 async-gets nothing
tick 999
tick 1000 fails 2
2 refused
2 async-gets AsyncLockResponse 0

== A second request is refused while one waits, whatever it asks for
1 opens
1 joins
2 opens
2 joins
1 async-sends AsyncLock 1 0
1 async-gets AsyncLockResponse 1
2 async-sends AsyncLock 1 1000
2 async-gets nothing
2 async-sends AsyncLock 1 0 & AsyncLock 1 0 k & AsyncLock 1 0 {k*257}
2 async-gets AsyncLockResponse 3 & AsyncLockResponse 3 & AsyncLockResponse 3
lock-info exclusive 1

== A second request is refused while the grant of the first is on its way
1 opens
1 joins
2 opens
2 joins
1 async-sends AsyncLock 1 0
1 async-gets AsyncLockResponse 1
2 async-sends AsyncLock 1 1000
1 async-sends AsyncLock 0 xfffffefe
1 runs idle
1 async-gets AsyncLockResponse 1
lock-info exclusive 1
2 async-sends AsyncLock 1 0 k
2 async-gets AsyncLockResponse 3
2 granted
2 async-gets AsyncLockResponse 1
2 async-sends AsyncLock 1 0 k & AsyncLock 0 xfffffefe & AsyncLock 0 xfffffefe
2 runs idle
2 async-gets AsyncLockResponse 1 & AsyncLockResponse 1 & AsyncLockResponse 2
lock-info shared 0

== A result where no request waits
1 opens
1 joins
1 refused
1 async-gets nothing
1 async-sends AsyncLock 1 0
1 async-gets AsyncLockResponse 1
1 refused
1 async-gets nothing
"#;

#[test]
fn requests(rt: HostRuntime) {
    play(&rt, rt.alloc(), REQUESTS);
}

const LOCKED_OUT: &str = r#"
== A unit waits while another session has the lock
1 opens
1 joins
2 opens
2 joins
2 sends DataEnd 0 xffffff00 VOLT 3;VOLT?\n
1 async-sends AsyncLock 1 0
1 async-gets AsyncLockResponse 1
2 proceeds lock
2 proceeds lock
2 gets nothing
2 async-sends AsyncStatusQuery
2 async-gets AsyncStatusResponse 0
1 says VOLT?
1 hears 0.000
1 async-sends AsyncLock 0 xffffff00
1 runs idle
1 async-gets AsyncLockResponse 1
2 runs idle
2 hears 3.000
2 async-gets nothing

== Both share a lock
1 opens
1 joins
2 opens
2 joins
1 async-sends AsyncLock 1 0 k
1 async-gets AsyncLockResponse 1
2 async-sends AsyncLock 1 0 k & AsyncLockInfo
2 async-gets AsyncLockResponse 1 & AsyncLockInfoResponse 0 2
2 says *TST?
2 hears 0
1 async-sends AsyncLock 1 0
1 async-gets AsyncLockResponse 1
2 sends DataEnd 0 xffffff00 *TST?\n
2 proceeds lock
2 async-sends AsyncLockInfo
2 async-gets AsyncLockInfoResponse 1 2
"#;

#[test]
fn sessions_that_a_lock_keeps_out(rt: HostRuntime) {
    play(&rt, rt.alloc(), LOCKED_OUT);
}
