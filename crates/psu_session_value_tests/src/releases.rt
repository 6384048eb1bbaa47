//! Releases of locks, each after the message that its parameter names.
use crate::plays::play;

const RESULTS: &str = r#"
== The exclusive lock is released first, then the shared one
1 opens
1 joins
1 async-sends AsyncLock 1 0 k & AsyncLock 1 0
1 async-gets AsyncLockResponse 1 & AsyncLockResponse 1
lock-info exclusive 1
1 async-sends AsyncLock 0 xfffffefe & AsyncLock 0 xfffffefe & AsyncLock 0 xfffffefe
1 runs idle
1 async-gets AsyncLockResponse 1 & AsyncLockResponse 2 & AsyncLockResponse 3
lock-info shared 0
"#;

#[test]
fn results_of_releases(rt: HostRuntime) {
    play(&rt, rt.alloc(), RESULTS);
}

const PLACES: &str = r#"
== After the transmission before it, though its unit waits
1 opens
1 joins
1 async-sends AsyncLock 1 0
1 async-gets AsyncLockResponse 1
1 sends DataEnd 0 xffffff00 *SAV 1;*OPC?\n
1 async-sends AsyncLock 0 xffffff00 & AsyncStatusQuery
1 proceeds flush
1 async-gets AsyncStatusResponse 0
lock-info exclusive 1
flush 1
1 proceeds completed
lock-info exclusive 1
1 proceeds completed
1 async-gets AsyncLockResponse 1
lock-info shared 0
1 gets DataEnd 0 xffffff00 1\n

== Before the transmission after it
1 opens
1 joins
1 async-sends AsyncLock 1 0
1 async-gets AsyncLockResponse 1
1 async-sends AsyncLock 0 xfffffefe
1 sends DataEnd 0 xffffff00 *TST?\n
1 proceeds completed
1 async-gets AsyncLockResponse 1
1 gets nothing
1 runs idle
1 hears 0

== After a message that is still to be received
1 opens
1 joins
1 async-sends AsyncLock 1 0
1 async-gets AsyncLockResponse 1
1 async-sends AsyncLock 0 xffffff02
1 sends DataEnd 0 xffffff00 VOLT 3\n
1 runs idle
1 async-gets nothing
lock-info exclusive 1
1 sends DataEnd 0 xffffff02 VOLT?\n
1 runs idle
1 gets DataEnd 0 xffffff02 3.000\n
1 async-gets AsyncLockResponse 1
lock-info shared 0
"#;

#[test]
fn places_of_releases(rt: HostRuntime) {
    play(&rt, rt.alloc(), PLACES);
}

const WAITS: &str = r#"
== It waits a tenth of a second
1 opens
1 joins
1 async-sends AsyncLock 1 0
1 async-gets AsyncLockResponse 1
1 due never
at 1000
1 async-sends AsyncLock 0 xffffff00
1 due 1100
at 1099
1 ticks
1 runs idle
1 async-gets nothing
1 due 1100
at 1100
1 ticks
1 due never
1 runs idle
1 async-gets AsyncLockResponse 1

== The first of two is due first
1 opens
1 joins
1 async-sends AsyncLock 1 0 k & AsyncLock 1 0
1 async-gets AsyncLockResponse 1 & AsyncLockResponse 1
at 1000
1 async-sends AsyncLock 0 xffffff00
at 1030
1 async-sends AsyncLock 0 xffffff02
1 due 1100
1 sends DataEnd 0 xffffff00 *TST?\n
1 due 1130

== It waits for one of the next 65,536 numbers
1 opens
1 joins
1 async-sends AsyncLock 1 0
1 async-gets AsyncLockResponse 1
1 async-sends AsyncLock 0 x0000fefe
1 runs idle
1 async-gets nothing
at 100
1 ticks
1 runs idle
1 async-gets AsyncLockResponse 1

== It does not wait for another number
1 opens
1 joins
1 async-sends AsyncLock 1 0
1 async-gets AsyncLockResponse 1
1 async-sends AsyncLock 0 x0000feff
1 runs idle
1 async-gets AsyncLockResponse 1

== A device clear ends its wait
1 opens
1 joins
1 async-sends AsyncLock 1 0
1 async-gets AsyncLockResponse 1
1 async-sends AsyncLock 0 xffffff00 & AsyncDeviceClear
1 runs idle
1 async-gets AsyncDeviceClearAcknowledge & AsyncLockResponse 1

== After a device clear the numbers begin again
1 opens
1 joins
1 async-sends AsyncLock 1 0
1 sends DataEnd 0 xffffff00 VOLT 3\n
1 runs idle
1 async-sends AsyncDeviceClear
1 sends DeviceClearComplete
1 gets DeviceClearAcknowledge
1 async-gets AsyncLockResponse 1 & AsyncDeviceClearAcknowledge
1 async-sends AsyncLock 0 xffffff00
1 runs idle
1 async-gets nothing
1 sends DataEnd 0 xffffff00 VOLT?\n
1 runs idle
1 gets DataEnd 0 xffffff00 3.000\n
1 async-gets AsyncLockResponse 1
"#;

#[test]
fn waits_of_releases(rt: HostRuntime) {
    play(&rt, rt.alloc(), WAITS);
}
