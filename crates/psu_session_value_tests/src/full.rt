//! How much a session holds before its readers wait: a mebibyte, each item counting as its bytes and 128, and 65,536
//! bytes that are to be sent.
use crate::plays::{play, play_at_once};
use std::alloc::{AllocError, Global};

const RECEIVED: &str = r#"
== A mebibyte of transmissions, of which 16 count as 65,536 bytes each
1 opens
1 joins
1 room sync
16 times 1 sends DataEnd 0 xffffff00 {x*65408}
1 room sync
1 sends DataEnd 0 xffffff00
1 full sync
1 room async
1 proceeds completed
1 room sync
1 runs idle
1 room sync

== What a device clear discards is not held, once it is dropped
1 opens
1 joins
17 times 1 sends DataEnd 0 xffffff00 {x*65408}
1 full sync
1 async-sends AsyncDeviceClear
1 runs idle
1 room sync
"#;

#[test]
fn transmissions_that_wait(rt: HostRuntime) {
    play_at_once(&rt, rt.alloc(), RECEIVED);
}

// Returns a script that has a message so often between its begin and its end.
fn with_many(
    alloc: Global,
    begin: &str,
    message: &str,
    count: u32,
    end: &str,
) -> Result<String, AllocError> {
    let mut script = begin.to_string(alloc)?;
    for _ in 1..count {
        script.push_str(message)?;
        script.push_str(" & ")?;
    }
    script.push_str(message)?;
    script.push_str(end)?;
    Ok(script)
}

// A response without payload has 16 bytes, 4,096 of them 65,536.
#[test]
fn responses_that_wait(rt: HostRuntime) {
    let begin = "\n== Responses\n1 opens\n1 joins\n1 room async\n1 async-sends ";
    let end = "\n1 room async\n1 async-sends AsyncLockInfo\n1 full async\n1 room sync\n";
    let script = with_many(rt.alloc(), begin, "AsyncLockInfo", 4_096, end).expect(&rt, "memory");
    play(&rt, rt.alloc(), &script);
}

// 8,192 releases count as 1,048,576 bytes.
#[test]
fn releases_that_wait(rt: HostRuntime) {
    let begin = "\n== Releases\n1 opens\n1 joins\n1 room async\n1 async-sends ";
    let release = "AsyncLock 0 xffffff00";
    let end = "\n1 room async\n1 async-sends AsyncLock 0 xffffff00\n1 full async\n1 room sync\n";
    let script = with_many(rt.alloc(), begin, release, 8_192, end).expect(&rt, "memory");
    play(&rt, rt.alloc(), &script);
}

// 64 transmissions that count as 65,536 bytes each are four mebibytes.
#[test]
fn more_than_is_ever_held(rt: HostRuntime) {
    let begin = "\n== Transmissions\n1 opens\n1 joins\n1 sends ";
    let message = "DataEnd 0 xffffff00 {x*65408}";
    let end = "\n1 full sync\n1 overflows DataEnd 0 xffffff00\n1 over\n";
    let script = with_many(rt.alloc(), begin, message, 64, end).expect(&rt, "memory");
    play_at_once(&rt, rt.alloc(), &script);
}
