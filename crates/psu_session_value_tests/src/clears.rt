//! Device clears: AsyncDeviceClear, AsyncDeviceClearAcknowledge, DeviceClearComplete, DeviceClearAcknowledge.
use crate::plays::play;

const DROPPED: &str = r#"
== A transmission that has not begun
1 opens
1 joins
1 sends DataEnd 0 xffffff00 VOLT 3;VOLT?\n & DataEnd 0 xffffff02 VOLT?\n
1 async-sends AsyncDeviceClear
1 async-gets AsyncDeviceClearAcknowledge
1 runs idle
1 gets nothing
1 sends DeviceClearComplete
1 gets DeviceClearAcknowledge
1 says VOLT?
1 hears 0.000

== A transmission whose unit waits
1 opens
1 joins
1 sends DataEnd 0 xffffff00 *TST?;*SAV 1;*OPC?;VOLT 3\n
1 proceeds flush
1 async-sends AsyncDeviceClear
1 async-gets AsyncDeviceClearAcknowledge
flush
1 runs idle
1 sends DeviceClearComplete
1 gets DeviceClearAcknowledge
1 says VOLT?
1 hears 0.000

== A part of a transmission
1 opens
1 joins
1 sends Data 0 xffffff00 VOLT 3;
1 async-sends AsyncDeviceClear
1 async-gets AsyncDeviceClearAcknowledge
1 sends DeviceClearComplete & DataEnd 0 xffffff00 VOLT?\n
1 runs idle
1 gets DeviceClearAcknowledge & DataEnd 0 xffffff00 0.000\n

== What is received before DeviceClearComplete
1 opens
1 joins
1 async-sends AsyncDeviceClear
1 async-gets AsyncDeviceClearAcknowledge
1 sends Data 0 xffffff00 VOLT 3; & DataEnd 0 xffffff02 VOLT?\n & Trigger 0 xffffff04
1 runs idle
1 gets nothing
1 sends DeviceClearComplete & DataEnd 0 xffffff00 VOLT?;:SYST:ERR:COUN?\n
1 runs idle
1 gets DeviceClearAcknowledge & DataEnd 0 xffffff00 0.000;0\n
"#;

#[test]
fn what_a_clear_drops(rt: HostRuntime) {
    play(&rt, rt.alloc(), DROPPED);
}

const ORDERS: &str = r#"
== The acknowledgement follows every response of before
1 opens
1 joins
1 says *IDN?
1 async-sends AsyncDeviceClear
1 sends DeviceClearComplete
1 gets DataEnd 0 xffffff00 EXAMPLE,PSU4,0,1.0\n & DeviceClearAcknowledge
1 async-gets AsyncDeviceClearAcknowledge

== DeviceClearComplete is received first
1 opens
1 joins
1 sends DeviceClearComplete
1 gets DeviceClearAcknowledge
1 async-sends AsyncDeviceClear
1 async-gets AsyncDeviceClearAcknowledge
1 says *TST?
1 hears 0

== One clear after another
1 opens
1 joins
1 async-sends AsyncDeviceClear
1 sends DataEnd 0 xffffff00 VOLT 3\n & DeviceClearComplete & DataEnd 0 xffffff00 VOLT 4\n
1 async-sends AsyncDeviceClear
1 async-gets AsyncDeviceClearAcknowledge & AsyncDeviceClearAcknowledge
1 runs idle
1 sends DeviceClearComplete & DataEnd 0 xffffff00 VOLT?\n
1 runs idle
1 gets DeviceClearAcknowledge & DeviceClearAcknowledge & DataEnd 0 xffffff00 0.000\n

== It clears its own session alone
1 opens
1 joins
2 opens
2 joins
2 sends DataEnd 0 xffffff00 *SAV 1;*OPC?\n
2 proceeds flush
1 async-sends AsyncDeviceClear
1 async-gets AsyncDeviceClearAcknowledge
flush 2
2 runs idle
2 hears 1
"#;

#[test]
fn orders_of_a_clear(rt: HostRuntime) {
    play(&rt, rt.alloc(), ORDERS);
}
