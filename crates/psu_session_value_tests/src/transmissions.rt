//! Transmissions and their responses.
use crate::plays::play;

const RESPONSES: &str = r#"
== A query in one DataEnd
1 opens
1 joins
1 sends DataEnd 0 xffffff00 *IDN?\n
1 proceeds completed
1 gets DataEnd 0 xffffff00 EXAMPLE,PSU4,0,1.0\n
1 proceeds idle
1 gets nothing
1 async-gets nothing

== The response has the MessageID of the DataEnd
1 opens
1 joins
1 sends Data 0 xffffff00 VOLT 5.25; & Data 0 xffffff02 :CURR 1; & DataEnd 0 xffffff04 :VOLT?;:CURR?\n
1 runs idle
1 gets DataEnd 0 xffffff04 5.250;1.000\n

== Transmissions are executed in the order of their arrival
1 opens
1 joins
1 sends DataEnd 0 xffffff00 VOLT 3;VOLT?\n & DataEnd 0 xffffff02 VOLT 4\n & DataEnd 0 xffffff04 VOLT?\n
1 proceeds completed
1 gets DataEnd 0 xffffff00 3.000\n
1 proceeds completed
1 gets nothing
1 proceeds completed
1 gets DataEnd 0 xffffff04 4.000\n
1 proceeds idle

== Each message of a transmission has a response of its own
1 opens
1 joins
1 sends DataEnd 0 xffffff00 VOLT?\nVOLT 1\n*TST?;VOLT?\n
1 runs idle
1 gets DataEnd 0 xffffff00 0.000\n & DataEnd 0 xffffff00 0;1.000\n

== The next transmission before the response is taken
1 opens
1 joins
1 says *TST?
1 sends DataEnd 0 xffffff02 VOLT?\n
1 runs idle
1 gets DataEnd 0 xffffff00 0\n & DataEnd 0 xffffff02 0.000\n

== Trigger is ignored, with an error
1 opens
1 joins
1 sends Trigger 0 xffffff00
1 runs idle
1 gets nothing
1 says SYST:ERR?
1 hears -211,"Trigger ignored"
"#;

#[test]
fn responses(rt: HostRuntime) {
    play(&rt, rt.alloc(), RESPONSES);
}

const LENGTHS: &str = r#"
== The longest transmission
1 opens
1 joins
1 sends Data 0 xffffff00 { *65532} & DataEnd 0 xffffff02 *TST
1 runs idle
1 says SYST:ERR?
1 hears -113,"Undefined header"

== One that is a byte too long
1 opens
1 joins
1 sends Data 0 xffffff00 { *65532} & DataEnd 0 xffffff02 *TST?
1 runs idle
1 gets nothing
1 says SYST:ERR?;ERR?
1 hears -223,"Too much data";0,"No error"

== A response in messages of the size that the client accepts
1 opens
1 joins
1 async-sends AsyncMaximumMessageSize 0 0 = 00*7 14
1 async-gets AsyncMaximumMessageSizeResponse 0 0 = 00*5 01 00*2
1 says *IDN?
1 gets Data 0 xffffff00 EXAM & Data 0 xffffff00 PLE, & Data 0 xffffff00 PSU4 & Data 0 xffffff00 ,0,1 & DataEnd 0 xffffff00 .0\n
"#;

#[test]
fn lengths(rt: HostRuntime) {
    play(&rt, rt.alloc(), LENGTHS);
}

const TURNS: &str = r#"
== Others are let in after 64 units
1 opens
1 joins
1 sends DataEnd 0 xffffff00 {*TST?;*127}*TST?;VOLT?\n
1 proceeds turn
1 gets nothing
1 proceeds turn
1 proceeds completed
1 gets DataEnd 0 xffffff00 {0;*128}0.000\n

== Others are let in where there are 64 KiB to be sent
1 opens
1 joins
1 says MMEM:DATA "a",#532768{0123456789abcdef*2048}
1 sends DataEnd 0 xffffff00 MMEM:DATA? "a";DATA? "a";DATA? "a"\n
1 proceeds turn
1 gets Data 0 xffffff00 #532768{0123456789abcdef*2048};#532768{0123456789abcdef*2046}0 & Data 0 xffffff00 123456789abcdef0123456789abcdef
1 proceeds completed
1 gets DataEnd 0 xffffff00 ;#532768{0123456789abcdef*2048}\n
"#;

#[test]
fn turns(rt: HostRuntime) {
    play(&rt, rt.alloc(), TURNS);
}
