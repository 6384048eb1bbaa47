//! Transmissions, and the texts that are sent for them.
use crate::engine::plays::play;

const UNITS: &str = r#"
one unit
*IDN? -> EXAMPLE,PSU4,0,1.0\n|
*IDN?\n -> EXAMPLE,PSU4,0,1.0\n|
several, joined
VOLT 5.25;VOLT?;:CURR?;*TST? -> 5.250;0.000;0\n|
none that answers
VOLT 3;CURR 1 -> nothing
VOLT 3\n;CURR 1\n -> nothing
nothing -> nothing
\n -> nothing
 ;; \n ;\n\n -> nothing
the path continues in a message, and a common command leaves it
SOUR2:VOLT 3;CURR 0.5;*TST?;VOLT?;CURR? -> 0;3.000;0.500\n|
"#;

#[test]
fn units_of_a_message(rt: HostRuntime) {
    play(&rt, rt.alloc(), 24, UNITS);
}

const MESSAGES: &str = r#"
each is answered by a text of its own
VOLT?\n*TST? -> 0.000\n|0\n|
VOLT 2\n;VOLT?;;\n \n*TST?\n -> 2.000\n|0\n|
*TST?\nVOLT 1\nVOLT?;*TST?\nCURR 1 -> 0\n|1.000;0\n|
each begins at the root
SOUR2:VOLT 3;VOLT?\nCURR 1;VOLT?;CURR? -> 3.000\n|0.000;1.000\n|
one transmission after another
VOLT 2;VOLT? & nothing & SOUR2:VOLT?;VOLT 1 & VOLT? -> 2.000\n|0.000\n|2.000\n|
"#;

#[test]
fn messages_of_a_transmission(rt: HostRuntime) {
    play(&rt, rt.alloc(), 24, MESSAGES);
}

const ERRORS: &str = r#"
VOLT?;FOO;CURR?;SYST:ERR:COUN?;:SYST:ERR? -> 0.000;0.000;1;-113,"Undefined header"\n|
FOO;VOLT 99;*TST?\nSYST:ERR?;ERR?;ERR? -> 0\n|-113,"Undefined header";-222,"Data out of range";0,"No error"\n|
FOO -> nothing
a string that is not whole takes all up to the end
VOLT?;*GMC? "A;VOLT?\n*TST? & SYST:ERR?;ERR? -> 0.000\n|-151,"Invalid string data";0,"No error"\n|
in place of a transmission
!too long & SYST:ERR?;ERR? -> -223,"Too much data";0,"No error"\n|
VOLT? & !trigger & *TST?;:SYST:ERR?;ERR? -> 0.000\n|0;-211,"Trigger ignored";0,"No error"\n|
!trigger & !trigger -> nothing
"#;

#[test]
fn units_with_errors(rt: HostRuntime) {
    play(&rt, rt.alloc(), 24, ERRORS);
}

const WAITS: &str = r#"
*SAV 1;*OPC? -> 1\n|
*SAV 1;*WAI -> nothing
VOLT?;*SAV 1;*OPC?;*TST? -> 0.000;1;0\n|
VOLT?;*SAV 1;*WAI;*TST? -> 0.000;0\n|
VOLT?;*SAV 1;*WAI\n*OPC? -> 0.000\n|1\n|
*SAV 1;FOO;*OPC?;*SAV 2;*OPC?;SYST:ERR:COUN? -> 1;1;1\n|
the path after them
SOUR2:VOLT 3;*SAV 1;*OPC?;VOLT? -> 1;3.000\n|
SOUR2:VOLT 3\n*SAV 1;*OPC?;VOLT? -> 1;0.000\n|
what an operation that completes sets
*SAV 1;*OPC;*ESR?\n*WAI;*ESR?;*ESR? -> 128\n|1;0\n|
"#;

#[test]
fn units_that_wait(rt: HostRuntime) {
    play(&rt, rt.alloc(), 24, WAITS);
}

const MACROS: &str = r#"
read from the root, and then the message continues at its own path
SOUR2:VOLT 3;*DMC "M",#218VOLT 1;VOLT?;*TST?;*EMC 1;VOLT?;M;VOLT? -> 3.000;1.000;0;3.000\n|
a path of its own
*DMC "M",#225SOUR3:VOLT 2;CURR 1;CURR?;*EMC 1;M;SOUR3:VOLT? -> 1.000;2.000\n|
the last unit, and the only one
*DMC "M",#211VOLT?;*TST?;*EMC 1;M\nM;M\nVOLT 4;M -> 0.000;0\n|0.000;0;0.000;0\n|4.000;0\n|
no unit, and none that answers
*DMC "M",#10;*DMC "N",#14;; ;;*EMC 1;*TST?;M;N;VOLT?;M\nN -> 0;0.000\n|
*DMC "M",#213VOLT 2;CURR 1;*EMC 1;M\nM;VOLT? -> 2.000\n|
parameters
*DMC "UP",#220SOUR$1:VOLT $2;VOLT?;*EMC 1;UP 2,3.3;UP 1,500 MV;SOUR2:VOLT? -> 3.300;0.500;3.300\n|
*DMC "UP",#220SOUR$1:VOLT $2;VOLT?;*EMC 1;VOLT?;UP 2;SYST:ERR? -> 0.000;-274,"Macro parameter error"\n|
a line in it ends no answer, and begins at the root
*DMC "M",#218SOUR2:VOLT 3\nVOLT?;*EMC 1;*TST?;M;*TST? -> 0;0.000;0\n|
errors in it
*DMC "N",#15*TST?;*DMC "M",#17N;VOLT?;*EMC 1;M;SYST:ERR? -> 0.000;-276,"Macro recursion error"\n|
*DMC "M",#230VOLT?;FOO;CURR?;SYST:ERR:COUN?;*EMC 1;*TST?;M;M -> 0;0.000;0.000;1;0.000;0.000;2\n|
what becomes of it meanwhile
*DMC "M",#214*RMC "M";VOLT?;*EMC 1;M;*LMC? -> 0.000;""\n|
*DMC "M",#212*EMC 0;VOLT?;*EMC 1;M;M;SYST:ERR? -> 0.000;-113,"Undefined header"\n|
"#;

#[test]
fn expansions_in_the_place_of_a_unit(rt: HostRuntime) {
    play(&rt, rt.alloc(), 24, MACROS);
}

const WAITS_IN_MACROS: &str = r#"
waits in it
*DMC "M",#231SOUR3:VOLT 2;*SAV 1;*OPC?;VOLT?;*EMC 1;*IDN?;M;VOLT? -> EXAMPLE,PSU4,0,1.0;1;2.000;0.000\n|
*DMC "M",#217*SAV 2;*WAI;VOLT?;*EMC 1;CURR?;M;*TST? -> 0.000;0.000;0\n|
*DMC "M",#231FOO;*SAV 1;*OPC?;SYST:ERR:COUN?;*EMC 1;M;SOUR2:VOLT 3;*SAV 1;M;VOLT? -> 1;1;1;2;3.000\n|
the first unit of it, the last one, and the only one
*DMC "M",#211*OPC?;VOLT?;*EMC 1;M;*TST?\n*SAV 1;M -> 1;0.000;0\n|1;0.000\n|
*DMC "M",#217*TST?;*SAV 1;*WAI;*EMC 1;M\nVOLT?;M -> 0\n|0.000;0\n|
*DMC "M",#15*OPC?;*EMC 1;M;*SAV 1;M\n*SAV 1;M -> 1;1\n|1\n|
"#;

#[test]
fn expansions_that_wait(rt: HostRuntime) {
    play(&rt, rt.alloc(), 24, WAITS_IN_MACROS);
}

const PARTS: &str = r#"
two files are more than a part has, and the end is left
MMEM:DATA "a",#532768{0123456789abcdef*2048};DATA? "a";DATA? "a" -> #532768{0123456789abcdef*2048};#532768{0123456789abcdef*2048}~\n|
the rest follows
MMEM:DATA "a",#532768{0123456789abcdef*2048};DATA? "a";*TST?;DATA? "a";*TST?\n*TST? -> #532768{0123456789abcdef*2048};0;#532768{0123456789abcdef*2048}~;0\n|0\n|
MMEM:DATA "a",#532768{0123456789abcdef*2048};DATA? "a";DATA? "a";DATA? "a";DATA? "a";DATA? "a" -> #532768{0123456789abcdef*2048};#532768{0123456789abcdef*2048}~;#532768{0123456789abcdef*2048};#532768{0123456789abcdef*2048}~;#532768{0123456789abcdef*2048}\n|
65,536 bytes are no part, and one more byte is
MMEM:DATA "a",#532768{0123456789abcdef*2048} & MMEM:DATA "b",#532753{fedcba9876543210*2047}! & MMEM:DATA? "a";DATA? "b" -> #532768{0123456789abcdef*2048};#532753{fedcba9876543210*2047}!\n|
MMEM:DATA "a",#532768{0123456789abcdef*2048} & MMEM:DATA "b",#532753{fedcba9876543210*2047}! & MMEM:DATA? "a";DATA? "b";*TST? -> #532768{0123456789abcdef*2048};#532753{fedcba9876543210*2047}!;0~\n|
"#;

#[test]
fn answers_in_parts(rt: HostRuntime) {
    play(&rt, rt.alloc(), 136, PARTS);
}

const PARTS_AND_WAITS: &str = r#"
an error and a wait between the parts
MMEM:DATA "a",#532768{0123456789abcdef*2048};DATA? "a";DATA? "a";FOO;*OPC?;DATA? "a";:SYST:ERR:COUN? -> #532768{0123456789abcdef*2048};#532768{0123456789abcdef*2048}~;1;#532768{0123456789abcdef*2048};1\n|
a macro sends them
MMEM:DATA "a",#532768{0123456789abcdef*2048} & *DMC "M",#240MMEM:DATA? "a";DATA? "a";*OPC?;DATA? "a";*EMC 1;*TST?;M;*TST? -> 0;#532768{0123456789abcdef*2048};#532768{0123456789abcdef*2048}~;1;#532768{0123456789abcdef*2048};0\n|
"#;

#[test]
fn parts_and_waits(rt: HostRuntime) {
    play(&rt, rt.alloc(), 72, PARTS_AND_WAITS);
}
