//! The path after each kind of header, by SCPI-1999 volume 1, 6.2.4. 0 means a command, another number the fault of the
//! reading.
use crate::tree::read_messages;

// After a path below SYSTem a header, then `ERR?`, which is read below SYSTem, and `CURR 1`, which is read at the root
// and below SOURce.
const PATHS_AFTER_GOOD_HEADERS: &str = r#"
A single node leaves the path, after a leading colon it leads to the root.
SYST:VERS?;ERR?;ERR?;CURR 1 -> 0 0 0 113
SYST:VERS?;:VOLT 3;ERR?;CURR 1 -> 0 0 113 0
SYST:VERS?;:VOLT?;ERR?;CURR 1 -> 0 0 113 0
SYST:VERS?;:OUTP2 ON;ERR?;CURR 1 -> 0 0 113 0

Several nodes lead to all but the last, below the path without a colon and below the root with one.
SYST:VERS?;ERR:COUN?;ERR?;CURR 1 -> 0 0 113 113
SYST:VERS?;:SYST:VERS?;ERR?;CURR 1 -> 0 0 0 113
SYST:VERS?;:SYST:ERR:NEXT?;ERR?;CURR 1 -> 0 0 113 113
SYST:VERS?;:SOUR2:VOLT 3;ERR?;CURR 1 -> 0 0 113 0
SYST:VERS?;:SOUR2:VOLT?;ERR?;CURR 1 -> 0 0 113 0
SYST:VERS?;:OUTP:STAT ON;ERR?;CURR 1 -> 0 0 113 113

A common header leaves it.
SYST:VERS?;*CLS;ERR?;CURR 1 -> 0 0 0 113
SYST:VERS?;*IDN?;ERR?;CURR 1 -> 0 0 0 113
"#;

#[test]
fn paths_behind_good_headers(rt: HostRuntime) {
    read_messages(&rt, rt.alloc(), PATHS_AFTER_GOOD_HEADERS);
}

// A unit with a fault leaves the path, whatever its header and whatever the fault.
const PATHS_AFTER_FAULTS: &str = r#"
SYST:VERS?;FOO;ERR?;CURR 1 -> 0 113 0 113
SYST:VERS?;:FOO;ERR?;CURR 1 -> 0 113 0 113
SYST:VERS?;:FOO?;ERR?;CURR 1 -> 0 113 0 113
SYST:VERS?;:STAT:FOO;ERR?;CURR 1 -> 0 113 0 113
SYST:VERS?;ERR:FOO?;ERR?;CURR 1 -> 0 113 0 113
SYST:VERS?;:VOLT ,1;ERR?;CURR 1 -> 0 102 0 113
SYST:VERS?;:VOLT;ERR?;CURR 1 -> 0 109 0 113
SYST:VERS?;:VOLT 1,2;ERR?;CURR 1 -> 0 108 0 113
SYST:VERS?;:VOLT 99;ERR?;CURR 1 -> 0 222 0 113
SYST:VERS?;:OUTP5 ON;ERR?;CURR 1 -> 0 114 0 113
SYST:VERS?;:SOUR9:VOLT?;ERR?;CURR 1 -> 0 114 0 113
SYST:VERS?;*SRE 256;ERR?;CURR 1 -> 0 222 0 113
SYST:VERS?;:*IDN?;ERR?;CURR 1 -> 0 102 0 113
"#;

#[test]
fn paths_behind_faults(rt: HostRuntime) {
    read_messages(&rt, rt.alloc(), PATHS_AFTER_FAULTS);
}

// Paths at the root, below STATus, of all nodes of a header, and of a new message.
const PATHS_OF_OTHER_PLACES: &str = r#"
VOLT 3;CURR 1;:VOLT 3;CURR 1;ERR? -> 0 0 0 0 113
STAT:PRES;PRES;PRES;CURR 1 -> 0 0 0 113
STAT:PRES;:CURR 1;PRES;CURR 1 -> 0 0 113 0
:SOUR2:VOLT:LEV:IMM:AMPL 1;AMPL 2;:AMPL 3;AMPL 4;:VOLT 5;AMPL 6 -> 0 0 113 0 0 113
SYST:VERS?;:VOLT 1\nERR?;CURR 1 -> 0 0 113 0
"#;

#[test]
fn paths_of_other_places(rt: HostRuntime) {
    read_messages(&rt, rt.alloc(), PATHS_OF_OTHER_PLACES);
}

const PATHS_OF_WORKED_ROWS: &str = r#"
*PSC 0;*SRE 32;*ESE 128;*OPC? -> 0 0 0 0
SYST:ERR?;COUN?\nSYST:ERR:COUN? -> 0 113 0
SOUR2:VOLT 3;CURR 0.5;:SOUR2:CURR?;:CURR? -> 0 0 0 0
SOUR2:VOLT 3;SOUR2:CURR 1;*CLS;CURR 1 -> 0 113 0 0

A fault leaves the path, and so does a common header.
SYST:ERR?;:STAT:FOO;VERS?;*IDN?;VERS? -> 0 113 0 0 0
volt 5250.5 mv;VOLT?;:VOLTA?;:SYST:ERR? -> 0 0 113 0
VOLT 60.0004;VOLT?;VOLT 60.0005;VOLT 1E32001 -> 0 0 222 123
MMEM:LOAD:MACR "M","S";LOAD:STAT 2,"S";:MMEM:DATA "a/b",#10;:SYST:ERR? -> 0 113 0 0
VOLT:PROT 5;:VOLT:PROT:STAT ON;:VOLT:PROT:TRIP?;CLE -> 0 0 0 0
VOLT:LEV:IMM:AMPL 1;AMPL 2;:VOLT:LEV:LEV 1;:STAT:PRES;OPER? -> 0 0 113 0 0
"#;

#[test]
fn paths_of_worked_rows(rt: HostRuntime) {
    read_messages(&rt, rt.alloc(), PATHS_OF_WORKED_ROWS);
}
