//! The command tree: headers of the table, and faults in their order. 0 means a command, another number the fault of the
//! reading.
use crate::holds::holds;
use psu_lex::{ScpiError, Unit, Units};
use psu_tables::{row, written};
use psu_tree::{Command, Path, read_unit, request};
use std::alloc::Global;
use std::process::Abort;

/// Returns a unit with this text, as if split from a transmission that has nothing else.
pub(crate) fn unit_of(text: &[u8]) -> Unit<'_> {
    Unit {
        text,
        first: true,
        fault: None,
    }
}

/// Reads a unit at the root.
pub(crate) fn read(text: &[u8]) -> Result<Command<'_>, ScpiError> {
    read_unit(&Path::root(), &unit_of(text))
}

// Returns the fault of a unit's reading at the root, 0 where it is a command.
fn fault(text: &[u8]) -> u16 {
    number(read(text))
}

// Returns 0 for a command, otherwise the number of the fault.
fn number(reading: Result<Command<'_>, ScpiError>) -> u16 {
    match reading {
        Ok(_) => 0,
        Err(error) => error.magnitude(),
    }
}

// Returns the fault of a unit of a message, and moves the path as the unit does.
fn fault_at<'a>(path: &mut Path<'a>, unit: &Unit<'a>) -> u16 {
    if unit.first {
        *path = Path::root();
    }
    number(request(path, unit, false).reading)
}

// Whether a word is this number.
fn is_word(word: Option<&str>, number: u16) -> bool {
    match word {
        Some(word) => word.parse() == Ok(number),
        None => false,
    }
}

// Whether the readings of units, in order, are those of a row.
fn are_read(units: Units<'_>, wanted: &str) -> bool {
    let mut units = units;
    let mut path = Path::root();
    let mut faults = wanted.split_whitespace();
    while let Some(unit) = units.next_unit() {
        if !is_word(faults.next(), fault_at(&mut path, &unit)) {
            return false;
        }
    }
    faults.next().is_none()
}

// Whether the readings of a message's units, in order, are those of a row.
fn reads(alloc: Global, message: &str, wanted: &str) -> Option<bool> {
    let message = written(alloc, message)?;
    Some(are_read(Units::of(message.as_bytes()), wanted))
}

/// Checks that the messages of a table read as its rows say. A row is a line: a message, in which `\n` means NL,
/// ` -> `, and the faults of its units. Other lines say what the rows below them are for.
pub(crate) fn read_messages(rt: &impl Abort, alloc: Global, table: &str) {
    let mut rows = 0u32;
    for line in table.lines() {
        if let Some((message, faults)) = row(line) {
            holds(rt, reads(alloc, message, faults) == Some(true), line);
            rows = rows.saturating_add(1);
        }
    }
    holds(rt, rows > 0, table);
}

/// Checks that the units of a table read at the root as its rows say, each by itself.
pub(crate) fn read_units(rt: &impl Abort, table: &str) {
    let mut rows = 0u32;
    for line in table.lines() {
        if let Some((text, wanted)) = row(line) {
            holds(rt, wanted.parse() == Ok(fault(text.as_bytes())), line);
            rows = rows.saturating_add(1);
        }
    }
    holds(rt, rows > 0, table);
}

/// Whether a header is one of the table, whatever its data: it reads, or lacks a parameter.
pub(crate) fn is_in_table(header: &[u8]) -> bool {
    let fault = fault(header);
    fault == 0 || fault == 109
}

// Each header of the table: its shortest form, its longest, and whether it is defined as a command, as a query, or as
// both.
const HEADERS: &str = r#"
*IDN *idn query
*TST *tst query
*CLS *cls command
*RST *rst command
*OPC *opc both
*WAI *wai command
*ESE *ese both
*SRE *sre both
*ESR *esr query
*STB *stb query
*PSC *psc both
*SAV *sav command
*RCL *rcl command
*PUD *pud both
*DMC *dmc command
*GMC *gmc query
*RMC *rmc command
*LMC *lmc query
*PMC *pmc command
*EMC *emc both
DIAG:PUD:PROT :DIAGNOSTIC:PUD:PROTECT both
SYST:ERR :SYSTEM:ERROR:NEXT query
SYST:ERR:COUN :SYSTEM:ERROR:COUNT query
SYST:VERS :SYSTEM:VERSION query
STAT:OPER :STATUS:OPERATION:EVENT query
STAT:OPER:COND :STATUS:OPERATION:CONDITION query
STAT:OPER:ENAB :STATUS:OPERATION:ENABLE both
STAT:OPER:PTR :STATUS:OPERATION:PTRANSITION both
STAT:OPER:NTR :STATUS:OPERATION:NTRANSITION both
STAT:QUES :STATUS:QUESTIONABLE:EVENT query
STAT:QUES:COND :STATUS:QUESTIONABLE:CONDITION query
STAT:QUES:ENAB :STATUS:QUESTIONABLE:ENABLE both
STAT:QUES:PTR :STATUS:QUESTIONABLE:PTRANSITION both
STAT:QUES:NTR :STATUS:QUESTIONABLE:NTRANSITION both
STAT:PRES :STATUS:PRESET command
VOLT :SOURCE1:VOLTAGE:LEVEL:IMMEDIATE:AMPLITUDE both
CURR :SOURCE4:CURRENT:LEVEL:IMMEDIATE:AMPLITUDE both
VOLT:PROT :SOURCE2:VOLTAGE:PROTECTION:LEVEL both
VOLT:PROT:STAT :SOURCE3:VOLTAGE:PROTECTION:STATE both
VOLT:PROT:TRIP :SOURCE1:VOLTAGE:PROTECTION:TRIPPED query
VOLT:PROT:CLE :SOURCE1:VOLTAGE:PROTECTION:CLEAR command
OUTP :OUTPUT4:STATE both
OUTP:PON:STAT :OUTPUT:PON:STATE both
MEAS:VOLT :MEASURE1:SCALAR:VOLTAGE:DC query
MEAS:CURR :MEASURE3:SCALAR:CURRENT:DC query
SIM:LOAD :SIMULATION:LOAD2 both
MMEM:CAT :MMEMORY:CATALOG query
MMEM:DATA :MMEMORY:DATA both
MMEM:DEL :MMEMORY:DELETE command
MMEM:COPY :MMEMORY:COPY command
MMEM:MOVE :MMEMORY:MOVE command
MMEM:STOR:STAT :MMEMORY:STORE:STATE command
MMEM:LOAD:STAT :MMEMORY:LOAD:STATE command
MMEM:STOR:MACR :MMEMORY:STORE:MACRO command
MMEM:LOAD:MACR :MMEMORY:LOAD:MACRO command
"#;

// Whether a form of a header is defined as a command and as a query where its kind says so.
fn form_stands(alloc: Global, form: &str, kind: &str) -> Option<bool> {
    let command = is_in_table(form.as_bytes());
    let mut text = form.as_bytes().to_vec(alloc).ok()?;
    text.push(b'?').ok()?;
    Some(command == (kind != "query") && is_in_table(&text) == (kind != "command"))
}

// Whether both forms of a header are defined as its row says.
fn header_stands(alloc: Global, line: &str) -> Option<bool> {
    let (short, rest) = line.split_once(" ")?;
    let (long, kind) = rest.split_once(" ")?;
    Some(form_stands(alloc, short, kind)? && form_stands(alloc, long, kind)?)
}

#[test]
fn each_row_in_its_shortest_and_longest_form(rt: HostRuntime) {
    let mut headers = 0u32;
    for line in HEADERS.lines() {
        if !line.is_empty() {
            holds(&rt, header_stands(rt.alloc(), line) == Some(true), line);
            headers = headers.saturating_add(1);
        }
    }
    assert!(rt; headers == 55);
}

const NUMERIC_SUFFIXES: &str = r#"
OUTP1 ON;OUTP2 ON;OUTP3 ON;OUTP4 ON;OUTP01 ON -> 0 0 0 0 0
OUTP0 ON;OUTP5 ON;OUTP99999999999999999999 ON -> 114 114 114
SOUR0:VOLT 1;:MEAS5:VOLT?;:SIM:LOAD9 1 -> 114 114 114

Where there is no suffix the header is undefined, and that comes first.
SOUR9:FOO;VOLT2 1;:SOUR:VOLT1 1;:SYST1:ERR? -> 113 113 113 113
"#;

#[test]
fn numeric_suffixes(rt: HostRuntime) {
    read_messages(&rt, rt.alloc(), NUMERIC_SUFFIXES);
}

// One word of two without regard to case, and no node with a number.
const SETTINGS_AT_POWER_ON: &str = r#"
OUTP:PON:STAT RST;STAT rcl0;STATE Rcl0;STAT? -> 0 0 0 0
OUTP:PON:STAT RCL;STAT RCL1;STAT 0;STAT "RST" -> 224 113 113 113
OUTP:PON:STAT 0;:OUTP:PON:STAT "RST";:OUTP:PON:STAT;:OUTP:PON:STAT RST,RST;:OUTP:PON:STAT? RST -> 104 104 109 108 108
OUTP1:PON:STAT RST;:OUTP:PON1:STAT RST;:OUTP:PON:STAT1 RST;:OUTP1:PON:STAT?;:OUTP:PON RST -> 113 113 113 113 113
"#;

#[test]
fn the_settings_at_power_on(rt: HostRuntime) {
    read_messages(&rt, rt.alloc(), SETTINGS_AT_POWER_ON);
}

const FAULTS_IN_ORDER: &str = "
A string without end, a byte of 127, no header: with all that follows.
FOO9 \u{7f},,'x -> 151
FOO9 \u{7f},,#9 -> 161
FOO9 \u{7f},, -> 101
SOUR9:FOO 1,,2 -> 102

An undefined header, a suffix, too few and too many data.
SOUR9:FOO 1E32001,5KA -> 113
SOUR9:VOLT -> 114
SOUR9:VOLT 1E32001,5KA -> 114
MMEM:STOR:STAT 1E32001 -> 109
VOLT 1E32001,5KA -> 108

Of each datum from the left its class, digits and suffix, and then of each its range.
MMEM:STOR:STAT 1E32001,5 -> 123
MMEM:STOR:STAT \"1\",5 -> 104
MMEM:STOR:STAT 100,5 -> 104
VOLT 1E32001KA -> 123
VOLT 99KA -> 131
MMEM:STOR:STAT 100,\"/\" -> 222
";

#[test]
fn each_fault_before_the_later_ones(rt: HostRuntime) {
    read_messages(&rt, rt.alloc(), FAULTS_IN_ORDER);
}

const PARAMETERS: &str = r#"
VOLT? 5;VOLT? FOO;VOLT? MIN,MAX;VOLT? maximum -> 104 224 108 0
OUTP FOO;OUTP on;OUTP 0.4;OUTP "1" -> 224 0 0 104
VOLT FOO;VOLT MINI;VOLT minimum;VOLT MAX -> 224 224 0 0
*SRE FOO;*SRE 255.4;*SRE 255.5;*SRE -0.4;*SRE 1V -> 104 0 222 0 131
SIM:LOAD MAX;:SIM:LOAD 0;:SIM:LOAD 1;:SIM:LOAD 10000001 -> 104 222 0 222
CURR 1A;CURR 1 ma;CURR 1V;CURR 1KA;CURR 5.0005 -> 0 0 131 131 222
*PSC 32767;*PSC -32768;*EMC 32768;*SAV 99.4;*SAV 99.5 -> 0 222 222 0 222
STAT:QUES:ENAB 65535;PTR 65536;NTR -1 -> 0 222 222
*PUD #13abc;*PUD "abc";*PUD #10,#10;*PUD -> 0 104 108 109
MMEM:DATA "a/b",#10;:MMEM:DATA "A",5;:MMEM:COPY "A" -> 0 104 109
"#;

#[test]
fn parameters_by_their_kinds(rt: HostRuntime) {
    read_messages(&rt, rt.alloc(), PARAMETERS);
}
