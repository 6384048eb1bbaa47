//! A unit's header and data by their rules; expected values by the rules of the grammar.
use crate::holds::holds;
use crate::tree::unit_of;
use psu_lex::{Data, Datum, DatumClass, ScpiError, Unit, UnitFault, Units, syntax};
use psu_tables::bracketed;

// Returns the class with this name.
fn class_named(name: &str) -> Option<DatumClass> {
    match name {
        "number" => Some(DatumClass::Numeric),
        "word" => Some(DatumClass::Character),
        "string" => Some(DatumClass::String),
        "block" => Some(DatumClass::Block),
        _ => None,
    }
}

// Whether a datum is the one of a cell.
fn is_datum(datum: Datum<'_>, cell: &str) -> bool {
    match cell.split_once(" ") {
        Some((class, text)) => class_named(class) == Some(datum.class)
            && datum.text == text.as_bytes(),
        None => false,
    }
}

// Whether the data are exactly those of a text, each with its class.
fn are_data(data: Data<'_>, cells: &str) -> bool {
    let mut rest = data;
    for cell in cells.split(" | ") {
        match rest.first() {
            Some((datum, others)) if is_datum(datum, cell) => rest = others,
            _ => return false,
        }
    }
    rest.first().is_none()
}

// Whether a unit has this header, followed by these data.
fn reads(text: &[u8], wanted: &str) -> bool {
    let Ok(parts) = syntax(&unit_of(text)) else {
        return false;
    };
    match wanted.split_once(" | ") {
        Some((header, cells)) => header.as_bytes() == parts.header.text
            && are_data(parts.parameters, cells),
        None => wanted.as_bytes() == parts.header.text && parts.parameters.first().is_none(),
    }
}

// Units in brackets, and the header and the data that each has.
const UNITS: &str = r#"
[*IDN?] *IDN?
[*IDN? ] *IDN?
[SYST:ERR?] SYST:ERR?
[:syst:err:count?] :syst:err:count?
[a_1:B2] a_1:B2
[x] x
[*GMC? ] *GMC?
[VOLT 5] VOLT | number 5
[VOLT  1 E +2 ] VOLT | number 1 E +2
[VOLT 5 V] VOLT | number 5 V
[VOLT -.5,MAX] VOLT | number -.5 | word MAX
[VOLT? MIN , ON5] VOLT? | word MIN | word ON5
[F 5ON] F | number 5ON
[*DMC "A",#13a,b] *DMC | string "A" | block #13a,b
[D 'it''s' , ";," ] D | string 'it''s' | string ";,"
[D #10,1] D | block #10 | number 1
[D 1,#0a, é ] D | number 1 | block #0a, é 
[D 'é'] D | string 'é'
"#;

fn has_parts(line: &str) -> bool {
    match bracketed(line) {
        Some((text, wanted)) => reads(text.as_bytes(), wanted),
        None => line.is_empty(),
    }
}

#[test]
fn units_are_read_by_their_parts(rt: HostRuntime) {
    for line in UNITS.lines() {
        holds(&rt, has_parts(line), line);
    }
    assert!(rt; reads(b" \t*CLS\r", "*CLS"));
}

// Texts in brackets that are not units.
const NO_UNITS: &str = r#"
[]
[ ]
[?]
[*]
[:]
[1]
[*?]
[A:]
[A::B]
[:*IDN?]
[*A:B]
[VOLT ,1]
[VOLT 1,]
[VOLT ,]
[VOLT 1,,2]
[*GMC?"A"]
[VOLT?MAX]
[VOLT ?]
[SYST :ERR?]
[A? ?]
[A 5_]
[A 1 2]
[A +]
[A B C]
[A $1]
[VO"a"LT]
"#;

// Whether a unit has this fault.
fn fails(text: &[u8], error: ScpiError) -> bool {
    syntax(&unit_of(text)).err() == Some(error)
}

fn is_no_unit(line: &str) -> bool {
    match line.strip_prefix("[") {
        Some(rest) => match rest.strip_suffix("]") {
            Some(text) => fails(text.as_bytes(), ScpiError::SyntaxError),
            None => false,
        },
        None => line.is_empty(),
    }
}

#[test]
fn what_is_no_unit_is_a_syntax_error(rt: HostRuntime) {
    for line in NO_UNITS.lines() {
        holds(&rt, is_no_unit(line), line);
    }
}

#[test]
fn faults_of_a_unit_come_in_order(rt: HostRuntime) {
    assert!(rt;
        fails("VOLT \u{ff}".as_bytes(), ScpiError::InvalidCharacter)
            && fails("\u{7f}".as_bytes(), ScpiError::InvalidCharacter)
            && fails("A 'b' ,\u{80}".as_bytes(), ScpiError::InvalidCharacter)
            && fails("A::B \u{e9}".as_bytes(), ScpiError::InvalidCharacter)
            && fails(b"A #11\xff,\xff", ScpiError::InvalidCharacter)
    );
    let faulty = Unit {
        text: b"A\xff 'b",
        first: true,
        fault: Some(UnitFault::String),
    };
    assert!(rt; syntax(&faulty).err() == Some(ScpiError::InvalidStringData));
}

// Returns a unit of the maximum length, whose data are this byte again and again.
fn unit_with(byte: u8) -> [u8; 65_536] {
    let mut text = [byte; 65_536];
    text[0] = b'A';
    text[1] = b' ';
    text
}

// Puts a number before each comma of its data; the last byte is not a comma.
fn number(text: &mut [u8; 65_536]) {
    for at in 2..65_536 {
        if at % 2 == 0 {
            text[at] = b'1';
        }
    }
}

fn is_read(text: &[u8]) -> bool {
    syntax(&unit_of(text)).is_ok()
}

#[test]
fn many_data_are_read_in_one_pass(rt: HostRuntime) {
    let mut commas = unit_with(b',');
    assert!(rt; fails(&commas, ScpiError::SyntaxError));
    number(&mut commas);
    assert!(rt; fails(&commas, ScpiError::SyntaxError));
    commas[65_535] = b'2';
    assert!(rt; is_read(&commas));
    assert!(rt; is_read(&unit_with(b'\'')));
}

// Whether the units of a prefix of a message have the faults that they were split with.
fn begins(text: &[u8]) -> bool {
    let mut units = Units::of(text);
    while let Some(unit) = units.next_unit() {
        if !keeps_its_fault(&unit) {
            return false;
        }
    }
    true
}

fn keeps_its_fault(unit: &Unit<'_>) -> bool {
    let error = syntax(unit).err();
    match unit.fault {
        Some(fault) => error == Some(fault.error()),
        None => true,
    }
}

// Every prefix of a message reads in one way, and none stops the program.
#[test]
fn beginnings_of_a_message_are_read(rt: HostRuntime) {
    let text = b" *DMC \"a\"\"b\" , #212a;b,c\n'\"#1x ,-1.5 E +2 MV;SYST:ERR? 'x";
    for length in 0..text.len() {
        assert!(rt; begins(&text[..length]));
    }
}
