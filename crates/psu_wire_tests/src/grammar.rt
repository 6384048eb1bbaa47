//! The worked examples of the grammar; expected values by its rules.
use crate::holds::holds;
use psu_lex::{
    Bytes, ScpiError, Unit, UnitFault, Units, block, definite, expand, fixed3, is_label, is_name,
    number, string,
};
use psu_tables::{bytes, row, written};
use std::alloc::Global;
use std::process::Abort;

// Returns the place of a unit in its message: whether it is the first, and its fault.
fn placed(unit: &Unit<'_>) -> &'static str {
    match (unit.first, unit.fault) {
        (true, None) => "first",
        (true, Some(UnitFault::String)) => "first/string",
        (true, Some(UnitFault::Block)) => "first/block",
        (false, None) => "next",
        (false, Some(_)) => "next/faulty",
    }
}

fn is_unit(unit: &Unit<'_>, cell: &str) -> bool {
    match cell.split_once(" ") {
        Some((place, text)) => placed(unit) == place && unit.text == text.as_bytes(),
        None => false,
    }
}

// Whether the units are exactly those of a cell.
fn are_units(units: Units<'_>, cell: &str) -> bool {
    let mut units = units;
    if cell == "none" {
        return units.next_unit().is_none();
    }
    let mut cells = cell.split(" | ");
    while let Some(unit) = units.next_unit() {
        match cells.next() {
            Some(cell) if is_unit(&unit, cell) => {}
            _ => return false,
        }
    }
    cells.next().is_none()
}

// Whether the units of a message are those of a cell, where `\n` means NL.
fn is_cut(alloc: Global, text: &str, wanted: &str) -> Option<bool> {
    let text = written(alloc, text)?;
    let wanted = written(alloc, wanted)?;
    Some(are_units(Units::of(text.as_bytes()), &wanted))
}

// Whether a number reads as its row says, with this many decimal places.
fn is_number(text: &[u8], places: u8, wanted: &str) -> bool {
    match (number(text, places), wanted.strip_prefix("error ")) {
        (Ok(value), None) => wanted.parse() == Ok(value),
        (Err(error), Some(wanted)) => wanted.parse() == Ok(error.magnitude()),
        _ => false,
    }
}

// Whether the result of a reading is the one of a row: these bytes in brackets, or nothing.
fn is_read(read: Result<Bytes<Global>, ScpiError>, error: ScpiError, wanted: &str) -> bool {
    match read {
        Ok(bytes) => inner(wanted) == Some(bytes.as_slice()),
        Err(given) => given == error && wanted == "none",
    }
}

// Returns the bytes of a text that is in brackets.
fn inner(cell: &str) -> Option<&[u8]> {
    Some(cell.strip_prefix("[")?.strip_suffix("]")?.as_bytes())
}

fn block_is_read(alloc: Global, text: &str, wanted: &str) -> bool {
    match written(alloc, text) {
        Some(text) => is_read(
            block(alloc, text.as_bytes()),
            ScpiError::InvalidBlockData,
            wanted,
        ),
        None => false,
    }
}

// Appends the parameters of a cell, each in brackets.
fn add_parameters<'a>(args: &mut Vec<&'a [u8]>, cell: &'a str) -> bool {
    for parameter in cell.split("]") {
        match parameter.strip_prefix("[") {
            Some(text) if args.push(text.as_bytes()).is_err() => return false,
            _ => {}
        }
    }
    true
}

// Whether the expansion of a body is the one of a row.
fn expands(alloc: Global, body: &str, args: &[&[u8]], wanted: &str) -> bool {
    match expand(alloc, body.as_bytes(), args) {
        Ok(text) => text.as_slice() == wanted.as_bytes(),
        Err(error) => error == ScpiError::MacroParameterError && wanted == "none",
    }
}

fn is_expanded(alloc: Global, call: &str, wanted: &str) -> bool {
    let (body, parameters) = call.rsplit_once(" ").unwrap_or((call, ""));
    let mut args = Vec::new(alloc);
    add_parameters(&mut args, parameters) && expands(alloc, body, &args, wanted)
}

fn is_answered(alloc: Global, value: i64, wanted: &str) -> bool {
    match fixed3(alloc, value) {
        Ok(text) => text.as_slice() == wanted.as_bytes(),
        Err(_) => false,
    }
}

// Whether the result of a text in brackets is the one of a row of this kind.
fn is_so(kind: &str, text: &[u8], wanted: &str) -> bool {
    match kind {
        "number" => is_number(text, 0, wanted),
        "thousandths" => is_number(text, 3, wanted),
        "label" => is_label(text) == (wanted == "yes"),
        _ => is_name(text) == (wanted == "yes"),
    }
}

// Whether the result of bytes is the one of a row of this kind.
fn are_so(kind: &str, bytes: &[u8], wanted: &str) -> bool {
    if kind == "digits" {
        return is_number(bytes, 0, wanted);
    }
    is_name(bytes) == (wanted == "yes")
}

fn are_data(alloc: Global, kind: &str, cell: &str, wanted: &str) -> bool {
    match kind {
        "string" => is_read(
            string(alloc, cell.as_bytes()),
            ScpiError::InvalidStringData,
            wanted,
        ),
        "block" => block_is_read(alloc, cell, wanted),
        "expand" => is_expanded(alloc, cell, wanted),
        _ => false,
    }
}

// Whether the result of a text is the one of a row of this kind. The kinds are explained at the rows.
fn comes_to(alloc: Global, kind: &str, cell: &str, wanted: &str) -> Option<bool> {
    match kind {
        "number" | "thousandths" | "label" | "name" => Some(is_so(kind, inner(cell)?, wanted)),
        "digits" | "bytes" => Some(are_so(kind, &bytes(alloc, cell)?, wanted)),
        "cut" => is_cut(alloc, cell, wanted),
        "answer" => Some(is_answered(alloc, cell.parse().ok()?, wanted)),
        _ => Some(are_data(alloc, kind, cell, wanted)),
    }
}

// Whether a row holds. A row is a kind and a text, ` -> `, and the result of the text; a line that begins with `# `
// says what the rows below it are for.
fn holds_row(alloc: Global, line: &str) -> bool {
    match row(line) {
        Some((text, wanted)) => match text.split_once(" ") {
            Some((kind, cell)) => comes_to(alloc, kind, cell, wanted) == Some(true),
            None => false,
        },
        None => line.is_empty() || line.starts_with("# "),
    }
}

fn all_hold(rt: &impl Abort, alloc: Global, rows: &str) {
    for line in rows.lines() {
        holds(rt, holds_row(alloc, line), line);
    }
}

const UNITS: &str = r#"
# Messages, in which `\n` means NL, and the units that they are cut into.
cut  -> none
cut *PUD #13a;b;*IDN? -> first *PUD #13a;b | next *IDN?
cut VOLT 1; \n;CURR 'a;b'\nVO"a;b"LT;X -> first VOLT 1 | first CURR 'a;b' | first/string VO"a;b"LT;X

# A unit whose string or block has a fault takes all up to the end, as a block without a count does.
cut A 'b;C\nD -> first/string A 'b;C\nD
cut A 'b' c;D -> first/string A 'b' c;D
cut A "b'c;D -> first/string A "b'c;D
cut A #14abc;D -> first/block A #14abc;D
cut A #;B -> first/block A #;B
cut A #2 1a;B -> first/block A #2 1a;B
cut A #11ab;C -> first/block A #11ab;C
cut A #0b;c\nD -> first A #0b;c\nD
"#;

#[test]
fn messages_are_cut_into_units(rt: HostRuntime) {
    all_hold(&rt, rt.alloc(), UNITS);
    assert!(rt; are_units(Units::of(b" ; \n\t"), "none"));
}

const NUMBERS: &str = "
# Numbers, rounded half away from zero to whole ones or to thousandths, and the numbers of the errors.
thousandths [5.0005] -> 5001
number [-1.5] -> -2
number [2.5] -> 3
number [-0.4] -> 0
number [.5E1] -> 5
number [+5.] -> 5
number [1 E +2 ] -> 100
number [9e32000] -> 1000000000000000
number [-9e99] -> -1000000000000000
thousandths [1E-32000] -> 0
number [] -> error 102
number [.] -> error 102
number [+] -> error 102
number [- 1] -> error 102
number [ 1] -> error 102
number [1 E + 2] -> error 102
number [1 E V 1] -> error 102
number [1E5E5] -> error 102
number [5_] -> error 102
number [1E-32001] -> error 123
number [0E32001] -> error 123
number [1E32001V] -> error 123
number [1E99999999999999999999] -> error 123
number [1E] -> error 131
number [1 EV] -> error 131
number [1MV] -> error 131
number [1E5 V] -> error 131

# The greatest count of digits, in their bytes.
digits 31*256 -> error 124
digits 31*255 -> 1000000000000000
digits 30 2e 30*297 31 -> 0

# Thousandths, and how each is answered.
answer 5001 -> 5.001
answer -5 -> -0.005
answer 0 -> 0.000
answer -9223372036854775808 -> -9223372036854775.808
";

#[test]
fn numbers_are_read_and_written(rt: HostRuntime) {
    all_hold(&rt, rt.alloc(), NUMBERS);
}

const DATA: &str = r#"
# Strings and blocks as data, and the bytes that they are in brackets; in a block `\n` means NL.
string 'it''s' -> [it's]
string "it''s" -> [it''s]
string '' -> []
string 'a -> none
string 'a'b' -> none
string 'a'  -> none
string a -> none

block #13a;b -> [a;b]
block #203a;b -> [a;b]
block #10 -> []
block #0a;b\n -> [a;b]
block #0 -> []
block #13a; -> none
block #13a;bc -> none
block #H1 -> none

# Bodies of macros, their parameters in brackets, and what they are expanded to.
expand VOLT $1;*SAV $2 [3][1] -> VOLT 3;*SAV 1
expand VOLT $1;*SAV $2 [3] -> none
expand "$1" $0  -> "$1" $0
expand $$1$12 [x] -> $xx2
expand #12$1$1'$1 [x] -> #12$1x'$1
expand $2 [x] -> none
"#;

// Whether the response of eleven bytes is a block.
fn is_definite(alloc: Global) -> bool {
    match definite(alloc, b"a;b\n0123456") {
        Ok(block) => block.as_slice() == b"#211a;b\n0123456".as_slice(),
        Err(_) => false,
    }
}

#[test]
fn data_are_read_and_macros_expanded(rt: HostRuntime) {
    all_hold(&rt, rt.alloc(), DATA);
    assert!(rt; is_definite(rt.alloc()));
}

const NAMES: &str = r#"
# The label of a macro: a letter followed by letters, digits or `_`, 1 to 12 bytes.
label [A] -> yes
label [z] -> yes
label [a_1] -> yes
label [ABCDEFGHIJ_9] -> yes
label [ABCDEFGHIJ_90] -> no
label [] -> no
label [1A] -> no
label [_A] -> no
label [A-B] -> no
label [A.B] -> no
label [A B] -> no
label [*A] -> no
label [A?] -> no
label [é] -> no

# The name of a file: 1 to 64 of letters, digits, `_`, `-` and `.`.
name [a] -> yes
name [9] -> yes
name [_] -> yes
name [-] -> yes
name [.] -> yes
name [st.a_1-B] -> yes
name [] -> no
name [a/b] -> no
name [a b] -> no
name [a"b] -> no
name [a,b] -> no
name [é] -> no
bytes 6e*64 -> yes
bytes 6e*65 -> no
"#;

#[test]
fn labels_of_macros_and_names_of_files(rt: HostRuntime) {
    all_hold(&rt, rt.alloc(), NAMES);
}

// Whether a message is one unit without a fault.
fn is_one(text: &[u8]) -> bool {
    let mut units = Units::of(text);
    match units.next_unit() {
        Some(unit) => unit.text == text && placed(&unit) == "first" && units.next_unit().is_none(),
        None => false,
    }
}

#[test]
fn many_strings_are_cut_in_one_pass(rt: HostRuntime) {
    let mut strings = [b'"'; 65_535];
    for at in 0..65_535 {
        if at % 3 == 2 {
            strings[at] = b',';
        }
    }
    assert!(rt; is_one(&strings));
}
