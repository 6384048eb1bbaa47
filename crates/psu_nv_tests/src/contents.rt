//! Contents: the items that they are kept as, their cost, and which changes are refused.
use crate::holds::holds;
use psu_lex::ScpiError;
use psu_map::{Batch, Items};
use psu_nv::{Contents, FileBytes, NvCommand, Part, Register};
use psu_settings::{Millivolts, Output, Setting, Settings};
use psu_tables::{bytes, row};
use std::alloc::Global;
use std::process::Abort;

// Returns the reset settings with a voltage at output 1, in millivolts, where it is in range.
fn volts(millivolts: u32) -> Settings {
    let mut settings = Settings::reset();
    let _ = settings.set(Output::First, Setting::Voltage(Millivolts(millivolts)));
    settings
}

type Answer = Result<(), ScpiError>;

// Makes the change of `*SAV` of a register with a voltage at output 1.
fn save(contents: &mut Contents<Global>, limit: u16, number: u8, millivolts: u32) -> Answer {
    match Register::of(number) {
        Some(register) => contents.change(limit, &NvCommand::Save(register, volts(millivolts))),
        None => Err(ScpiError::DataOutOfRange),
    }
}

// Makes the change of `MMEMory:DATA` with a name.
fn write(contents: &mut Contents<Global>, name: &[u8], bytes: &[u8]) -> Answer {
    match FileBytes::of(bytes) {
        Some(file) => contents.change(256, &NvCommand::StoreBytes(name, file)),
        None => Err(ScpiError::TooMuchData),
    }
}

// The reset settings with 5.25 V at output 1.
const SAVED: &str = "14 82 00 00 ea 60 00 00*4 ea 60 00 00*4 ea 60 00 00*4 ea 60 00";

// Whether two values are the same: a function of its own, so that it is proved apart from what is dropped.
fn are_equal(value: &[u8], other: &[u8]) -> bool {
    value == other
}

// Whether a value has these bytes.
fn is_saved(alloc: Global, value: &[u8]) -> bool {
    match bytes(alloc, SAVED) {
        Some(saved) => are_equal(value, &saved),
        None => false,
    }
}

// Whether the items are only register 3 with these bytes.
fn are_register_3(alloc: Global, items: &Items<Global>) -> bool {
    match items.pairs() {
        [pair] => pair.key() == [2, 3].as_slice() && is_saved(alloc, pair.value()),
        _ => false,
    }
}

// Whether only that is encoded, as a whole and by its part.
fn is_encoded(alloc: Global, contents: &Contents<Global>) -> Option<bool> {
    let whole = are_register_3(alloc, &contents.encode_items(alloc).ok()?);
    let part = Part::Register(Register::of(3)?);
    let value = contents.encode_part(alloc, part).ok()??;
    let user = contents.encode_part(alloc, Part::User).ok()?;
    Some(whole && is_saved(alloc, &value) && user.is_none())
}

// Whether fresh contents have no item, and then those of the saved register.
fn is_kept(alloc: Global, contents: &mut Contents<Global>) -> Option<bool> {
    let empty = contents.encode_items(alloc).ok()?.pairs().is_empty();
    let saved = save(contents, 256, 3, 5_250).is_ok();
    Some(empty && saved && is_encoded(alloc, contents)?)
}

#[test]
fn a_register_is_28_bytes_under_its_number(rt: HostRuntime) {
    let kept = is_kept(rt.alloc(), &mut Contents::fresh(rt.alloc()));
    assert!(rt; kept == Some(true));
}

// Whether a batch assigns register 0 its 28 bytes, and drops the file A.
fn are_two_edits(batch: &Batch<Global>) -> bool {
    match batch.edits() {
        [one, two] => one.key() == [2, 0].as_slice()
            && matches!(one.value(), Some(value) if value.len() == 28)
            && two.key() == [5, b'A'].as_slice()
            && two.value().is_none(),
        _ => false,
    }
}

// Returns the edits of register 0, which is there, and of a file that isn't.
fn edits(alloc: Global, contents: &Contents<Global>) -> Option<Batch<Global>> {
    let mut batch = Batch::new(alloc);
    let register = Part::Register(Register::of(0)?);
    contents.edit(alloc, &mut batch, register).ok()?;
    contents.edit(alloc, &mut batch, Part::File(b"A")).ok()?;
    Some(batch)
}

fn are_edited(alloc: Global, contents: &mut Contents<Global>) -> Option<bool> {
    let saved = save(contents, 256, 0, 5_250).is_ok();
    Some(saved && are_two_edits(&edits(alloc, contents)?))
}

#[test]
fn a_batch_has_the_parts_that_changed(rt: HostRuntime) {
    let edited = are_edited(rt.alloc(), &mut Contents::fresh(rt.alloc()));
    assert!(rt; edited == Some(true));
}

const FULL: Result<(), ScpiError> = Err(ScpiError::MediaFull);

// Returns the word for an answer: `full`, `ok`, or another.
fn called(answer: Result<(), ScpiError>) -> &'static str {
    match answer {
        Ok(()) => "ok",
        Err(ScpiError::MediaFull) => "full",
        Err(_) => "another",
    }
}

// Whether a text is this number. It is matched, as the equality of two results is more to prove.
fn is_number(text: &str, wanted: u128) -> bool {
    match text.parse::<u128>() {
        Ok(number) => number == wanted,
        Err(_) => false,
    }
}

// Whether an answer is the one of a cell, and the contents then cost the pages after it.
fn is_wanted(answer: Result<(), ScpiError>, cost: u128, cell: &str) -> Option<bool> {
    let (word, pages) = cell.split_once(" ")?;
    Some(called(answer) == word && is_number(pages, cost))
}

// Files with their lengths, and the pages that the contents then have. A file of 32,768 bytes has 32,769 in its item,
// so 65 pages and one for the item; one of 29,183 bytes has 57 and one.
const FILES: &str = "
file A 32768 -> ok 66
file B 32768 -> ok 132
file C 32768 -> ok 198
file D 29183 -> ok 256
file E 0 -> full 256
file D 28671 -> ok 255
file E 0 -> full 255
file D 28159 -> ok 254
file E 0 -> ok 256
";

// Makes the change of `MMEMory:DATA` with this many zeros.
fn write_zeros(contents: &mut Contents<Global>, name: &str, length: usize) -> Answer {
    let zeros = [0; 32_768];
    if length > 32_768 {
        return Err(ScpiError::TooMuchData);
    }
    write(contents, name.as_bytes(), &zeros[..length])
}

// Makes the change of a file of this many bytes, or of a register with this many millivolts with a limit of four pages.
fn change(contents: &mut Contents<Global>, what: &str, count: u32) -> Option<Answer> {
    let (kind, name) = what.split_once(" ")?;
    match kind {
        "file" => Some(write_zeros(contents, name, count as usize)),
        "save" => Some(save(contents, 4, name.parse().ok()?, count)),
        _ => None,
    }
}

// Whether the result of a change is the one of its row.
fn results_in(contents: &mut Contents<Global>, line: &str) -> Option<bool> {
    let (changed, wanted) = row(line)?;
    let (what, count) = changed.rsplit_once(" ")?;
    let answer = change(contents, what, count.parse().ok()?)?;
    is_wanted(answer, contents.cost(), wanted)
}

// Makes the changes of a table one after another.
fn play(rt: &impl Abort, contents: &mut Contents<Global>, table: &str) {
    for line in table.lines() {
        let is_so = line.is_empty() || results_in(contents, line) == Some(true);
        holds(rt, is_so, line);
    }
}

fn are_full(contents: &Contents<Global>) -> bool {
    contents.names().len() == 5 && contents.fits(256) && !contents.fits(255)
}

#[test]
fn files_fill_256_pages(rt: HostRuntime) {
    let mut contents = Contents::fresh(rt.alloc());
    play(&rt, &mut contents, FILES);
    assert!(rt; are_full(&contents));
}

// Registers with their voltages in millivolts, and the pages of four that the contents then have.
const SAVES: &str = "
save 0 1000 -> ok 2
save 1 1000 -> ok 4
save 2 1000 -> full 4
save 0 0 -> ok 2
save 2 1000 -> ok 4
";

// Whether a register has a voltage at output 1.
fn has(contents: &Contents<Global>, number: u8, millivolts: u32) -> bool {
    match Register::of(number) {
        Some(register) => contents.register(register) == volts(millivolts),
        None => false,
    }
}

#[test]
fn four_pages_hold_two_registers(rt: HostRuntime) {
    let mut contents = Contents::fresh(rt.alloc());
    play(&rt, &mut contents, SAVES);
    assert!(rt; has(&contents, 2, 1_000));
}

// Whether a command is accepted.
fn does(contents: &mut Contents<Global>, command: NvCommand<'_>) -> bool {
    contents.change(256, &command).is_ok()
}

// Whether a command is refused with this error.
fn refuses(contents: &mut Contents<Global>, command: NvCommand<'_>, error: ScpiError) -> bool {
    match contents.change(256, &command) {
        Ok(()) => false,
        Err(found) => found == error,
    }
}

// Defines 32 macros, each named by a letter and a digit.
fn define_32(contents: &mut Contents<Global>) -> bool {
    for high in [b'A', b'B', b'C', b'D'] {
        for low in [b'1', b'2', b'3', b'4', b'5', b'6', b'7', b'8'] {
            if !does(contents, NvCommand::DefineMacro(&[high, low], b"*CLS")) {
                return false;
            }
        }
    }
    contents.labels().len() == 32
}

// Whether one more is refused until one of them is removed.
fn are_most(contents: &mut Contents<Global>) -> bool {
    let twice = ScpiError::MacroRedefinitionNotAllowed;
    refuses(
        contents,
        NvCommand::DefineMacro(b"E", b"*CLS"),
        ScpiError::MediaFull,
    ) && refuses(contents, NvCommand::DefineMacro(b"a1", b"*RST"), twice)
        && does(contents, NvCommand::RemoveMacro(b"b3"))
        && does(contents, NvCommand::DefineMacro(b"E", b"*CLS"))
}

// Whether the last label is E.
fn ends_with_e(contents: &Contents<Global>) -> bool {
    match contents.labels().last() {
        Some(last) => last.bytes() == b"E".as_slice(),
        None => false,
    }
}

fn are_32_and_no_more(contents: &mut Contents<Global>) -> bool {
    define_32(contents)
        && are_most(contents)
        && contents.body(b"a1") == Some(b"*CLS".as_slice())
        && ends_with_e(contents)
}

#[test]
fn the_33rd_macro_does_not_fit(rt: HostRuntime) {
    let fit = are_32_and_no_more(&mut Contents::fresh(rt.alloc()));
    assert!(rt; fit);
}

// Whether the items are the files R and T, and T has the type byte of a state and 28 bytes after it.
fn are_two_states(items: &Items<Global>) -> bool {
    match items.pairs() {
        [one, two] => one.key() == [5, b'R'].as_slice()
            && two.key() == [5, b'T'].as_slice()
            && two.value().len() == 29
            && two.value().first() == Some(&1),
        _ => false,
    }
}

// Whether the state of a register is stored as S, copied to T and moved to R.
fn is_moved(contents: &mut Contents<Global>, register: Register) -> bool {
    does(contents, NvCommand::StoreState(register, b"S"))
        && does(contents, NvCommand::Copy(b"S", b"T"))
        && does(contents, NvCommand::Move(b"S", b"R"))
        && refuses(
            contents,
            NvCommand::Copy(b"T", b"R"),
            ScpiError::FileNameError,
        )
        && refuses(
            contents,
            NvCommand::Delete(b"S"),
            ScpiError::FileNameNotFound,
        )
}

// Whether contents are encoded to those two items.
fn is_encoded_twice(alloc: Global, contents: &Contents<Global>) -> Option<bool> {
    let items = contents.encode_items(alloc).ok()?;
    Some(are_two_states(&items) && items.cost() == contents.cost())
}

fn is_copied(alloc: Global, contents: &mut Contents<Global>) -> Option<bool> {
    Some(is_moved(contents, Register::of(0)?) && is_encoded_twice(alloc, contents)?)
}

#[test]
fn a_file_is_copied_with_its_type(rt: HostRuntime) {
    let copied = is_copied(rt.alloc(), &mut Contents::fresh(rt.alloc()));
    assert!(rt; copied == Some(true));
}
