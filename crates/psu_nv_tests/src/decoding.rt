//! Contents from a map: each of its items valid, and each way in which one is invalid.
use crate::holds::holds;
use crate::maps::{bytes_of, insert, map_of};
use psu_map::{Items, Pair};
use psu_nv::{Contents, DecodeFault};
use psu_status::Enables;
use psu_tables::row;
use std::alloc::Global;
use std::process::Abort;

// Returns the word for a fault.
fn called(fault: DecodeFault) -> &'static str {
    match fault {
        DecodeFault::BadKey => "bad key",
        DecodeFault::BadValue => "bad value",
        DecodeFault::Memory => "memory",
    }
}

// Whether contents are encoded to this one item.
fn are_encoded(
    alloc: Global,
    contents: &Contents<Global>,
    key: &[u8],
    value: &[u8],
) -> Option<bool> {
    let items = contents.encode_items(alloc).ok()?;
    match items.pairs() {
        [pair] => Some(pair.key() == key && pair.value() == value),
        _ => None,
    }
}

// Returns why a map of a key and a value is refused, or `good` for one that is encoded to itself again.
fn verdict(alloc: Global, items: &Items<Global>, key: &[u8], value: &[u8]) -> Option<&'static str> {
    match Contents::decode_items(alloc, items) {
        Ok(contents) => are_encoded(alloc, &contents, key, value)?.then_some("good"),
        Err(fault) => Some(called(fault)),
    }
}

// Inserts copies of a key and a value.
fn put(alloc: Global, items: &mut Items<Global>, key: &[u8], value: &[u8]) -> Option<()> {
    let key = key.to_vec(alloc).ok()?;
    insert(items, key, value.to_vec(alloc).ok()?)
}

// Returns the map of a key and a value.
fn one(alloc: Global, key: &[u8], value: &[u8]) -> Option<Items<Global>> {
    let mut items = Items::new(alloc);
    put(alloc, &mut items, key, value)?;
    Some(items)
}

// Whether the result for a map of a key and a value is the wanted one.
fn is(alloc: Global, key: &[u8], value: &[u8], wanted: &str) -> Option<bool> {
    Some(verdict(alloc, &one(alloc, key, value)?, key, value)? == wanted)
}

// Whether the result for an item is the wanted one.
fn is_decoded_as(alloc: Global, item: &str, wanted: &str) -> Option<bool> {
    let (key, value) = item.split_once("|")?;
    let key = bytes_of(alloc, key)?;
    is(alloc, &key, &bytes_of(alloc, value)?, wanted)
}

// Checks maps of a key and a value, and why each is refused: a row a line, as `key | value -> fault`.
fn look(rt: &impl Abort, alloc: Global, table: &str) {
    for line in table.lines() {
        if let Some((item, wanted)) = row(line) {
            holds(rt, is_decoded_as(alloc, item, wanted) == Some(true), line);
        }
    }
}

const KEYS: &str = "
| 01 -> bad key
00 | 01 -> bad key
06 00 | 01 -> bad key
07 | 01 -> bad key
01 00 | 20 80 -> bad key
02 | 01*7 reset -> bad key
02 64 | 01 01 00*5 reset -> bad key
02 01 00 | 01 01 00*5 reset -> bad key
03 03 | 'text -> bad key
04 01 | 01 'A 00 00 -> bad key
05 | 00 -> bad key
05 'a/b | 00 -> bad key
05 41*64 | 00 -> good
05 41*65 | 00 -> bad key
";

#[test]
fn keys_that_no_contents_have(rt: HostRuntime) {
    look(&rt, rt.alloc(), KEYS);
}

// The choice of the settings at power-on is kept only for register 0.
const ENABLES_AND_CHOICE: &str = "
01 | 20 80 -> good
01 | -> bad value
01 | 20 -> bad value
01 | 20 80 00 -> bad value
01 | 60 80 -> bad value
06 | 01 -> good
06 | -> bad value
06 | 00 -> bad value
06 | 02 -> bad value
06 | 01 00 -> bad value
";

#[test]
fn enables_and_settings_at_power_on(rt: HostRuntime) {
    look(&rt, rt.alloc(), ENABLES_AND_CHOICE);
}

const REGISTERS: &str = "
02 09 | ea 60 13 88 ea 60 03 reset -> good
02 09 | 00*27 -> bad value
02 09 | 00*29 -> bad value

The settings of *RST, which no item holds, and each value one beyond its greatest.
02 00 | 00 00 00 00 ea 60 00 reset -> bad value
02 00 | ea 61 00 00 00 00 00 reset -> bad value
02 00 | 00 00 13 89 00 00 00 reset -> bad value
02 00 | 00 00 00 00 ea 61 00 reset -> bad value
02 00 | 00 00 00 00 00 00 04 reset -> bad value
";

#[test]
fn registers(rt: HostRuntime) {
    look(&rt, rt.alloc(), REGISTERS);
}

const USER_DATA_AND_FILES: &str = "
03 | 07 -> good
03 | 07*63 -> good
03 | -> bad value
03 | 07*64 -> bad value
05 'a-B_9.x | 00 07 -> good
05 'a-B_9.x | 01 07 -> good
05 'a-B_9.x | 02 07 -> good
05 'a | 03 07 -> bad value
05 'a | -> bad value
05 'a | 00*32769 -> good
05 'a | 00*32770 -> bad value
";

#[test]
fn user_data_and_files(rt: HostRuntime) {
    look(&rt, rt.alloc(), USER_DATA_AND_FILES);
}

const MACROS: &str = "
04 | 01 'A 00 04 '*CLS -> good
04 | 01 'A 00 00 02 'A_ 00 01 'x -> good
04 | -> bad value
04 | 00*3 -> bad value
04 | 02 '9A 00 00 -> bad value
04 | 0d 'ABCDEFGHIJKLM 00 00 -> bad value
04 | 05 'A 00 00 -> bad value
04 | 01 'A -> bad value
04 | 01 'A 00 -> bad value
04 | 01 'A 00 05 '*CLS -> bad value
04 | 01 'A 00 04 '*CLS 01 -> bad value
04 | 01 'A 00 00 01 'a 00 00 -> bad value
04 | 0c 'ABCDEFGHIJKL 00 00 -> good
04 | 01 'A 04 00 78*1024 -> good
04 | 01 'A 04 01 78*1025 -> bad value
";

#[test]
fn macros(rt: HostRuntime) {
    look(&rt, rt.alloc(), MACROS);
}

// Returns the value of 32 macros without bodies, each named by a letter and a digit.
fn macros_32(alloc: Global) -> Option<Vec<u8>> {
    let mut value = Vec::new(alloc);
    for high in [b'A', b'B', b'C', b'D'] {
        for low in [b'1', b'2', b'3', b'4', b'5', b'6', b'7', b'8'] {
            value.extend_from_slice(&[2, high, low, 0, 0]).ok()?;
        }
    }
    Some(value)
}

// Whether they are valid, and are refused with one more.
fn are_most(alloc: Global, value: &mut Vec<u8>) -> Option<bool> {
    let fit = is(alloc, &[4], value, "good")?;
    value.extend_from_slice(&[1, b'E', 0, 0]).ok()?;
    Some(fit && is(alloc, &[4], value, "bad value")?)
}

fn most_are_32(alloc: Global) -> Option<bool> {
    are_most(alloc, &mut macros_32(alloc)?)
}

#[test]
fn as_many_macros_as_there_may_be(rt: HostRuntime) {
    assert!(rt; most_are_32(rt.alloc()) == Some(true));
}

// A map with a bad value and, after it, a bad key.
const TWICE_BAD: &str = "
01 | 60 00
07 | 00
";

fn first_fault(alloc: Global) -> Option<DecodeFault> {
    Contents::decode_items(alloc, &map_of(alloc, TWICE_BAD)?).err()
}

#[test]
fn a_bad_key_comes_first(rt: HostRuntime) {
    assert!(rt; first_fault(rt.alloc()) == Some(DecodeFault::BadKey));
}

// A map of every kind of item, its keys in another order.
const WHOLE: &str = "
05 'B | 02
01 | 00 08
05 'A | 00 'xyz
06 | 01
04 | 01 'M 00 01 '!
03 | 09
02 04 | 00 00 00 00 ea 60 02 reset
";

// Whether contents have the enables, the user data and the choice of the whole map.
fn have_settings(contents: &Contents<Global>) -> bool {
    contents.enables() == Some(Enables { sre: 0, ese: 8 })
        && contents.user() == [9].as_slice()
        && contents.recall()
}

// Whether contents have the macro and the files of the whole map.
fn have_texts(contents: &Contents<Global>) -> bool {
    matches!(contents.body(b"m"), Some(body) if body == b"!".as_slice())
        && contents.names().len() == 2
        && matches!(contents.file(b"A"), Some(file) if file.bytes == b"xyz".as_slice())
}

// Whether contents have each part of the whole map.
fn are_whole(contents: &Contents<Global>) -> bool {
    have_settings(contents) && have_texts(contents)
}

fn are_decoded(alloc: Global, items: &Items<Global>) -> Option<bool> {
    let contents = Contents::decode_items(alloc, items).ok()?;
    Some(are_whole(&contents) && contents.cost() == items.cost())
}

fn all_are_decoded(alloc: Global) -> Option<bool> {
    are_decoded(alloc, &map_of(alloc, WHOLE)?)
}

#[test]
fn all_parts_together(rt: HostRuntime) {
    assert!(rt; all_are_decoded(rt.alloc()) == Some(true));
}

// Whether two items are the same: a function of its own, so that it is proved apart from the loop.
fn is_same(one: &Pair<Global>, other: &Pair<Global>) -> bool {
    one.key() == other.key() && one.value() == other.value()
}

// Whether two maps have the same seven items.
fn are_same(one: &Items<Global>, other: &Items<Global>) -> bool {
    for (a, b) in one.pairs().iter().zip(other.pairs()) {
        if !is_same(a, b) {
            return false;
        }
    }
    one.pairs().len() == 7 && other.pairs().len() == 7
}

// Whether contents are encoded to a map.
fn give(alloc: Global, contents: &Contents<Global>, items: &Items<Global>) -> Option<bool> {
    Some(are_same(&contents.encode_items(alloc).ok()?, items))
}

// Whether a copy of contents is encoded to a map.
fn copy_gives(alloc: Global, contents: &Contents<Global>, items: &Items<Global>) -> Option<bool> {
    give(alloc, &contents.copy(alloc).ok()?, items)
}

fn is_copied(alloc: Global, items: &Items<Global>) -> Option<bool> {
    copy_gives(alloc, &Contents::decode_items(alloc, items).ok()?, items)
}

fn a_copy_is_same(alloc: Global) -> Option<bool> {
    is_copied(alloc, &map_of(alloc, WHOLE)?)
}

#[test]
fn a_copy_is_encoded_to_the_same_map(rt: HostRuntime) {
    assert!(rt; a_copy_is_same(rt.alloc()) == Some(true));
}
