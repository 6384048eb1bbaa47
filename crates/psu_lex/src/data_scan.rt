//! Where the data of a unit begin and end.
ghost use Rattle.std.specs.Prelude.{List, ◌≡◌, ◌≤◌, true, false, length, take, drop, Some, None, IfSome, IfNone};
ghost use Rattle.psu_lex.specs.Bytes.{all_white};
ghost use Rattle.psu_lex.specs.Syntax.{Datum as DatumData, Lists, datum_of, ends_in_white};
ghost use Rattle.psu_lex.specs.Shown.{HoldsData, HoldsFound, TailLists};
ghost use Rattle.psu_lex.specs.SyntaxScan.{after_datum, class_at, datum_at, is_parted, written};
ghost use Rattle.psu_lex.specs.declared.data.DatumClass.TheVariants.{Numeric, Character, String, Block};

use crate::class::Class;
use crate::data::Found;
use crate::headers::is_node;
use crate::message::is_blank;
use crate::number_scan::{run_of, scan};
use crate::pieces::{after, begins, front, is_quote_byte, whole_end};
use crate::{Data, Datum, DatumClass};
use memchr::memchr;

/// Returns the position at which the trailing white space begins.
#[tactic(auto, using(crate::proofs::WrittenData::dark_at))]
fn dark_end(text: &[u8]) -> usize
    ensures within { result ≤ length text.now }
    ensures white { all_white (drop result text.now) ≡ true }
    ensures dark { ends_in_white (take result text.now) ≡ false }
{
    let mut end = text.len();
    while end > 0 && Class::White.has(text[end - 1]) {
        end -= 1;
    }
    end
}

/// Returns the length of the text up to the `,` or the end, without trailing white space.
fn written_end(body: &[u8]) -> usize
    ensures within { result ≤ length body.now }
    ensures written { take result body.now ≡ written body.now }
{
    let end = memchr(b',', body).unwrap_or(body.len());
    dark_end(front(body, end))
}

/// Returns the length of the number that the body is up to a `,`, or `None` where it is not a number.
fn number_end(body: &[u8]) -> Option<usize>
    ensures within { IfSome result (λ n. n ≤ length body.now) }
    ensures some { IfSome result (λ n. after_datum Numeric body.now ≡ Some (drop n body.now)) }
    ensures none { IfNone result (after_datum Numeric body.now ≡ None) }
{
    let end = written_end(body);
    match scan(front(body, end)) {
        Some(_) => Some(end),
        None => None,
    }
}

/// Returns the length of the word that the body is up to a `,`, or `None` where it is not a word.
fn word_end(body: &[u8]) -> Option<usize>
    ensures within { IfSome result (λ n. n ≤ length body.now) }
    ensures some { IfSome result (λ n. after_datum Character body.now ≡ Some (drop n body.now)) }
    ensures none { IfNone result (after_datum Character body.now ≡ None) }
{
    let end = written_end(body);
    if is_node(front(body, end)) {
        Some(end)
    } else {
        None
    }
}

/// Returns the length of the string that the body begins with.
fn text_end(body: &[u8]) -> Option<usize>
    ensures within { IfSome result (λ n. n ≤ length body.now) }
    ensures some { IfSome result (λ n. after_datum String body.now ≡ Some (drop n body.now)) }
    ensures none { IfNone result (after_datum String body.now ≡ None) }
{
    if is_quote_byte(body) {
        whole_end(body)
    } else {
        None
    }
}

/// Returns the length of the block that the body begins with; a block of indefinite length takes the whole body.
fn bytes_end(body: &[u8]) -> Option<usize>
    ensures within { IfSome result (λ n. n ≤ length body.now) }
    ensures some { IfSome result (λ n. after_datum Block body.now ≡ Some (drop n body.now)) }
    ensures none { IfNone result (after_datum Block body.now ≡ None) }
{
    if !begins(body, b'#') {
        return None;
    }
    if begins(after(body, 1), b'0') {
        return Some(body.len());
    }
    whole_end(body)
}

/// Returns the length of the datum of this class that the body begins with.
fn datum_end(body: &[u8], class: DatumClass) -> Option<usize>
    ensures within { IfSome result (λ n. n ≤ length body.now) }
    ensures some { IfSome result (λ n. after_datum class body.now ≡ Some (drop n body.now)) }
    ensures none { IfNone result (after_datum class body.now ≡ None) }
{
    match class {
        DatumClass::Numeric => number_end(body),
        DatumClass::Character => word_end(body),
        DatumClass::String => text_end(body),
        DatumClass::Block => bytes_end(body),
    }
}

/// Returns the class of a datum by its first byte.
fn class_at(byte: u8) -> DatumClass
    ensures { result ≡ class_at byte }
{
    match byte {
        b'"' | b'\'' => DatumClass::String,
        b'#' => DatumClass::Block,
        b'A'..=b'Z' | b'a'..=b'z' => DatumClass::Character,
        _ => DatumClass::Numeric,
    }
}

/// Whether a datum may end before this text: it is empty or begins with `,`.
fn is_parted(tail: &[u8]) -> bool
    ensures { result ≡ is_parted tail.now }
{
    tail.is_empty() || tail[0] == b','
}

/// Returns the datum that the text begins with, after white space.
#[inline(always)]
fn datum_at(text: &[u8]) -> Option<Found<'_>>
    ensures within { IfSome result (λ found. length found.tail.now ≤ length text.now) }
    ensures some { IfSome result (λ found. datum_at text.now ≡ Some (datum_of found.datum, found.tail.now)) }
    ensures none { IfNone result (datum_at text.now ≡ None) }
{
    let (_, body) = run_of(text, Class::White);
    if body.is_empty() {
        return None;
    }
    let class = class_at(body[0]);
    let Some(end) = datum_end(body, class) else {
        return None;
    };
    let next = after(body, end);
    let (_, tail) = run_of(next, Class::White);
    if !is_parted(tail) {
        return None;
    }
    Some(Found {
        datum: Datum {
            class,
            text: front(body, end),
        },
        tail,
    })
}

/// Returns the datum that a text begins with, as `datum_at` does. A query has mostly no text after its header.
fn first_datum(text: &[u8]) -> Option<Found<'_>>
    ensures some { IfSome result (λ found. datum_at text.now ≡ Some (datum_of found.datum, found.tail.now)) }
    ensures none { IfNone result (datum_at text.now ≡ None) }
{
    if text.is_empty() {
        return None;
    }
    datum_at(text)
}

/// Calls `datum_at` for a datum after a `,`: few units have one, so its code is kept out of line.
#[inline(never)]
fn later_datum(text: &[u8]) -> Option<Found<'_>>
    ensures within { IfSome result (λ found. length found.tail.now ≤ length text.now) }
    ensures some { IfSome result (λ found. datum_at text.now ≡ Some (datum_of found.datum, found.tail.now)) }
    ensures none { IfNone result (datum_at text.now ≡ None) }
{
    datum_at(text)
}

/// Returns the next datum of a list, after the `,`, or `None` where there is none.
pub(crate) fn next_of(tail: &[u8]) -> Option<Found<'_>>
    ensures { (others : List DatumData) → TailLists tail.now others → HoldsFound result others }
{
    if tail.is_empty() {
        return None;
    }
    later_datum(after(tail, 1))
}

/// Whether a list may continue with this text after a datum: the text is empty, or is a `,` followed by data separated
/// by `,`.
fn is_list_tail(tail: &[u8]) -> bool
    requires { is_parted tail.now ≡ true }
    ensures yes { result ≡ true → (others : List DatumData) × TailLists tail.now others }
    ensures no { result ≡ false → (others : List DatumData) → TailLists tail.now others → ⊥ }
{
    let mut rest = tail;
    'next: while !rest.is_empty() {
        let Some(found) = later_datum(after(rest, 1)) else {
            return false;
        };
        rest = found.tail;
    }
    true
}

/// Whether a text is only white space, or data separated by `,`, where `found` is its first datum, if it has one.
fn is_list(text: &[u8], found: &Option<Found<'_>>) -> bool
    requires some { IfSome found.now (λ found. datum_at text.now ≡ Some (datum_of found.datum, found.tail.now)) }
    requires none { IfNone found.now (datum_at text.now ≡ None) }
    ensures yes { result ≡ true → (list : List DatumData) × Lists text.now list × HoldsFound found.now list }
    ensures no { result ≡ false → (list : List DatumData) → Lists text.now list → ⊥ }
{
    match found {
        None => is_blank(text),
        Some(first) => is_list_tail(first.tail),
    }
}

/// Returns the data of a text that is only white space, or data separated by `,`; `None` for any other text.
pub(crate) fn list_at(text: &[u8]) -> Option<Data<'_>>
    ensures some { IfSome result (λ shown. (list : List DatumData) × Lists text.now list × HoldsData shown list) }
    ensures none { IfNone result ((list : List DatumData) → Lists text.now list → ⊥) }
{
    let found = first_datum(text);
    if is_list(text, &found) {
        Some(Data { found })
    } else {
        None
    }
}
