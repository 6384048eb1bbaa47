//! Matching headers with the rows of the table.
ghost use Rattle.std.specs.Prelude.{◌≡◌, ◌≤◌, [], length, map, true, IsTrue, ◌↔◌};
ghost use Rattle.psu_tree.specs.Headers.{Matches, capital, fits, in_brackets, is_form, is_numbered, is_small, names, same_letters, stem};
ghost use Rattle.psu_tree.specs.Scans.{digit_before};
ghost use Rattle.psu_tree.specs.Reading.{digits_of};
ghost use Rattle.psu_tree.specs.Shown.{each_begins, entries, mnemonic};
ghost use Rattle.psu_tree.specs.Table.{table};

use crate::table::PATTERNS;
use crate::{Kind, Node, Section};

/// Returns the table of commands.
pub fn patterns() -> &'static [Section]
    ensures rows { entries result.now ≡ table }
    ensures letters { each_begins result.now ≡ true }
{
    &PATTERNS
}

/// Whether the byte is a lowercase letter.
pub(crate) fn is_small(byte: u8) -> bool
    ensures { result ≡ is_small byte }
{
    byte >= b'a' && byte <= b'z'
}

/// Returns a letter as a capital.
pub(crate) fn capital(byte: u8) -> u8
    ensures { result ≡ capital byte }
{
    if is_small(byte) { byte - 32 } else { byte }
}

/// Whether the texts are equal, ignoring case.
pub(crate) fn is_same(name: &[u8], word: &[u8]) -> bool
    ensures { result ≡ same_letters name.now word.now }
{
    let Some((letter, letters)) = name.split_first() else {
        return word.is_empty();
    };
    let Some((other, others)) = word.split_first() else {
        return false;
    };
    if capital(*letter) != capital(*other) {
        return false;
    }
    is_same(letters, others)
}

// Whether a word that is not longer than a mnemonic is its short or its long form.
fn is_form_within(name: &[u8], word: &[u8]) -> bool
    requires { length word.now ≤ length name.now }
    ensures { result ≡ is_form name.now word.now }
{
    let Some((other, others)) = word.split_first() else {
        return name.is_empty() || is_small(name[0]);
    };
    let letter = name[0];
    if is_small(letter) {
        return is_same(name, word);
    }
    if letter != *other && letter != capital(*other) {
        return false;
    }
    is_form_within(&name[1..], others)
}

// Whether a word is the short or the long form of a mnemonic.
fn is_form(name: &[u8], word: &[u8]) -> bool
    ensures { result ≡ is_form name.now word.now }
{
    if word.len() > name.len() {
        return false;
    }
    is_form_within(name, word)
}

// Whether the byte before a position is a digit.
fn has_digit_before(word: &[u8], end: usize) -> bool
    requires { end ≤ length word.now }
    ensures { result ≡ digit_before word.now end }
{
    if end == 0 {
        return false;
    }
    word[end - 1].is_ascii_digit()
}

// Returns a word without the digits at its end.
fn without_number(word: &[u8]) -> &[u8]
    ensures stem { result.now ≡ stem word.now }
    ensures within { length result.now ≤ length word.now }
{
    let mut end = word.len();
    while has_digit_before(word, end) {
        end -= 1;
    }
    &word[..end]
}

/// Returns the digits at the end of a word.
pub(crate) fn number_of(word: &[u8]) -> &[u8]
    ensures { result.now ≡ digits_of word.now }
{
    &word[without_number(word).len()..]
}

// Whether a numeric suffix may follow the node.
fn is_numbered(kind: Kind) -> bool
    ensures { result ≡ is_numbered kind }
{
    match kind {
        Kind::Must | Kind::Maybe => false,
        Kind::Numbered | Kind::MaybeNumbered => true,
    }
}

// Whether the node is optional.
pub(crate) fn may_miss(kind: Kind) -> bool
    ensures { result ≡ in_brackets kind }
{
    match kind {
        Kind::Must | Kind::Numbered => false,
        Kind::Maybe | Kind::MaybeNumbered => true,
    }
}

/// Whether a word is a form of the node.
#[inline(always)]
pub(crate) fn is_named(node: &Node, word: &[u8]) -> bool
    ensures { result ≡ names (mnemonic node.now) word.now }
{
    let form = if is_numbered(node.kind) {
        without_number(word)
    } else {
        word
    };
    is_form(node.name.as_bytes(), form)
}

// Whether all of the nodes are optional.
fn may_miss_all(nodes: &[Node]) -> bool
    ensures { result ≡ fits (map mnemonic nodes.now) [] }
{
    for node in nodes {
        if !may_miss(node.kind) {
            return false;
        }
    }
    true
}

// Whether no word is left, and all of the nodes are optional.
fn are_spent(nodes: &[Node], words: &[&[u8]]) -> bool
    ensures { result ≡ true → fits (map mnemonic nodes.now) (map (λ word. word.now) words.now) ≡ true }
{
    words.is_empty() && may_miss_all(nodes)
}

/// Whether some optional nodes can be left out so that each remaining node has the word in its place as a form.
pub fn walk(nodes: &[Node], words: &[&[u8]]) -> bool
    ensures exact { result ≡ fits (map mnemonic nodes.now) (map (λ word. word.now) words.now) }
    ensures matches { IsTrue result ↔ Matches (map mnemonic nodes.now) (map (λ word. word.now) words.now) }
{
    let Some((word, others)) = words.split_first() else {
        return may_miss_all(nodes);
    };
    let Some((node, later)) = nodes.split_first() else {
        return false;
    };
    let named = is_named(node, word);
    if named && are_spent(later, others) {
        return true;
    }
    if named && walk(later, others) {
        return true;
    }
    may_miss(node.kind) && walk(later, words)
}
