//! Headers.
ghost use Rattle.std.specs.Prelude.{◌≡◌, ◌≤◌, ◌<◌, ◌==◌, ◌||◌, Bool, true, false, length, drop, slice_index, IfSome, IfNone};
ghost use Rattle.psu_lex.specs.Bytes.{is_dark, is_digit};
ghost use Rattle.psu_lex.specs.NumberScan.{run};
ghost use Rattle.psu_lex.specs.SyntaxScan.{EndsDark, Reaches, behind_ask, behind_mark, ends_asking, is_header, is_path, joins, mark_of, without_ask};
ghost use Rattle.psu_lex.specs.Shown.{ShowsHeader};
ghost use Rattle.psu_lex.specs.Syntax.{HeaderParts, IsHeader, header_text, is_apart, is_node, is_name_byte};

use crate::class::is_white;
use crate::pieces::{after, begins, front};
use crate::{HeaderMark, UnitHeader};

/// Whether another node follows a node.
fn joins(several: bool, byte: u8) -> bool
    ensures { result ≡ joins true several byte }
{
    several && byte == b':'
}

/// Whether the byte is a digit or `_`, which few names have.
#[inline(always)]
fn is_rare(byte: u8) -> bool
    ensures { result ≡ (is_digit byte || byte == 95) }
{
    byte.is_ascii_digit() || byte == b'_'
}

/// Whether the byte is a letter, a digit or `_`.
#[inline(always)]
pub(crate) fn is_name_byte(byte: u8) -> bool
    ensures { result ≡ is_name_byte byte }
{
    byte.is_ascii_alphabetic() || is_rare(byte)
}

/// Whether the text is a letter followed by letters, digits or `_`.
pub(crate) fn is_node(text: &[u8]) -> bool
    ensures { result ≡ is_node text.now }
{
    if text.is_empty() || !text[0].is_ascii_alphabetic() {
        return false;
    }
    for byte in text {
        if !is_name_byte(*byte) {
            return false;
        }
    }
    true
}

/// Whether the text is empty or begins with white space.
fn is_apart(text: &[u8]) -> bool
    ensures { result ≡ is_apart text.now }
{
    text.is_empty() || is_white(text[0])
}

/// Returns the position, or the next one where a `?` is at the position.
fn behind_ask(text: &[u8], at: usize) -> usize
    requires { at < length text.now }
    ensures within { result ≤ length text.now }
    ensures value { result ≡ behind_ask text.now at }
{
    if text[at] == b'?' { at + 1 } else { at }
}

/// Returns the position at which the bytes of a name end, from a position onward.
fn name_end(text: &[u8], at: usize) -> usize
    requires { at ≤ length text.now }
    ensures low { at ≤ result }
    ensures high { result ≤ length text.now }
    ensures reaches { (several : Bool) → Reaches several true text.now at → Reaches several true text.now result }
    ensures stops { result < length text.now → is_name_byte (slice_index text.now result) ≡ false }
{
    for end in at..text.len() {
        if !is_name_byte(text[end]) {
            return end;
        }
    }
    text.len()
}

/// Returns the end of a path whose last node ends at `at`, if nothing or white space follows it.
fn last_end(text: &[u8], at: usize) -> Option<usize>
    requires { at < length text.now }
    ensures within { IfSome result (λ n. n ≤ length text.now) }
    ensures some { IfSome result (λ n. (n ≡ behind_ask text.now at) × (is_apart (drop n text.now) ≡ true)) }
    ensures none { IfNone result (is_apart (drop (behind_ask text.now at) text.now) ≡ false) }
{
    let end = behind_ask(text, at);
    if is_apart(after(text, end)) {
        Some(end)
    } else {
        None
    }
}

/// Returns the length of the text before the first white space, if it is one node, or several nodes joined by `:` where
/// these are allowed, followed by an optional `?`.
fn path_end(text: &[u8], several: bool) -> Option<usize>
    ensures within { IfSome result (λ n. n ≤ length text.now) }
    ensures some { IfSome result (λ n. EndsDark (is_path several false) text.now n) }
    ensures none { IfNone result (is_path several false (run is_dark text.now) ≡ false) }
{
    let mut at = 0;
    'nodes: loop {
        if at == text.len() || !text[at].is_ascii_alphabetic() {
            return None;
        }
        let end = name_end(text, at + 1);
        if end == text.len() {
            return Some(end);
        }
        if !joins(several, text[end]) {
            return last_end(text, end);
        }
        at = end + 1;
    }
}

/// Returns the length of the text before the first white space, if it is a header.
pub(crate) fn header_end(text: &[u8]) -> Option<usize>
    ensures within { IfSome result (λ n. n ≤ length text.now) }
    ensures some { IfSome result (λ n. EndsDark is_header text.now n) }
    ensures none { IfNone result (is_header (run is_dark text.now) ≡ false) }
{
    if begins(text, b'*') {
        return Some(1 + path_end(after(text, 1), false)?);
    }
    if begins(text, b':') {
        return Some(1 + path_end(after(text, 1), true)?);
    }
    path_end(text, true)
}

/// Returns the mark that the text begins with.
fn mark_of(text: &[u8]) -> HeaderMark
    ensures { result ≡ mark_of text.now }
{
    if begins(text, b'*') {
        return HeaderMark::Star;
    }
    if begins(text, b':') {
        return HeaderMark::Colon;
    }
    HeaderMark::Bare
}

/// Returns the text after its mark.
fn behind_mark(text: &[u8], mark: HeaderMark) -> &[u8]
    requires { mark ≡ mark_of text.now }
    ensures { result.now ≡ behind_mark mark text.now }
{
    match mark {
        HeaderMark::Star | HeaderMark::Colon => after(text, 1),
        HeaderMark::Bare => text,
    }
}

/// Whether the last byte is a `?`.
#[tactic(auto, using(crate::proofs::HeaderScans::last_asks))]
fn ends_asking(text: &[u8]) -> bool
    ensures { result ≡ ends_asking text.now }
{
    !text.is_empty() && text[text.len() - 1] == b'?'
}

/// Returns the text without its `?`.
fn without_ask(text: &[u8], asks: bool) -> &[u8]
    requires { asks ≡ ends_asking text.now }
    ensures { result.now ≡ without_ask asks text.now }
{
    if asks {
        front(text, text.len() - 1)
    } else {
        text
    }
}

/// Returns the parts of a header.
pub(crate) fn header_of(text: &[u8]) -> UnitHeader<'_>
    requires { is_header text.now ≡ true }
    ensures { (h : HeaderParts) × IsHeader h × (text.now ≡ header_text h) × ShowsHeader result h }
{
    let mark = mark_of(text);
    let body = behind_mark(text, mark);
    let asks = ends_asking(body);
    UnitHeader {
        text,
        mark,
        nodes: without_ask(body, asks),
        asks,
    }
}
