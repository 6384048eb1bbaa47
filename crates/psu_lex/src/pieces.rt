//! The ends of strings and blocks.
ghost use Rattle.std.specs.Prelude.{ℕ, ◌≡◌, ◌-◌, ◌≤◌, ◌<◌, true, false, length, take, drop, Some, None, IfSome, IfNone};
ghost use Rattle.psu_lex.specs.Bytes.{all_digits, ends_in_newline, is_closed, is_quote, starts, starts_quoted, value_after};
ghost use Rattle.psu_lex.specs.Message.{HasNoPiece};
ghost use Rattle.psu_lex.specs.Scan.{after_block, after_piece, after_string};

use crate::class::is_white;
use memchr::memchr2;

/// Returns the bytes from index `n` onward.
pub(crate) fn after(bytes: &[u8], n: usize) -> &[u8]
    requires { n ≤ length bytes.now }
    ensures { result.now ≡ drop n bytes.now }
{
    &bytes[n..]
}

/// Returns the bytes from one index up to another.
pub(crate) fn between(bytes: &[u8], from: usize, to: usize) -> &[u8]
    requires low { from ≤ to }
    requires high { to ≤ length bytes.now }
    ensures { result.now ≡ take (to - from) (drop from bytes.now) }
{
    &bytes[from..to]
}

/// Returns the first `n` bytes.
pub(crate) fn front(bytes: &[u8], n: usize) -> &[u8]
    requires { n ≤ length bytes.now }
    ensures { result.now ≡ take n bytes.now }
{
    &bytes[..n]
}

/// Whether this byte is the first.
pub(crate) fn begins(bytes: &[u8], byte: u8) -> bool
    ensures { result ≡ starts byte bytes.now }
{
    !bytes.is_empty() && bytes[0] == byte
}

/// Whether the first byte is a quote.
pub(crate) fn is_quote_byte(bytes: &[u8]) -> bool
    ensures { result ≡ starts_quoted bytes.now }
{
    begins(bytes, b'"') || begins(bytes, b'\'')
}

/// Whether the byte is a quote.
fn is_quote(byte: u8) -> bool
    ensures { result ≡ is_quote byte }
{
    byte == b'"' || byte == b'\''
}

/// Returns the number of bytes that belong to the string, where the text begins after its opening quote.
pub(crate) fn string_end(text: &[u8], quote: u8) -> Option<usize>
    requires { is_quote quote ≡ true }
    ensures within { IfSome result (λ n. n ≤ length text.now) }
    ensures some { IfSome result (λ n. after_string false quote text.now ≡ Some (drop n text.now)) }
    ensures none { IfNone result (after_string false quote text.now ≡ None) }
{
    let mut rest = text;
    while let Some(at) = memchr2(quote, b'\n', rest) {
        if rest[at] == b'\n' {
            return None;
        }
        let next = after(rest, at + 1);
        if !begins(next, quote) {
            return Some(text.len() - next.len());
        }
        rest = after(next, 1);
    }
    None
}

/// Returns the number that digits denote.
fn decimal(digits: &[u8]) -> usize
    requires few { length digits.now < 10 }
    requires each { all_digits digits.now ≡ true }
    ensures { result ≡ value_after 0 digits.now }
{
    let mut value = 0usize;
    for digit in digits {
        value = 10 * value + (*digit - b'0') as usize;
    }
    value
}

fn are_digits(text: &[u8]) -> bool
    ensures { result ≡ all_digits text.now }
{
    for byte in text {
        if !byte.is_ascii_digit() {
            return false;
        }
    }
    true
}

/// Whether this text may follow a string or a block in a message.
fn closes(text: &[u8]) -> bool
    ensures { result ≡ is_closed text.now }
{
    for byte in text {
        if !is_white(*byte) {
            return *byte == b',' || *byte == b';' || *byte == b'\n';
        }
    }
    true
}

#[tactic(auto, using(crate::proofs::PieceScans::last_byte))]
fn ends_line(text: &[u8]) -> bool
    ensures { result ≡ ends_in_newline text.now }
{
    !text.is_empty() && text[text.len() - 1] == b'\n'
}

/// Returns the number of bytes that belong to the block, where the text begins after its `#`.
pub(crate) fn block_end(text: &[u8]) -> Option<usize>
    ensures within { IfSome result (λ n. n ≤ length text.now) }
    ensures some { IfSome result (λ n. after_block text.now ≡ Some (drop n text.now)) }
    ensures none { IfNone result (after_block text.now ≡ None) }
{
    let Some((&first, rest)) = text.split_first() else {
        return None;
    };
    if first == b'0' {
        if ends_line(rest) {
            return Some(rest.len());
        }
        return Some(text.len());
    }
    if first < b'1' || first > b'9' {
        return None;
    }
    let count = (first - b'0') as usize;
    if count > rest.len() {
        return None;
    }
    let (digits, content) = rest.split_at(count);
    if !are_digits(digits) {
        return None;
    }
    let length = decimal(digits);
    if length > content.len() {
        return None;
    }
    Some(1 + (count + length))
}

/// Returns the length of the string or block at the beginning.
pub(crate) fn whole_end(bytes: &[u8]) -> Option<usize>
    ensures within { IfSome result (λ n. (0 < n) × (n ≤ length bytes.now)) }
    ensures some { IfSome result (λ n. after_piece bytes.now ≡ Some (drop n bytes.now)) }
    ensures none { IfNone result (after_piece bytes.now ≡ None) }
{
    let Some((&first, rest)) = bytes.split_first() else {
        return None;
    };
    if first == b'#' {
        return Some(1 + block_end(rest)?);
    }
    if is_quote(first) {
        return Some(1 + string_end(rest, first)?);
    }
    None
}

/// Returns the length of the string or block at the beginning, if what follows it may follow one in a message.
pub(crate) fn piece_end(bytes: &[u8]) -> Option<usize>
    ensures within { IfSome result (λ n. (0 < n) × (n ≤ length bytes.now)) }
    ensures some { IfSome result (λ n. after_piece bytes.now ≡ Some (drop n bytes.now) × (is_closed (drop n bytes.now) ≡ true)) }
    ensures none { IfNone result (HasNoPiece is_closed bytes.now) }
{
    match whole_end(bytes) {
        Some(length) => {
            if closes(after(bytes, length)) {
                Some(length)
            } else {
                None
            }
        }
        None => None,
    }
}
