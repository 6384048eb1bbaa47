//! The parts of a number in a text.
ghost use Rattle.std.specs.Prelude.{ℕ, List, [], ◌≡◌, ◌==◌, ◌||◌, ◌++◌, true, false, length, IfSome, IfNone};
ghost use Rattle.psu_lex.specs.Number.{fraction_digits};
ghost use Rattle.psu_lex.specs.Shown.{ShowsNumber};
ghost use Rattle.psu_lex.specs.NumberScan.{ShowsPower, after_exponent, after_fraction, after_sign, belongs, excess_of, exponent_of, fraction_of, is_nonempty, is_number, left, run, scanned, suffix_of};

use crate::class::Class;
use crate::pieces::{after, begins, front};
use crate::written::{Power, Written};

/// Splits the text after its longest prefix of bytes of this class.
pub(crate) fn run_of(text: &[u8], class: Class) -> (&[u8], &[u8])
    ensures run { result.0.now ≡ run (belongs class) text.now }
    ensures left { result.1.now ≡ left (belongs class) text.now }
{
    for at in 0..text.len() {
        if !class.has(text[at]) {
            return text.split_at(at);
        }
    }
    text.split_at(text.len())
}

/// Returns the text after its sign, if it begins with one.
fn behind_sign(text: &[u8]) -> &[u8]
    ensures { result.now ≡ after_sign text.now }
{
    if begins(text, b'+') || begins(text, b'-') {
        return after(text, 1);
    }
    text
}

/// Returns the digits after a point, if the text begins with one, and what follows them.
fn fraction_at(text: &[u8]) -> (&[u8], &[u8])
    ensures digits { result.0.now ≡ fraction_digits (fraction_of text.now) }
    ensures rest { result.1.now ≡ after_fraction text.now }
{
    if begins(text, b'.') {
        return run_of(after(text, 1), Class::Digit);
    }
    (front(text, 0), text)
}

/// Returns the exponent that the text begins with, after white space.
fn exponent_at(text: &[u8]) -> Power<'_>
    ensures { ShowsPower result (exponent_of text.now) (after_exponent text.now) }
{
    let none = Power {
        divides: false,
        digits: front(text, 0),
        rest: text,
    };
    let (_, marked) = run_of(text, Class::White);
    if !begins(marked, b'E') && !begins(marked, b'e') {
        return none;
    }
    let (_, signed) = run_of(after(marked, 1), Class::White);
    let (digits, rest) = run_of(behind_sign(signed), Class::Digit);
    if digits.is_empty() {
        return none;
    }
    Power {
        divides: begins(signed, b'-'),
        digits,
        rest,
    }
}

/// Returns the suffix that the text begins with, after white space, and whether more than white space follows it.
fn tail_at(text: &[u8]) -> (&[u8], bool)
    ensures suffix { result.0.now ≡ suffix_of text.now }
    ensures more { result.1 ≡ is_nonempty (excess_of text.now) }
{
    let (_, marked) = run_of(text, Class::White);
    let (suffix, rest) = run_of(marked, Class::Letter);
    let (_, more) = run_of(rest, Class::White);
    (suffix, !more.is_empty())
}

/// Whether there is a digit before or after the point.
fn has_digit(whole: &[u8], fraction: &[u8]) -> bool
    ensures { result ≡ is_nonempty (whole.now ++ fraction.now) }
{
    match whole.split_first() {
        Some(_) => true,
        None => !fraction.is_empty(),
    }
}

/// Returns the number that the text is, if it is one.
#[inline(always)]
pub(crate) fn scan(text: &[u8]) -> Option<Written<'_>>
    ensures some { IfSome result (λ shown. ShowsNumber shown (scanned text.now) × (is_number text.now ≡ true)) }
    ensures none { IfNone result (is_number text.now ≡ false) }
{
    let (whole, rest) = run_of(behind_sign(text), Class::Digit);
    let (fraction, rest) = fraction_at(rest);
    if !has_digit(whole, fraction) {
        return None;
    }
    let power = exponent_at(rest);
    let (suffix, has_more) = tail_at(power.rest);
    if has_more {
        return None;
    }
    Some(Written {
        negative: begins(text, b'-'),
        whole,
        fraction,
        power,
        suffix,
    })
}
