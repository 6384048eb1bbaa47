//! Numeric suffixes of headers.
ghost use Rattle.std.specs.Prelude.{◌≡◌, ◌≤◌, min, true, map};
ghost use Rattle.psu_lex.specs.Bytes.{all_digits, value_after};
ghost use Rattle.psu_tree.specs.Reading.{output_at, output_of, suffix_of};

use crate::walks::number_of;
use psu_lex::ScpiError;
use psu_settings::Output;

// Returns the output of a number.
fn output_at(number: usize) -> Result<Output, ScpiError>
    ensures { result ≡ output_at number }
{
    match number {
        1 => Ok(Output::First),
        2 => Ok(Output::Second),
        3 => Ok(Output::Third),
        4 => Ok(Output::Fourth),
        _ => Err(ScpiError::HeaderSuffixOutOfRange),
    }
}

// Returns the number that digits denote, capped at 5.
fn suffix_value(digits: &[u8], before: usize) -> usize
    requires digits { all_digits digits.now ≡ true }
    requires before { before ≤ 5 }
    ensures { result ≡ min 5 (value_after before digits.now) }
{
    match digits.split_first() {
        None => before,
        Some((digit, others)) => suffix_value(
            others,
            (10 * before + (*digit - b'0') as usize).min(5),
        ),
    }
}

// Returns the output of a numeric suffix.
fn output_of(digits: &[u8]) -> Result<Output, ScpiError>
    requires { all_digits digits.now ≡ true }
    ensures { result ≡ output_of digits.now }
{
    if digits.is_empty() {
        return Ok(Output::First);
    }
    output_at(suffix_value(digits, 0))
}

// Returns the digits at the end of the first node that has some.
fn suffix_of<'a>(words: &[&'a [u8]]) -> &'a [u8]
    ensures { result.now ≡ suffix_of (map (λ word. word.now) words.now) }
{
    for word in words {
        let digits = number_of(word);
        if !digits.is_empty() {
            return digits;
        }
    }
    &[]
}

/// Returns the output of a header: the number of the node that has one.
#[tactic(auto, using(crate::proofs::SuffixNumbers::suffix_digits))]
pub(crate) fn header_output(words: &[&[u8]]) -> Result<Output, ScpiError>
    ensures { result ≡ output_of (suffix_of (map (λ word. word.now) words.now)) }
{
    output_of(suffix_of(words))
}
