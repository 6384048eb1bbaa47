//! The value of a number, as a whole number.
ghost use Rattle.std.specs.Prelude.{ℕ, ◌≡◌, ◌+◌, ◌*◌, ◌^◌, ◌≤◌, ◌<◌, ◌++◌, nat_lt, min, true, length, take, slice_index, if◌then◌else◌, ℤ, pos};
ghost use Rattle.psu_lex.specs.Bytes.{all_digits, value_after};
ghost use Rattle.psu_lex.specs.Number.{Number, IsNumber, NumberGives, magnitude, reading_of, valued, without_zeros};
ghost use Rattle.psu_lex.specs.NumberScan.{with_minus};
ghost use Rattle.psu_lex.specs.Shown.{ShowsNumber};

use crate::ScpiError;
use crate::pieces::front;
use crate::written::Written;

/// The magnitude to which a value is clamped.
const MAGNITUDE_MOST: u64 = 1_000_000_000_000_000;

/// Returns a digit of the mantissa, whose digits are counted across the point.
fn digit_at(whole: &[u8], fraction: &[u8], at: usize) -> u8
    requires { at < length whole.now + length fraction.now }
    ensures { result ≡ slice_index (whole.now ++ fraction.now) at }
{
    if at < whole.len() {
        whole[at]
    } else {
        fraction[at - whole.len()]
    }
}

/// Returns the number that the first digits denote, capped at the greatest.
fn held(whole: &[u8], fraction: &[u8], count: usize) -> u64
    requires each { all_digits (whole.now ++ fraction.now) ≡ true }
    requires within { count ≤ length whole.now + length fraction.now }
    ensures { result ≡ min (10 ^ 15) (value_after 0 (take count (whole.now ++ fraction.now))) }
{
    let mut value = 0u64;
    for at in 0..count {
        let digit = digit_at(whole, fraction, at) - b'0';
        value = (10 * value + digit as u64).min(MAGNITUDE_MOST);
    }
    value
}

/// Returns the number that the digits of a value followed by more digits denote, capped at the greatest.
fn appended(value: u64, digits: &[u8]) -> u64
    requires small { value ≤ 10 ^ 15 }
    requires each { all_digits digits.now ≡ true }
    ensures small { result ≤ 10 ^ 15 }
    ensures value { result ≡ min (10 ^ 15) (value_after value digits.now) }
{
    let mut value = value;
    for digit in digits {
        value = (10 * value + (*digit - b'0') as u64).min(MAGNITUDE_MOST);
    }
    value
}

/// Returns the value times a power of ten, capped at the greatest.
fn shifted(value: u64, power: usize) -> u64
    requires { value ≤ 10 ^ 15 }
    ensures { result ≡ min (10 ^ 15) (value * 10 ^ power) }
{
    let mut value = value;
    for i in 0..power.min(16) {
        let _ = i;
        value = (10 * value).min(MAGNITUDE_MOST);
    }
    value
}

/// Returns the digits times 10^up / 10^down, rounded half away from zero and capped at the greatest. No loop runs
/// longer than there are digits, however great the powers.
fn scaled(whole: &[u8], fraction: &[u8], up: usize, down: usize) -> u64
    requires { all_digits (whole.now ++ fraction.now) ≡ true }
    ensures { result ≡ magnitude (whole.now ++ fraction.now) up down }
{
    let total = whole.len() + fraction.len();
    if up >= down {
        return shifted(appended(appended(0, whole), fraction), up - down);
    }
    let cut = down - up;
    if cut > total {
        return 0;
    }
    let kept = total - cut;
    let value = held(whole, fraction, kept);
    if digit_at(whole, fraction, kept) >= b'5' {
        (value + 1).min(MAGNITUDE_MOST)
    } else {
        value
    }
}

/// Returns the number of digits of the mantissa, not counting leading zeros.
fn significant(whole: &[u8], fraction: &[u8]) -> usize
    ensures { result ≡ length (without_zeros (whole.now ++ fraction.now)) }
{
    let total = whole.len() + fraction.len();
    for at in 0..total {
        if digit_at(whole, fraction, at) != b'0' {
            return total - at;
        }
    }
    0
}

/// Whether the mantissa has more than 255 digits, not counting leading zeros.
#[tactic(auto, using(crate::proofs::Rounding::few_digits))]
fn is_too_long(whole: &[u8], fraction: &[u8]) -> bool
    ensures { result ≡ nat_lt 255 (length (without_zeros (whole.now ++ fraction.now))) }
{
    if whole.len() + fraction.len() <= 255 {
        return false;
    }
    significant(whole, fraction) > 255
}

/// Returns the power, or 0 where it is left out.
fn unless(left_out: bool, power: u64) -> usize
    ensures { result ≡ (if left_out then 0 else power) }
{
    if left_out { 0 } else { power as usize }
}

/// Returns the value with its sign.
fn signed(negative: bool, value: u64) -> i64
    requires { value ≤ 10 ^ 15 }
    ensures { result ≡ with_minus negative value }
{
    if negative {
        -(value as i64)
    } else {
        value as i64
    }
}

/// Returns the value of a number that was found in a text, or its fault. The suffix is ignored.
#[inline(always)]
pub(crate) fn valued(shown: &Written<'_>, places: u8) -> Result<i64, ScpiError>
    requires { (n : Number) × IsNumber n × ShowsNumber shown.now n }
    ensures { (n : Number) → IsNumber n → ShowsNumber shown.now n → result ≡ valued n places }
{
    let digits = shown.power.digits;
    let power = held(digits, front(digits, 0), digits.len());
    if power > 32_000 {
        return Err(ScpiError::ExponentTooLarge);
    }
    if is_too_long(shown.whole, shown.fraction) {
        return Err(ScpiError::TooManyDigits);
    }
    let up = places as usize + unless(shown.power.divides, power);
    let down = shown.fraction.len() + unless(!shown.power.divides, power);
    Ok(signed(
        shown.negative,
        scaled(shown.whole, shown.fraction, up, down),
    ))
}

/// Returns the value of a number that was found in a text, where no suffix is allowed, or its error.
fn reading(shown: &Written<'_>, places: u8) -> Result<i64, ScpiError>
    requires { (n : Number) × IsNumber n × ShowsNumber shown.now n }
    ensures { (n : Number) → IsNumber n → ShowsNumber shown.now n → result ≡ reading_of n places }
{
    let value = valued(shown, places)?;
    if !shown.suffix.is_empty() {
        return Err(ScpiError::InvalidSuffix);
    }
    Ok(value)
}

/// Returns the value of a text as decimal numeric data (IEEE 488.2, 7.7.2) times `10^places`, rounded half away from
/// zero to a whole number and clamped to plus or minus 10^15.
///
/// The first of these that holds is the error: the text is not a number; its exponent is over 32000 either way; its
/// mantissa has more than 255 digits, not counting leading zeros; it has a suffix.
pub fn number(text: &[u8], places: u8) -> Result<i64, ScpiError>
    ensures { NumberGives text.now places result }
{
    let found = &Written::of(text);
    let Some(shown) = found else {
        return Err(ScpiError::SyntaxError);
    };
    reading(shown, places)
}
