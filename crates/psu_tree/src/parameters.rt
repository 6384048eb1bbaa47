//! The values of data.
ghost use Rattle.std.specs.Prelude.{◌≡◌, ◌≤◌, ◌||◌, ℕ, [], ◌∷◌, IfOk};
ghost use Rattle.psu_lex.specs.Number.{Number, IsNumber, number_text};
ghost use Rattle.psu_lex.specs.Shown.{IsSomeDatum};
ghost use Rattle.psu_lex.specs.Syntax.{datum_of};
ghost use Rattle.psu_tree.specs.Commands.{greatest_of, unit_of};
ghost use Rattle.psu_tree.specs.Headers.{same_letters};
ghost use Rattle.psu_tree.specs.Parameters.{TakesAmount, TakesSwitch, TakesWhole, TakesWord, amount_of, counted, end_of, extreme_of, flagged, leveled, mapped, places_of, recalled, switched};
ghost use Rattle.psu_tree.specs.Taken.{Gives};

use crate::walks::is_same;
use crate::{Choice, Extreme, Level, Text};
use psu_lex::{Datum, DatumClass, ScpiError, Written, number};
use psu_settings::{Milliamperes, Millivolts};

// Whether the text is this word, ignoring case.
fn is_word(text: &[u8], word: &[u8]) -> bool
    ensures { result ≡ same_letters word.now text.now }
{
    is_same(word, text)
}

// ---- numbers

/// Returns the whole number of a datum.
pub(crate) fn whole(datum: &Datum<'_>) -> Result<i64, ScpiError>
    ensures { IsSomeDatum (datum_of datum.now) → TakesWhole (datum_of datum.now) result }
{
    match datum.class {
        DatumClass::Numeric => number(datum.text, 0),
        DatumClass::Character | DatumClass::String | DatumClass::Block => {
            Err(ScpiError::DataTypeError)
        }
    }
}

/// The largest number of a register of settings.
pub(crate) const LAST_REGISTER: u32 = 99;

/// Returns the number, if it is in a range.
pub(crate) fn counted(number: i64, least: u32, most: u32) -> Result<u32, ScpiError>
    ensures value { result ≡ counted least most number }
    ensures within { IfOk result (λ n. n ≤ most) }
{
    if number < i64::from(least) {
        return Err(ScpiError::DataOutOfRange);
    }
    if number > i64::from(most) {
        return Err(ScpiError::DataOutOfRange);
    }
    Ok(number.unsigned_abs() as u32)
}

/// Whether the number, from -32767 to 32767, is not 0.
pub(crate) fn flagged(number: i64) -> Result<bool, ScpiError>
    ensures { result ≡ flagged number }
{
    if number.unsigned_abs() > 32767 {
        return Err(ScpiError::DataOutOfRange);
    }
    Ok(number.unsigned_abs() != 0)
}

// Returns a number as a choice.
fn chosen<'a>(number: Result<i64, ScpiError>) -> Result<Choice<'a>, ScpiError>
    ensures { result ≡ mapped Choice.Amount number }
{
    match number {
        Ok(number) => Ok(Choice::Amount(number)),
        Err(error) => Err(error),
    }
}

// ---- switches

/// Returns the choice of a switch: ON, OFF, or a number.
pub(crate) fn switch_of<'a>(datum: &Datum<'a>) -> Result<Choice<'a>, ScpiError>
    ensures { IsSomeDatum (datum_of datum.now) → TakesSwitch (datum_of datum.now) result }
{
    match datum.class {
        DatumClass::Numeric => chosen(number(datum.text, 0)),
        DatumClass::Character => Ok(Choice::Word(Text { bytes: datum.text })),
        DatumClass::String | DatumClass::Block => Err(ScpiError::DataTypeError),
    }
}

// Whether a word is ON (true) or OFF (false).
fn is_on(word: &[u8]) -> Result<bool, ScpiError>
    ensures { result ≡ switched (Choice.Word word.now) }
{
    if is_word(word, b"ON") {
        return Ok(true);
    }
    if is_word(word, b"OFF") {
        return Ok(false);
    }
    Err(ScpiError::IllegalParameterValue)
}

/// Whether a switch is on: a number is ON unless it is 0.
pub(crate) fn switched(choice: &Choice<'_>) -> Result<bool, ScpiError>
    ensures { result ≡ switched choice.now }
{
    match choice {
        Choice::Amount(number) => Ok(number.unsigned_abs() != 0),
        Choice::Word(word) => is_on(word.bytes),
    }
}

// ---- levels

// Returns the letter of a level's unit.
fn unit_of(level: Level) -> u8
    ensures { result ≡ unit_of level }
{
    match level {
        Level::Voltage | Level::Protection => b'V',
        Level::Current => b'A',
    }
}

// Returns the maximum of a level, in thousandths of its unit.
fn greatest_of(level: Level) -> u16
    ensures { result ≡ greatest_of level }
{
    match level {
        Level::Voltage | Level::Protection => Millivolts::GREATEST.0 as u16,
        Level::Current => Milliamperes::GREATEST.0 as u16,
    }
}

// Whether the suffix is missing or is the unit.
fn is_unit(suffix: &[u8], unit: u8) -> bool
    ensures { result ≡ (same_letters [] suffix.now || same_letters (unit ∷ []) suffix.now) }
{
    suffix.is_empty() || is_word(suffix, &[unit])
}

// Returns the decimal places of a suffix: 3 where it is missing or is the unit, 0 where it is an M before the unit.
fn places_of(suffix: &[u8], unit: u8) -> Option<u8>
    ensures { result ≡ places_of unit suffix.now }
{
    if is_unit(suffix, unit) {
        return Some(3);
    }
    if is_word(suffix, &[b'M', unit]) {
        return Some(0);
    }
    None
}

// Returns a number in thousandths of the unit.
fn amount_of(text: &[u8], unit: u8) -> Result<i64, ScpiError>
    ensures { ((n : Number) × IsNumber n × (text.now ≡ number_text n)) → (n : Number) × IsNumber n × (text.now ≡ number_text n) × (result ≡ amount_of unit n) }
{
    let found = &Written::of(text);
    let Some(number) = found else {
        return Err(ScpiError::SyntaxError);
    };
    match places_of(number.suffix(), unit) {
        Some(places) => number.value(places),
        None => match number.value(0) {
            Ok(_) => Err(ScpiError::InvalidSuffix),
            Err(error) => Err(error),
        },
    }
}

/// Returns a number in thousandths of the level's unit, or a word.
pub(crate) fn amount<'a>(datum: &Datum<'a>, level: Level) -> Result<Choice<'a>, ScpiError>
    ensures { IsSomeDatum (datum_of datum.now) → TakesAmount (unit_of level) (datum_of datum.now) result }
{
    match datum.class {
        DatumClass::Numeric => chosen(amount_of(datum.text, unit_of(level))),
        DatumClass::Character => Ok(Choice::Word(Text { bytes: datum.text })),
        DatumClass::String | DatumClass::Block => Err(ScpiError::DataTypeError),
    }
}

// Returns the end of a range that a word names: MIN or MAX.
fn extreme_of(word: &[u8]) -> Result<Extreme, ScpiError>
    ensures { result ≡ extreme_of word.now }
{
    if is_word(word, b"MIN") {
        return Ok(Extreme::Least);
    }
    if is_word(word, b"MINIMUM") {
        return Ok(Extreme::Least);
    }
    if is_word(word, b"MAX") {
        return Ok(Extreme::Greatest);
    }
    if is_word(word, b"MAXIMUM") {
        return Ok(Extreme::Greatest);
    }
    Err(ScpiError::IllegalParameterValue)
}

// Returns an end of a level's range.
fn end_of(level: Level, extreme: Extreme) -> u16
    ensures { result ≡ end_of (greatest_of level) extreme }
{
    match extreme {
        Extreme::Least => 0,
        Extreme::Greatest => greatest_of(level),
    }
}

/// Returns the value of a level, from 0 to its maximum.
pub(crate) fn leveled(choice: &Choice<'_>, level: Level) -> Result<u16, ScpiError>
    ensures { result ≡ leveled (greatest_of level) choice.now }
{
    match choice {
        Choice::Amount(number) => { Ok(counted(*number, 0, u32::from(greatest_of(level)))? as u16) }
        Choice::Word(word) => Ok(end_of(level, extreme_of(word.bytes)?)),
    }
}

/// Returns the end of a range that a datum names: MIN or MAX.
pub(crate) fn extreme(datum: &Datum<'_>) -> Result<Extreme, ScpiError>
    ensures { Gives TakesWord extreme_of (datum_of datum.now) result }
{
    match datum.class {
        DatumClass::Character => extreme_of(datum.text),
        DatumClass::Numeric | DatumClass::String | DatumClass::Block => {
            Err(ScpiError::DataTypeError)
        }
    }
}

// ---- power-on settings

// Whether the power-on settings are those of register 0: RCL0 (true) or RST (false).
fn recalled(word: &[u8]) -> Result<bool, ScpiError>
    ensures { result ≡ recalled word.now }
{
    if is_word(word, b"RST") {
        return Ok(false);
    }
    if is_word(word, b"RCL0") {
        return Ok(true);
    }
    Err(ScpiError::IllegalParameterValue)
}

/// Whether a datum is RCL0 (true) or RST (false).
pub(crate) fn recall(datum: &Datum<'_>) -> Result<bool, ScpiError>
    ensures { Gives TakesWord recalled (datum_of datum.now) result }
{
    match datum.class {
        DatumClass::Character => recalled(datum.text),
        DatumClass::Numeric | DatumClass::String | DatumClass::Block => {
            Err(ScpiError::DataTypeError)
        }
    }
}
