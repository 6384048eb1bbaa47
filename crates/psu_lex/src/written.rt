//! A number as it was found in a text.
use crate::ScpiError;
use crate::number_scan::scan;
use crate::numbers::valued;

/// An exponent, which has no digits where there is none.
#[derive(Clone, Copy, Debug, PartialEq, Eq)]
pub(crate) struct Power<'a> {
    /// Whether it has a minus.
    pub(crate) divides: bool,
    /// Its digits.
    pub(crate) digits: &'a [u8],
    /// The text after it.
    pub(crate) rest: &'a [u8],
}

/// A number as it was found in a text.
#[derive(Clone, Copy, Debug, PartialEq, Eq)]
pub struct Written<'a> {
    /// Whether it has a minus.
    pub(crate) negative: bool,
    /// The digits before the point.
    pub(crate) whole: &'a [u8],
    /// The digits after the point.
    pub(crate) fraction: &'a [u8],
    /// The exponent.
    pub(crate) power: Power<'a>,
    /// The suffix, empty where there is none.
    pub(crate) suffix: &'a [u8],
}

impl<'a> Written<'a> {
    ghost use Rattle.std.specs.Prelude.{◌≡◌, IfSome, IfNone};
    ghost use Rattle.psu_lex.specs.Number.{Number, IsNumber, number_text, valued};
    ghost use Rattle.psu_lex.specs.Shown.{ShowsNumber};

    /// Returns the number that a text is (IEEE 488.2, 7.7.2), if it is one.
    #[inline(always)]
    pub fn of(text: &'a [u8]) -> Option<Written<'a>>
        ensures some { IfSome result (λ shown. (n : Number) × IsNumber n × (text.now ≡ number_text n) × ShowsNumber shown n) }
        ensures none { IfNone result ((n : Number) → IsNumber n → text.now ≡ number_text n → ⊥) }
    {
        scan(text)
    }

    /// Returns the value times `10^places`, rounded half away from zero to a whole number and clamped to plus or minus
    /// 10^15. The suffix is ignored.
    ///
    /// The first of these that holds is the error: the exponent is over 32000 either way; the mantissa has more than
    /// 255 digits, not counting leading zeros.
    #[inline(always)]
    pub fn value(&self, places: u8) -> Result<i64, ScpiError>
        requires { (n : Number) × IsNumber n × ShowsNumber self.now n }
        ensures { (n : Number) → IsNumber n → ShowsNumber self.now n → result ≡ valued n places }
    {
        valued(self, places)
    }

    /// Returns the suffix, empty where there is none.
    pub fn suffix(&self) -> &'a [u8]
        ensures { (n : Number) → ShowsNumber self.now n → result.now ≡ n.suffix }
    {
        self.suffix
    }
}
