//! Classes of bytes.
ghost use Rattle.std.specs.Prelude.{◌≡◌};
ghost use Rattle.psu_lex.specs.Bytes.{is_white};
ghost use Rattle.psu_lex.specs.NumberScan.{belongs};

/// Whether the byte is white space: 0 to 32, except NL.
#[inline(always)]
pub(crate) fn is_white(byte: u8) -> bool
    ensures { result ≡ is_white byte }
{
    byte <= 32 && byte != b'\n'
}

/// A class of bytes.
#[derive(Clone, Copy, Debug, PartialEq, Eq)]
pub(crate) enum Class {
    /// `0` to `9`.
    Digit,
    /// White space.
    White,
    /// `A` to `Z` and `a` to `z`.
    Letter,
}

impl Class {
    /// Whether the byte is of this class.
    pub(crate) fn has(self, byte: u8) -> bool
        ensures { result ≡ belongs self byte }
    {
        match self {
            Class::Digit => byte.is_ascii_digit(),
            Class::White => is_white(byte),
            Class::Letter => byte.is_ascii_alphabetic(),
        }
    }
}
