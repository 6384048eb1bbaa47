//! Bytes of 127 or more.
ghost use Rattle.std.specs.Prelude.{List, ◌≡◌};
ghost use Rattle.psu_lex.specs.Bytes.{is_closed};
ghost use Rattle.psu_lex.specs.Message.{Token, Reads};
ghost use Rattle.psu_lex.specs.Scan.{has};
ghost use Rattle.psu_lex.specs.Syntax.{has_high};
ghost use Rattle.psu_lex.specs.SyntaxScan.{is_high};

use crate::pieces::{after, front, piece_end};
use memchr::memchr3;

/// Whether a byte of 127 or more is among these bytes.
fn is_high(run: &[u8]) -> bool
    ensures { result ≡ has is_high run.now }
{
    run.iter().any(|byte| *byte > 126)
}

/// Whether a byte of 127 or more occurs outside strings and blocks.
pub(crate) fn has_high(text: &[u8]) -> bool
    ensures { (tokens : List Token) × Reads is_closed text.now tokens × (result ≡ has_high tokens) }
{
    let mut rest = text;
    'pieces: loop {
        let Some(found) = memchr3(b'"', b'\'', b'#', rest) else {
            return is_high(rest);
        };
        if is_high(front(rest, found)) {
            return true;
        }
        let piece = after(rest, found);
        let Some(length) = piece_end(piece) else {
            return false;
        };
        rest = after(piece, length);
    }
}
