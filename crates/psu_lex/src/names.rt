//! Valid macro labels and file names.
ghost use Rattle.std.specs.Prelude.{◌≡◌};
ghost use Rattle.std.specs.List.{list_all};
ghost use Rattle.psu_lex.specs.Names.{begins_with_letter, is_file_byte, is_label, is_name};
ghost use Rattle.psu_lex.specs.Syntax.{is_name_byte};

use crate::headers::is_name_byte;
use crate::limits::{LABEL_MOST, NAME_MOST};

/// Whether the bytes are a valid macro label: a letter followed by letters, digits or `_`, 1 to 12 bytes (this
/// project's own rule).
pub fn is_label(bytes: &[u8]) -> bool
    ensures { result ≡ is_label bytes.now }
{
    begins_with_letter(bytes) && are_name_bytes(bytes) && bytes.len() <= LABEL_MOST
}

/// Whether the bytes are a valid file name: 1 to 64 of letters, digits, `_`, `-` and `.` (this project's own rule).
pub fn is_name(bytes: &[u8]) -> bool
    ensures { result ≡ is_name bytes.now }
{
    are_file_bytes(bytes) && !bytes.is_empty() && bytes.len() <= NAME_MOST
}

// Whether the first byte is a letter.
fn begins_with_letter(bytes: &[u8]) -> bool
    ensures { result ≡ begins_with_letter bytes.now }
{
    match bytes {
        [] => false,
        [first, ..] => first.is_ascii_alphabetic(),
    }
}

// Whether all bytes are letters, digits or `_`.
fn are_name_bytes(bytes: &[u8]) -> bool
    ensures { result ≡ list_all is_name_byte bytes.now }
{
    bytes.iter().all(|byte| is_name_byte(*byte))
}

// Whether the byte is allowed in a file name.
fn is_file_byte(byte: u8) -> bool
    ensures { result ≡ is_file_byte byte }
{
    is_name_byte(byte) || byte == b'-' || byte == b'.'
}

// Whether all bytes are allowed in a file name.
fn are_file_bytes(bytes: &[u8]) -> bool
    ensures { result ≡ list_all is_file_byte bytes.now }
{
    bytes.iter().all(|byte| is_file_byte(*byte))
}
