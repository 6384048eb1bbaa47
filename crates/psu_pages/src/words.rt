//! Decoding a root's page.
ghost use Rattle.std.specs.Prelude.{◌≡◌, ◌+◌, ◌≤◌, ◌==◌, List, ℕ, length, if◌then◌else◌, slice_index, Some, None, OnOk, IfErr};
ghost use Rattle.std.specs.Int.{w16, w32, w64, from_be_bytes};
ghost use Rattle.psu_disk.specs.Disk.{Range};
ghost use Rattle.psu_pages.specs.Finding.{IsSound, IsUnsound};

use crate::gates::GATE_OPEN;
use crate::version::is_known;
use crate::{BadImage, PAGE_SIZE};

/// The fields of a root after its gate, without its number and the pages of its heads.
#[derive(Clone, Copy, Debug, Drop)]
pub(crate) struct Words {
    /// `PSU` in a root of this format.
    pub mark: [u8; 3],
    pub version: u16,
    /// The maximum number of pages that the items may take.
    pub limit: u16,
    /// The number of items.
    pub count: u16,
}

/// Decodes the fields of a root's page.
pub(crate) fn words_on(page: &[u8]) -> Words
    requires { length page.now ≡ 512 }
    ensures mark { result.mark ≡ Range 1 3 page.now }
    ensures version { result.version ≡ from_be_bytes w16 (Range 4 2 page.now) }
    ensures limit { result.limit ≡ from_be_bytes w16 (Range 6 2 page.now) }
    ensures count { result.count ≡ from_be_bytes w16 (Range 16 2 page.now) }
{
    Words {
        mark: [page[1], page[2], page[3]],
        version: word_at(page, 4),
        limit: word_at(page, 6),
        count: word_at(page, 16),
    }
}

/// Returns the number of a root's page if its gate is open.
pub(crate) fn open_number(page: &[u8]) -> Option<u64>
    requires { length page.now ≡ 512 }
    ensures { result ≡ (if slice_index page.now 0 == 165 then Some (from_be_bytes w64 (Range 8 8 page.now)) else None) }
{
    if page[0] != GATE_OPEN {
        return None;
    }
    let (_, rest) = page.split_at(8);
    let (number, _) = rest.split_at(8);
    Some(u64::from_be_bytes([
        number[0], number[1], number[2], number[3], number[4], number[5], number[6], number[7],
    ]))
}

/// Decodes the number of two bytes.
pub(crate) fn word(bytes: &[u8]) -> u16
    requires { length bytes.now ≡ 2 }
    ensures { result ≡ from_be_bytes w16 bytes.now }
{
    u16::from_be_bytes([bytes[0], bytes[1]])
}

/// Decodes the number of four bytes.
pub(crate) fn long(bytes: &[u8]) -> u32
    requires { length bytes.now ≡ 4 }
    ensures { result ≡ from_be_bytes w32 bytes.now }
{
    u32::from_be_bytes([bytes[0], bytes[1], bytes[2], bytes[3]])
}

// Decodes the number of two bytes at an offset.
fn word_at(page: &[u8], at: usize) -> u16
    requires { at + 2 ≤ length page.now }
    ensures { result ≡ from_be_bytes w16 (Range at 2 page.now) }
{
    let (_, rest) = page.split_at(at);
    let (number, _) = rest.split_at(2);
    word(number)
}

/// Checks that the fields are those of a root of this format, of a supported version, on a disk of this size.
pub(crate) fn check(words: &Words, size: u64) -> Result<(), BadImage>
    ensures sound { OnOk result (IsSound words.now size) }
    ensures unsound { IfErr result (IsUnsound words.now size) }
{
    if words.mark != *b"PSU" {
        return Err(BadImage::BadRoot);
    }
    if !is_known(words.version) {
        return Err(BadImage::BadVersion);
    }
    let limit = u64::from(words.limit);
    if limit < 4 || limit > 480 || size < PAGE_SIZE as u64 * (2 + 2 * limit) || words.count > 240 {
        return Err(BadImage::BadRoot);
    }
    Ok(())
}
