//! The bytes of a file that is stored. They are apart from the types of files, whose definitions name commands with such
//! bytes.
ghost use Rattle.std.specs.Prelude.{◌≡◌, ◌<◌, ◌≤◌, length, IfSome, IfNone};

use psu_lex::FILE_MOST;

/// At most 32,768 bytes, as a file may hold.
#[derive(Clone, Copy)]
pub struct FileBytes<'a> {
    bytes: &'a [u8],
    ghost most: { length bytes.now ≤ 32768 },
}

impl<'a> FileBytes<'a> {
    /// Returns these bytes as those of a file; `None` if there are more than 32,768.
    pub fn of(bytes: &'a [u8]) -> Option<FileBytes<'a>>
        ensures found { IfSome result (λ file. file.bytes.now ≡ bytes.now) }
        ensures none { IfNone result (32768 < length bytes.now) }
    {
        if bytes.len() > FILE_MOST {
            return None;
        }
        Some(FileBytes { bytes })
    }

    /// The bytes of the file.
    pub fn bytes(self) -> &'a [u8]
        ensures value { result.now ≡ self.entry.bytes.now }
        ensures most { length result.now ≤ 32768 }
    {
        self.bytes
    }
}
