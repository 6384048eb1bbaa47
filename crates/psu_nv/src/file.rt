//! Files as they are read and stored: their types, and settings in them.
ghost use Rattle.std.specs.Prelude.{◌≡◌, Some, None, if◌then◌else◌};
ghost use Rattle.psu_nv.specs.Views.{code_of, kind_of, kind_text, stored_kind};
ghost use Rattle.psu_nv.specs.Commands.{is_state, settings_in};

use psu_settings::Settings;

/// A file: its type, and its bytes.
#[derive(Clone, Copy)]
pub struct File<'a> {
    pub kind: FileKind,
    pub bytes: &'a [u8],
}

/// The type of a file: how it was made.
#[derive(Clone, Copy, Debug, PartialEq, Eq)]
pub enum FileKind {
    /// BIN, made by `MMEMory:DATA`.
    Binary,
    /// STAT, the settings of a register.
    State,
    /// MACR, the body of a macro.
    Macro,
}

impl FileKind {
    /// The byte that encodes the type in an item.
    pub fn code(self) -> u8
        ensures { result ≡ code_of self }
    {
        match self {
            FileKind::Binary => 0,
            FileKind::State => 1,
            FileKind::Macro => 2,
        }
    }

    /// The type that a byte encodes.
    pub fn of_code(code: u8) -> Option<FileKind>
        ensures { result ≡ kind_of code }
    {
        match code {
            0 => Some(FileKind::Binary),
            1 => Some(FileKind::State),
            2 => Some(FileKind::Macro),
            _ => None,
        }
    }

    /// The type of a stored file, by its type byte. Contents have only bytes that encode a type; any other is read as
    /// that of a macro.
    pub fn of_stored(code: u8) -> FileKind
        ensures { result ≡ stored_kind code }
    {
        FileKind::of_code(code).unwrap_or(FileKind::Macro)
    }

    /// The type as text.
    pub fn text(self) -> &'static [u8]
        ensures { result.now ≡ kind_text self }
    {
        match self {
            FileKind::Binary => b"BIN",
            FileKind::State => b"STAT",
            FileKind::Macro => b"MACR",
        }
    }
}

// Whether the bytes encode settings.
pub(crate) fn is_state(bytes: &[u8]) -> bool
    ensures { result ≡ is_state bytes.now }
{
    state_in(bytes).is_some()
}

// The settings that the bytes of a file encode; `None` if they encode none.
pub(crate) fn state_in(bytes: &[u8]) -> Option<Settings>
    ensures { result ≡ (if is_state bytes.now then Some (settings_in bytes.now) else None) }
{
    match Settings::of_bytes(bytes) {
        Some(settings) => Some(settings),
        None => None,
    }
}
