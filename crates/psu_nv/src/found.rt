//! Lookups by names and labels.
ghost use Rattle.std.specs.Prelude.{◌≡◌, ◌≤◌, length, true};
ghost use Rattle.psu_nv.specs.Contents.{has_label, begins_with_kind};
ghost use Rattle.psu_nv.specs.Commands.{body_of, has_file, bytes_in, value_of, is_state, settings_in};

use crate::Contents;
use crate::file::state_in;
use psu_settings::Settings;
use std::alloc::Allocator;

impl<A: Allocator + Copy> Contents<A> {
    // Whether a macro has the label, without regard to case.
    pub(crate) fn has_label(&self, label: &[u8]) -> bool
        ensures { result ≡ has_label self.now.macros label.now }
    {
        self.body(label).is_some()
    }

    // The body of the macro with the label; empty if there is none.
    pub(crate) fn body_of(&self, label: &[u8]) -> &[u8]
        ensures value { result.now ≡ body_of self.now.macros label.now }
        ensures most { length result.now ≤ 1024 }
    {
        // A field is named, so that the proof has the invariant of the contents.
        let _ = &self.alloc;
        match self.body(label) {
            Some(body) => body,
            None => &[],
        }
    }

    /// Whether a file has the name.
    pub fn has_file(&self, name: &[u8]) -> bool
        ensures { result ≡ has_file self.now.files name.now }
    {
        self.files.get(name).is_some()
    }

    // The type byte and the bytes of a file; empty if there is none.
    pub(crate) fn value_of(&self, name: &[u8]) -> &[u8]
        ensures value { result.now ≡ value_of self.now.files name.now }
        ensures most { length result.now ≤ 32769 }
        ensures kind { has_file self.now.files name.now ≡ true → begins_with_kind result.now ≡ true }
    {
        match self.files.get(name) {
            Some(value) => value,
            None => &[],
        }
    }

    // The settings that a file holds; those of `*RST` where it holds none.
    pub(crate) fn state_of(&self, name: &[u8]) -> Settings
        requires { is_state (bytes_in self.now.files name.now) ≡ true }
        ensures { result ≡ settings_in (bytes_in self.now.files name.now) }
    {
        match state_in(self.bytes_of(name)) {
            Some(settings) => settings,
            None => Settings::reset(),
        }
    }

    /// The bytes of a file, without its type; empty if there is none.
    pub fn bytes_of(&self, name: &[u8]) -> &[u8]
        ensures value { result.now ≡ bytes_in self.now.files name.now }
        ensures most { length result.now ≤ 32768 }
    {
        match self.value_of(name) {
            [] => &[],
            [_, bytes @ ..] => bytes,
        }
    }
}
