//! The cost of contents after a command, without making the change.
ghost use Rattle.std.specs.Prelude.{◌≡◌, ◌+◌, ◌-◌, ◌<◌, ◌≤◌, ◌^◌, List, ℕ, ◌++◌, ◌∷◌, [], length, None, true};
ghost use Rattle.psu_map.specs.Map.{get, put, without, cost};
ghost use Rattle.psu_nv.specs.Contents.{has_label, Macro};
ghost use Rattle.psu_settings.specs.Settings.{bytes_of};
ghost use Rattle.psu_nv.specs.Commands.{Move, macro_of, refused, settings_at, value_of, without_label};
ghost use Rattle.psu_nv.specs.Costs.{macros_cost, macros_length, size_at, pages_of};

use crate::pages::page_count;
use crate::{Contents, Label, Register};
use std::alloc::Allocator;

impl<A: Allocator + Copy> Contents<A> {
    // The pages of the files with a value of so many bytes at a name.
    pub(crate) fn files_with(&self, name: &[u8], size: usize) -> u128
        requires { size < 2 ^ 40 }
        ensures value { (value : List ℕ) → length value ≡ size → result ≡ cost (put self.now.files name.now value) }
        ensures most { result < 2 ^ 125 }
    {
        self.files.cost() + page_count(size as u128) - self.files.pages_at(name)
    }

    // The pages of the files with the settings of a register at a name.
    pub(crate) fn files_with_state(&self, register: Register, name: &[u8]) -> u128
        ensures value { result ≡ cost (put self.now.files name.now (1 ∷ bytes_of (settings_at self.now.registers register.number))) }
        ensures most { result < 2 ^ 125 }
    {
        // A field is named, so that the proof has the invariant of the contents.
        let _ = &self.alloc;
        self.files_with(name, 29)
    }

    // The pages of the files after one moves to a name that no file has: as many as before, whatever the names, which only
    // the contract reads.
    pub(crate) fn files_moved(&self, from: &[u8], to: &[u8]) -> u128
        requires { refused self.now (Move from.now to.now) ≡ None }
        ensures value { result ≡ cost (without (put self.now.files to.now (value_of self.now.files from.now)) from.now) }
        ensures most { result < 2 ^ 125 }
    {
        self.files.cost()
    }

    // The pages of the files without one.
    pub(crate) fn files_without(&self, name: &[u8]) -> u128
        ensures value { result ≡ cost (without self.now.files name.now) }
        ensures most { result < 2 ^ 125 }
    {
        self.files.cost() - self.files.pages_at(name)
    }

    // The number of bytes that encode the macros in their item.
    fn macros_size(&self) -> u128
        ensures value { result ≡ macros_length self.now.macros }
        ensures most { result < 2 ^ 60 }
    {
        self.macros.size()
    }

    // The pages of the macros, without a change.
    pub(crate) fn macros_now(&self) -> u128
        ensures value { result ≡ macros_cost self.now.macros }
        ensures most { result < 2 ^ 101 }
    {
        macros_pages(self.macros.len(), self.macros_size())
    }

    // The pages of the macros with one more, of so many bytes of label and body.
    pub(crate) fn macros_with(&self, size: usize) -> u128
        requires { size < 2 ^ 40 }
        ensures value { (label body : List ℕ) → length label + length body ≡ size → result ≡ macros_cost (self.now.macros ++ macro_of label body ∷ []) }
        ensures most { result < 2 ^ 125 }
    {
        page_count(self.macros_size() + (3 + size as u128))
    }

    // The pages of the macros without the one of a label.
    pub(crate) fn macros_without(&self, label: &[u8]) -> u128
        requires { has_label self.now.macros label.now ≡ true }
        ensures value { result ≡ macros_cost (without_label self.now.macros label.now) }
        ensures most { result < 2 ^ 125 }
    {
        let size = self.macros_size() - self.size_at(label);
        macros_pages(self.macros.len() - 1, size)
    }

    // How many macros there are without the one of a label.
    pub(crate) fn count_without(&self, label: &[u8]) -> usize
        requires { has_label self.now.macros label.now ≡ true }
        ensures { result ≡ length (without_label self.now.macros label.now) }
    {
        self.macros.len() - 1
    }

    // The number of bytes that encode the macro with this label.
    fn size_at(&self, label: &[u8]) -> u128
        ensures { result ≡ size_at self.now.macros label.now }
    {
        match Label::of(label) {
            Some(label) => self.macros.size_at(&label),
            None => 0,
        }
    }
}

// The pages of so many macros of so many bytes.
fn macros_pages(count: usize, size: u128) -> u128
    requires { size < 2 ^ 100 }
    ensures value { (macros : List Macro) → length macros ≡ count → macros_length macros ≡ size → result ≡ macros_cost macros }
    ensures most { result < 2 ^ 101 }
{
    if count == 0 { 0 } else { page_count(size) }
}
