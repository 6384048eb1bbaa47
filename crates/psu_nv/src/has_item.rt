//! Which keys the map of contents has, without encoding it.
ghost use Rattle.std.specs.Prelude.{◌≡◌, is_some};
ghost use Rattle.psu_map.specs.Map.{get};
ghost use Rattle.psu_nv.specs.Contents.{items_of};
ghost use Rattle.psu_nv.specs.Parts.{part_items, value_in};
ghost use Rattle.psu_nv.specs.Views.{part_of};

use crate::{Contents, Part};
use std::alloc::Allocator;

impl<A: Allocator + Copy> Contents<A> {
    /// Whether the map that encodes the contents has an item at a key. Nothing is encoded for this.
    pub fn has_item(&self, key: &[u8]) -> bool
        ensures { result ≡ is_some (get (items_of self.now) key.now) }
    {
        // A field is named, so that the proof has the invariant of the contents.
        let _ = &self.alloc;
        match Part::of_key(key) {
            Some(part) => self.has_part(part),
            None => false,
        }
    }

    // Whether a part is not absent.
    fn has_part(&self, part: Part<'_>) -> bool
        ensures { result ≡ is_some (value_in (part_items self.now (part_of part.entry))) }
    {
        match part {
            Part::Enables => self.enables.is_some(),
            Part::Register(register) => !self.is_reset(register),
            Part::User => !self.user.bytes().is_empty(),
            Part::Macros => !self.macros.is_empty(),
            Part::File(name) => self.files.get(name).is_some(),
            Part::Recall => self.recall,
        }
    }
}
