//! Laws over the definitions, which no code needs to run.
ghost use Rattle.std.specs.Prelude.{◌≡◌, true, List, map};
ghost use Rattle.psu_map.specs.Map.{get, IsSorted};
ghost use Rattle.psu_map.specs.Batch.{changed};
ghost use Rattle.psu_nv.specs.Contents.{Contents as Kept, IsContents, items_of};
ghost use Rattle.psu_nv.specs.Parts.{Part as Each, key_of, part_items, value_in, edit_of, DifferIn};
ghost use Rattle.psu_nv.specs.Decoding.{has_keys};

/// Contents with the same items are equal, so the map encodes all of them.
pub fn items_determine_contents()
    ensures { (a b : Kept) → IsContents a → IsContents b → items_of a ≡ items_of b → a ≡ b }
{}

/// The parts are all of the contents: the map has at the key of each part what the contents have of it, and it has only
/// keys of parts, in order.
pub fn parts_are_the_whole()
    ensures each { (c : Kept) → (part : Each) → get (items_of c) (key_of part) ≡ value_in (part_items c part) }
    ensures keys { (c : Kept) → IsContents c → has_keys (items_of c) ≡ true }
    ensures sorted { (c : Kept) → IsContents c → IsSorted (items_of c) }
{}

/// The edits of parts, among them all that differ, turn the old map into the new one, so a batch needs no others.
pub fn edits_of_parts_make_the_map()
    ensures { (old new : Kept) → (parts : List Each) → IsContents old → IsContents new → DifferIn parts old new
        → changed (items_of old) (map (edit_of new) parts) ≡ items_of new }
{}
