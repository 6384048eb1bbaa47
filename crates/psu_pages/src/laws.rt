//! Laws on the items that images represent.
ghost use Rattle.std.specs.Prelude.{◌≡◌, List, ℕ};
ghost use Rattle.psu_pages.specs.declared.root.Root.{Root as RootType};
ghost use Rattle.psu_pages.specs.Image.{Head};
ghost use Rattle.psu_pages.specs.Shown.{Item, Encodes, EncodesEither, IsEither, Represents};

/// The items that the current root of an image encodes are those that the image represents, and an image represents one
/// list of items at most.
pub fn represents_what_it_encodes()
    ensures represents { (root : RootType) (version limit number : ℕ) (heads : List Head) (items : List Item)
        (image : List ℕ) → Encodes root version limit number heads items image → Represents image limit items }
    ensures either { (next : RootType) (version limit number : ℕ) (before heads : List Head)
        (items target : List Item) (image : List ℕ)
        → EncodesEither next version limit number before items heads target image
        → IsEither limit items target image }
    ensures one { (limit limit' : ℕ) (items items' : List Item) (image : List ℕ) → Represents image limit items
        → Represents image limit' items' → (limit ≡ limit') × (items ≡ items') }
{}
