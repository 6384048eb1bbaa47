//! The versions of the image's format.
ghost use Rattle.std.specs.Prelude.{◌≡◌, true, false};
ghost use Rattle.psu_pages.specs.Image.{IsKnown, key_most as key_most_of};

/// The version that is written. Images of version 1 are read too.
pub(crate) const VERSION: u16 = 2;

/// Whether images of a version are read.
pub(crate) fn is_known(version: u16) -> bool
    ensures yes { result ≡ true → IsKnown version }
    ensures no { result ≡ false → IsKnown version → ⊥ }
{
    1 <= version && version <= VERSION
}

/// Returns the maximum number of bytes of a key in an image of a version.
pub(crate) fn key_most(version: u16) -> usize
    ensures { result ≡ key_most_of version }
{
    if version == 1 { 33 } else { 65 }
}
