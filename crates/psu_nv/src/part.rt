//! The parts of contents, each stored under a key of its own.
ghost use Rattle.std.specs.Prelude.{◌≡◌, ◌∷◌, [], true, false, None, IfOk, IfSome, IfNone};
ghost use Rattle.psu_nv.specs.Decoding.{is_key, is_number, is_single, name_in};
ghost use Rattle.psu_nv.specs.Parts.{key_of};
ghost use Rattle.psu_nv.specs.Views.{part_of};

use crate::Register;
use std::alloc::{AllocError, Allocator};

// The first byte of the key of each part.
pub(crate) const ENABLES_KEY: u8 = 1;

pub(crate) const REGISTER_KEY: u8 = 2;

pub(crate) const USER_KEY: u8 = 3;

pub(crate) const MACROS_KEY: u8 = 4;

const FILE_KEY: u8 = 5;

pub(crate) const RECALL_KEY: u8 = 6;

/// A part of the contents: what the map has at one key.
#[derive(Clone, Copy)]
pub enum Part<'a> {
    /// SRE and ESE.
    Enables,
    /// A register of settings.
    Register(Register),
    /// User data.
    User,
    /// The macros, all of them.
    Macros,
    /// The file of a name.
    File(&'a [u8]),
    /// Whether the settings at power-on are those of register 0.
    Recall,
}

impl<'a> Part<'a> {
    /// The key of the part.
    pub fn key<A: Allocator + Copy>(self, alloc: A) -> Result<Vec<u8, A>, AllocError>
        ensures { IfOk result (λ key. key.items ≡ key_of (part_of self.entry)) }
    {
        match self {
            Part::Enables => [ENABLES_KEY].to_vec(alloc),
            Part::Register(register) => [REGISTER_KEY, register.number()].to_vec(alloc),
            Part::User => [USER_KEY].to_vec(alloc),
            Part::Macros => [MACROS_KEY].to_vec(alloc),
            Part::File(name) => with_first(alloc, FILE_KEY, name),
            Part::Recall => [RECALL_KEY].to_vec(alloc),
        }
    }

    /// The part that has this key; `None` only for a key that contents may not have.
    #[inline]
    pub fn of_key(key: &'a [u8]) -> Option<Part<'a>>
        ensures some { IfSome result (λ part. key.now ≡ key_of (part_of part)) }
        ensures none { IfNone result (is_key key.now ≡ false) }
        ensures no_file { IfNone result (name_in key.now ≡ None) }
    {
        match key {
            [] => None,
            [REGISTER_KEY, number @ ..] => Part::of_number(number),
            [FILE_KEY, name @ ..] => Some(Part::File(name)),
            [kind] => Part::of_kind(*kind),
            [_, ..] => None,
        }
    }

    // The register with this number.
    #[inline]
    fn of_number(bytes: &[u8]) -> Option<Part<'a>>
        ensures some { IfSome result (λ part. 2 ∷ bytes.now ≡ key_of (part_of part)) }
        ensures none { IfNone result (is_number bytes.now ≡ false) }
    {
        match bytes {
            [number] => Some(Part::Register(Register::of(*number)?)),
            _ => None,
        }
    }

    // The part whose key is this byte alone.
    #[inline]
    fn of_kind(kind: u8) -> Option<Part<'a>>
        ensures some { IfSome result (λ part. kind ∷ [] ≡ key_of (part_of part)) }
        ensures none { IfNone result (is_single kind ≡ true → kind ≡ 2) }
    {
        match kind {
            ENABLES_KEY => Some(Part::Enables),
            USER_KEY => Some(Part::User),
            MACROS_KEY => Some(Part::Macros),
            RECALL_KEY => Some(Part::Recall),
            _ => None,
        }
    }
}

fn with_first<A: Allocator + Copy>(
    alloc: A,
    first: u8,
    bytes: &[u8],
) -> Result<Vec<u8, A>, AllocError>
    ensures { IfOk result (λ all. all.items ≡ first ∷ bytes.now) }
{
    let mut all = Vec::new(alloc);
    all.push(first)?;
    all.extend_from_slice(bytes)?;
    Ok(all)
}
