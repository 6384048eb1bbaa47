//! The keys of the map, and the files at their keys.
ghost use Rattle.std.specs.Prelude.{◌≡◌, IfOk, option_map};
ghost use Rattle.psu_map.specs.Map.{IsSorted};
ghost use Rattle.psu_nv.specs.Contents.{begins_with_kind};
ghost use Rattle.psu_nv.specs.Decoding.{is_key, has_keys, name_in, files_in, fits_file, fit_files};

use crate::Part;
use crate::file::FileKind;
use psu_lex::is_name;
use psu_map::{Items, Pair};
use std::alloc::{AllocError, Allocator};

// Whether contents may have all of these keys.
pub(crate) fn has_keys<A: Allocator + Copy>(pairs: &[Pair<A>]) -> bool
    ensures { result ≡ has_keys pairs.now }
{
    pairs.iter().all(|pair| is_key(pair.key()))
}

// Whether contents may have a key: that of a part, and of a file only with a valid name.
fn is_key(key: &[u8]) -> bool
    ensures { result ≡ is_key key.now }
{
    match Part::of_key(key) {
        Some(Part::File(name)) => is_name(name),
        Some(_) => true,
        None => false,
    }
}

// The name in the key of a file; `None` if the key is not that of a file.
fn name_in(key: &[u8]) -> Option<&[u8]>
    ensures { option_map (λ name. name.now) result ≡ name_in key.now }
{
    match Part::of_key(key) {
        Some(Part::File(name)) => Some(name),
        _ => None,
    }
}

// Whether each file has a type and at most 32,768 bytes.
pub(crate) fn fit_files<A: Allocator + Copy>(pairs: &[Pair<A>]) -> bool
    ensures { result ≡ fit_files pairs.now }
{
    pairs.iter().all(|pair| fits_file(pair.key(), pair.value()))
}

// Whether the value is one that a file may have; true for a key that is not that of a file.
fn fits_file(key: &[u8], value: &[u8]) -> bool
    ensures { result ≡ fits_file (name_in key.now) value.now }
{
    match name_in(key) {
        Some(_) => begins_with_kind(value) && value.len() <= 32_769,
        None => true,
    }
}

// Whether the first byte is the type of a file.
fn begins_with_kind(value: &[u8]) -> bool
    ensures { result ≡ begins_with_kind value.now }
{
    match value {
        [] => false,
        [code, ..] => FileKind::of_code(*code).is_some(),
    }
}

// Collects the files of a map, under their names.
pub(crate) fn files_of<A: Allocator + Copy>(
    alloc: A,
    items: &Items<A>,
) -> Result<Items<A>, AllocError>
    ensures { IfOk result (λ files. files ≡ files_in items.now) }
{
    let mut files = Items::new(alloc);
    for pair in items.pairs() {
        if let Some(name) = name_in(pair.key()) {
            files.append(name.to_vec(alloc)?, pair.share_value()?)?;
        }
    }
    Ok(files)
}
