//! Macros in order of definition, found by their labels.
ghost use Rattle.std.specs.Prelude.{◌≡◌, ◌<◌, ◌≤◌, ◌^◌, ◌==◌, ◌++◌, ◌∷◌, [], false, map, length, IfOk, OnOk, OnErr, option_map};
ghost use Rattle.std.specs.List.{flat_map, AllByRecursion};
ghost use Rattle.psu_nv.specs.Contents.{IsMacro, body_at, has_label, macro_bytes};
ghost use Rattle.psu_nv.specs.Commands.{macro_of, without_label};
ghost use Rattle.psu_nv.specs.Costs.{macros_length, size_at};

use crate::Label;
use crate::body::Body;
use indexmap::IndexMap;
use std::alloc::{AllocError, Allocator};
use std::hash::{BuildHasherDefault, FoldHasher};
use std::marker::Model;

/// Macros by their labels, without regard to case, in order of definition. Contracts see the list of them.
#[derive(Drop)]
pub(crate) struct Macros<A: Allocator + Copy> {
    map: IndexMap<Label, Body<A>, BuildHasherDefault<FoldHasher>, A>,
}

impl<A: Allocator + Copy> Model for Macros<A> {
    ghost use Rattle.std.specs.Prelude.{List};
    ghost use Rattle.psu_nv.specs.Contents.{Macro};
    ghost use Rattle.psu_nv.specs.Entries.{macros_of};

    ghost Value = { List Macro };

    ghost view = { λ macros. macros_of macros.map.entries };
}

impl<A: Allocator + Copy> Macros<A> {
    // Returns an empty list of macros, without allocating.
    pub(crate) fn new(alloc: A) -> Macros<A>
        ensures { result ≡ [] }
    {
        Macros {
            map: IndexMap::new(alloc),
        }
    }

    pub(crate) fn len(&self) -> usize
        ensures { result ≡ length self.now }
    {
        self.map.len()
    }

    pub(crate) fn is_empty(&self) -> bool
        ensures { result ≡ (length self.now == 0) }
    {
        self.map.is_empty()
    }

    // The labels as they were written, in order of definition.
    pub(crate) fn labels(&self) -> &[Label]
        ensures { result.now ≡ map (λ m. m.label) self.now }
    {
        self.map.keys().as_slice()
    }

    // The body of the macro with this label, compared without regard to case; `None` if no macro has it.
    pub(crate) fn body(&self, label: &Label) -> Option<&[u8]>
        ensures { option_map (λ body. body.now) result ≡ body_at self.now label.now }
    {
        match self.map.get(label) {
            Some(body) => Some(body.bytes()),
            None => None,
        }
    }

    // Appends a macro.
    pub(crate) fn define(&mut self, label: Label, body: Body<A>) -> Result<(), AllocError>
        requires { has_label self.old label ≡ false }
        ensures ok { OnOk result (self.new ≡ self.old ++ macro_of label body ∷ []) }
        ensures err { OnErr result (self.new ≡ self.old) }
    {
        self.map.insert(label, body)?;
        Ok(())
    }

    // Removes the macro of a label, if there is one; the others keep their order.
    pub(crate) fn remove(&mut self, label: &Label)
        ensures { self.new ≡ without_label self.old label.now }
    {
        self.map.shift_remove(label);
    }

    pub(crate) fn clear(&mut self)
        ensures { self.new ≡ [] }
    {
        self.map.clear();
    }

    // Copies the macros into memory of their own.
    pub(crate) fn copy(&self, alloc: A) -> Result<Macros<A>, AllocError>
        ensures { IfOk result (λ copy. copy ≡ self.now) }
    {
        let mut map = IndexMap::new(alloc);
        for (label, body) in self.map.iter() {
            drop(map.insert(label.copy(), Body::of(alloc, body.bytes())?)?);
        }
        Ok(Macros { map })
    }

    // The number of bytes that encode the macros in their item.
    pub(crate) fn size(&self) -> u128
        requires { macros_length self.now < 2 ^ 100 }
        ensures { result ≡ macros_length self.now }
    {
        let mut size: u128 = 0;
        for (label, body) in self.map.iter() {
            size += 3 + (label.bytes().len() as u128 + body.bytes().len() as u128);
        }
        size
    }

    // The number of bytes that encode the macro with this label; 0 if there is none.
    pub(crate) fn size_at(&self, label: &Label) -> u128
        ensures { result ≡ size_at self.now label.now }
    {
        match self.map.get(label) {
            Some(body) => 3 + (label.bytes().len() as u128 + body.bytes().len() as u128),
            None => 0,
        }
    }

    // Encodes the macros.
    pub(crate) fn value(&self, alloc: A) -> Result<Vec<u8, A>, AllocError>
        requires { AllByRecursion IsMacro self.now }
        ensures { IfOk result (λ value. value.items ≡ flat_map macro_bytes self.now) }
    {
        let mut value = Vec::new(alloc);
        for (label, body) in self.map.iter() {
            put_macro(&mut value, label.bytes(), body.bytes())?;
        }
        Ok(value)
    }
}

// Appends the bytes of a macro: label length, label, body length in two bytes, body.
fn put_macro<A: Allocator + Copy>(
    bytes: &mut Vec<u8, A>,
    label: &[u8],
    body: &[u8],
) -> Result<(), AllocError>
    requires { IsMacro (macro_of label.now body.now) }
    ensures { OnOk result (bytes.new.items ≡ bytes.old.items ++ macro_bytes (macro_of label.now body.now)) }
{
    bytes.push(label.len() as u8)?;
    bytes.extend_from_slice(label)?;
    bytes.extend_from_slice(&(body.len() as u16).to_be_bytes())?;
    bytes.extend_from_slice(body)?;
    Ok(())
}
