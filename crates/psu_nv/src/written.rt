//! Macros borrowed from the bytes of their item.
ghost use Rattle.std.specs.Prelude.{◌≡◌, ◌<◌, ◌≤◌, ◌++◌, ◌∷◌, [], List, ℕ, true, false, length, IfSome, IfNone, OnOk};
ghost use Rattle.std.specs.Int.{w16, to_be_bytes};
ghost use Rattle.psu_nv.specs.Contents.{Macro, IsMacro, macro_bytes, has_label};
ghost use Rattle.psu_nv.specs.Decoding.{AreMacros};

use crate::Label;
use crate::body::Body;
use crate::label::same_label;
use crate::limits::{BODY_MOST, MACROS_MOST};
use crate::macros::Macros;
use arrayvec::ArrayVec;
use psu_lex::is_label;
use std::alloc::{AllocError, Allocator};
use std::marker::Model;

/// A macro's label and body, borrowed from the bytes of an item. Contracts see a `Macro` of `specs/`.
#[derive(Default, Drop)]
pub(crate) struct Written<'a> {
    label: &'a [u8],
    body: &'a [u8],
}

impl<'a> Model for Written<'a> {
    ghost use Rattle.psu_nv.specs.Contents.{Macro};
    ghost use Rattle.psu_nv.specs.Commands.{macro_of};

    ghost Value = { Macro };

    ghost view = { λ w. macro_of w.label.now w.body.now };
}

/// The macros of an item.
pub(crate) type WrittenMacros<'a> = ArrayVec<Written<'a>, MACROS_MOST>;

impl<'a> Written<'a> {
    // Appends a copy of the macro to the others.
    pub(crate) fn define<A: Allocator + Copy>(
        &self,
        alloc: A,
        macros: &mut Macros<A>,
    ) -> Result<(), AllocError>
        requires good { IsMacro self.now }
        requires free { has_label macros.old self.now.label ≡ false }
        ensures { OnOk result (macros.new ≡ macros.old ++ self.now ∷ []) }
    {
        macros.define(Label::new(self.label), Body::of(alloc, self.body)?)
    }

    // Whether contents may have this macro.
    fn is_good(&self) -> bool
        ensures found { result ≡ true → IsMacro self.now }
        ensures none { result ≡ false → IsMacro self.now → ⊥ }
    {
        is_label(self.label) && self.body.len() <= BODY_MOST
    }
}

// The macros that the bytes encode; `None` if they encode no list of macros that contents may have.
pub(crate) fn macros_of(bytes: &[u8]) -> Option<WrittenMacros<'_>>
    ensures found { IfSome result (λ macros. AreMacros bytes.now macros.items) }
    ensures none { IfNone result ((macros : List Macro) → AreMacros bytes.now macros → ⊥) }
{
    let mut found = ArrayVec::new();
    let mut rest = bytes;
    while !rest.is_empty() {
        let Some((written, after)) = macro_at(rest) else {
            return None;
        };
        if !written.is_good() {
            return None;
        }
        if has_label(found.as_slice(), written.label) {
            return None;
        }
        if found.try_push(written).is_err() {
            return None;
        }
        rest = after;
    }
    Some(found)
}

// Whether a macro has the label, without regard to case.
fn has_label(macros: &[Written<'_>], label: &[u8]) -> bool
    ensures { result ≡ has_label macros.now label.now }
{
    for written in macros {
        if same_label(written.label, label) {
            return true;
        }
    }
    false
}

// Reads the first macro of the bytes, and returns the bytes after it too.
fn macro_at(bytes: &[u8]) -> Option<(Written<'_>, &[u8])>
    ensures found { IfSome result (λ read. bytes.now ≡ macro_bytes read.0 ++ read.1.now) }
    ensures size { IfSome result (λ read. length read.0.label < 256) }
    ensures body { IfSome result (λ read. length read.0.body < 65536) }
    ensures none { IfNone result ((m : Macro) → (rest : List ℕ) → length m.body < 65536 → bytes.now ≡ macro_bytes m ++ rest → ⊥) }
{
    match bytes {
        [] => None,
        [n, rest @ ..] => {
            let size = *n as usize;
            if rest.len() < size {
                return None;
            }
            let (label, rest) = rest.split_at(size);
            let (body, rest) = body_at(rest)?;
            Some((Written { label, body }, rest))
        }
    }
}

// Reads the body at the start of the bytes, with its length before it, and returns the bytes after it too.
fn body_at(bytes: &[u8]) -> Option<(&[u8], &[u8])>
    ensures found { IfSome result (λ read. bytes.now ≡ to_be_bytes w16 (length read.0.now) ++ (read.0.now ++ read.1.now)) }
    ensures size { IfSome result (λ read. length read.0.now < 65536) }
    ensures none { IfNone result ((body : List ℕ) → (rest : List ℕ) → length body < 65536 → bytes.now ≡ to_be_bytes w16 (length body) ++ (body ++ rest) → ⊥) }
{
    match bytes {
        [high, low, rest @ ..] => {
            let size = u16::from_be_bytes([*high, *low]) as usize;
            if rest.len() < size {
                return None;
            }
            Some(rest.split_at(size))
        }
        _ => None,
    }
}
