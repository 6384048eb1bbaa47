//! A macro's label.
ghost use Rattle.std.specs.Prelude.{◌≡◌, ◌≤◌, ◌<◌, length, fold, nat_eq, IfSome, IfNone};
ghost use Rattle.std.specs.Hash as fed;
ghost use Rattle.std.specs.Cmp.Rules.{comparing, hashing};
ghost use Rattle.std.specs.Cmp.Lexicographic.{pointwise};
ghost use Rattle.std.specs.Ordering.{on};
ghost use Rattle.std.proofs.Common.{rules};
ghost use Rattle.psu_nv.specs.Labels.{lowercase, same_label};

use arrayvec::ArrayVec;
use psu_lex::LABEL_MOST;
use std::hash::{Hash, Hasher};
use std::marker::Model;

/// A macro's label as it was written. Labels are compared without regard to case (IEEE 488.2, 10.8). Contracts see its
/// bytes, at most 12.
#[derive(Drop)]
pub struct Label {
    bytes: ArrayVec<u8, LABEL_MOST>,
}

impl Model for Label {
    ghost use Rattle.std.specs.Prelude.{List, ℕ};

    ghost Value = { List ℕ };

    ghost view = { λ label. label.bytes.items };
}

impl Label {
    // Returns the label of these bytes.
    pub(crate) fn new(bytes: &[u8]) -> Label
        requires { length bytes.now ≤ 12 }
        ensures { result ≡ bytes.now }
    {
        let mut kept = ArrayVec::new();
        let _ = kept.try_extend_from_slice(bytes);
        Label { bytes: kept }
    }

    // Returns the label of these bytes; `None` if there are more than 12.
    pub(crate) fn of(bytes: &[u8]) -> Option<Label>
        ensures found { IfSome result (λ label. label ≡ bytes.now) }
        ensures none { IfNone result (12 < length bytes.now) }
    {
        if bytes.len() > LABEL_MOST {
            return None;
        }
        Some(Label::new(bytes))
    }

    // Copies the label, without allocating.
    pub(crate) fn copy(&self) -> Label
        ensures { result ≡ self.now }
    {
        let mut bytes = ArrayVec::new();
        let _ = bytes.try_extend_from_slice(self.bytes.as_slice());
        Label { bytes }
    }

    /// The bytes of the label, as they were written.
    pub fn bytes(&self) -> &[u8]
        ensures { result.now ≡ self.now }
    {
        self.bytes.as_slice()
    }
}

impl PartialEq for Label {
    ghost eq = { on lowercase (pointwise nat_eq) };

    ghost laws = { Prim.search (comparing, rules) };

    fn eq(&self, other: &Label) -> bool {
        same_label(self.bytes(), other.bytes())
    }
}

impl Eq for Label {
    ghost laws = { Prim.search (comparing, rules) };
}

impl Hash for Label {
    ghost hash_input = { λ label. fed.slice fed.u8 (lowercase label) };

    ghost respects_eq = { Prim.search (hashing, rules) };

    fn hash<H: Hasher>(&self, state: &mut H) {
        hash_lowercase(self.bytes(), state);
    }
}

// Whether two labels are the same without regard to case.
#[tactic(auto, using(crate::proofs::Labels::is_bytes_eq))]
pub(crate) fn same_label(a: &[u8], b: &[u8]) -> bool
    ensures { result ≡ same_label a.now b.now }
{
    a.eq_ignore_ascii_case(b)
}

// Feeds the bytes to a hasher, in lower case.
fn hash_lowercase<H: Hasher>(bytes: &[u8], state: &mut H)
    ensures { state.new ≡ fold H.write state.old (fed.slice fed.u8 (lowercase bytes.now)) }
{
    state.write_usize(bytes.len());
    for byte in bytes {
        state.write_u8(byte.to_ascii_lowercase());
    }
}
