//! The player that answers the lines of an example.
ghost use Rattle.std.specs.Prelude.{List, ℕ, IfErr, IfOk};

use std::alloc::Allocator;

/// A player that answers the lines of an example. Nothing is known of it except what it may answer, and why it may
/// stop.
pub trait Player<A: Allocator + Copy> {
    /// Why it stops.
    type Fault: Drop;

    /// Whether it may answer these lines with this text.
    ghost plays: { List ℕ → List ℕ → Type 0 };

    /// Whether it may stop at these lines for this reason.
    ghost stops: { List ℕ → Self.Fault → Type 0 };

    /// Returns its response to these lines.
    fn play(&self, alloc: A, sent: &[u8]) -> Result<Vec<u8, A>, Self::Fault>
        ensures played { IfOk result (λ text. plays sent.now text.items) }
        ensures stopped { IfErr result (λ fault. stops sent.now fault) };
}
