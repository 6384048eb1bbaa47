//! Releasing the pages that only the older root names.
ghost use Rattle.std.specs.Prelude.{◌≡◌, ◌<◌, ◌≤◌, ◌-◌, ◌↔◌, ℕ, true, false, length, take, drop, IsTrue};
ghost use Rattle.std.specs.List.{AllByRecursion};
ghost use Rattle.psu_pages.specs.Free.{is_free, AreClaimed, Marks, HandsOver};
ghost use Rattle.psu_pages.specs.Image.{AreApart, taken, pages_of};

use crate::{FreeMap, Head};
use std::alloc::Allocator;

/// Releases the pages of the older heads that aren't pages of the other heads.
pub(crate) fn hand_over<A: Allocator + Copy>(
    free: &mut FreeMap<A>,
    older: &[Head<A>],
    heads: &[Head<A>],
)
    requires there { AllByRecursion (λ page. page < length free.old) (taken older.now) }
    requires heads_there { AllByRecursion (λ page. page < length free.old) (taken heads.now) }
    requires apart { AreApart (taken older.now) }
    requires older_claimed { AreClaimed free.old (taken older.now) }
    requires claimed { AreClaimed free.old (taken heads.now) }
    ensures { HandsOver (taken older.now) (taken heads.now) free.old free.new }
{
    let first = same_first(older, heads);
    let (_, older) = older.split_at(first);
    let (_, heads) = heads.split_at(first);
    let last = same_last(older, heads);
    release(free, &older[..older.len() - last]);
    keep(free, &heads[..heads.len() - last]);
}

// Returns how many heads have the same pages in both lists, from the first on. Their pages stay claimed.
fn same_first<A: Allocator + Copy>(older: &[Head<A>], heads: &[Head<A>]) -> usize
    ensures older { result ≤ length older.now }
    ensures heads { result ≤ length heads.now }
    ensures same { taken (take result older.now) ≡ taken (take result heads.now) }
{
    let most = older.len().min(heads.len());
    for i in 0..most {
        if !has_same_pages(&older[i], &heads[i]) {
            return i;
        }
    }
    most
}

// Returns how many heads have the same pages in both lists, from the last on.
fn same_last<A: Allocator + Copy>(older: &[Head<A>], heads: &[Head<A>]) -> usize
    ensures older { result ≤ length older.now }
    ensures heads { result ≤ length heads.now }
    ensures same { taken (drop (length older.now - result) older.now) ≡ taken (drop (length heads.now - result) heads.now) }
{
    let most = older.len().min(heads.len());
    for i in 0..most {
        if !has_same_pages(&older[older.len() - 1 - i], &heads[heads.len() - 1 - i]) {
            return i;
        }
    }
    most
}

// Whether two heads have the same pages.
fn has_same_pages<A: Allocator + Copy>(head: &Head<A>, other: &Head<A>) -> bool
    ensures { IsTrue result ↔ (pages_of head.now ≡ pages_of other.now) }
{
    head.at() == other.at() && head.pages() == other.pages()
}

// Releases the pages of heads.
fn release<A: Allocator + Copy>(free: &mut FreeMap<A>, heads: &[Head<A>])
    requires there { AllByRecursion (λ page. page < length free.old) (taken heads.now) }
    requires claimed { AreClaimed free.old (taken heads.now) }
    requires apart { AreApart (taken heads.now) }
    ensures { Marks true (taken heads.now) free.old free.new }
{
    for head in heads {
        free.free_head(head);
    }
}

// Claims the pages of heads, whether or not they are free.
fn keep<A: Allocator + Copy>(free: &mut FreeMap<A>, heads: &[Head<A>])
    requires { AllByRecursion (λ page. page < length free.old) (taken heads.now) }
    ensures { Marks false (taken heads.now) free.old free.new }
{
    for head in heads {
        free.keep_head(head);
    }
}
