//! The store while no job is out, and what remains of an Exec.
ghost use Rattle.std.specs.Prelude.{◌≡◌, None, Some};
ghost use Rattle.psu_exec.specs.Jobs.{idle_store_of};

use crate::{CannotDrop, End, Exec, Finished};
use psu_disk::Disk;
use psu_items::{Broken, Store};
use std::alloc::Allocator;
use std::mem;

/// Whether the store can take a commit.
#[derive(Clone, Copy, Debug, PartialEq, Eq)]
pub enum Condition {
    Whole,
    /// A commit has failed; the store is to be reopened.
    Broken,
    /// Its root number has its last value; no further commit is tried.
    Worn,
}

/// A store that a device has while no job is out: what the invariant of an `ExecOf` states of it.
pub trait Idle {
    ghost use Rattle.std.specs.Prelude.{ℕ};
    ghost use Rattle.psu_map.specs.Plan.{Planned};
    ghost use Rattle.psu_exec.specs.declared.idle_store.Condition.{Condition};

    // It is the store of a device with this condition, this limit, and this map with its planned batch.
    ghost belongs: { Self → Condition → ℕ → Planned → Type 0 };
}

impl<D: Disk, A: Allocator + Copy> Idle for IdleStore<D, A> {
    ghost use Rattle.psu_exec.specs.Jobs.{Belongs};

    ghost belongs = { Belongs };
}

/// The store while no job is out.
#[derive(Drop)]
pub enum IdleStore<D: Disk, A: Allocator + Copy> {
    /// The disk holds a known map.
    Whole(Store<D, A>),
    /// A commit has failed.
    Failed(Broken<D, A>),
}

/// Returns the store of a job that was given back.
pub(crate) fn idle_store_after<D: Disk, A: Allocator + Copy>(
    finished: Finished<D, A>,
) -> IdleStore<D, A>
    ensures { result ≡ idle_store_of finished.end }
{
    let Finished { end, duty } = finished;
    duty.end();
    match end {
        End::Stored(store) => IdleStore::Whole(store),
        End::Unstarted(store, _, _) => IdleStore::Whole(store),
        End::Broken(broken) => IdleStore::Failed(broken),
        End::Reopened(store) => IdleStore::Whole(store),
    }
}

/// Puts the store back into its place, which is empty.
pub(crate) fn put_store_back<D: Disk, A: Allocator + Copy>(
    place: &mut Option<IdleStore<D, A>>,
    idle_store: IdleStore<D, A>,
)
    requires { place.old ≡ None }
    ensures { place.new ≡ Some idle_store }
{
    match mem::replace(place, Some(idle_store)) {
        None => {}
        Some(_) => unreachable!(),
    }
}

/// What remains when an Exec ends.
#[derive(Drop)]
pub enum Ended<D: Disk, A: Allocator + Copy> {
    Whole(Store<D, A>),
    Failed(Broken<D, A>),
    /// A job is out, so the `Exec` continues.
    Out(Exec<D, A>),
}
