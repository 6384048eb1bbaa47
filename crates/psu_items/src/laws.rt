//! Laws about the map that an image represents, and about the threads that a store may move to.
ghost use Rattle.std.specs.Prelude.{◌≡◌, ◌≤◌, List, ℕ};
ghost use Rattle.psu_map.specs.Map.{Item, cost};
ghost use Rattle.psu_items.specs.Image.{Represents};

use crate::Store;
use psu_disk::Disk;
use std::alloc::Global;

/// An image represents at most one map, under one limit.
pub fn one_map()
    ensures one { (limit limit' : ℕ) (map map' : List Item) (image : List ℕ) → Represents image limit map
        → Represents image limit' map' → (limit ≡ limit') × (map ≡ map') }
{}

/// A map that an image represents costs no more pages than its limit.
pub fn maps_keep_the_limit()
    ensures within { (limit : ℕ) (map : List Item) (image : List ℕ) → Represents image limit map → cost map ≤ limit }
{}

/// A store can be sent to another thread if its disk can.
pub fn stores_move<D: Disk + Send>(store: Store<D, Global>) -> Store<D, Global>
    ensures { result ≡ store }
{
    sent(store)
}

// Returns a value that can be sent to another thread.
fn sent<T: Send>(value: T) -> T
    ensures { result ≡ value }
{
    value
}
