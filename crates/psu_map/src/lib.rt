//! An ordered map from byte keys to byte values, the batches that change it, and the items that it then has. It uses no
//! disk.
#![tactic(auto)]

mod batch;
mod edit;
mod entry;
mod items;
mod limits;
mod pair;
mod plan;
mod same;
mod search;
mod target;

pub use batch::Batch;
pub use edit::Edit;
pub use entry::Entry;
pub use items::Items;
pub use limits::PAGE_SIZE;
pub use pair::{Pair, Value};
pub use plan::Plan;
pub use same::{same_key, same_pairs};
pub use target::Target;
