//! The power-loss theorem at the disk that the program uses, a file of the operating system: with no premise on its kind,
//! and one on the file that the next opening reads.
#![tactic(auto)]

mod disk;
mod runs;
mod served;
mod stores;

pub use disk::{has_a_model, may_move, read, sync, write};
pub use runs::run_and_open;
pub use served::power_on_again;
pub use stores::{commit_and_open, open_again};
