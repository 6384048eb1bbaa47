//! Items in pages of a disk that may lose power at any moment.
#![tactic(auto)]

mod checks;
mod choose;
mod faults;
mod format;
mod free_map;
mod gates;
mod hand_over;
mod head;
mod laws;
mod load;
mod open;
mod page;
mod pages;
mod pick;
mod plan;
mod pool;
mod publish;
mod reading;
mod root;
mod root_page;
mod scan;
mod standing;
mod switch;
mod version;
mod words;
mod writing;

pub use faults::{BadImage, FormatCause, FormatFault, ImageError, OpenCause, PageFault};
pub use free_map::FreeMap;
pub use head::Head;
pub use laws::represents_what_it_encodes;
pub use pages::Pages;
pub use psu_map::PAGE_SIZE;
pub use root::Root;
pub use standing::Standing;
