//! The pages that the parts of contents cost.
ghost use Rattle.std.specs.Prelude.{◌≡◌, ◌+◌, ◌^◌, ◌<◌, ◌≤◌, length};
ghost use Rattle.psu_map.specs.Map.{cost};
ghost use Rattle.psu_nv.specs.Contents.{enables_items, user_items};
ghost use Rattle.psu_nv.specs.Costs.{page_count};

use psu_map::PAGE_SIZE;
use psu_status::Enables;

// The pages of each part.
#[derive(Clone, Copy)]
pub(crate) struct Pages {
    pub(crate) enables: u8,
    pub(crate) registers: u8,
    pub(crate) user: u8,
    pub(crate) macros: u128,
    pub(crate) files: u128,
    pub(crate) recall: u8,
    ghost few_macros: { macros < 2 ^ 125 },
    ghost few_files: { files < 2 ^ 125 },
}

impl Pages {
    // The pages of all parts.
    pub(crate) fn total(&self) -> u128
        ensures { result ≡ self.now.enables + (self.now.registers + (self.now.user + (self.now.macros + (self.now.files + self.now.recall)))) }
    {
        let small = self.enables as u128 + (self.registers as u128 + self.user as u128);
        small + (self.macros + (self.files + self.recall as u128))
    }
}

// The pages of an item whose value has so many bytes.
pub(crate) fn page_count(size: u128) -> u128
    requires { size < 2 ^ 120 }
    ensures value { result ≡ page_count size }
    ensures most { result < 2 ^ 121 }
{
    let page = PAGE_SIZE as u128;
    1 + (size + (page - 1)) / page
}

pub(crate) fn enables_pages(enables: Option<Enables>) -> u8
    ensures { result ≡ cost (enables_items enables) }
{
    match enables {
        Some(_) => 2,
        None => 0,
    }
}

pub(crate) fn user_pages(user: &[u8]) -> u8
    requires { length user.now ≤ 63 }
    ensures { result ≡ cost (user_items user.now) }
{
    if user.is_empty() { 0 } else { 2 }
}
