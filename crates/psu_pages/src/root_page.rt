//! Encoding a root as its page.
ghost use Rattle.std.specs.Prelude.{◌≡◌, ◌+◌, ◌*◌, ◌≤◌, [], ◌∷◌, ◌++◌, length};
ghost use Rattle.psu_pages.specs.Spelling.{root_contents, names, spelled_words};

use crate::Head;
use crate::gates::GATE_CLOSED;
use crate::page::Page;
use crate::version::VERSION;
use std::alloc::Allocator;

/// Encodes a root that names these heads, its gate closed, on an empty page.
pub(crate) fn spell_root<A: Allocator + Copy>(
    page: &mut Page,
    limit: u16,
    number: u64,
    heads: &[Head<A>],
)
    requires empty { page.old ≡ [] }
    requires heads { length heads.now ≤ 240 }
    ensures { page.new ≡ 0 ∷ root_contents limit number (names heads.now) }
{
    page.add(&[GATE_CLOSED]);
    page.add(b"PSU");
    page.add(&VERSION.to_be_bytes());
    page.add(&limit.to_be_bytes());
    page.add(&number.to_be_bytes());
    page.add(&(heads.len() as u16).to_be_bytes());
    add_names(page, heads);
}

// Appends the page numbers of heads to a page.
fn add_names<A: Allocator + Copy>(page: &mut Page, heads: &[Head<A>])
    requires { length page.old + 2 * length heads.now ≤ 512 }
    ensures { page.new ≡ page.old ++ spelled_words (names heads.now) }
{
    for head in heads {
        page.add(&head.at().to_be_bytes());
    }
}
