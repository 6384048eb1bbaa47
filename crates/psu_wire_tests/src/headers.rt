//! Headers made from the table of the command tree.
use crate::tree::is_in_table;
use psu_tree::{Kind, Node, Row, Section, patterns};
use std::alloc::Global;

// Returns the next pseudorandom number after this one.
fn next(seed: u32) -> u32 {
    seed.wrapping_mul(1_664_525).wrapping_add(1_013_904_223)
}

// Appends a mnemonic, `kept` letters of it, in letters of either case.
fn add_word(text: &mut Vec<u8>, name: &[u8], kept: usize, seed: u32) -> Option<()> {
    let mut dice = seed;
    for letter in name.iter().take(kept) {
        dice = next(dice);
        if dice / 65_536 % 2 == 0 {
            text.push(letter.to_ascii_lowercase()).ok()?;
        } else {
            text.push(letter.to_ascii_uppercase()).ok()?;
        }
    }
    Some(())
}

// Returns the number of letters of a name's short form.
fn short_of(name: &[u8]) -> usize {
    name.iter()
        .take_while(|letter| !letter.is_ascii_lowercase())
        .count()
}

fn may_miss(node: &Node) -> bool {
    matches!(node.kind, Kind::Maybe | Kind::MaybeNumbered)
}

// Appends a node, left out, short, long or cut by one letter, and returns whether this form is valid.
fn add_node(text: &mut Vec<u8>, node: &Node, seed: u32) -> Option<bool> {
    let name = node.name.as_bytes();
    let choice = seed / 65_536 % 8;
    if may_miss(node) && choice < 3 {
        return Some(true);
    }
    if !text.is_empty() && text.as_slice() != b"*".as_slice() {
        text.push(b':').ok()?;
    }
    let kept = match choice {
        7 => name.len().saturating_sub(1),
        0 | 4 | 5 => short_of(name),
        _ => name.len(),
    };
    add_word(text, name, kept, seed)?;
    Some(kept == name.len() || kept == short_of(name))
}

// Whether a header made from a row is defined exactly where all of its nodes are short or long forms. Each node takes
// the next number.
fn is_defined(alloc: Global, section: &Section, row: &Row, seed: &mut u32) -> Option<bool> {
    let mut text = Vec::new(alloc);
    *seed = next(*seed);
    let mut good = add_node(&mut text, &section.root, *seed)?;
    for node in row.nodes {
        *seed = next(*seed);
        good = add_node(&mut text, node, *seed)? && good;
    }
    if row.command.is_none() {
        text.push(b'?').ok()?;
    }
    Some(is_in_table(&text) == good)
}

// 10,230 headers made from the 55 rows of the table.
#[test]
fn headers_made_from_the_table(rt: HostRuntime) {
    let mut seed = 1;
    let mut made = 0u32;
    for _ in 0..186 {
        for section in patterns() {
            for row in section.rows {
                let defined = is_defined(rt.alloc(), section, row, &mut seed);
                assert!(rt; defined == Some(true), "before {seed}");
                made = made.wrapping_add(1);
            }
        }
    }
    assert!(rt; made == 10_230);
}
