//! The values of the cells of a table.
use std::alloc::Allocator;

// Appends the bytes of a word; `None` where it is not a word, or memory is refused.
fn add_word<A: Allocator>(bytes: &mut Vec<u8, A>, word: &str) -> Option<()> {
    if let Some(text) = word.strip_prefix("'") {
        return bytes.extend_from_slice(text.as_bytes()).ok();
    }
    let (digits, count) = word.split_once("*").unwrap_or((word, "1"));
    let byte = u8::from_str_radix(digits, 16).ok()?;
    for _ in 0..count.parse::<u32>().ok()? {
        bytes.push(byte).ok()?;
    }
    Some(())
}

/// Returns the bytes of a cell, word by word: a byte by its two hexadecimal digits (`a5`), such a byte repeated
/// (`00*27`), or those of a text after an apostrophe (`'PSU`). `None` where a word is of another form, or memory
/// is refused.
pub fn bytes<A: Allocator>(alloc: A, cell: &str) -> Option<Vec<u8, A>> {
    let mut bytes = Vec::new(alloc);
    for word in cell.split_whitespace() {
        add_word(&mut bytes, word)?;
    }
    Some(bytes)
}

// Appends a text with NL for each `\n` that is written in it.
fn add_lines<A: Allocator>(text: &mut String<A>, part: &str) -> Option<()> {
    for (at, line) in part.split("\\n").enumerate() {
        if at > 0 {
            text.push('\n').ok()?;
        }
        text.push_str(line).ok()?;
    }
    Some(())
}

// Appends a part as often as it says: `x*64`.
fn add_often<A: Allocator>(text: &mut String<A>, part: &str) -> Option<()> {
    let (once, times) = part.rsplit_once("*")?;
    for _ in 0..times.parse::<u32>().ok()? {
        add_lines(text, once)?;
    }
    Some(())
}

// Appends a piece that follows a `{`, or is the first one.
fn add_piece<A: Allocator>(text: &mut String<A>, piece: &str) -> Option<()> {
    match piece.split_once("}") {
        Some((often, rest)) => {
            add_often(text, often)?;
            add_lines(text, rest)
        }
        None => add_lines(text, piece),
    }
}

/// Returns a text with NL for each `\n` that is written in it, and 64 x for `{x*64}`; `None` where a part in braces has
/// no count, or memory is refused.
pub fn written<A: Allocator>(alloc: A, cell: &str) -> Option<String<A>> {
    let mut text = String::new(alloc);
    for piece in cell.split("{") {
        add_piece(&mut text, piece)?;
    }
    Some(text)
}
