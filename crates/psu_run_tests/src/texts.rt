//! Lines with repeated parts: `{x*64}` is 64 x, and `{FOO\n*17}` 17 lines.
use psu_tables::written;
use std::alloc::Global;

/// Appends a line, with its end; `None` where a part of it has no count, or memory is refused.
pub(crate) fn add_line(alloc: Global, text: &mut Vec<u8>, line: &str) -> Option<()> {
    text.extend_from_slice(written(alloc, line)?.as_bytes())
        .ok()?;
    text.push(b'\n').ok()
}
