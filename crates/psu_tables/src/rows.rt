//! Rows of a table, and steps of a script, each a line.

/// Returns the cells of a row, what is given and what is wanted, with ` -> ` between them. `None` for a line that says
/// what the rows below it are for.
pub fn row(line: &str) -> Option<(&str, &str)> {
    line.split_once(" -> ")
}

/// Returns the cells of a row whose first cell is in brackets, as its spaces are significant: that cell, and the rest.
pub fn bracketed(line: &str) -> Option<(&str, &str)> {
    line.strip_prefix("[")?.split_once("] ")
}

/// Whether a line of a script is a step: it is not empty, and does not begin with `#`.
pub fn is_step(line: &str) -> bool {
    !line.is_empty() && !line.starts_with("#")
}

/// Returns how often a step is made, and the step: `8 times 1 works` is made eight times, any other once.
pub fn repeated(line: &str) -> (u32, &str) {
    let (count, step) = line.split_once(" times ").unwrap_or(("1", line));
    match count.parse() {
        Ok(count) => (count, step),
        Err(_) => (1, line),
    }
}

/// Returns the first word of a step, and the rest, which may be empty.
pub fn parted(step: &str) -> (&str, &str) {
    step.split_once(" ").unwrap_or((step, ""))
}
