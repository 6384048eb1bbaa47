//! An example of the guide.
ghost use Rattle.std.specs.Prelude.{◌≡◌, ◌++◌, ◌∷◌, [], OnOk};
ghost use Rattle.psu_examples.specs.Examples.{answered_by, sent_by};

use std::alloc::{AllocError, Allocator};

/// An example of the guide: the text that is sent, and the response to it.
#[derive(Drop)]
pub struct Example<A: Allocator + Copy> {
    /// The line of the guide at which the example begins, the first being 1.
    pub line: usize,
    /// The lines that are sent, in their order, each with its line feed.
    pub sent: Vec<u8, A>,
    /// The lines of the response, in their order, each with its line feed.
    pub answered: Vec<u8, A>,
}

impl<A: Allocator + Copy> Example<A> {
    /// Returns an example that begins at a line, with nothing in it yet.
    pub fn new(alloc: A, line: usize) -> Example<A>
        ensures line { result.line ≡ line }
        ensures sent { result.sent.items ≡ [] }
        ensures answered { result.answered.items ≡ [] }
    {
        Example {
            line,
            sent: Vec::new(alloc),
            answered: Vec::new(alloc),
        }
    }

    /// Adds a line of the example, which is sent where it begins with `> `, and otherwise part of the response.
    pub fn put(&mut self, line: &[u8]) -> Result<(), AllocError>
        ensures line { OnOk result (self.new.line ≡ self.old.line) }
        ensures sent { OnOk result (self.new.sent.items ≡ self.old.sent.items ++ sent_by line.now) }
        ensures answered { OnOk result (self.new.answered.items ≡ self.old.answered.items ++ answered_by line.now) }
    {
        match line {
            [b'>', b' ', message @ ..] => put_line(&mut self.sent, message),
            _ => put_line(&mut self.answered, line),
        }
    }
}

// Appends a line with its line feed.
fn put_line<A: Allocator + Copy>(text: &mut Vec<u8, A>, line: &[u8]) -> Result<(), AllocError>
    ensures { OnOk result (text.new.items ≡ text.old.items ++ (line.now ++ 10 ∷ [])) }
{
    text.extend_from_slice(line)?;
    text.push(b'\n')?;
    Ok(())
}
