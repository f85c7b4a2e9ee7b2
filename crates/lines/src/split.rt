// What a splitter does with a byte, and at the end of the input.
// A line is handed over as soon as it is complete, so that it can be answered before more is read.

ghost use Rattle.std.specs.Prelude.{◌≡◌, ◌+◌, ◌≤◌, ⊤};
ghost use Rattle.std.specs.Option.{option_map};
ghost use Rattle.lines.specs.Feeding.{line_of, cut_of, pushed, closed, completed, start, ComesToItsLines};

use crate::line::Line;
use crate::splitter::Splitter;
use std::alloc::AllocError;
use std::mem;

const LIMIT: u32 = 65536;

// By hand, so that a clone promises what a copy is: it is at the same place, and there always is one.
impl Clone for Splitter {
    ghost is_clone = { λ s t. t ≡ s };

    ghost is_infallible = { λ _. ⊤ };

    fn clone(&self) -> Result<Splitter, AllocError> {
        Ok(*self)
    }
}

impl Splitter {
    pub fn new() -> Splitter
        ensures start { cut_of result ≡ start }
        ensures law { ComesToItsLines }
    {
        Splitter {
            count: 0,
            line: Line::empty(1),
        }
    }

    // Takes one more byte. The line is answered that it completes, if it is a line feed.
    pub fn push(&mut self, byte: u8) -> Option<Line>
        ensures { record { line = option_map line_of result; after = cut_of self.new } ≡ pushed (cut_of self.old) byte }
    {
        if self.count == LIMIT {
            return None;
        }
        self.count += 1;
        if byte == b'\n' {
            Some(self.next_line())
        } else {
            self.line.push(byte);
            None
        }
    }

    // No more bytes will come: what has come of a line is the last one.
    pub fn finish(&mut self) -> Option<Line>
        ensures { record { line = option_map line_of result; after = cut_of self.new } ≡ closed (cut_of self.old) }
    {
        if self.line.is_empty() {
            None
        } else {
            Some(self.next_line())
        }
    }

    // Goes on to the next line, and answers the one that it was at.
    fn next_line(&mut self) -> Line
        requires { self.old.line.number ≤ self.old.count }
        ensures line { result ≡ self.old.line }
        ensures after { cut_of self.new ≡ (completed self.old.count (line_of self.old.line)).after }
    {
        let next = Line::empty(self.line.number() + 1);
        mem::replace(&mut self.line, next)
    }
}
