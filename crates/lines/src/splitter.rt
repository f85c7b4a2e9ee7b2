// Input taken apart into lines as it comes, byte by byte.
// Only the first 65,536 bytes count, so no line number is larger.

ghost use Rattle.std.specs.Prelude.{◌+◌, ◌≤◌};

use crate::line::Line;

// count: how many bytes have come, as far as they count. line: the line that they are at.
#[derive(Copy)]
pub struct Splitter {
    pub(crate) count: u32,
    pub(crate) line: Line,
    ghost limited: { count ≤ 65536 },
    ghost numbered: { line.number + line.len ≤ count + 1 },
}
