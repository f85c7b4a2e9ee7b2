// Positions: words that say by how much a row is rotated. They are secret, so all here is done by choices of a hidden one.

ghost use Rattle.std.specs.Prelude.{◌≡◌, ◌<◌};
ghost use Rattle.rows.specs.Sum.{as_position, half, index, turn as turned};

use super::masks::{Choice, One};
use super::plan::Direction;

impl One {
    // The word where it is below `r`, and 0 elsewhere.
    pub fn as_position(self, r: u32, word: u32) -> u32
        ensures { result ≡ as_position r word }
    {
        self.less(word, r).select(word, 0)
    }

    // A position taken apart into its half, 0 below `r` and 1 from there on, and its place in that half.
    pub fn apart(self, r: u32, position: u32) -> (Choice, u32)
        ensures half { result.0.digit ≡ half r position }
        ensures index { result.1 ≡ index r position }
    {
        let first = self.less(position, r);
        (
            first.not(),
            first.select(position, position.wrapping_sub(r)),
        )
    }

    // By how much a position rotates.
    pub fn turn(self, r: u32, direction: Direction, position: u32) -> u32
        requires { position < r }
        ensures { result ≡ turned r direction position }
    {
        match direction {
            Direction::Up => position,
            Direction::Down => self.opposite(r, position),
        }
    }
}
