// What a sum of rotated rows is told: where its positions, its rows and its result lie.
// All of it is public; only the words that lie there are secret.
// Which way and which row are enums and no closures, since the accesses of a sum are worked out from them.

ghost use Rattle.std.specs.Prelude.{◌≡◌, ◌*◌, ◌≤◌};
ghost use Rattle.rows.specs.Rows.{width as words_taken};
ghost use Rattle.rows.specs.Sum.{room as rows};

use super::row::width;

// Which way a position rotates a row: up by it, or down by it, which is up by (r - p) mod r.
#[derive(Clone, Copy)]
pub enum Direction {
    Up,
    Down,
}

// Where the row lies that a position rotates: one row for all positions, or either of two, the second for a position from r on.
#[derive(Clone, Copy)]
pub enum Source {
    One(u32),
    Either(u32, u32),
}

// A sum of rotated rows of `r` bits: `count` positions at `at`, the planes of the result at `into`, and room to rotate at `scratch`.
#[derive(Clone, Copy)]
pub struct Plan {
    pub r: u32,
    pub at: u32,
    pub count: u32,
    pub source: Source,
    pub direction: Direction,
    pub into: u32,
    pub scratch: u32,
}

impl Plan {
    // How many words a row takes.
    pub(crate) fn width(self) -> u32
        ensures { result ≡ words_taken self.r }
    {
        width(self.r)
    }

    // How many words of room the sum needs.
    pub(crate) fn room(self) -> u32
        requires { words_taken self.r ≤ 65536 }
        ensures { result ≡ rows self.source * words_taken self.r }
    {
        match self.source {
            Source::One(_) => 2 * self.width(),
            Source::Either(_, _) => 3 * self.width(),
        }
    }
}
