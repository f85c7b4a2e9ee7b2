// The first place that a check found, kept without a branch: only whether there is one is told in the end, and where.
// A check goes on to its last word whatever it finds, so that its accesses and its time say nothing.

ghost use Rattle.std.specs.Prelude.{◌≡◌, None, ◌==◌};
ghost use Rattle.keybox.specs.Model.{when};
ghost use Rattle.keybox.specs.Marks.{marked, or_else};

use rows::masks::Choice;

// found: whether a place was noted. It is no `Option`: looking into one would be a branch on what the words are.
#[derive(Clone, Copy)]
pub(crate) struct Mark {
    found: Choice,
    place: u32,
}

impl Mark {
    pub(crate) fn none() -> Mark
        ensures { marked result ≡ None }
    {
        Mark {
            found: Choice::no(),
            place: 0,
        }
    }

    // Notes a place where the choice is yes, unless one was noted before.
    pub(crate) fn note(&mut self, here: Choice, place: u32)
        ensures { marked self.new ≡ or_else (marked self.old) (when (here.digit == 1) place) }
    {
        self.place = self.found.select(self.place, place);
        self.found = self.found.or(here);
    }

    pub(crate) fn outcome(self) -> Option<u32>
        ensures { result ≡ marked self }
    {
        if self.found.reveal() {
            Some(self.place)
        } else {
            None
        }
    }
}
