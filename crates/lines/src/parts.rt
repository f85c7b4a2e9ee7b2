// The parts of a line that are still to be read, each behind one space.
// A reader takes the next part off. It answers `None` where there is none of its form, and the line is malformed then, so nothing is said of what is left.

ghost use Rattle.std.specs.Prelude.{◌≡◌, ◌+◌, ◌≤◌, ◌==◌, length, IfSome, OnSome, Some};
ghost use Rattle.std.specs.Option.{option_map};
ghost use Rattle.lines.specs.Digits.{then};
ghost use Rattle.lines.specs.Splitting.{split};
ghost use Rattle.lines.specs.Commands.{parts, headed, numbered, worded, numbers as numbers_of};

use crate::digits::{number, word};
use arrayvec::ArrayVec;

#[derive(Drop)]
pub(crate) struct Parts<'a> {
    pub(crate) rest: &'a [u8],
}

// The bytes before the first space, and the rest from that space on.
fn until_space(text: &[u8]) -> (&[u8], &[u8])
    ensures value { headed (Some (split 32 text.now)) ≡ Some (result.0.now, parts result.1.now) }
    ensures whole { length result.0.now + length result.1.now ≡ length text.now }
{
    let end = text.iter().position(|b| *b == b' ').unwrap_or(text.len());
    text.split_at(end)
}

impl<'a> Parts<'a> {
    pub(crate) fn is_empty(&self) -> bool
        ensures { result ≡ (length self.now.rest.now == 0) }
    {
        self.rest.is_empty()
    }

    fn part(&mut self) -> Option<&'a [u8]>
        ensures value { option_map (λ text. (text.now, parts self.new.rest.now)) result ≡ headed (parts self.old.rest.now) }
        ensures whole { IfSome result (λ text. length text.now + length self.new.rest.now + 1 ≡ length self.old.rest.now) }
    {
        match self.rest {
            [b' ', text @ ..] => {
                let (first, rest) = until_space(text);
                self.rest = rest;
                Some(first)
            }
            _ => None,
        }
    }

    pub(crate) fn number(&mut self) -> Option<u32>
        ensures value { option_map (λ n. (n, parts self.new.rest.now)) result ≡ numbered (parts self.old.rest.now) }
        ensures shorter { OnSome result (length self.new.rest.now + 2 ≤ length self.old.rest.now) }
    {
        number(self.part()?)
    }

    pub(crate) fn word(&mut self) -> Option<u32>
        ensures { option_map (λ w. (w, parts self.new.rest.now)) result ≡ worded (parts self.old.rest.now) }
    {
        word(self.part()?)
    }

    // All parts, as numbers.
    #[tactic(auto, using(crate::proofs::Arguments::numbers_none))]
    pub(crate) fn numbers(mut self) -> Option<ArrayVec<u32, 56>>
        requires { length self.rest.now ≤ 113 }
        ensures { option_map (λ ns. ns.items) result ≡ then (parts self.entry.rest.now) numbers_of }
    {
        let mut numbers = ArrayVec::new();
        while !self.is_empty() {
            numbers.push(self.number()?);
        }
        Some(numbers)
    }
}
