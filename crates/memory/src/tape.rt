// The memory that can be heard: 8,192 words of its own, and a trail of one number that every access moves on, one past the end too.
// The number is worked out from kinds and addresses alone, so that it tells of no word.

ghost use Rattle.std.specs.Prelude.{◌≡◌, [], ◌∷◌, length, replicate};
ghost use Rattle.memory.specs.Layers.{tape, mixed, first};
ghost use Rattle.memory.specs.Kinds.{kind_number};

use crate::{HeardMemory, Memory};

const SIZE: usize = 8192;

// The kinds of access, in the order of the numbers that they bring to the trail.
#[derive(Clone, Copy)]
enum Kind {
    Get,
    Put,
}

#[derive(Drop)]
pub struct Tape {
    words: [u32; SIZE],
    trail: u32,
    ghost full: { length words ≡ 8192 },
}

impl Tape {
    // All words are 0, and so is the trail.
    pub fn new() -> Tape
        ensures words { result.words ≡ replicate 8192 0 }
        ensures trail { result.trail ≡ 0 }
    {
        Tape {
            words: [0; SIZE],
            trail: 0,
        }
    }

    // Moves the trail on by an access.
    fn step(&mut self, kind: Kind, a: u32)
        ensures words { self.new.words ≡ self.old.words }
        ensures trail { self.new.trail ∷ [] ≡ mixed (self.old.trail ∷ []) (kind_number kind) a }
    {
        self.trail = self
            .trail
            .wrapping_mul(31)
            .wrapping_add(a.wrapping_mul(2))
            .wrapping_add(kind as u32);
    }
}

impl Memory for Tape {
    ghost seen = { λ m. tape m.words m.trail };

    fn size(&self) -> u32 {
        SIZE as u32
    }

    fn get(&mut self, a: u32) -> u32 {
        self.step(Kind::Get, a);
        self.words.get(a as usize).copied().unwrap_or(0)
    }

    fn put(&mut self, a: u32, w: u32) {
        self.step(Kind::Put, a);
        if (a as usize) < SIZE {
            self.words[a as usize] = w;
        }
    }

    fn get_within(&mut self, a: u32) -> u32 {
        self.step(Kind::Get, a);
        self.words[a as usize]
    }

    fn put_within(&mut self, a: u32, w: u32) {
        self.step(Kind::Put, a);
        self.words[a as usize] = w;
    }
}

impl HeardMemory for Tape {
    ghost told = { first };

    fn hear(&self) -> u32 {
        self.trail
    }
}
