// The memory over words that a caller lends. It keeps nothing of its own, so that its words are the caller's and its trail is empty.
// Of a longer list it reaches the first 65,536 words.

ghost use Rattle.std.specs.Prelude.{◌≡◌, ◌≤◌, length, slice_index};
ghost use Rattle.memory.specs.Layers.{bare, reached, written};

use crate::Memory;

#[derive(Drop)]
pub struct Bare<'a> {
    words: &'a mut [u32],
}

impl<'a> Bare<'a> {
    pub fn over(words: &'a mut [u32]) -> Bare<'a>
        ensures { result.words ≡ words.entry }
    {
        Bare { words }
    }

    // Reads through `&self`, so that the lent words are known to stay.
    fn word(&self, a: u32) -> u32
        ensures { result ≡ slice_index (reached self.now.words.now) a }
    {
        read_word(self.words, a)
    }

    // The lent words, given back.
    pub fn release(self) -> &'a mut [u32]
        ensures { result ≡ self.entry.words }
    {
        let Bare { words } = self;
        words
    }
}

// How many of the words an address reaches.
fn reach(words: &[u32]) -> u32
    ensures value { result ≡ length (reached words.now) }
    ensures bound { result ≤ 65536 }
{
    words.len().min(65536) as u32
}

// The word at `a`, or 0 where the address reaches none.
fn read_word(words: &[u32], a: u32) -> u32
    ensures { result ≡ slice_index (reached words.now) a }
{
    if a < reach(words) {
        words[a as usize]
    } else {
        0
    }
}

// Writes the word at `a`, where the address reaches one.
fn write_word(words: &mut [u32], a: u32, w: u32)
    ensures { words.new ≡ written words.old a w }
{
    if a < reach(words) {
        words[a as usize] = w;
    }
}

impl<'a> Memory for Bare<'a> {
    ghost seen = { λ m. bare m.words.ghost_name m.words.now };

    fn size(&self) -> u32 {
        reach(self.words)
    }

    fn get(&mut self, a: u32) -> u32 {
        self.word(a)
    }

    fn put(&mut self, a: u32, w: u32) {
        write_word(self.words, a, w);
    }

    fn get_within(&mut self, a: u32) -> u32 {
        self.words[a as usize]
    }

    fn put_within(&mut self, a: u32, w: u32) {
        self.words[a as usize] = w;
    }
}
