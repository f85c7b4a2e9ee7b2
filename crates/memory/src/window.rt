// The memory that shows a part of another: `len` words from `base` on, or none where they do not all lie below.
// An address outside the part accesses nothing below, so that the trail moves only where the part is accessed.

ghost use Rattle.std.specs.Prelude.{◌≡◌, ◌+◌, ◌<◌, ◌≤◌, length};
ghost use Rattle.memory.specs.Layers.{window};

use crate::{HeardMemory, Memory};

#[derive(Drop)]
pub struct Window<M: Memory> {
    base: u32,
    len: u32,
    below: M,
}

impl<M: Memory> Window<M> {
    pub fn over(base: u32, len: u32, below: M) -> Window<M>
        ensures base { result.base ≡ base }
        ensures len { result.len ≡ len }
        ensures below { result.below ≡ below }
    {
        Window { base, len, below }
    }

    // How many words it shows.
    fn shows(&self) -> u32
        ensures value { result ≡ length (window self.now.base self.now.len (M.Memory.seen self.now.below)).words }
        ensures bound { result ≤ 65536 }
    {
        let size = self.below.size();
        match self.base.checked_add(self.len) {
            Some(end) if end <= size => self.len,
            _ => 0,
        }
    }

    // The address below of an address that it shows.
    fn place(&self, a: u32) -> u32
        requires { a < length (window self.now.base self.now.len (M.Memory.seen self.now.below)).words }
        ensures { result ≡ self.now.base + a }
    {
        // The size below is at most 65,536, so the sum is a `u32`.
        let _ = self.below.size();
        self.base + a
    }
}

impl<M: Memory> Memory for Window<M> {
    ghost seen = { λ w. window w.base w.len (M.Memory.seen w.below) };

    fn size(&self) -> u32 {
        self.shows()
    }

    fn get(&mut self, a: u32) -> u32 {
        if a < self.shows() {
            self.get_within(a)
        } else {
            0
        }
    }

    fn put(&mut self, a: u32, w: u32) {
        if a < self.shows() {
            self.put_within(a, w);
        }
    }

    fn get_within(&mut self, a: u32) -> u32 {
        let place = self.place(a);
        self.below.get_within(place)
    }

    fn put_within(&mut self, a: u32, w: u32) {
        let place = self.place(a);
        self.below.put_within(place, w);
    }
}

impl<M: HeardMemory> HeardMemory for Window<M> {
    ghost told = { M.HeardMemory.told };

    fn hear(&self) -> u32 {
        self.below.hear()
    }
}
