// The memory that keeps no word below as it is: each lies there under the pad of its address.
// A pad depends on the seed and the address alone, so that each access is one access below, at the same address.

ghost use Rattle.std.specs.Prelude.{◌≡◌};
ghost use Rattle.memory.specs.Layers.{scrambler, pad};

use crate::{HeardMemory, Memory};

#[derive(Drop)]
pub struct Scrambler<M: Memory> {
    seed: u32,
    below: M,
}

impl<M: Memory> Scrambler<M> {
    pub fn over(seed: u32, below: M) -> Scrambler<M>
        ensures seed { result.seed ≡ seed }
        ensures below { result.below ≡ below }
    {
        Scrambler { seed, below }
    }

    // The pad of an address.
    fn pad_at(&self, a: u32) -> u32
        ensures { result ≡ pad self.now.seed a }
    {
        self.seed ^ a.wrapping_mul(2_654_435_761)
    }
}

impl<M: Memory> Memory for Scrambler<M> {
    ghost seen = { λ s. scrambler s.seed (M.Memory.seen s.below) };

    #[tactic(auto, using(crate::proofs::Pads::length_padded))]
    fn size(&self) -> u32 {
        self.below.size()
    }

    // Past the size the access is passed on for its trail, and the 0 that it answers is under no pad.
    #[tactic(auto, using(crate::proofs::Pads::length_padded, crate::proofs::Pads::scrambler_get))]
    fn get(&mut self, a: u32) -> u32 {
        if a < self.below.size() {
            self.get_within(a)
        } else {
            self.below.get(a)
        }
    }

    #[tactic(auto, using(crate::proofs::Pads::scrambler_put))]
    fn put(&mut self, a: u32, w: u32) {
        let pad = self.pad_at(a);
        self.below.put(a, w ^ pad);
    }

    #[tactic(auto, using(crate::proofs::Pads::length_padded, crate::proofs::Pads::padded_at, crate::proofs::Pads::scrambler_get))]
    fn get_within(&mut self, a: u32) -> u32 {
        let pad = self.pad_at(a);
        self.below.get_within(a) ^ pad
    }

    #[tactic(auto, using(crate::proofs::Pads::length_padded, crate::proofs::Pads::scrambler_put))]
    fn put_within(&mut self, a: u32, w: u32) {
        let pad = self.pad_at(a);
        self.below.put_within(a, w ^ pad);
    }
}

impl<M: HeardMemory> HeardMemory for Scrambler<M> {
    ghost told = { M.HeardMemory.told };

    fn hear(&self) -> u32 {
        self.below.hear()
    }
}
