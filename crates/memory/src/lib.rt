// Memories of 32-bit words. What a memory is stands in one trait, so that everything above is proved once, for every memory.
// A memory's addresses may be overheard, so its promises name each access that is made: the trail.

#![tactic(auto)]

ghost use Rattle.std.specs.Prelude.{◌≡◌, ℕ, ◌+◌, ◌<◌, ◌≤◌, List, [], ◌∷◌, length, slice_index, slice_set};
ghost use Rattle.memory.specs.Access.{Seen, accessed, get as gets, put as puts};

pub mod bare;
pub mod scrambler;
pub mod tape;
pub mod window;

// Addressable words. An address is any `u32`; past the size a get answers 0 and a put changes no word.
pub trait Memory {
    // What the memory is: its words, its trail, its step rule, and what stays.
    ghost seen: { Self → Seen };

    // How many words there are, at most 65,536. Asking is no access.
    fn size(&self) -> u32
        ensures value { result ≡ length (seen self.now).words }
        ensures bound { result ≤ 65536 };

    fn get(&mut self, a: u32) -> u32
        ensures value { result ≡ slice_index (seen self.old).words a }
        ensures did { seen self.new ≡ accessed (seen self.old) (gets a ∷ []) (seen self.old).words };

    fn put(&mut self, a: u32, w: u32)
        ensures did { seen self.new ≡ accessed (seen self.old) (puts a ∷ []) (slice_set (seen self.old).words a w) };

    // The same at an address that the caller knows to be below the size, so that no test need be run.
    fn get_within(&mut self, a: u32) -> u32
        requires { a < length (seen self.old).words }
        ensures value { result ≡ slice_index (seen self.old).words a }
        ensures did { seen self.new ≡ accessed (seen self.old) (gets a ∷ []) (seen self.old).words }
    {
        self.get(a)
    }

    fn put_within(&mut self, a: u32, w: u32)
        requires { a < length (seen self.old).words }
        ensures did { seen self.new ≡ accessed (seen self.old) (puts a ∷ []) (slice_set (seen self.old).words a w) }
    {
        self.put(a, w);
    }
}

// A memory whose trail can be heard: it tells a number that it works out from the trail alone.
pub trait HeardMemory: Memory {
    ghost told: { List ℕ → ℕ };

    fn hear(&self) -> u32
        ensures { result ≡ told (Self.Memory.seen self.now).trail };
}

// A lent memory is a memory.
impl<'a, M: Memory> Memory for &'a mut M {
    ghost seen = { λ m. record { words = (M.Memory.seen m.now).words; trail = (M.Memory.seen m.now).trail; rule = (M.Memory.seen m.now).rule; outside = (M.Memory.seen m.now).outside; home = m.ghost_name ∷ (M.Memory.seen m.now).home } };

    fn size(&self) -> u32 {
        (**self).size()
    }

    fn get(&mut self, a: u32) -> u32 {
        (**self).get(a)
    }

    fn put(&mut self, a: u32, w: u32) {
        (**self).put(a, w);
    }

    fn get_within(&mut self, a: u32) -> u32 {
        (**self).get_within(a)
    }

    fn put_within(&mut self, a: u32, w: u32) {
        (**self).put_within(a, w);
    }
}

impl<'a, M: HeardMemory> HeardMemory for &'a mut M {
    ghost told = { M.HeardMemory.told };

    fn hear(&self) -> u32 {
        (**self).hear()
    }
}
