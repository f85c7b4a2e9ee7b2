// A line of a script with its number.
// Of a long line the first 121 bytes are kept, which is enough to see that it is too long.

ghost use Rattle.std.specs.Prelude.{◌≡◌, ◌+◌, ◌≤◌, [], ◌∷◌, ◌++◌, length, take, ◌==◌};

// The first `len` bytes are those of the line. An array with a length, since a line is copied and an `ArrayVec` is not.
#[derive(Clone, Copy)]
pub struct Line {
    number: u32,
    bytes: [u8; 121],
    len: usize,
    ghost room: { length bytes ≡ 121 },
    ghost within: { len ≤ 121 },
}

impl Line {
    pub(crate) fn empty(number: u32) -> Line
        ensures number { result.number ≡ number }
        ensures len { result.len ≡ 0 }
    {
        Line {
            number,
            bytes: [0; 121],
            len: 0,
        }
    }

    pub fn number(&self) -> u32
        ensures { result ≡ self.now.number }
    {
        self.number
    }

    pub fn as_bytes(&self) -> &[u8]
        ensures value { result.now ≡ take self.now.len self.now.bytes }
        ensures fits { length result.now ≤ 121 }
    {
        &self.bytes[..self.len]
    }

    pub(crate) fn is_empty(&self) -> bool
        ensures { result ≡ (self.now.len == 0) }
    {
        self.len == 0
    }

    pub(crate) fn push(&mut self, byte: u8)
        ensures number { self.new.number ≡ self.old.number }
        ensures bytes { take self.new.len self.new.bytes ≡ take 121 (take self.old.len self.old.bytes ++ byte ∷ []) }
        ensures len { self.new.len ≤ self.old.len + 1 }
    {
        if self.len < self.bytes.len() {
            self.bytes[self.len] = byte;
            self.len += 1;
        }
    }
}
