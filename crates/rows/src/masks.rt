// Choices and comparisons of secret words without a branch.
// A compiler that knows a digit to be 0 or 1 turns a mask made of it into a branch on the secret, so each digit here is cut out by a one that the compiler cannot see.

ghost use Rattle.std.specs.Prelude.{◌≡◌, ◌-◌, ◌/◌, ◌%◌, ◌^◌, ◌<◌, ◌≤◌, if◌then◌else◌, ◌==◌, bit_or, nat_eq, nat_lt};
ghost use Rattle.rows.specs.Masks.{chosen};

// The number 1, in a way that no compiler sees.
#[derive(Clone, Copy)]
pub struct One {
    value: u32,
    ghost is_one: { value ≡ 1 },
}

// A secret yes or no, as a binary digit: 1 for yes. It is no `bool`, so that nothing branches on it by mistake.
#[derive(Clone, Copy)]
pub struct Choice {
    digit: u32,
    ghost binary: { digit < 2 },
}

impl One {
    // `r` is a number that the compiler does not know.
    pub fn hidden(r: u32) -> One
        requires { 2 ≤ r }
        ensures { result.value ≡ 1 }
    {
        One {
            value: r / (r / 2 + 1),
        }
    }

    // Binary digit `k` of a word.
    pub fn digit(self, word: u32, k: u32) -> Choice
        requires { k < 32 }
        ensures { result.digit ≡ word / 2 ^ k % 2 }
    {
        Choice {
            digit: word >> k & self.value,
        }
    }

    // Whether `a` is below `b`: the bit that the difference borrows.
    pub fn less(self, a: u32, b: u32) -> Choice
        ensures { result.digit ≡ (if nat_lt a b then 1 else 0) }
    {
        let borrowed = (a as u64).wrapping_sub(b as u64) >> 32;
        Choice {
            digit: (borrowed & self.value as u64) as u32,
        }
    }

    // Whether the two are equal: only then are all bits of their sum modulo 2 zero, and zero alone is below 1.
    pub fn equal(self, a: u32, b: u32) -> Choice
        ensures { result.digit ≡ (if nat_eq a b then 1 else 0) }
    {
        self.less(a ^ b, 1)
    }

    // The amount that rotates back what `by` rotates, in a row of `r` bits: (r - by) mod r, so that 0 stays 0.
    pub fn opposite(self, r: u32, by: u32) -> u32
        requires { by < r }
        ensures { result ≡ (r - by) % r }
    {
        self.less(0, by).select(r - by, 0)
    }
}

impl Choice {
    pub fn no() -> Choice
        ensures { result.digit ≡ 0 }
    {
        Choice { digit: 0 }
    }

    pub fn not(self) -> Choice
        ensures { result.digit ≡ 1 - self.digit }
    {
        Choice {
            digit: 1 - self.digit,
        }
    }

    pub fn or(self, other: Choice) -> Choice
        ensures { result.digit ≡ bit_or self.digit other.digit }
    {
        Choice {
            digit: self.digit | other.digit,
        }
    }

    // The one place where a choice leaves its mask: what is answered here is public from then on.
    pub fn reveal(self) -> bool
        ensures { result ≡ (self.digit == 1) }
    {
        self.digit == 1
    }

    // `a` for yes, `b` for no.
    pub fn select(self, a: u32, b: u32) -> u32
        ensures { result ≡ chosen self.digit a b }
    {
        self.select_wide(a as u64, b as u64) as u32
    }

    pub fn select_wide(self, a: u64, b: u64) -> u64
        ensures { result ≡ chosen self.digit a b }
    {
        let mask = (self.digit as u64).wrapping_neg();
        b ^ (mask & (a ^ b))
    }
}
