// The rotation of a row of bits that lies in a memory, by a secret amount: no address, no branch and no loop's length may depend on it.
// The row is laid twice, one copy after the other, so that a rotation is one shift down: by `by` up, it is the `r` bits from bit (r - by) mod r on.
// The shift goes by the binary digits of its amount, the highest first. For each digit both results are worked out, and a mask made of the digit chooses: nothing but masks depends on the amount.
// A hidden one and an amount stay two arguments, since the amount is another one in each function.

ghost use Rattle.std.specs.Prelude.{◌≡◌, ◌+◌, ◌-◌, ◌*◌, ◌/◌, ◌%◌, ◌^◌, ◌<◌, ◌≤◌, ◌∷◌, ◌++◌, length, replicate};
ghost use Rattle.memory.specs.Access.{accessed, get};
ghost use Rattle.memory.specs.Words.{over, Apart};
ghost use Rattle.rows.specs.Rows.{width as words_taken, row_at, rotated, words_of};
ghost use Rattle.rows.specs.Turn.{Turnable, reach, rotate_accesses, twice_accesses, stage_accesses, slide_accesses};
ghost use Rattle.rows.specs.Number.{word, row, doubled, filled, staged, slid, cut_slid};

use super::fill::zero;
use super::masks::{Choice, One};
use super::row::width;
use memory::Memory;

// The lowest `t` bits of a word.
fn lowest(x: u32, t: u32) -> u32
    requires part { t ≤ 32 }
    ensures value { result ≡ x % 2 ^ t }
{
    (x as u64 & ((1u64 << t) - 1)) as u32
}

// `y` shifted down by 2^k bits where digit `k` of `s` is 1.
fn moved(y: u64, s: u32, k: u32, one: One) -> u64
    requires digit { k < 6 }
    ensures value { result ≡ y / 2 ^ (s / 2 ^ k % 2 * 2 ^ k) }
{
    one.digit(s, k).select_wide(y >> (1u32 << k), y)
}

// The 32 bits from bit s mod 32 on of two neighbouring words.
fn slide(lo: u32, hi: u32, s: u32, one: One) -> u32
    ensures value { result ≡ slid lo hi (s % 32) }
{
    let mut both = (hi as u64) << 32 | lo as u64;
    for k in 0..5 {
        both = moved(both, s, k, one);
    }
    (both & 0xffff_ffff) as u32
}

// Lays the row of `r` bits at `from`, of `n` words, twice at `to`, one copy after the other.
// The second copy begins within the word that the first one ends in, and each word of it passes on what it cannot hold.
#[inline(always)]
fn lay_twice<M: Memory>(m: &mut M, r: u32, from: u32, to: u32, n: u32)
    requires long { 0 < r }
    requires size { n ≡ words_taken r }
    requires source { from + n ≤ length (M.Memory.seen m.old).words }
    requires space { to + 2 * n ≤ length (M.Memory.seen m.old).words }
    requires apart { Apart from n to (2 * n) }
    requires tail { row (M.Memory.seen m.old).words from n < 2 ^ r }
    ensures did { M.Memory.seen m.new ≡ accessed (M.Memory.seen m.old) (twice_accesses from to (n - 1)) (filled (M.Memory.seen m.old).words to (word (doubled r (row (M.Memory.seen m.old).words from n))) (2 * n)) }
{
    let _ = m.size();
    let q = n - 1;
    let b = r - 32 * q;
    let last = m.get_within(from + q);
    let mut carry = last as u64;
    for w in 0..q {
        let x = m.get_within(from + w);
        let y = (x as u64) << b | carry;
        m.put_within(to + w, x);
        m.put_within(to + q + w, (y & 0xffff_ffff) as u32);
        carry = y >> 32;
    }
    let top = (last as u64) << b | carry;
    m.put_within(to + q + q, (top & 0xffff_ffff) as u32);
    m.put_within(to + q + q + 1, (top >> 32) as u32);
}

// Shifts what is left of a row of `n` words, laid twice at `base`, down by `v` words where the choice is yes.
// It writes as many words as what follows can read. The word further up is read first, which lets the compiler take several at once.
#[inline(always)]
fn stage<M: Memory>(m: &mut M, n: u32, base: u32, v: u32, choice: Choice)
    requires space { base + 2 * n ≤ length (M.Memory.seen m.old).words }
    requires by { v < n }
    ensures did { M.Memory.seen m.new ≡ accessed (M.Memory.seen m.old) (stage_accesses base v (reach n v)) (filled (M.Memory.seen m.old).words base (staged (M.Memory.seen m.old).words base v choice.digit) (reach n v)) }
{
    let _ = m.size();
    for w in 0..(n + v).min(2 * n - v) {
        let far = m.get_within(base + w + v);
        let near = m.get_within(base + w);
        m.put_within(base + w, choice.select(far, near));
    }
}

// Shifts the n + 1 words at `base` down by s mod 32 bits, and cuts what is left to `r` bits, which take `n` words.
#[inline(always)]
fn finish<M: Memory>(m: &mut M, r: u32, base: u32, n: u32, s: u32, one: One)
    requires long { 0 < r }
    requires size { n ≡ words_taken r }
    requires space { base + n + 1 ≤ length (M.Memory.seen m.old).words }
    ensures did { M.Memory.seen m.new ≡ accessed (M.Memory.seen m.old) (get base ∷ slide_accesses base n) (filled (M.Memory.seen m.old).words base (cut_slid (M.Memory.seen m.old).words base r (s % 32)) n) }
{
    let _ = m.size();
    let q = n - 1;
    let mut lo = m.get_within(base);
    for w in 0..q {
        let hi = m.get_within(base + w + 1);
        m.put_within(base + w, slide(lo, hi, s, one));
        lo = hi;
    }
    let top = m.get_within(base + q + 1);
    m.put_within(base + q, lowest(slide(lo, top, s, one), r - 32 * q));
}

// Lays the row of `r` bits at `from`, rotated by `by`, at `scratch`, and as many zero words after it. Answers the count of rotations, one higher.
#[inline(always)]
pub fn rotate<M: Memory>(m: &mut M, r: u32, from: u32, scratch: u32, by: u32, count: u32) -> u32
    requires fits { Turnable r from scratch by (M.Memory.seen m.old).words }
    requires next { count + 1 < 2 ^ 32 }
    ensures count { result ≡ count + 1 }
    ensures did { M.Memory.seen m.new ≡ accessed (M.Memory.seen m.old) (rotate_accesses r from scratch) (over (M.Memory.seen m.old).words scratch (words_of r (rotated r by (row_at (M.Memory.seen m.old).words from)) ++ replicate (words_taken r) 0)) }
{
    let _ = m.size();
    let n = width(r);
    let one = One::hidden(r);
    let down = one.opposite(r, by);
    lay_twice(m, r, from, scratch, n);
    // The digits from 32 on shift whole words; `finish` takes the five below them.
    for e in (0..32 - (n - 1).leading_zeros()).rev() {
        stage(m, n, scratch, 1u32 << e, one.digit(down / 32, e));
    }
    finish(m, r, scratch, n, down, one);
    zero(m, scratch + n, n);
    count + 1
}
