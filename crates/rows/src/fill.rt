// Words of a memory written one after another: zeroed, copied, or chosen between two rows.
// Each promise is one equation: the words afterwards and the accesses made.
// A memory gives no slice to go through, so loops count places. They are three and not one over a closure, whose promise would have to name the accesses of a turn.
// That the words lie in the memory, and apart, is asked at each call: it is a fact of places and of the memory as it is then, and a type for a place and a length could not hold it.

ghost use Rattle.std.specs.Prelude.{◌≡◌, ◌+◌, ◌≤◌, length};
ghost use Rattle.memory.specs.Access.{accessed};
ghost use Rattle.memory.specs.Words.{over, zeros, Apart};
ghost use Rattle.rows.specs.Masks.{chosen};
ghost use Rattle.rows.specs.Fill.{part, zero_accesses, copy_accesses, pick_accesses};

use super::masks::Choice;
use memory::Memory;

// Puts 0 into the `n` words at `a`.
#[inline(always)]
pub fn zero<M: Memory>(m: &mut M, a: u32, n: u32)
    requires space { a + n ≤ length (M.Memory.seen m.old).words }
    ensures did { M.Memory.seen m.new ≡ accessed (M.Memory.seen m.old) (zero_accesses a n) (zeros (M.Memory.seen m.old).words a n) }
{
    let _ = m.size();
    for w in 0..n {
        m.put_within(a + w, 0);
    }
}

// Copies the `n` words at `from` to `to`.
#[inline(always)]
pub fn copy<M: Memory>(m: &mut M, from: u32, to: u32, n: u32)
    requires source { from + n ≤ length (M.Memory.seen m.old).words }
    requires space { to + n ≤ length (M.Memory.seen m.old).words }
    requires apart { Apart from n to n }
    ensures did { M.Memory.seen m.new ≡ accessed (M.Memory.seen m.old) (copy_accesses from to n) (over (M.Memory.seen m.old).words to (part (M.Memory.seen m.old).words from n)) }
{
    let _ = m.size();
    for w in 0..n {
        let word = m.get_within(from + w);
        m.put_within(to + w, word);
    }
}

// Writes to `to` the `n` words at `a` where the choice is no, and those at `b` where it is yes. Both are read, word by word.
#[inline(always)]
pub fn pick<M: Memory>(m: &mut M, choice: Choice, a: u32, b: u32, to: u32, n: u32)
    requires first { a + n ≤ length (M.Memory.seen m.old).words }
    requires second { b + n ≤ length (M.Memory.seen m.old).words }
    requires space { to + n ≤ length (M.Memory.seen m.old).words }
    requires first_apart { Apart a n to n }
    requires second_apart { Apart b n to n }
    ensures did { M.Memory.seen m.new ≡ accessed (M.Memory.seen m.old) (pick_accesses a b to n) (over (M.Memory.seen m.old).words to (part (M.Memory.seen m.old).words (chosen choice.digit b a) n)) }
{
    let _ = m.size();
    for w in 0..n {
        let first = m.get_within(a + w);
        let second = m.get_within(b + w);
        m.put_within(to + w, choice.select(second, first));
    }
}
