// The checks of the words of IN. Each reads every word that it could need, whatever the words are,
// so that its accesses tell nothing of the words; the one branch on its outcome is its caller's.
// Two loops and not one over a closure that tests a word: a closure that reads the memory would have to promise its accesses too.
// Where a place is added to, the memory is asked its size first, as in `rows`: it is at most 65,536, so that no sum wraps.

ghost use Rattle.std.specs.Prelude.{◌≡◌, ◌+◌, ◌-◌, ◌<◌, ◌≤◌, [], ◌∷◌, length, drop, if◌then◌else◌, None, ◌==◌, nat_le, slice_index};
ghost use Rattle.std.specs.List.{range_with_len};
ghost use Rattle.memory.specs.Access.{accessed, get as gets};
ghost use Rattle.rows.specs.Fill.{part};
ghost use Rattle.keybox.specs.Model.{first_place, again_place, earlier, when, tail_place};
ghost use Rattle.keybox.specs.Accesses.{read_accesses, pair_accesses};
ghost use Rattle.scheme.specs.Zones.{W, B};
ghost use Rattle.keybox.specs.Device.{Roomy};
ghost use Rattle.keybox.specs.Marks.{marked, or_else};

use crate::mark::Mark;
use memory::Memory;
use rows::masks::{Choice, One};
use scheme::profile::Profile;

// The first of the n places of IN whose word is not below a limit.
pub(crate) fn first_beyond<M: Memory>(m: &mut M, n: u32, limit: u32, one: One) -> Option<u32>
    requires within { n ≤ length (M.Memory.seen m.old).words }
    ensures value { result ≡ first_place (λ i. nat_le limit (slice_index (M.Memory.seen m.old).words i)) (range_with_len 0 n) }
    ensures did { M.Memory.seen m.new ≡ accessed (M.Memory.seen m.old) (read_accesses 0 n) (M.Memory.seen m.old).words }
{
    let mut mark = Mark::none();
    for i in 0..n {
        let word = m.get_within(i);
        mark.note(one.less(word, limit).not(), i);
    }
    mark.outcome()
}

// Whether a word stands among the i words from `at` on.
fn stands_in<M: Memory>(m: &mut M, at: u32, i: u32, word: u32, one: One) -> Choice
    requires within { at + i ≤ length (M.Memory.seen m.old).words }
    ensures value { result.digit ≡ (if earlier (drop at (M.Memory.seen m.old).words) word i then 1 else 0) }
    ensures did { M.Memory.seen m.new ≡ accessed (M.Memory.seen m.old) (read_accesses at i) (M.Memory.seen m.old).words }
{
    let _ = m.size();
    let mut found = Choice::no();
    for j in 0..i {
        let other = m.get_within(at + j);
        found = found.or(one.equal(other, word));
    }
    found
}

// Notes the first of the n words from `at` on that stands among those before it, by its place in IN.
// All pairs are compared: a table of the words seen would be looked up at addresses that tell them.
pub(crate) fn note_again<M: Memory>(m: &mut M, at: u32, n: u32, mark: &mut Mark, one: One)
    requires within { at + n ≤ length (M.Memory.seen m.old).words }
    ensures noted { marked mark.new ≡ or_else (marked mark.old) (again_place (M.Memory.seen m.old).words at n) }
    ensures did { M.Memory.seen m.new ≡ accessed (M.Memory.seen m.old) (pair_accesses at n) (M.Memory.seen m.old).words }
{
    let _ = m.size();
    for i in 0..n {
        let word = m.get_within(at + i);
        mark.note(stands_in(m, at, i, word, one), at + i);
    }
}

// The place of the last word of the row in IN, if it has a bit set past the row's end.
pub(crate) fn tail_set<M: Memory>(m: &mut M, profile: &Profile) -> Option<u32>
    requires { Roomy profile.now (M.Memory.seen m.old).words }
    ensures value { result ≡ tail_place profile.now (M.Memory.seen m.old).words }
    ensures did { M.Memory.seen m.new ≡ accessed (M.Memory.seen m.old) (gets (B profile.now + (W profile.now - 1)) ∷ []) (M.Memory.seen m.old).words }
{
    let place = profile.row_place() + (profile.width() - 1);
    let last = m.get_within(place);
    let used = profile.r % 32;
    if used != 0 && last >> used != 0 {
        Some(place)
    } else {
        None
    }
}
