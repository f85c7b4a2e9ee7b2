// The sum of rotated rows: for each position that lies in the memory a row is rotated and added, lane by lane.
// One text for every kind of lanes, so that syndromes and counts are the same sum.
// A count of rotations is a number and no type: how many more still fit is asked for another number at each function.

ghost use Rattle.std.specs.Prelude.{◌≡◌, ◌+◌, ◌*◌, ◌^◌, ◌<◌, ◌≤◌, length};
ghost use Rattle.memory.specs.Access.{accessed};
ghost use Rattle.rows.specs.Rows.{width};
ghost use Rattle.rows.specs.Sum.{Fits, RowsApart, room as rows, chosen_at, chosen_words, position_in, choice_accesses, step_words, step_accesses, but_room, sum_words, sum_accesses};

use super::add::add_row;
use super::fill::{pick, zero};
use super::lanes::Lanes;
use super::masks::One;
use super::plan::{Plan, Source};
use super::rotate::rotate;
use memory::Memory;

// Where the row lies that the position rotates, and the position in its half. Of two rows the chosen one is brought to the room first.
#[inline(always)]
fn choose<M: Memory>(m: &mut M, plan: Plan, position: u32, one: One) -> (u32, u32)
    requires space { plan.scratch + rows plan.source * width plan.r ≤ length (M.Memory.seen m.old).words }
    requires rows { RowsApart plan.r plan.source (M.Memory.seen m.old).words plan.scratch (rows plan.source * width plan.r) }
    ensures from { result.0 ≡ chosen_at plan.r plan.source plan.scratch }
    ensures position { result.1 ≡ position_in plan.r plan.source position }
    ensures did { M.Memory.seen m.new ≡ accessed (M.Memory.seen m.old) (choice_accesses plan.r plan.source plan.scratch) (chosen_words plan.r plan.source plan.scratch position (M.Memory.seen m.old).words) }
{
    let _ = m.size();
    match plan.source {
        Source::One(a) => (a, one.as_position(plan.r, position)),
        Source::Either(a, b) => {
            let to = plan.scratch + 2 * plan.width();
            let (half, index) = one.apart(plan.r, position);
            pick(m, half, a, b, to, plan.width());
            (to, one.as_position(plan.r, index))
        }
    }
}

// Adds the row of position `i`: the row is chosen, rotated in the room, and added. The room is left as it is then.
#[inline(always)]
fn step<L: Lanes + Drop, M: Memory>(m: &mut M, plan: Plan, i: u32, count: u32) -> u32
    requires fits { Fits L.Lanes.depth plan (M.Memory.seen m.old).words }
    requires within { i < plan.count }
    requires next { count + 1 < 2 ^ 32 }
    ensures count { result ≡ count + 1 }
    ensures words { but_room plan (M.Memory.seen m.new).words ≡ but_room plan (step_words L.Lanes.add L.Lanes.depth plan i (M.Memory.seen m.old).words) }
    ensures did { M.Memory.seen m.new ≡ accessed (M.Memory.seen m.old) (step_accesses L.Lanes.depth plan i) (M.Memory.seen m.new).words }
{
    let _ = m.size();
    let one = One::hidden(plan.r);
    let word = m.get_within(plan.at + i);
    let (from, position) = choose(m, plan, word, one);
    let by = one.turn(plan.r, plan.direction, position);
    let next = rotate(m, plan.r, from, plan.scratch, by, count);
    add_row::<L, M>(m, plan.scratch, plan.into, plan.width());
    next
}

// Adds the row of each position, rotated by it, to the numbers at `plan.into`, and answers the count of rotations. The room is zero afterwards.
#[inline(always)]
pub fn sum<L: Lanes + Drop, M: Memory>(m: &mut M, plan: Plan, count: u32) -> u32
    requires fits { Fits L.Lanes.depth plan (M.Memory.seen m.old).words }
    requires next { count + plan.count < 2 ^ 32 }
    ensures count { result ≡ count + plan.count }
    ensures did { M.Memory.seen m.new ≡ accessed (M.Memory.seen m.old) (sum_accesses L.Lanes.depth plan) (sum_words L.Lanes.add L.Lanes.depth plan (M.Memory.seen m.old).words) }
{
    let _ = m.size();
    let mut turned = count;
    for i in 0..plan.count {
        turned = step::<L, M>(m, plan, i, turned);
    }
    zero(m, plan.scratch, plan.room());
    turned
}
