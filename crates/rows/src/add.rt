// A row added to numbers that lie across planes of a memory, pack by pack, for every kind of lanes.
// Plane k of the pack of word w stands at `into + w + k * width`.
// Loading and storing are two loops: one changes the pack and the other the memory. A place and a width are two numbers, since all packs of a row share the width.

ghost use Rattle.std.specs.Prelude.{◌≡◌, ℕ, ◌+◌, ◌*◌, ◌^◌, ◌<◌, ◌≤◌, length, slice_index};
ghost use Rattle.memory.specs.Access.{accessed, get as gets, put as puts};
ghost use Rattle.memory.specs.Words.{over, Apart};
ghost use Rattle.rows.specs.Rows.{bit_of, row_at};
ghost use Rattle.rows.specs.Lane.{number, lane, plane_word, planes, ColumnWithin, column, column_over, column_accesses, pack_accesses, add_accesses};

use super::lanes::Lanes;
use memory::Memory;

// The pack whose planes stand at `at`, `at + width`, and so on.
fn load<L: Lanes, M: Memory>(m: &mut M, at: u32, width: u32) -> L
    requires space { ColumnWithin L.Lanes.depth at width (M.Memory.seen m.old).words }
    ensures planes { (k : ℕ) → k < L.Lanes.depth → L.Lanes.plane result k ≡ column (M.Memory.seen m.old).words at width k }
    ensures did { M.Memory.seen m.new ≡ accessed (M.Memory.seen m.old) (column_accesses gets at width L.Lanes.depth) (M.Memory.seen m.old).words }
{
    let _ = m.size();
    let mut pack = L::blank();
    for k in 0..L::planes() {
        let word = m.get_within(at + k * width);
        pack.write(k, word);
    }
    pack
}

// Puts the planes of a pack at `at`, `at + width`, and so on.
fn store<L: Lanes, M: Memory>(m: &mut M, pack: &L, at: u32, width: u32)
    requires space { ColumnWithin L.Lanes.depth at width (M.Memory.seen m.old).words }
    ensures planes { (k : ℕ) → k < L.Lanes.depth → L.Lanes.plane pack.now k < 2 ^ 32 }
    ensures did { M.Memory.seen m.new ≡ accessed (M.Memory.seen m.old) (column_accesses puts at width L.Lanes.depth) (column_over (M.Memory.seen m.old).words (L.Lanes.plane pack.now) at width L.Lanes.depth) }
{
    let _ = m.size();
    for k in 0..L::planes() {
        let word = pack.read(k);
        m.put_within(at + k * width, word);
    }
}

// Adds the word at `from` to the pack whose planes stand at `at`, `at + width`, and so on.
#[inline(always)]
fn add_pack<L: Lanes + Drop, M: Memory>(m: &mut M, from: u32, at: u32, width: u32)
    requires source { from < length (M.Memory.seen m.old).words }
    requires space { ColumnWithin L.Lanes.depth at width (M.Memory.seen m.old).words }
    ensures did { M.Memory.seen m.new ≡ accessed (M.Memory.seen m.old) (pack_accesses from at width L.Lanes.depth) (column_over (M.Memory.seen m.old).words (plane_word (λ j. L.Lanes.add (number (column (M.Memory.seen m.old).words at width) L.Lanes.depth j) (bit_of (slice_index (M.Memory.seen m.old).words from) j))) at width L.Lanes.depth) }
{
    let word = m.get_within(from);
    let mut pack: L = load(m, at, width);
    pack.join(word);
    store(m, &pack, at, width);
}

// Adds bit j of the row of `width` words at `from` to the number in lane j of the planes at `into`.
#[inline(always)]
pub fn add_row<L: Lanes + Drop, M: Memory>(m: &mut M, from: u32, into: u32, width: u32)
    requires source { from + width ≤ length (M.Memory.seen m.old).words }
    requires space { into + L.Lanes.depth * width ≤ length (M.Memory.seen m.old).words }
    requires apart { Apart from width into (L.Lanes.depth * width) }
    ensures did { M.Memory.seen m.new ≡ accessed (M.Memory.seen m.old) (add_accesses from into width L.Lanes.depth) (over (M.Memory.seen m.old).words into (planes width (λ j. L.Lanes.add (lane (M.Memory.seen m.old).words into width L.Lanes.depth j) (row_at (M.Memory.seen m.old).words from j)) L.Lanes.depth)) }
{
    let _ = m.size();
    for w in 0..width {
        add_pack::<L, M>(m, from + w, into + w, width);
    }
}
