// Rows of bits that lie in a memory: rotated, and added lane by lane, without a branch or an address that depends on them.
// What rows are as mathematics stands in `ring`; everything above speaks of them by their bits.
// A function that adds to a place asks the memory its size first, which is at most 65,536, so that no sum wraps; nothing is done with the answer.
// What goes over words is `inline(always)`: at its caller the compiler sees how the memory is lent, and reads the address of lent words once and not at each word.

#![tactic(auto)]

mod add;
pub mod fill;
pub mod lanes;
pub mod masks;
pub mod plan;
pub mod position;
pub mod ring;
pub mod rotate;
pub mod row;
pub mod sum;
