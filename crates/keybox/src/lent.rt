// A box over a memory that its caller lends and knows afterwards: opened, driven and let go in one function.
// Each call waits for the grant of the one before it; the first refusal is the answer.
// The profile and the unit number go to `KeyBox::open` as they come, and nowhere else.

ghost use Rattle.std.specs.Prelude.{◌≡◌, take, drop, Ok};
ghost use Rattle.keybox.specs.declared.call.Grant.TheVariants.{Done};
ghost use Rattle.keybox.specs.declared.call.Call.TheVariants.{Seal};
ghost use Rattle.keybox.specs.Device.{done, rotation_count};
ghost use Rattle.keybox.specs.Lent.{driven, drive, newly_opened, lent_words, gives_from, given_calls, given_then, called_over, seal_calls};

use crate::call::{Answer, Call};
use crate::device::KeyBox;
use memory::Memory;
use memory::bare::Bare;
use scheme::fault::BoxFault;
use scheme::profile::Profile;

// The words that a load or a seal reads in IN: positions, and a row.
#[derive(Clone, Copy)]
pub struct Input<'a> {
    pub positions: &'a [u32],
    pub row: &'a [u32],
}

// Gives words to the places of IN from `at` on.
fn give_all<M: Memory>(keybox: &mut KeyBox<M>, at: u32, words: &[u32]) -> Result<(), BoxFault>
    ensures { driven M.Memory keybox.new (done result) ≡ drive (driven M.Memory keybox.old (Ok Done)) (gives_from at words.now) }
{
    for (i, word) in words.iter().enumerate() {
        keybox.give(at + i as u32, *word)?;
    }
    Ok(())
}

// Gives the positions to place 0 onward and the row to its place.
#[tactic(auto, using(crate::proofs::Driving::drive_joined, crate::proofs::Driving::drive_stopped))]
fn give_input<M: Memory>(keybox: &mut KeyBox<M>, input: &Input) -> Result<(), BoxFault>
    ensures { driven M.Memory keybox.new (done result) ≡ drive (driven M.Memory keybox.old (Ok Done)) (given_calls keybox.old.profile input.now) }
{
    let row_place = keybox.profile.row_place();
    give_all(keybox, 0, input.positions)?;
    give_all(keybox, row_place, input.row)
}

// Gives what a call reads, and makes the call.
#[tactic(auto, using(crate::proofs::Driving::drive_joined, crate::proofs::Driving::drive_stopped))]
fn give_and_call<M: Memory>(keybox: &mut KeyBox<M>, input: &Input, call: Call) -> Answer
    ensures { driven M.Memory keybox.new result ≡ drive (driven M.Memory keybox.old (Ok Done)) (given_then keybox.old.profile input.now call) }
{
    give_input(keybox, input)?;
    keybox.call(call)
}

// Gives what a seal reads, and seals.
#[tactic(auto, using(crate::proofs::Driving::drive_joined, crate::proofs::Driving::drive_stopped))]
fn give_and_seal<M: Memory>(keybox: &mut KeyBox<M>, input: &Input) -> Result<u32, BoxFault>
    ensures { driven M.Memory keybox.new (rotation_count result) ≡ drive (driven M.Memory keybox.old (Ok Done)) (given_then keybox.old.profile input.now Seal) }
{
    give_input(keybox, input)?;
    keybox.seal()
}

// Opens a box over a lent memory, gives it positions and a row, and makes a call: a load of a private key with its inverse, or a seal of error positions with a public row.
// The memory is back with its caller afterwards, with what the call left in OUT and in KEY.
pub fn call_over<M: Memory>(
    memory: &mut M,
    profile: Profile,
    unit: u32,
    input: &Input,
    call: Call,
) -> Answer
    ensures result { result ≡ (called_over profile unit (M.Memory.seen memory.old) input.now call).answer }
    ensures seen { M.Memory.seen memory.new ≡ (called_over profile unit (M.Memory.seen memory.old) input.now call).memory }
{
    let mut keybox = KeyBox::open(profile, unit, memory);
    give_and_call(&mut keybox, input, call)
}

// The same over lent words: of a longer list the first 65,536 are the memory, and the rest stays as it was.
pub fn call_words(
    words: &mut [u32],
    profile: Profile,
    unit: u32,
    input: &Input,
    call: Call,
) -> Answer
    ensures result { result ≡ (called_over profile unit (lent_words words.old) input.now call).answer }
    ensures front { take 65536 words.new ≡ (called_over profile unit (lent_words words.old) input.now call).memory.words }
    ensures rest { drop 65536 words.new ≡ drop 65536 words.old }
{
    let mut memory = Bare::over(words);
    call_over(&mut memory, profile, unit, input, call)
}

// Opens a box over a lent memory, gives it error positions and a public row, and seals: `call_over` at a seal, with the count of rotations alone where it is granted.
pub fn seal_over<M: Memory>(
    memory: &mut M,
    profile: Profile,
    unit: u32,
    positions: &[u32],
    row: &[u32],
) -> Result<u32, BoxFault>
    ensures result { rotation_count result ≡ (drive (newly_opened profile unit (M.Memory.seen memory.old)) (seal_calls profile positions.now row.now)).answer }
    ensures seen { M.Memory.seen memory.new ≡ (drive (newly_opened profile unit (M.Memory.seen memory.old)) (seal_calls profile positions.now row.now)).memory }
{
    let mut keybox = KeyBox::open(profile, unit, memory);
    give_and_seal(&mut keybox, &Input { positions, row })
}

// The same over lent words, as `call_words` has them.
pub fn seal_words(
    words: &mut [u32],
    profile: Profile,
    unit: u32,
    positions: &[u32],
    row: &[u32],
) -> Result<u32, BoxFault>
    ensures result { rotation_count result ≡ (drive (newly_opened profile unit (lent_words words.old)) (seal_calls profile positions.now row.now)).answer }
    ensures front { take 65536 words.new ≡ (drive (newly_opened profile unit (lent_words words.old)) (seal_calls profile positions.now row.now)).memory.words }
    ensures rest { drop 65536 words.new ≡ drop 65536 words.old }
{
    let mut memory = Bare::over(words);
    seal_over(&mut memory, profile, unit, positions, row)
}
