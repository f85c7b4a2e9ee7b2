// Load: a private key is checked, kept and published.
// The checks read everything before they refuse; both products are made in every load that passes them, and one branch at the end decides.

ghost use Rattle.std.specs.Prelude.{◌≡◌, ◌*◌, ◌<◌, None};
ghost use Rattle.memory.specs.Access.{accessed};
ghost use Rattle.rows.specs.Fill.{part};
ghost use Rattle.scheme.specs.Zones.{W, B, work_row};
ghost use Rattle.scheme.specs.declared.fault.InputFault.TheVariants.{NotInverse};
ghost use Rattle.keybox.specs.Model.{load_input_fault, loading, rested};
ghost use Rattle.keybox.specs.Making.{products_made, is_unit, key_kept};
ghost use Rattle.keybox.specs.Loading.{LoadInverts};
ghost use Rattle.keybox.specs.Accesses.{loads, rest_accesses, load_check_accesses, load_plan, products_accesses, read_accesses, loaded_accesses};
ghost use Rattle.keybox.specs.Device.{state, rotation_count, checked, input_verdict, Roomy, Does};

use crate::checks::{first_beyond, note_again, tail_set};
use crate::device::KeyBox;
use crate::mark::Mark;
use crate::work::{publish, rest, work_row};
use memory::Memory;
use rows::fill::copy;
use rows::lanes::Parity;
use rows::masks::One;
use rows::plan::{Direction, Plan, Source};
use rows::sum::sum;
use scheme::fault::{BoxFault, InputFault};
use scheme::profile::Profile;

// Checks the positions of both halves and the row in IN, word by word. Both halves are looked through before one branch refuses either.
pub(crate) fn check_key<M: Memory>(m: &mut M, profile: &Profile) -> Result<(), InputFault>
    requires { Roomy profile.now (M.Memory.seen m.old).words }
    ensures value { result ≡ checked (load_input_fault profile.now (M.Memory.seen m.old).words) }
    ensures did { M.Memory.seen m.new ≡ accessed (M.Memory.seen m.old) (load_check_accesses profile.now (input_verdict result)) (M.Memory.seen m.old).words }
{
    let one = One::hidden(profile.r);
    let d = profile.d;
    if let Some(place) = first_beyond(m, 2 * d, profile.r, one) {
        return Err(InputFault::PositionRange(place));
    }
    let mut twice = Mark::none();
    note_again(m, 0, d, &mut twice, one);
    note_again(m, d, d, &mut twice, one);
    if let Some(place) = twice.outcome() {
        return Err(InputFault::PositionTwice(place));
    }
    if let Some(place) = tail_set(m, profile) {
        return Err(InputFault::InverseTail(place));
    }
    Ok(())
}

// How load makes a product: of the d positions at a place of IN and the row there, into row i of WORK.
fn load_plan(profile: &Profile, at: u32, i: u32) -> Plan
    requires { i < 12 }
    ensures { result ≡ load_plan profile.now at i }
{
    Plan {
        r: profile.r,
        at,
        count: profile.d,
        source: Source::One(profile.row_place()),
        direction: Direction::Up,
        into: work_row(profile, i),
        scratch: work_row(profile, 3),
    }
}

// Makes h0·f and h1·f in the first two rows of WORK. Answers the rotations made.
fn make_products<M: Memory>(m: &mut M, profile: &Profile) -> u32
    requires room { Roomy profile.now (M.Memory.seen m.old).words }
    requires passed { load_input_fault profile.now (M.Memory.seen m.old).words ≡ None }
    ensures value { result ≡ 2 * profile.now.d }
    ensures did { M.Memory.seen m.new ≡ accessed (M.Memory.seen m.old) (products_accesses profile.now) (products_made profile.now (M.Memory.seen m.old).words) }
{
    rest(m, profile);
    let count = sum::<Parity, M>(m, load_plan(profile, 0, 0), 0);
    sum::<Parity, M>(m, load_plan(profile, profile.d, 1), count)
}

// Whether the first row of WORK has bit 0 alone. Every word is read, and the differences are gathered, so that only the outcome shows.
fn is_unit<M: Memory>(m: &mut M, profile: &Profile) -> bool
    requires { Roomy profile.now (M.Memory.seen m.old).words }
    ensures value { result ≡ is_unit (part (M.Memory.seen m.old).words (work_row profile.now 0) (W profile.now)) }
    ensures did { M.Memory.seen m.new ≡ accessed (M.Memory.seen m.old) (read_accesses (work_row profile.now 0) (W profile.now)) (M.Memory.seen m.old).words }
{
    let at = work_row(profile, 0);
    let width = profile.width();
    let mut differences = 0;
    let mut wanted = 1;
    for w in 0..width {
        let word = m.get_within(at + w);
        differences |= word ^ wanted;
        wanted = 0;
    }
    One::hidden(profile.r).equal(differences, 0).reveal()
}

// Copies the positions to KEY and publishes the second row of WORK.
fn keep_key<M: Memory>(m: &mut M, profile: &Profile)
    requires { Roomy profile.now (M.Memory.seen m.old).words }
    ensures { M.Memory.seen m.new ≡ accessed (M.Memory.seen m.old) (loaded_accesses profile.now) (key_kept profile.now (M.Memory.seen m.old).words) }
{
    copy(m, 0, profile.key_at(), 2 * profile.d);
    publish(m, profile, 1);
    rest(m, profile);
}

// Gives a load up whose first product is not 1: nothing of it stays in WORK.
fn no_inverse<M: Memory>(memory: &mut M, profile: &Profile) -> InputFault
    requires { Roomy profile.now (M.Memory.seen memory.old).words }
    ensures value { result ≡ NotInverse (B profile.now) }
    ensures did { M.Memory.seen memory.new ≡ accessed (M.Memory.seen memory.old) (rest_accesses profile.now) (rested profile.now (M.Memory.seen memory.old).words) }
{
    rest(memory, profile);
    InputFault::NotInverse(profile.row_place())
}

// What a granted load has found out: f is the inverse of the first half, and the public row takes the first half to the second.
pub fn load_inverts()
    ensures { LoadInverts }
{}

impl<M: Memory> KeyBox<M> {
    pub fn load(&mut self) -> Result<u32, BoxFault>
        ensures { Does M.Memory self.old self.new loads (rotation_count result) (loading (state M.Memory self.old)) }
    {
        self.ready()?;
        check_key(&mut self.memory, &self.profile)?;
        let count = make_products(&mut self.memory, &self.profile);
        if is_unit(&mut self.memory, &self.profile) {
            keep_key(&mut self.memory, &self.profile);
            self.loaded = true;
            Ok(count)
        } else {
            Err(BoxFault::Input(no_inverse(&mut self.memory, &self.profile)))
        }
    }
}
