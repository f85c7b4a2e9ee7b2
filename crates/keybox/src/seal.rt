// Seal: error positions and a public row become a public syndrome.
// The checks come first and read everything; what a seal that passed them does depends on the profile alone.

ghost use Rattle.std.specs.Prelude.{◌≡◌, None};
ghost use Rattle.memory.specs.Access.{accessed};
ghost use Rattle.keybox.specs.Model.{seal_input_fault, sealed_words, sealing};
ghost use Rattle.keybox.specs.Accesses.{seals, seal_check_accesses, sealed_accesses, seal_plan};
ghost use Rattle.keybox.specs.Device.{state, rotation_count, checked, input_verdict, Roomy, Does};

use crate::checks::{first_beyond, note_again, tail_set};
use crate::device::KeyBox;
use crate::mark::Mark;
use crate::work::{publish, rest, work_row};
use memory::Memory;
use rows::lanes::Parity;
use rows::masks::One;
use rows::plan::{Direction, Plan, Source};
use rows::sum::sum;
use scheme::fault::{BoxFault, InputFault};
use scheme::profile::Profile;

// Checks the t positions and the public row in IN.
pub(crate) fn check_errors<M: Memory>(m: &mut M, profile: &Profile) -> Result<(), InputFault>
    requires { Roomy profile.now (M.Memory.seen m.old).words }
    ensures value { result ≡ checked (seal_input_fault profile.now (M.Memory.seen m.old).words) }
    ensures did { M.Memory.seen m.new ≡ accessed (M.Memory.seen m.old) (seal_check_accesses profile.now (input_verdict result)) (M.Memory.seen m.old).words }
{
    let one = One::hidden(profile.r);
    if let Some(place) = first_beyond(m, profile.t, 2 * profile.r, one) {
        return Err(InputFault::ErrorRange(place));
    }
    let mut twice = Mark::none();
    note_again(m, 0, profile.t, &mut twice, one);
    if let Some(place) = twice.outcome() {
        return Err(InputFault::ErrorTwice(place));
    }
    if let Some(place) = tail_set(m, profile) {
        return Err(InputFault::PublicTail(place));
    }
    Ok(())
}

// How seal sums: for each position the row of bit 0 alone, in the first row of WORK, or the public row in IN, by its half.
fn seal_plan(profile: &Profile) -> Plan
    ensures { result ≡ seal_plan profile.now }
{
    Plan {
        r: profile.r,
        at: 0,
        count: profile.t,
        source: Source::Either(work_row(profile, 0), profile.row_place()),
        direction: Direction::Up,
        into: work_row(profile, 2),
        scratch: work_row(profile, 3),
    }
}

// The work of a seal whose checks passed: the syndrome is summed up in WORK and published. Answers the rotations made.
fn publish_syndrome<M: Memory>(m: &mut M, profile: &Profile) -> u32
    requires room { Roomy profile.now (M.Memory.seen m.old).words }
    requires passed { seal_input_fault profile.now (M.Memory.seen m.old).words ≡ None }
    ensures value { result ≡ profile.now.t }
    ensures did { M.Memory.seen m.new ≡ accessed (M.Memory.seen m.old) (sealed_accesses profile.now) (sealed_words profile.now (M.Memory.seen m.old).words) }
{
    rest(m, profile);
    m.put_within(work_row(profile, 0), 1);
    let count = sum::<Parity, M>(m, seal_plan(profile), 0);
    publish(m, profile, 2);
    rest(m, profile);
    count
}

impl<M: Memory> KeyBox<M> {
    pub fn seal(&mut self) -> Result<u32, BoxFault>
        ensures { Does M.Memory self.old self.new seals (rotation_count result) (sealing (state M.Memory self.old)) }
    {
        self.ready()?;
        check_errors(&mut self.memory, &self.profile)?;
        Ok(publish_syndrome(&mut self.memory, &self.profile))
    }
}
