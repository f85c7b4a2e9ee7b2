// What calls do with WORK and OUT: they leave WORK zero, and publish a row that they made there.
// Each takes the memory and the profile apart and asks that the zones fit. A type that held both would have to say of every call that the profile stays.

ghost use Rattle.std.specs.Prelude.{◌≡◌, ◌<◌, ◌≤◌};
ghost use Rattle.memory.specs.Access.{accessed};
ghost use Rattle.rows.specs.Fill.{part};
ghost use Rattle.scheme.specs.Zones.{W, work_row};
ghost use Rattle.keybox.specs.Model.{rested, published};
ghost use Rattle.keybox.specs.Accesses.{rest_accesses, publish_accesses};
ghost use Rattle.keybox.specs.Device.{Roomy};

use memory::Memory;
use rows::fill::{copy, zero};
use scheme::profile::Profile;

// Where row i of WORK lies.
pub(crate) fn work_row(profile: &Profile, i: u32) -> u32
    requires { i < 12 }
    ensures value { result ≡ work_row profile.now i }
    ensures bound { result ≤ 7881 }
{
    profile.work_at() + i * profile.width()
}

// Zeroes WORK.
pub(crate) fn rest<M: Memory>(m: &mut M, profile: &Profile)
    requires { Roomy profile.now (M.Memory.seen m.old).words }
    ensures { M.Memory.seen m.new ≡ accessed (M.Memory.seen m.old) (rest_accesses profile.now) (rested profile.now (M.Memory.seen m.old).words) }
{
    zero(m, profile.work_at(), profile.work_size());
}

// Copies row i of WORK to OUT, and zeroes the rest of OUT and IN.
pub(crate) fn publish<M: Memory>(m: &mut M, profile: &Profile, i: u32)
    requires room { Roomy profile.now (M.Memory.seen m.old).words }
    requires row { i < 12 }
    ensures { M.Memory.seen m.new ≡ accessed (M.Memory.seen m.old) (publish_accesses profile.now i) (published profile.now (part (M.Memory.seen m.old).words (work_row profile.now i) (W profile.now)) (M.Memory.seen m.old).words) }
{
    let out = profile.out_at();
    let width = profile.width();
    copy(m, work_row(profile, i), out, width);
    zero(m, out + width, width);
    zero(m, 0, profile.in_size());
}
