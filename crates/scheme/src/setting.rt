// Which numbers make a profile. A setting outside the ranges is refused, and leaves the profile that was there.
// The four numbers of a setting come apart and are judged apart: a struct for them would be made for one call and taken apart in it.

ghost use Rattle.std.specs.Prelude.{◌≡◌, ◌*◌, ◌≤◌, ◌&&◌, length, is_ok, if◌then◌else◌, nat_le};
ghost use Rattle.scheme.specs.Setting.{all_within, lawful, entries as padded_entries, numbers, chosen_numbers, first_numbers};

use crate::fault::ProfileFault;
use crate::profile::Profile;

impl Profile {
    // The profile that a place begins with.
    pub fn standard() -> Profile
        ensures { numbers result ≡ first_numbers }
    {
        Profile {
            r: 4801,
            d: 45,
            t: 84,
            k: 6,
            thresholds: [29, 27, 25, 24, 23, 23, 0, 0, 0, 0, 0, 0, 0, 0, 0, 0],
        }
    }

    // Takes the numbers where they are lawful.
    pub fn set(&mut self, r: u32, d: u32, t: u32, thresholds: &[u32]) -> Result<(), ProfileFault>
        ensures granted { is_ok result ≡ lawful r d t thresholds.now }
        ensures numbers { numbers self.new ≡ (if lawful r d t thresholds.now then chosen_numbers r d t thresholds.now else numbers self.old) }
    {
        if !is_lawful(r, d, t, thresholds) {
            return Err(ProfileFault::OutOfRange);
        }
        *self = Profile {
            r,
            d,
            t,
            k: thresholds.len() as u32,
            thresholds: entries(thresholds),
        };
        Ok(())
    }
}

// Whether r, d and t lie in their ranges.
fn in_range(r: u32, d: u32, t: u32) -> bool
    ensures { result ≡ (nat_le 3 r && nat_le r 16000 && nat_le 1 d && nat_le d 63 && nat_le d r && nat_le 1 t && nat_le t 255 && nat_le t (2 * r)) }
{
    matches!((r, d, t), (3..=16000, 1..=63, 1..=255)) && d <= r && t <= 2 * r
}

// Whether a profile may have these numbers.
fn is_lawful(r: u32, d: u32, t: u32, thresholds: &[u32]) -> bool
    ensures { result ≡ lawful r d t thresholds.now }
{
    in_range(r, d, t) && (1..=16).contains(&thresholds.len()) && within(thresholds, d)
}

// Whether every threshold is at least 1 and at most d.
fn within(thresholds: &[u32], d: u32) -> bool
    ensures { result ≡ all_within d thresholds.now }
{
    thresholds.iter().all(|x| (1..=d).contains(x))
}

// The thresholds, and 0 in the entries after them.
fn entries(thresholds: &[u32]) -> [u32; 16]
    requires { length thresholds.now ≤ 16 }
    ensures { result ≡ padded_entries thresholds.now }
{
    let mut all = [0; 16];
    all[..thresholds.len()].copy_from_slice(thresholds);
    all
}
