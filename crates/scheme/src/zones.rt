// Where the zones of a box lie, by its profile: IN, KEY, OUT and WORK, one after the other from address 0.
// A profile's ranges bound them, so no sum here can pass 2^32.
// Nine methods and no struct of zones: callers want one number at a time, and a struct's fields would repeat each sum and each bound.

ghost use Rattle.std.specs.Prelude.{◌≡◌, ◌≤◌};
ghost use Rattle.scheme.specs.Zones.{W, B, in_size, key_at, out_at, out_size, work_at, work_size, N};

use crate::profile::Profile;
use rows::row::width;

impl Profile {
    // How many words a row takes.
    pub fn width(&self) -> u32
        ensures value { result ≡ W self.now }
        ensures bound { (1 ≤ result) × (result ≤ 500) }
    {
        width(self.r)
    }

    // The place of IN where a row is read.
    pub fn row_place(&self) -> u32
        ensures value { result ≡ B self.now }
        ensures bound { result ≤ 255 }
    {
        (2 * self.d).max(self.t)
    }

    pub fn in_size(&self) -> u32
        ensures value { result ≡ in_size self.now }
        ensures bound { result ≤ 755 }
    {
        self.row_place() + self.width()
    }

    pub fn key_at(&self) -> u32
        ensures value { result ≡ key_at self.now }
        ensures bound { result ≤ 755 }
    {
        self.in_size()
    }

    pub fn out_at(&self) -> u32
        ensures value { result ≡ out_at self.now }
        ensures bound { result ≤ 881 }
    {
        self.key_at() + 2 * self.d
    }

    pub fn out_size(&self) -> u32
        ensures value { result ≡ out_size self.now }
        ensures bound { result ≤ 1000 }
    {
        2 * self.width()
    }

    pub fn work_at(&self) -> u32
        ensures value { result ≡ work_at self.now }
        ensures bound { result ≤ 1881 }
    {
        self.out_at() + self.out_size()
    }

    pub fn work_size(&self) -> u32
        ensures value { result ≡ work_size self.now }
        ensures bound { result ≤ 6000 }
    {
        12 * self.width()
    }

    // How many words the zones have together.
    pub fn size(&self) -> u32
        ensures value { result ≡ N self.now }
        ensures bound { result ≤ 7881 }
    {
        self.work_at() + self.work_size()
    }
}
