// What a line of a script can ask for: a box with a profile of its choice, or something of the box that is open.
// A line names no slip and no memory, so a command is plain numbers.

ghost use Rattle.std.specs.Prelude.{◌≡◌, ◌≤◌, length, take};

use arrayvec::ArrayVec;
use keybox::call::Call;

// The thresholds of a setting: the first `count` of the numbers. A line has room for no more than 59 numbers, which leaves 56 for thresholds.
// An array with a length, since a setting is copied and an `ArrayVec` is not.
#[derive(Clone, Copy)]
pub struct Thresholds {
    numbers: [u32; 56],
    count: usize,
    ghost room: { length numbers ≡ 56 },
    ghost within: { count ≤ 56 },
}

// The numbers of a profile as a line gives them.
#[derive(Clone, Copy)]
pub struct Setting {
    pub r: u32,
    pub d: u32,
    pub t: u32,
    pub thresholds: Thresholds,
}

// What an open box can be told: a call, or to hear.
#[derive(Clone, Copy)]
pub enum Order {
    Call(Call),
    Hear,
}

#[derive(Clone, Copy)]
pub enum Command {
    Set(Setting),
    Order(Order),
}

impl Thresholds {
    pub fn as_slice(&self) -> &[u32]
        ensures value { result.now ≡ take self.now.count self.now.numbers }
        ensures fits { length result.now ≤ 56 }
    {
        &self.numbers[..self.count]
    }
}

impl<'a> From<&'a ArrayVec<u32, 56>> for Thresholds {
    ghost from_gives = { λ v t. take t.count t.numbers ≡ v.now.items };

    fn from(all: &'a ArrayVec<u32, 56>) -> Thresholds {
        let mut numbers = [0; 56];
        numbers[..all.len()].copy_from_slice(all);
        Thresholds {
            numbers,
            count: all.len(),
        }
    }
}
