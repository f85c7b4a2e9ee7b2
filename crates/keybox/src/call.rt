// The calls of a box and their answers as values, so that a list of calls can be worked off.
use scheme::fault::BoxFault;

#[derive(Clone, Copy)]
pub enum Call {
    Give(u32, u32),
    Take(u32),
    Load,
    Seal,
    Wipe,
}

// What a granted call gives back: nothing, a word, or how many rotations were made.
#[derive(Clone, Copy, Debug, PartialEq, Eq)]
pub enum Grant {
    Done,
    Word(u32),
    Rotations(u32),
}

pub type Answer = Result<Grant, BoxFault>;
