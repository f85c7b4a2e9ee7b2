// The box over lent words as C functions, so that its compiled code can be run and watched from outside.
// They add nothing to the box: the promise is that of `call_words`.

#![tactic(auto)]

use keybox::call::Call;
use keybox::lent::{Input, call_words};
use scheme::fault::{Fault, ProfileFault};
use scheme::profile::Profile;

// The profile r, d, t with one threshold.
fn profile(r: u32, d: u32, t: u32) -> Result<Profile, ProfileFault> {
    let mut profile = Profile::standard();
    profile.set(r, d, t, &[1])?;
    Ok(profile)
}

// Opens a box over `words`, gives it what the call reads, and makes the call.
// Answers 0 for a grant, else the number of the refusal: C has no `Result`.
fn verdict(
    words: &mut [u32],
    input: &Input,
    profile: Result<Profile, ProfileFault>,
    call: Call,
) -> u32 {
    match profile {
        Ok(profile) => match call_words(words, profile, 1, input, call) {
            Ok(_) => 0,
            Err(fault) => fault.number(),
        },
        Err(fault) => fault.number(),
    }
}

// Loads a private key: its positions, and the inverse.
#[unsafe(no_mangle)]
pub extern "C" fn loaded(
    words: &mut [u32],
    positions: &[u32],
    row: &[u32],
    r: u32,
    d: u32,
    t: u32,
) -> u32 {
    verdict(
        words,
        &Input { positions, row },
        profile(r, d, t),
        Call::Load,
    )
}

// Seals error positions under a public row.
#[unsafe(no_mangle)]
pub extern "C" fn sealed(
    words: &mut [u32],
    positions: &[u32],
    row: &[u32],
    r: u32,
    d: u32,
    t: u32,
) -> u32 {
    verdict(
        words,
        &Input { positions, row },
        profile(r, d, t),
        Call::Seal,
    )
}
