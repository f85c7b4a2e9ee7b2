// The key box: a device that keeps a private key, publishes its row, and seals error positions to a public syndrome, over any memory of words.
// Positions, rows and syndromes are secret; what the box does with its memory depends on public numbers and verdicts alone.

#![tactic(auto)]

pub mod call;
mod checks;
pub mod device;
pub mod examples;
pub mod lent;
pub mod load;
mod mark;
pub mod run;
pub mod seal;
pub mod wipe;
pub mod words;
mod work;
