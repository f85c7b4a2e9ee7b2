// The lines of a script: the input taken apart into lines, and a line into what it asks for.
// What is asked for is done elsewhere: nothing here has a box.

#![tactic(auto)]

mod chosen;
pub mod command;
pub mod digits;
pub mod line;
pub mod parse;
mod parts;
mod split;
pub mod splitter;
