// Scripts for a key box: what each line does, what it is told, and the session that works a script off as it comes.
// Everything that is printed is given by contracts; a program only reads, calls and writes.

#![tactic(auto)]

pub mod desk;
pub mod examples;
pub mod fault;
pub mod grant;
pub mod print;
pub mod reply;
pub mod session;
