// The script program: reads a script from standard input and prints a line for each of its lines.
// It only reads, calls and writes; what is printed comes from the session, whose contracts give every byte.

#![tactic(auto)]

use memory::scrambler::Scrambler;
use memory::tape::Tape;
use memory::window::Window;
use script::reply::Reply;
use script::session::Session;
use std::io;
use std::io::{Read, Write};

const SEED: u32 = 305_419_896;

const BASE: u32 = 64;

const LENGTH: u32 = 8128;

// What the box stands over.
type Layers = Window<Scrambler<Tape>>;

fn write(rt: &HostRuntime, reply: Option<Reply>) -> io::Result<()> {
    match reply {
        Some(reply) => rt.stdout().write_all(reply.as_bytes()),
        None => Ok(()),
    }
}

// Reads what has come of the input and answers the lines that it completes. How many bytes there were is answered; 0 is the end.
fn pass(rt: &HostRuntime, session: &mut Session<Layers>) -> io::Result<usize> {
    let mut chunk = [0; 4096];
    let count = rt.stdin().read(&mut chunk)?;
    for byte in &chunk[0..count] {
        write(rt, session.feed(*byte))?;
    }
    Ok(count)
}

fn main(rt: HostRuntime) -> io::Result<()> {
    let mut session = Session::new(Window::over(BASE, LENGTH, Scrambler::over(SEED, Tape::new())));
    // Nothing says that an input ends, so the turns are counted.
    for _ in 0..u64::MAX {
        if pass(&rt, &mut session)? == 0 {
            break;
        }
    }
    write(&rt, session.finish())
}
