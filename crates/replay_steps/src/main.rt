// Answers the oracle's cases of steps: 64 bytes each from standard input, a line for each to standard output. oracle/README.md says
// what the bytes of a case and the columns of an answer mean. What it prints for the sample beside it is held to the Rust crate's own
// answers and to the definition's list of accesses.
#![tactic(auto)]

mod asked;
mod case;
mod report;

use case::Case;
use memory::Bus;
use std::io::{self, Read, Write};

// Lends memory and maps to the session.
fn main(rt: HostRuntime) -> io::Result<()> {
    let mut memory = [0u8; 65536];
    let mut reads = [0u8; 8192];
    let mut writes = [0u8; 8192];
    let mut bus = Bus {
        memory: &mut memory,
        reads: &mut reads,
        writes: &mut writes,
    };
    session(&mut rt.stdin(), &mut rt.stdout(), &mut bus)
}

// Answers cases until the input ends. Before each case, and again after it, memory holds the background and both maps are clear.
fn session<R: Read, W: Write>(from: &mut R, to: &mut W, bus: &mut Bus) -> io::Result<()> {
    let mut given = [0u8; 64];
    case::fill(bus.memory);
    for _ in 0..u32::MAX {
        let got = output::read_full(from, &mut given)?;
        if got < 64 {
            return Ok(());
        }
        one(to, bus, &given)?;
    }
    Ok(())
}

// One case: its bytes are put into memory, what it asks is done, and the answer is printed.
fn one<W: Write>(to: &mut W, bus: &mut Bus, given: &Case) -> io::Result<()> {
    case::poke(bus.memory, given);
    let answer = asked::ask(bus, given);
    let printed = output::print(to, report::line(answer, bus));
    case::unpoke(bus.memory, given);
    printed
}
