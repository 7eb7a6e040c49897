// The listing program: a start address, low byte first, and code bytes from standard input; their listing to standard output.
#![tactic(auto)]

use std::io::{self, Write};

fn main(rt: HostRuntime) -> io::Result<()> {
    // one byte more than the longest input, so that a longer one is seen
    let mut input = [0u8; 4099];
    let n = output::read_full(&mut rt.stdin(), &mut input)?;
    // 4,096 instructions of one byte, 18 bytes a line at most
    let mut out = [0u8; 73728];
    // a refused call writes nothing
    let length = listing::session(&input[..n], &mut out).unwrap_or(0);
    rt.stdout().write_all(&out[..length])
}
