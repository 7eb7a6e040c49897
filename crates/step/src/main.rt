// One step compared: the number of an edition and two state records from standard input; to standard output whether a step from the first
// leaves the second, or the offset of the first byte at which it does not.
#![tactic(auto)]

use std::io;

fn main(rt: HostRuntime) -> io::Result<()> {
    // one byte more than an input has, so that a longer one is seen
    let mut input = [0u8; 131088];
    let n = output::read_full(&mut rt.stdin(), &mut input)?;
    output::print(&mut rt.stdout(), stepper::session(&mut input[..n]))
}
