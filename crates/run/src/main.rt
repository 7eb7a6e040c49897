// The runner: the number of an edition, a budget of four bytes, low first, and a state record from standard input; the report of the run to
// standard output.
#![tactic(auto)]

use std::io;

fn main(rt: HostRuntime) -> io::Result<()> {
    // one byte more than an input has, so that a longer one is seen
    let mut input = [0u8; 65549];
    let n = output::read_full(&mut rt.stdin(), &mut input)?;
    let report = runner::session(&mut input[..n]);
    let mut out = rt.stdout();
    output::print(&mut out, report.opening)?;
    output::print(&mut out, report.closing)
}
