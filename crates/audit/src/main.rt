// Parts of runs: packets from standard input, one after the other, each answered on standard output. A packet that is refused is answered by a
// line, as `refused 6`, and ends the program.
#![tactic(auto)]

use std::io::{self, Write};
use text::Line;

fn main(rt: HostRuntime) -> io::Result<()> {
    let mut from = rt.stdin();
    let mut to = rt.stdout();
    let mut packet = [0u8; 155712];
    for _ in 0..u32::MAX {
        let n = output::read_full(&mut from, &mut packet)?;
        if n == 0 {
            return Ok(());
        }
        if let Err(refusal) = auditor::session(&mut packet[..n]) {
            return output::print(
                &mut to,
                Line::new()
                    .text(b"refused ")
                    .decimal(u8::from(refusal) as u32)
                    .text(b"\n"),
            );
        }
        to.write_all(&packet[..n])?;
    }
    Ok(())
}
