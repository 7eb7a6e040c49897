// Answers the oracle's cases: 16 bytes each from standard input, a line for each to standard output. oracle/README.md says what
// the bytes of a case mean. What it prints for the sample beside it is held to the Rust crate's own answers.
#![tactic(auto)]

mod methods;
mod modes;

use processor::Processor;
use psw::ProgramStatusWord;
use std::io;
use text::Line;
use waking::State;

fn main(rt: HostRuntime) -> io::Result<()> {
    let mut from = rt.stdin();
    let mut to = rt.stdout();
    let mut case = [0u8; 16];
    for _ in 0..u32::MAX {
        let got = output::read_full(&mut from, &mut case)?;
        if got < 16 {
            return Ok(());
        }
        output::print(&mut to, answer(case).push(b'\n'))?;
    }
    Ok(())
}

fn answer(case: [u8; 16]) -> Line {
    let line = Line::new();
    let kind = case[0];
    match kind {
        0 => status(line, case[1]),
        1 => registers(case).on_line(line),
        2 => modes::opcode(line, case[1]),
        3 => modes::format(line, case),
        4 => modes::instruction(line, [case[1], case[2], case[3]]),
        _ => methods::method(line, kind, registers(case), case[8], case[9]),
    }
}

fn status(line: Line, byte: u8) -> Line {
    let psw = ProgramStatusWord::from_byte(byte);
    psw.on_line(line.hex_byte(psw.to_byte()).push(b' '))
}

// A X Y SP PC-low PC-high PSW, in the bytes 1 to 7; awake.
fn registers(case: [u8; 16]) -> Processor {
    Processor {
        a: case[1],
        x: case[2],
        y: case[3],
        sp: case[4],
        pc: processor::word(case[5], case[6]),
        psw: ProgramStatusWord::from_byte(case[7]),
        state: State::Awake,
    }
}
