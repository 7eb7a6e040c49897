// The two lines of the report.
#![tactic(auto, using(text::proofs::Laws::adds_append))]

ghost use Rattle.std.specs.Prelude.{◌≡◌};
ghost use Rattle.text.specs.Line.{blank, adds};
ghost use Rattle.runner.specs.Session.{opening_of, marks_text, closing_text};

use engine::Ran;
use psw::ProgramStatusWord;
use text::Line;

// The stop, the steps and the registers.
pub fn opening(ran: &Ran) -> Line
    ensures { result ≡ adds blank (opening_of ran.now) }
{
    let stop = u8::from(ran.cpu.state);
    let line = Line::new()
        .text(b"stop ")
        .decimal(stop as u32)
        .text(b"\nsteps ")
        .decimal(ran.steps)
        .text(b"\n");
    ran.cpu.registers_on_line(line).text(b"\n")
}

// How many addresses were read, how many written, and how many of these are both.
fn marks_on_line(line: Line, read: u32, written: u32, both: u32) -> Line
    ensures { result ≡ adds line (marks_text read written both) }
{
    line.text(b"read ")
        .decimal(read)
        .text(b" written ")
        .decimal(written)
        .text(b" both ")
        .decimal(both)
        .text(b"\n")
}

// The flags and the marks.
pub fn closing(psw: ProgramStatusWord, read: u32, written: u32, both: u32) -> Line
    ensures { result ≡ adds blank (closing_text psw read written both) }
{
    let line = psw.on_line(Line::new()).text(b"\n");
    marks_on_line(line, read, written, both)
}
