// The listing program's whole answer to an input.
ghost use Rattle.std.specs.Prelude.{◌≡◌, ◌≤◌, length, MatchOption};
ghost use Rattle.std.specs.Iterator.{YieldsFirstBy, item_count};
ghost use Rattle.laws.specs.Lent.{lent};
ghost use Rattle.text.specs.Given.{Gives, laid_into, says};
ghost use Rattle.text.specs.Line.{shown};
ghost use Rattle.listing.specs.Session.{lines_of, session_of};
ghost use Rattle.listing.specs.Turns.{Turned, left};

use crate::{length, on_line};
use refusals::Refusal;
use text::Line;

// The lines of code bytes that stand at an address: one for each instruction, or `refused 4` for all that is left where it is cut.
#[derive(Drop)]
struct Turns<'a> {
    code: &'a [u8],
    address: u16,
}

impl Iterator for Turns<'_> {
    type Item = Line;

    ghost next_gives = { YieldsFirstBy shown left };

    ghost remaining = { item_count left };

    fn next(&mut self) -> Option<Line> {
        let (line, bytes) = turn(self.code, self.address)?;
        self.code = &self.code[bytes..];
        self.address = self.address.wrapping_add(bytes as u16);
        Some(line)
    }
}

// The line of the instruction that the code starts with, or `refused 4` for all of the code where that is cut; and for how many bytes of
// the code it stands.
fn turn(code: &[u8], address: u16) -> Option<(Line, usize)>
    ensures { MatchOption result (length code.now ≡ 0) (λ turn. Turned code.now address turn.0 turn.1) }
{
    let [opcode, operands @ ..] = code else {
        return None;
    };
    let bytes = length(*opcode);
    if code.len() < bytes {
        return Some((Line::new().text(b"refused 4\n"), code.len()));
    }
    let start = Line::new().hex_word(address).push(b' ');
    Some((on_line(start, *opcode, operands).push(b'\n'), bytes))
}

// How many bytes the lines of the code have.
fn measure(code: &[u8], address: u16) -> usize
    requires { length code.now ≤ 4096 }
    ensures { result ≡ length (lines_of 0 address code.now) }
{
    let turns = Turns { code, address };
    turns.map(|line| line.shown().len()).sum()
}

// Writes the lines of the code into a buffer that has room for them.
fn write(code: &[u8], address: u16, out: &mut [u8])
    requires code_len_bound { length code.now ≤ 4096 }
    requires code_in_bounds { length (lines_of 0 address code.now) ≤ length out.old }
    ensures { out.new ≡ laid_into out.old (lines_of 0 address code.now) }
{
    let mut done = 0;
    for line in (Turns { code, address }) {
        done += line.give(&mut out[done..]).unwrap();
    }
}

// Gives what the listing program prints for an input into a lent buffer: the lines of its code, or `refused 6` where the input is
// not a start address and 0 to 4,096 code bytes. Refused where the buffer is too short for that.
pub fn session(input: &[u8], out: &mut [u8]) -> Result<usize, Refusal>
    ensures { Gives (says (session_of input.now)) (lent out) result }
{
    match input {
        [low, high, code @ ..] if code.len() <= 4096 => {
            let start = u16::from_le_bytes([*low, *high]);
            // all lines are measured before one is written, so that a refused call writes none
            let total = measure(code, start);
            if out.len() < total {
                return Err(Refusal::Room);
            }
            write(code, start, out);
            Ok(total)
        }
        _ => Line::new().text(b"refused 6\n").give(out),
    }
}
