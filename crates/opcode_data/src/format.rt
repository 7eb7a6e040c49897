// The text of a list of operands.
ghost use Rattle.std.specs.Prelude.{◌*◌, ◌≤◌, ◌≡◌, length};
ghost use Rattle.laws.specs.Lent.{lent};
ghost use Rattle.text.specs.Given.{Gives};
ghost use Rattle.text.specs.Line.{adds};
ghost use Rattle.opcode_data.specs.Lists.{list_of};
ghost use Rattle.opcode_data.specs.Format.{takes, taken, mode_text, text_at, modes_text, format_of};

use crate::{AddressMode, Modes};
use refusals::Refusal;
use text::Line;

impl AddressMode {
    // How many operand bytes the text of this mode takes.
    pub fn takes(self) -> usize
        ensures { (result ≡ takes self) × (result ≤ 2) }
    {
        match self {
            AddressMode::Imm
            | AddressMode::D
            | AddressMode::Dx
            | AddressMode::Dy
            | AddressMode::Idx
            | AddressMode::Idy
            | AddressMode::Rel => 1,
            AddressMode::Abs | AddressMode::AbsX | AddressMode::AbsY | AddressMode::Iax => 2,
            _ => 0,
        }
    }

    // A line with this mode behind it, with the byte or the two bytes that it takes.
    #[tactic(auto, unfolding(text::specs::Line::adds))]
    fn on_line(self, line: Line, low: u8, high: u8) -> Line
        ensures { result ≡ adds line (mode_text self low high) }
    {
        match self {
            AddressMode::A => line.push(b'A'),
            AddressMode::X => line.push(b'X'),
            AddressMode::XInc => line.text(b"XINC"),
            AddressMode::Y => line.push(b'Y'),
            AddressMode::Ya => line.text(b"YA"),
            AddressMode::Imm => line.text(b"#$").hex_byte(low),
            AddressMode::D => line.push(b'$').hex_byte(low),
            AddressMode::Dx => line.push(b'$').hex_byte(low).text(b", X"),
            AddressMode::Dy => line.push(b'$').hex_byte(low).text(b", Y"),
            AddressMode::Ix => line.text(b"(X)"),
            AddressMode::Iy => line.text(b"(Y)"),
            AddressMode::Idx => line.text(b"([$").hex_byte(low).text(b" + X])"),
            AddressMode::Idy => line.text(b"([$").hex_byte(low).text(b"] + Y)"),
            AddressMode::Abs => line.push(b'$').hex_word(u16::from_le_bytes([low, high])),
            AddressMode::AbsX => line
                .push(b'$')
                .hex_word(u16::from_le_bytes([low, high]))
                .text(b", X"),
            AddressMode::AbsY => line
                .push(b'$')
                .hex_word(u16::from_le_bytes([low, high]))
                .text(b", Y"),
            AddressMode::Iax => line
                .text(b"[$")
                .hex_word(u16::from_le_bytes([low, high]))
                .push(b']'),
            AddressMode::Rel => line.signed(signed::displacement(low)),
            AddressMode::Mb => line.text(b"Mb"),
            AddressMode::Nmb => line.text(b"Nmb"),
            AddressMode::C => line.push(b'C'),
            AddressMode::Sp => line.text(b"SP"),
            AddressMode::Psw => line.text(b"PSW"),
            AddressMode::Encoded(n) => line.text(b"bit").hex_short(n),
        }
    }
}

impl Modes {
    // The modes that count.
    pub fn counted(&self) -> &[AddressMode]
        ensures { result.now ≡ list_of self.now }
    {
        &self.three[..usize::from(self.count.min(3))]
    }

    // How many operand bytes the modes that count take.
    pub fn taken(self) -> usize
        ensures { (result ≡ taken (list_of self)) × (result ≤ 6) }
    {
        taken(self.counted())
    }

    // A line with the modes that count behind it.
    pub fn on_line(self, line: Line, values: &[u8]) -> Line
        ensures { result ≡ adds line (modes_text (list_of self) values.now) }
    {
        listed(self.counted(), line, values)
    }
}

// How many operand bytes the modes of a list take.
fn taken(modes: &[AddressMode]) -> usize
    requires { length modes.now ≤ 3 }
    ensures { (result ≡ taken modes.now) × (result ≤ 2 * length modes.now) }
{
    modes.iter().map(|mode| mode.takes()).sum()
}

// A line with the modes of a list behind it. Bytes go from the last mode to the first.
fn listed(modes: &[AddressMode], line: Line, values: &[u8]) -> Line
    requires { length modes.now ≤ 3 }
    ensures { result ≡ adds line (modes_text modes.now values.now) }
{
    match modes {
        [] => line,
        [last] => operand(*last, line, values, 0),
        [first, rest @ ..] => {
            let next = operand(*first, line, values, taken(rest)).text(b", ");
            listed(rest, next, values)
        }
    }
}

// A line with a mode behind it, whose operand bytes stand at a place of `values`; past their end a byte is 0.
fn operand(mode: AddressMode, line: Line, values: &[u8], at: usize) -> Line
    requires { at ≤ 4 }
    ensures { result ≡ adds line (text_at mode values.now at) }
{
    let low = values.get(at).copied().unwrap_or(0);
    let high = values.get(at + 1).copied().unwrap_or(0);
    mode.on_line(line, low, high)
}

// Gives the text of a list of modes with their operand bytes into a lent buffer. Refused are, in this order, a count above 3, too few
// operand bytes and a buffer that is too short.
pub fn format_address_modes(
    modes: Modes,
    values: &[u8],
    buffer: &mut [u8],
) -> Result<usize, Refusal>
    ensures { Gives (format_of modes values.now) (lent buffer) result }
{
    if modes.count > 3 {
        return Err(Refusal::Count);
    }
    if values.len() < modes.taken() {
        return Err(Refusal::Operands);
    }
    modes.on_line(Line::new(), values).give(buffer)
}
