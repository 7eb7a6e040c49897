// Listings: the text of one instruction, and of all the code bytes of an input.
#![tactic(auto)]

mod program;

ghost use Rattle.std.specs.Prelude.{◌≡◌, ◌+◌, ◌*◌, ◌≤◌, length};
ghost use Rattle.laws.specs.Lent.{lent};
ghost use Rattle.text.specs.Given.{Gives};
ghost use Rattle.text.specs.Line.{adds};
ghost use Rattle.listing.specs.Operands.{fills, filled, branches_on_direct_page};
ghost use Rattle.listing.specs.Instruction.{modes_at, length_of, letters, instruction_text, listed_of};

use opcode_data::{AddressMode, OpcodeData};
pub use program::session;
use refusals::Refusal;
use text::Line;

// How many bytes of its instruction a mode fills.
fn fills(mode: AddressMode) -> usize
    ensures { (result ≡ fills mode) × (result ≤ 2) }
{
    match mode {
        AddressMode::Mb | AddressMode::Nmb => 2,
        _ => mode.takes(),
    }
}

// How many bytes of their instruction the modes of a list fill.
fn filled(modes: &[AddressMode]) -> usize
    requires { length modes.now ≤ 3 }
    ensures { (result ≡ filled modes.now) × (result ≤ 2 * length modes.now) }
{
    modes.iter().map(|mode| fills(*mode)).sum()
}

// How many bytes the instruction of an opcode has, the opcode among them.
pub fn length(opcode: u8) -> usize
    ensures { result ≡ length_of opcode }
{
    1 + filled(OpcodeData::from_opcode(opcode).modes.counted())
}

// A line with a name behind it, less the blanks that fill it up.
fn name_on_line(line: Line, name: [u8; 5]) -> Line
    ensures { result ≡ adds line (letters name) }
{
    name.iter()
        .filter(|letter| **letter != b' ')
        .fold(line, |line, letter| line.push(*letter))
}

// Whether a direct page byte and a displacement stand behind an opcode: that of CBNE, of DBNZ on the direct page, of BBS or of BBC.
// The opcodes of the last two are all that end in 3.
fn branches_on_direct_page(opcode: u8) -> bool
    ensures { result ≡ branches_on_direct_page (modes_at opcode) }
{
    match opcode {
        opcodes::CBNE_D_R | opcodes::CBNE_DX_R | opcodes::DBNZ_D_R => true,
        _ => opcode % 16 == opcodes::BBS_D_R_MASK,
    }
}

// A line with an instruction behind it: its name and its operands.
fn on_line(line: Line, opcode: u8, operands: &[u8]) -> Line
    requires { length_of opcode ≤ length operands.now + 1 }
    ensures { result ≡ adds line (instruction_text opcode operands.now) }
{
    let data = OpcodeData::from_opcode(opcode);
    let named = name_on_line(line, data.name);
    if data.modes.count == 0 {
        return named;
    }
    let start = named.push(b' ');
    if branches_on_direct_page(opcode) {
        let direct = operands[0];
        let displacement = operands[1];
        // a list is handed its bytes from the last mode to the first
        return data.modes.on_line(start, &[displacement, direct]);
    }
    data.modes.on_line(start, operands)
}

// Gives one instruction's text, from its bytes, into a lent buffer. Refused are, in this order, fewer bytes than the instruction has and
// a buffer that is too short.
pub fn instruction(code: &[u8], buffer: &mut [u8]) -> Result<usize, Refusal>
    ensures { Gives (listed_of code.now) (lent buffer) result }
{
    let [opcode, operands @ ..] = code else {
        return Err(Refusal::Operands);
    };
    if code.len() < length(*opcode) {
        return Err(Refusal::Operands);
    }
    on_line(Line::new(), *opcode, operands).give(buffer)
}
