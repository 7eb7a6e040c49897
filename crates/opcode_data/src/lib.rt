// What each opcode is called and which operands it has, and the text of a list of operands.
#![tactic(auto)]

mod format;
mod grid;

ghost use Rattle.std.specs.Prelude.{◌≡◌};
ghost use Rattle.opcode_data.specs.Data.{data_of};

pub use format::format_address_modes;

// Where an operand is found.
#[derive(Clone, Copy, Debug, PartialEq, Eq)]
pub enum AddressMode {
    A,
    X,
    XInc,
    Y,
    Ya,
    Imm,
    D,
    Dx,
    Dy,
    Ix,
    Iy,
    Idx,
    Idy,
    Abs,
    AbsX,
    AbsY,
    Iax,
    Rel,
    Mb,
    Nmb,
    C,
    Sp,
    Psw,
    // a bit or a number that stands in the opcode itself
    Encoded(u8),
}

// Up to three operands: the first so many of the three modes count. A caller may hand in any count, and one above three is refused.
#[derive(Clone, Copy)]
pub struct Modes {
    pub three: [AddressMode; 3],
    pub count: u8,
}

#[derive(Clone, Copy)]
pub struct OpcodeData {
    // five bytes, with blanks behind a shorter name
    pub name: [u8; 5],
    pub modes: Modes,
}

impl OpcodeData {
    // The name and the operand modes of an opcode.
    pub fn from_opcode(opcode: u8) -> OpcodeData
        ensures { result ≡ data_of opcode }
    {
        let cell = &grid::CELLS[opcode as usize * 10..];
        OpcodeData {
            name: [cell[0], cell[1], cell[2], cell[3], cell[4]],
            modes: grid::operands([cell[6], cell[7], cell[8]], opcode),
        }
    }
}
