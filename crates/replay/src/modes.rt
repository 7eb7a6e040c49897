// Address modes by number, the two functions on them, and the text of an instruction.
use opcode_data::{AddressMode, Modes, OpcodeData};
use output::first;
use text::Line;

fn mode(kind: u8, number: u8) -> AddressMode {
    match kind {
        0 => AddressMode::A,
        1 => AddressMode::X,
        2 => AddressMode::XInc,
        3 => AddressMode::Y,
        4 => AddressMode::Ya,
        5 => AddressMode::Imm,
        6 => AddressMode::D,
        7 => AddressMode::Dx,
        8 => AddressMode::Dy,
        9 => AddressMode::Ix,
        10 => AddressMode::Iy,
        11 => AddressMode::Idx,
        12 => AddressMode::Idy,
        13 => AddressMode::Abs,
        14 => AddressMode::AbsX,
        15 => AddressMode::AbsY,
        16 => AddressMode::Iax,
        17 => AddressMode::Rel,
        18 => AddressMode::Mb,
        19 => AddressMode::Nmb,
        20 => AddressMode::C,
        21 => AddressMode::Sp,
        22 => AddressMode::Psw,
        _ => AddressMode::Encoded(number),
    }
}

// A mode's number and what it carries.
fn numbered(line: Line, mode: AddressMode) -> Line {
    match mode {
        AddressMode::A => kind(line, 0),
        AddressMode::X => kind(line, 1),
        AddressMode::XInc => kind(line, 2),
        AddressMode::Y => kind(line, 3),
        AddressMode::Ya => kind(line, 4),
        AddressMode::Imm => kind(line, 5),
        AddressMode::D => kind(line, 6),
        AddressMode::Dx => kind(line, 7),
        AddressMode::Dy => kind(line, 8),
        AddressMode::Ix => kind(line, 9),
        AddressMode::Iy => kind(line, 10),
        AddressMode::Idx => kind(line, 11),
        AddressMode::Idy => kind(line, 12),
        AddressMode::Abs => kind(line, 13),
        AddressMode::AbsX => kind(line, 14),
        AddressMode::AbsY => kind(line, 15),
        AddressMode::Iax => kind(line, 16),
        AddressMode::Rel => kind(line, 17),
        AddressMode::Mb => kind(line, 18),
        AddressMode::Nmb => kind(line, 19),
        AddressMode::C => kind(line, 20),
        AddressMode::Sp => kind(line, 21),
        AddressMode::Psw => kind(line, 22),
        AddressMode::Encoded(n) => line.push(b' ').hex_byte(23).hex_byte(n),
    }
}

fn kind(line: Line, number: u8) -> Line {
    line.push(b' ').hex_byte(number).hex_byte(0)
}

// The name, and the modes that count.
pub fn opcode(line: Line, byte: u8) -> Line {
    let data = OpcodeData::from_opcode(byte);
    let named = data
        .name
        .iter()
        .filter(|letter| **letter != b' ')
        .fold(line, |line, letter| line.push(*letter));
    data.modes
        .counted()
        .iter()
        .fold(named, |line, mode| numbered(line, *mode))
}

// The text of the modes of a case: a count, three modes with their numbers, and six operand bytes.
pub fn format(line: Line, case: [u8; 16]) -> Line {
    let modes = Modes {
        three: [
            mode(case[2], case[3]),
            mode(case[4], case[5]),
            mode(case[6], case[7]),
        ],
        count: case[1],
    };
    let bytes = [case[9], case[10], case[11], case[12], case[13], case[14]];
    let mut out = [0u8; 80];
    let length = opcode_data::format_address_modes(modes, &bytes, &mut out).unwrap_or(0);
    line.text(first(&out, length))
}

// The text of the instruction that three bytes start with.
pub fn instruction(line: Line, code: [u8; 3]) -> Line {
    let mut out = [0u8; 80];
    let length = listing::instruction(&code, &mut out).unwrap_or(0);
    line.text(first(&out, length))
}
