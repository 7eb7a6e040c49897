// The columns of the table whose rows do not all read alike. A column is the opcode's low five bits.
ghost use Rattle.std.specs.Prelude.{◌≡◌};
ghost use Rattle.std.specs.Int.Bits.{bit_and};
ghost use Rattle.gather.specs.Columns.{RowPerforms};

use crate::{bytes, places, several, ways};
use instructions::Operands;
use memory::Reading;
use processor::Processor;

// d,d; in the last two rows MOV !a,X and MOV X,!a.
pub fn column_09(cpu: Processor, bus: &mut Reading, op: u8) -> Operands
    requires { bit_and op 0x1F ≡ 0x09 }
    ensures { RowPerforms op cpu bus.old bus.new result }
{
    if op < 0xC0 {
        return several::direct_direct(cpu, bus);
    }
    places::place(modes::abs(cpu, bus), bus, op)
}

// Immediates; pushes and moves between registers, which read nothing.
pub fn column_0d(cpu: Processor, bus: &mut Reading, op: u8) -> Operands
    requires { bit_and op 0x1F ≡ 0x0D }
    ensures { RowPerforms op cpu bus.old bus.new result }
{
    match op {
        opcodes::MOV_Y_IMM | opcodes::CMP_Y_IMM | opcodes::MOV_X_IMM => bytes::byte_only(
            modes::fetch_u8(cpu, bus),
        ),
        _ => bytes::implied(cpu),
    }
}

// TSET1 and TCLR1; CBNE and DBNZ; pops.
pub fn column_0e(cpu: Processor, bus: &mut Reading, op: u8) -> Operands
    requires { bit_and op 0x1F ≡ 0x0E }
    ensures { RowPerforms op cpu bus.old bus.new result }
{
    match op {
        opcodes::TSET1_ABS | opcodes::TCLR1_ABS => places::load(modes::abs(cpu, bus), bus),
        opcodes::CBNE_D_R | opcodes::DBNZ_D_R => places::load(modes::d(cpu, bus), bus),
        _ => bytes::byte_only(modes::pull_from_stack_u8(cpu, bus)),
    }
}

// BRK, PCALL and RET; MOV d,#i and MOV (X)+,A; the rest reads nothing.
pub fn column_0f(cpu: Processor, bus: &mut Reading, op: u8) -> Operands
    requires { bit_and op 0x1F ≡ 0x0F }
    ensures { RowPerforms op cpu bus.old bus.new result }
{
    match op {
        opcodes::BRK => ways::vector_at(cpu, bus, 0xFFDE),
        opcodes::PCALL => ways::upper_page(cpu, bus),
        opcodes::RET => places::aim(modes::pull_from_stack_u16(cpu, bus)),
        opcodes::MOV_D_IMM => several::immediate_to_direct(cpu, bus),
        opcodes::MOV_XINC_A => places::aim(modes::ix(cpu)),
        _ => bytes::implied(cpu),
    }
}

// d,#i; in the last two rows MOV d,X and MOV X,d.
pub fn column_18(cpu: Processor, bus: &mut Reading, op: u8) -> Operands
    requires { bit_and op 0x1F ≡ 0x18 }
    ensures { RowPerforms op cpu bus.old bus.new result }
{
    if op < 0xC0 {
        return several::direct_immediate(cpu, bus);
    }
    places::place(modes::d(cpu, bus), bus, op)
}

// (X),(Y); in the last two rows MOV d+Y,X and MOV X,d+Y.
pub fn column_19(cpu: Processor, bus: &mut Reading, op: u8) -> Operands
    requires { bit_and op 0x1F ≡ 0x19 }
    ensures { RowPerforms op cpu bus.old bus.new result }
{
    if op < 0xC0 {
        return several::at_x_at_y(cpu, bus);
    }
    places::place(modes::dy(cpu, bus), bus, op)
}

// Words of the direct page; MOV d,d.
pub fn column_1a(cpu: Processor, bus: &mut Reading, op: u8) -> Operands
    requires { bit_and op 0x1F ≡ 0x1A }
    ensures { RowPerforms op cpu bus.old bus.new result }
{
    match op {
        opcodes::MOVW_D_YA => several::to_direct_word(cpu, bus),
        opcodes::MOV_D_D => several::direct_to_direct(cpu, bus),
        _ => several::direct_word(cpu, bus),
    }
}

// CMP of X and Y; CBNE d+X; the rest reads nothing.
pub fn column_1e(cpu: Processor, bus: &mut Reading, op: u8) -> Operands
    requires { bit_and op 0x1F ≡ 0x1E }
    ensures { RowPerforms op cpu bus.old bus.new result }
{
    match op {
        opcodes::CMP_X_ABS | opcodes::CMP_Y_ABS => places::load(modes::abs(cpu, bus), bus),
        opcodes::CMP_X_D | opcodes::CMP_Y_D => places::load(modes::d(cpu, bus), bus),
        opcodes::CBNE_DX_R => places::load(modes::dx(cpu, bus), bus),
        _ => bytes::implied(cpu),
    }
}

// Jumps, CALL and RETI; MOV A,(X)+; the rest reads nothing.
pub fn column_1f(cpu: Processor, bus: &mut Reading, op: u8) -> Operands
    requires { bit_and op 0x1F ≡ 0x1F }
    ensures { RowPerforms op cpu bus.old bus.new result }
{
    match op {
        opcodes::JMP_IAX => places::aim(modes::iax(cpu, bus)),
        opcodes::CALL_ABS | opcodes::JMP_ABS => places::aim(modes::abs(cpu, bus)),
        opcodes::RETI => ways::pulled_three(cpu, bus),
        opcodes::MOV_A_XINC => places::load(modes::ix(cpu), bus),
        _ => bytes::implied(cpu),
    }
}
