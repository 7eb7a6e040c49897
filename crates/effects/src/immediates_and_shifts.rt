// Columns 8 and C of the table: A and X with an immediate; shifts, DEC and INC of A; DEC and INC of Y.
ghost use Rattle.std.specs.Prelude.{◌≡◌, T};
ghost use Rattle.instructions.specs.Rows.{row_of};
ghost use Rattle.instructions.specs.Effects.{effect_of};
ghost use Rattle.effects.specs.Columns.{in_column};

use crate::kinds::{into_a, into_y, registers};
use instructions::{Effect, Operands};

// The effect of an opcode of column 8 or C that no family takes.
pub fn immediates_and_shifts(opcode: u8, o: Operands) -> Effect
    requires { T (in_column 8 opcode) }
    ensures { result ≡ effect_of (row_of opcode).operation opcode o }
{
    let cpu = o.cpu;
    match opcode {
        opcodes::OR_A_IMM => into_a(cpu.or(cpu.a, o.low)),
        opcodes::ASL_A => into_a(cpu.asl(cpu.a)),
        opcodes::AND_A_IMM => into_a(cpu.and(cpu.a, o.low)),
        opcodes::ROL_A => into_a(cpu.rol(cpu.a)),
        opcodes::EOR_A_IMM => into_a(cpu.eor(cpu.a, o.low)),
        opcodes::LSR_A => into_a(cpu.lsr(cpu.a)),
        opcodes::CMP_A_IMM => registers(cpu.cmp_a(o.low)),
        opcodes::ROR_A => into_a(cpu.ror(cpu.a)),
        opcodes::ADC_A_IMM => into_a(cpu.adc(cpu.a, o.low)),
        opcodes::DEC_A => into_a(cpu.dec(cpu.a)),
        opcodes::SBC_A_IMM => into_a(cpu.sbc(cpu.a, o.low)),
        opcodes::INC_A => into_a(cpu.inc(cpu.a)),
        opcodes::CMP_X_IMM => registers(cpu.cmp_x(o.low)),
        opcodes::DEC_Y => into_y(cpu.dec(cpu.y)),
        opcodes::MOV_A_IMM => into_a(cpu.mov(o.low)),
        _ => into_y(cpu.inc(cpu.y)),
    }
}
