// Column D of the table: pushes, X, moves between registers, immediates.
ghost use Rattle.std.specs.Prelude.{◌≡◌, T};
ghost use Rattle.instructions.specs.Rows.{row_of};
ghost use Rattle.instructions.specs.Effects.{effect_of};
ghost use Rattle.effects.specs.Columns.{in_column};

use crate::kinds::{into_a, into_x, into_y, registers, set_c, set_sp, storing};
use instructions::{Effect, Operands, Stores};

// The effect of an opcode of column D.
pub fn pushes_and_moves(opcode: u8, o: Operands) -> Effect
    requires { T (in_column 13 opcode) }
    ensures { result ≡ effect_of (row_of opcode).operation opcode o }
{
    let cpu = o.cpu;
    let psw = cpu.psw;
    match opcode {
        opcodes::PUSH_PSW => storing(cpu, Stores::Push(psw.to_byte())),
        opcodes::DEC_X => into_x(cpu.dec(cpu.x)),
        opcodes::PUSH_A => storing(cpu, Stores::Push(cpu.a)),
        opcodes::INC_X => into_x(cpu.inc(cpu.x)),
        opcodes::PUSH_X => storing(cpu, Stores::Push(cpu.x)),
        opcodes::MOV_X_A => into_x(cpu.mov(cpu.a)),
        opcodes::PUSH_Y => storing(cpu, Stores::Push(cpu.y)),
        opcodes::MOV_A_X => into_a(cpu.mov(cpu.x)),
        opcodes::MOV_Y_IMM => into_y(cpu.mov(o.low)),
        opcodes::MOV_X_SP => into_x(cpu.mov(cpu.sp)),
        opcodes::CMP_Y_IMM => registers(cpu.cmp_y(o.low)),
        opcodes::MOV_SP_X => set_sp(cpu, cpu.x),
        opcodes::MOV_X_IMM => into_x(cpu.mov(o.low)),
        opcodes::MOV_A_Y => into_a(cpu.mov(cpu.y)),
        opcodes::NOTC => set_c(cpu, !psw.c),
        _ => into_y(cpu.mov(cpu.a)),
    }
}
