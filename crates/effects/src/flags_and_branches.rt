// Column 0 of the table: NOP, flags, and branches on flags.
ghost use Rattle.std.specs.Prelude.{◌≡◌, T};
ghost use Rattle.instructions.specs.Rows.{row_of};
ghost use Rattle.instructions.specs.Effects.{effect_of};
ghost use Rattle.effects.specs.Columns.{in_column};

use crate::bits;
use crate::kinds::{branch_if, registers, set_c, set_psw};
use instructions::{Effect, Operands};

// The effect of an opcode of column 0.
pub fn flags_and_branches(opcode: u8, o: Operands) -> Effect
    requires { T (in_column 0 opcode) }
    ensures { result ≡ effect_of (row_of opcode).operation opcode o }
{
    let cpu = o.cpu;
    let psw = cpu.psw;
    match opcode {
        opcodes::BPL_R => branch_if(o, !psw.n),
        opcodes::CLRP => set_psw(cpu, bits::with_p(psw, false)),
        opcodes::BMI_R => branch_if(o, psw.n),
        opcodes::SETP => set_psw(cpu, bits::with_p(psw, true)),
        opcodes::BVC_R => branch_if(o, !psw.v),
        opcodes::CLRC => set_c(cpu, false),
        opcodes::BVS_R => branch_if(o, psw.v),
        opcodes::SETC => set_c(cpu, true),
        opcodes::BCC_R => branch_if(o, !psw.c),
        opcodes::EI => set_psw(cpu, bits::with_i(psw, true)),
        opcodes::BCS_R => branch_if(o, psw.c),
        opcodes::DI => set_psw(cpu, bits::with_i(psw, false)),
        opcodes::BNE_R => branch_if(o, !psw.z),
        opcodes::CLRV => set_psw(cpu, bits::without_vh(psw)),
        opcodes::BEQ_R => branch_if(o, psw.z),
        _ => registers(cpu),
    }
}
