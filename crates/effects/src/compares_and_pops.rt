// Column E of the table: TSET1 and TCLR1, CMP with X and Y, CBNE and DBNZ, pops, DIV and DAS.
ghost use Rattle.std.specs.Prelude.{◌≡◌, T};
ghost use Rattle.instructions.specs.Rows.{row_of};
ghost use Rattle.instructions.specs.Effects.{effect_of};
ghost use Rattle.instructions.specs.Rows.Operation.{dbnz_m, dbnz_y};
ghost use Rattle.effects.specs.Columns.{in_column};

use crate::kinds::{branch_if, branching, into_memory, registers, set_a, set_psw, set_x, set_y};
use instructions::{Effect, Operands, Stores};
use psw::ProgramStatusWord;

// The effect of an opcode of column E.
pub fn compares_and_pops(opcode: u8, o: Operands) -> Effect
    requires { T (in_column 14 opcode) }
    ensures { result ≡ effect_of (row_of opcode).operation opcode o }
{
    let cpu = o.cpu;
    match opcode {
        opcodes::TSET1_ABS => into_memory(o.at, cpu.tset(o.low)),
        opcodes::CMP_X_ABS => registers(cpu.cmp_x(o.low)),
        opcodes::CBNE_D_R => branch_if(o, cpu.a != o.low),
        opcodes::CMP_X_D => registers(cpu.cmp_x(o.low)),
        opcodes::TCLR1_ABS => into_memory(o.at, cpu.tclr(o.low)),
        opcodes::CMP_Y_ABS => registers(cpu.cmp_y(o.low)),
        opcodes::DBNZ_D_R => dbnz_memory(o),
        opcodes::CMP_Y_D => registers(cpu.cmp_y(o.low)),
        opcodes::POP_PSW => set_psw(cpu, ProgramStatusWord::from_byte(o.low)),
        opcodes::DIV_YA_X => registers(cpu.div()),
        opcodes::POP_A => set_a(cpu, o.low),
        opcodes::DAS_A => registers(cpu.das()),
        opcodes::POP_X => set_x(cpu, o.low),
        opcodes::CBNE_DX_R => branch_if(o, cpu.a != o.low),
        opcodes::POP_Y => set_y(cpu, o.low),
        _ => dbnz_y(o),
    }
}

// DBNZ d
fn dbnz_memory(o: Operands) -> Effect
    ensures { result ≡ effect_of dbnz_m 0 o }
{
    let cpu = o.cpu;
    let less = processor::difference(o.low, 1);
    branching(cpu, Stores::Byte(o.at, less), less != 0)
}

// DBNZ Y
fn dbnz_y(o: Operands) -> Effect
    ensures { result ≡ effect_of dbnz_y 0 o }
{
    let mut cpu = o.cpu;
    let less = processor::difference(cpu.y, 1);
    cpu.y = less;
    branching(cpu, Stores::Nothing, less != 0)
}
