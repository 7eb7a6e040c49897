// Column F of the table: jumps, calls and returns, (X)+, MUL, DAA and XCN, SLEEP and STOP.
ghost use Rattle.std.specs.Prelude.{◌≡◌, T};
ghost use Rattle.instructions.specs.Rows.{row_of};
ghost use Rattle.instructions.specs.Effects.{effect_of};
ghost use Rattle.instructions.specs.Rows.Operation.{brk as breaks, reti as returns_both, load_ainc, store_ainc};
ghost use Rattle.effects.specs.Columns.{in_column};

use crate::bits;
use crate::kinds::{branch_if, raise_x, registers, set_pc, storing, storing_byte};
use instructions::{Effect, Operands, Stores};
use psw::ProgramStatusWord;
use waking::State;

// The effect of an opcode of column F.
pub fn jumps_and_calls(opcode: u8, o: Operands) -> Effect
    requires { T (in_column 15 opcode) }
    ensures { result ≡ effect_of (row_of opcode).operation opcode o }
{
    let cpu = o.cpu;
    match opcode {
        opcodes::BRK => brk(o),
        opcodes::JMP_IAX => set_pc(cpu, o.at),
        opcodes::BRA_R => branch_if(o, true),
        opcodes::CALL_ABS => storing(cpu, Stores::Call(o.at)),
        opcodes::PCALL => storing(cpu, Stores::Call(o.at)),
        opcodes::JMP_ABS => set_pc(cpu, o.at),
        opcodes::RET => set_pc(cpu, o.at),
        opcodes::RETI => reti(o),
        opcodes::MOV_D_IMM => storing_byte(o, o.low),
        opcodes::XCN_A => registers(cpu.xcn()),
        opcodes::MOV_XINC_A => store_a_inc(o),
        opcodes::MOV_A_XINC => load_a_inc(o),
        opcodes::MUL_YA => registers(cpu.mul()),
        opcodes::DAA_A => registers(cpu.daa()),
        opcodes::SLEEP => registers(cpu.with_state(State::Slept)),
        _ => registers(cpu.with_state(State::Stopped)),
    }
}

// BRK: the status byte is pushed as it was.
fn brk(o: Operands) -> Effect
    ensures { result ≡ effect_of breaks 0 o }
{
    let mut cpu = o.cpu;
    let psw = cpu.psw;
    let next = bits::interrupted(psw);
    cpu.psw = next;
    storing(cpu, Stores::Break(psw.to_byte(), o.at))
}

// RETI
fn reti(o: Operands) -> Effect
    ensures { result ≡ effect_of returns_both 0 o }
{
    let mut cpu = o.cpu;
    cpu.psw = ProgramStatusWord::from_byte(o.low);
    set_pc(cpu, o.at)
}

// MOV A, (X)+
fn load_a_inc(o: Operands) -> Effect
    ensures { result ≡ effect_of load_ainc 0 o }
{
    let cpu = o.cpu;
    let made = cpu.mov(o.low);
    let mut next = made.cpu;
    next.a = made.byte;
    registers(raise_x(next))
}

// MOV (X)+, A
fn store_a_inc(o: Operands) -> Effect
    ensures { result ≡ effect_of store_ainc 0 o }
{
    let cpu = o.cpu;
    storing(raise_x(cpu), Stores::Byte(o.at, cpu.a))
}
