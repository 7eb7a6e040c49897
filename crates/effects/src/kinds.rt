// Kinds of effect: where what an operation produced goes.
ghost use Rattle.std.specs.Prelude.{◌≡◌};
ghost use Rattle.processor.specs.Record.{with_flags, with_a, with_x, with_y, with_sp, with_pc, with_carry};
ghost use Rattle.instructions.specs.Effects as effects;

use instructions::{Effect, Operands, Stores};
use processor::{Processor, Produced, ProducedWord};
use psw::ProgramStatusWord;

// Registers alone.
pub fn registers(cpu: Processor) -> Effect
    ensures { result ≡ effects.registers cpu }
{
    Effect {
        cpu,
        stores: Stores::Nothing,
        taken: false,
    }
}

// Registers, and a store.
pub fn storing(cpu: Processor, stores: Stores) -> Effect
    ensures { result ≡ effects.storing stores cpu }
{
    Effect {
        cpu,
        stores,
        taken: false,
    }
}

// A byte into A, X or Y, with no flag touched.
pub fn set_a(mut cpu: Processor, byte: u8) -> Effect
    ensures { result ≡ effects.registers (with_a byte cpu) }
{
    cpu.a = byte;
    registers(cpu)
}

pub fn set_x(mut cpu: Processor, byte: u8) -> Effect
    ensures { result ≡ effects.registers (with_x byte cpu) }
{
    cpu.x = byte;
    registers(cpu)
}

pub fn set_y(mut cpu: Processor, byte: u8) -> Effect
    ensures { result ≡ effects.registers (with_y byte cpu) }
{
    cpu.y = byte;
    registers(cpu)
}

// SP or PC anew.
pub fn set_sp(mut cpu: Processor, byte: u8) -> Effect
    ensures { result ≡ effects.registers (with_sp byte cpu) }
{
    cpu.sp = byte;
    registers(cpu)
}

pub fn set_pc(mut cpu: Processor, at: u16) -> Effect
    ensures { result ≡ effects.registers (with_pc at cpu) }
{
    cpu.pc = at;
    registers(cpu)
}

// The status word anew.
pub fn set_psw(mut cpu: Processor, psw: ProgramStatusWord) -> Effect
    ensures { result ≡ effects.registers (with_flags psw cpu) }
{
    cpu.psw = psw;
    registers(cpu)
}

// C alone.
pub fn set_c(mut cpu: Processor, c: bool) -> Effect
    ensures { result ≡ effects.registers (with_carry c cpu) }
{
    cpu.psw.c = c;
    registers(cpu)
}

// A produced byte into A, X, Y or memory.
pub fn into_a(made: Produced) -> Effect
    ensures { result ≡ effects.into_a made }
{
    let cpu = made.cpu;
    set_a(cpu, made.byte)
}

pub fn into_x(made: Produced) -> Effect
    ensures { result ≡ effects.into_x made }
{
    let cpu = made.cpu;
    set_x(cpu, made.byte)
}

pub fn into_y(made: Produced) -> Effect
    ensures { result ≡ effects.into_y made }
{
    let cpu = made.cpu;
    set_y(cpu, made.byte)
}

pub fn into_memory(at: u16, made: Produced) -> Effect
    ensures { result ≡ effects.into_memory at made }
{
    let cpu = made.cpu;
    storing(cpu, Stores::Byte(at, made.byte))
}

// A produced word into memory.
pub fn into_word(o: Operands, made: ProducedWord) -> Effect
    ensures { result ≡ effects.into_word o made }
{
    let cpu = made.cpu;
    storing(cpu, Stores::Word(o.at, made.low, o.next, made.high))
}

// A byte into memory as it is.
pub fn storing_byte(o: Operands, byte: u8) -> Effect
    ensures { result ≡ effects.storing_byte o byte }
{
    let cpu = o.cpu;
    storing(cpu, Stores::Byte(o.at, byte))
}

// The record with X one higher.
pub fn raise_x(mut cpu: Processor) -> Processor
    ensures { result ≡ effects.raised_x cpu }
{
    cpu.x = std::num::wrapping_add_u8(cpu.x, 1);
    cpu
}

// A branch, with what is stored before it: one that is not taken passes its displacement by.
pub fn branching(cpu: Processor, stores: Stores, taken: bool) -> Effect
    ensures { result ≡ effects.branching taken stores cpu }
{
    if taken {
        return Effect {
            cpu,
            stores,
            taken: true,
        };
    }
    Effect {
        cpu: modes::past(cpu),
        stores,
        taken: false,
    }
}

pub fn branch_if(o: Operands, taken: bool) -> Effect
    ensures { result ≡ effects.branch_if taken o }
{
    let cpu = o.cpu;
    branching(cpu, Stores::Nothing, taken)
}
