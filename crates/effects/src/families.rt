// The parts of the table that are alike in every second row: the opcode's top three bits pick the operation.
ghost use Rattle.std.specs.Prelude.{◌≡◌, ◌<◌};
ghost use Rattle.instructions.specs.Effects.{effect_of};
ghost use Rattle.instructions.specs.Families.{accumulator_group, pair_group, shift_group};

use crate::kinds::{into_a, into_memory, into_x, into_y, registers, storing_byte};
use instructions::{Effect, Operands};

// A with a byte in memory.
pub fn accumulator(group: u8, o: Operands) -> Effect
    requires { group < 8 }
    ensures { result ≡ effect_of (accumulator_group group) 0 o }
{
    let cpu = o.cpu;
    match group {
        0 => into_a(cpu.or(cpu.a, o.low)),
        1 => into_a(cpu.and(cpu.a, o.low)),
        2 => into_a(cpu.eor(cpu.a, o.low)),
        3 => registers(cpu.cmp_a(o.low)),
        4 => into_a(cpu.adc(cpu.a, o.low)),
        5 => into_a(cpu.sbc(cpu.a, o.low)),
        6 => storing_byte(o, cpu.a),
        _ => into_a(cpu.mov(o.low)),
    }
}

// A target with a source; X with memory.
pub fn pairs(group: u8, o: Operands) -> Effect
    requires { group < 8 }
    ensures { result ≡ effect_of (pair_group group) 0 o }
{
    let cpu = o.cpu;
    match group {
        0 => into_memory(o.at, cpu.or(o.high, o.low)),
        1 => into_memory(o.at, cpu.and(o.high, o.low)),
        2 => into_memory(o.at, cpu.eor(o.high, o.low)),
        3 => registers(cpu.cmp(o.high, o.low)),
        4 => into_memory(o.at, cpu.adc(o.high, o.low)),
        5 => into_memory(o.at, cpu.sbc(o.high, o.low)),
        6 => storing_byte(o, cpu.x),
        _ => into_x(cpu.mov(o.low)),
    }
}

// Shifts, DEC and INC of memory; Y with memory.
pub fn shifts(group: u8, o: Operands) -> Effect
    requires { group < 8 }
    ensures { result ≡ effect_of (shift_group group) 0 o }
{
    let cpu = o.cpu;
    match group {
        0 => into_memory(o.at, cpu.asl(o.low)),
        1 => into_memory(o.at, cpu.rol(o.low)),
        2 => into_memory(o.at, cpu.lsr(o.low)),
        3 => into_memory(o.at, cpu.ror(o.low)),
        4 => into_memory(o.at, cpu.dec(o.low)),
        5 => into_memory(o.at, cpu.inc(o.low)),
        6 => storing_byte(o, cpu.y),
        _ => into_y(cpu.mov(o.low)),
    }
}
