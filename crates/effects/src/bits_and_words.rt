// Column A of the table: bits in memory and C; words.
ghost use Rattle.std.specs.Prelude.{◌≡◌, T};
ghost use Rattle.instructions.specs.Rows.{row_of};
ghost use Rattle.instructions.specs.Effects.{effect_of, named_bit};
ghost use Rattle.instructions.specs.Rows.Operation.{and1, and1_n, or1, or1_n, eor1, not1, load_c, store_c, load_ya};
ghost use Rattle.effects.specs.Columns.{in_column};

use crate::bits;
use crate::kinds::{into_word, registers, set_c, storing, storing_byte};
use instructions::{Effect, Operands, Stores};

// The effect of an opcode of column A.
pub fn bits_and_words(opcode: u8, o: Operands) -> Effect
    requires { T (in_column 10 opcode) }
    ensures { result ≡ effect_of (row_of opcode).operation opcode o }
{
    let cpu = o.cpu;
    match opcode {
        opcodes::OR1_C_MB => or1(o),
        opcodes::DECW_D => into_word(o, cpu.decw(o.low, o.high)),
        opcodes::OR1_C_NMB => or1_not(o),
        opcodes::INCW_D => into_word(o, cpu.incw(o.low, o.high)),
        opcodes::AND1_C_MB => and1(o),
        opcodes::CMPW_YA_D => registers(cpu.cmpw(o.low, o.high)),
        opcodes::AND1_C_NMB => and1_not(o),
        opcodes::ADDW_YA_D => registers(cpu.addw(o.low, o.high)),
        opcodes::EOR1_C_MB => eor1(o),
        opcodes::SUBW_YA_D => registers(cpu.subw(o.low, o.high)),
        opcodes::MOV1_C_MB => load_c(o),
        opcodes::MOVW_YA_D => load_ya(o),
        opcodes::MOV1_MB_C => store_c(o),
        opcodes::MOVW_D_YA => storing(cpu, Stores::Word(o.at, cpu.a, o.next, cpu.y)),
        opcodes::NOT1_MB => not1(o),
        _ => storing_byte(o, o.low),
    }
}

// The bit that Mb names.
fn named_bit(o: Operands) -> bool
    ensures { result ≡ named_bit o }
{
    bits::has_bit(o.low, o.high)
}

// AND1 C, Mb
fn and1(o: Operands) -> Effect
    ensures { result ≡ effect_of and1 0 o }
{
    let cpu = o.cpu;
    set_c(cpu, cpu.psw.c & named_bit(o))
}

// AND1 C, Nmb
fn and1_not(o: Operands) -> Effect
    ensures { result ≡ effect_of and1_n 0 o }
{
    let cpu = o.cpu;
    set_c(cpu, cpu.psw.c & !named_bit(o))
}

// OR1 C, Mb
fn or1(o: Operands) -> Effect
    ensures { result ≡ effect_of or1 0 o }
{
    let cpu = o.cpu;
    set_c(cpu, cpu.psw.c | named_bit(o))
}

// OR1 C, Nmb
fn or1_not(o: Operands) -> Effect
    ensures { result ≡ effect_of or1_n 0 o }
{
    let cpu = o.cpu;
    set_c(cpu, cpu.psw.c | !named_bit(o))
}

// EOR1 C, Mb
fn eor1(o: Operands) -> Effect
    ensures { result ≡ effect_of eor1 0 o }
{
    let cpu = o.cpu;
    let bit = named_bit(o);
    if cpu.psw.c {
        set_c(cpu, !bit)
    } else {
        set_c(cpu, bit)
    }
}

// NOT1 Mb
fn not1(o: Operands) -> Effect
    ensures { result ≡ effect_of not1 0 o }
{
    storing_byte(o, o.low ^ o.high)
}

// MOV1 C, Mb
fn load_c(o: Operands) -> Effect
    ensures { result ≡ effect_of load_c 0 o }
{
    let cpu = o.cpu;
    set_c(cpu, named_bit(o))
}

// MOV1 Mb, C
fn store_c(o: Operands) -> Effect
    ensures { result ≡ effect_of store_c 0 o }
{
    let cpu = o.cpu;
    storing_byte(o, bits::with_bit(o.low, o.high, cpu.psw.c))
}

// MOVW YA, d
fn load_ya(o: Operands) -> Effect
    ensures { result ≡ effect_of load_ya 0 o }
{
    let cpu = o.cpu;
    let mut next = cpu.set_nz_16le(o.low, o.high);
    next.a = o.low;
    next.y = o.high;
    registers(next)
}
