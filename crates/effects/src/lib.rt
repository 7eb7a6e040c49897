// What an instruction makes of its operands, by its opcode.
#![tactic(auto)]

mod bits;
mod bits_and_words;
mod compares_and_pops;
mod families;
mod flags_and_branches;
mod immediates_and_shifts;
mod jumps_and_calls;
mod kinds;
mod pushes_and_moves;

ghost use Rattle.std.specs.Prelude.{◌≡◌};
ghost use Rattle.instructions.specs.Rows.{row_of};
ghost use Rattle.instructions.specs.Rows.Operation.{call as calls, set1 as sets, clr1 as clears, bbs as branches_if_set, bbc as branches_if_clear};
ghost use Rattle.instructions.specs.Effects.{effect_of};

use instructions::{Effect, Operands, Stores};

// The effect of the opcode's row on its operands.
pub fn effect_of(opcode: u8, o: Operands) -> Effect
    ensures { result ≡ effect_of (row_of opcode).operation opcode o }
{
    match opcode & 0x1F {
        opcodes::SET1_MASK => set1(opcode, o),
        opcodes::CLR1_D => clr1(opcode, o),
        opcodes::BBS_D_R_MASK => bbs(opcode, o),
        opcodes::BBC_D_R_MASK => bbc(opcode, o),
        opcodes::TCALL_MASK | 0x11 => call(o),
        0x04..=0x07 | 0x14..=0x17 => families::accumulator(opcode / 32, o),
        0x09 | 0x18..=0x19 => families::pairs(opcode / 32, o),
        0x0B | 0x1B => families::shifts(opcode / 32, o),
        // one arm with those above would cost a step six instructions more (docs/SPEED.md)
        0x0C => families::shifts(opcode / 32, o),
        // in the other columns, by the opcode's low digit, each opcode has an instruction of its own
        0x00 | 0x10 => flags_and_branches::flags_and_branches(opcode, o),
        0x08 | 0x1C => immediates_and_shifts::immediates_and_shifts(opcode, o),
        0x0A | 0x1A => bits_and_words::bits_and_words(opcode, o),
        0x0D | 0x1D => pushes_and_moves::pushes_and_moves(opcode, o),
        0x0E | 0x1E => compares_and_pops::compares_and_pops(opcode, o),
        _ => jumps_and_calls::jumps_and_calls(opcode, o),
    }
}

// TCALL
fn call(o: Operands) -> Effect
    ensures { result ≡ effect_of calls 0 o }
{
    let cpu = o.cpu;
    kinds::storing(cpu, Stores::Call(o.at))
}

fn set1(opcode: u8, o: Operands) -> Effect
    ensures { result ≡ effect_of sets opcode o }
{
    kinds::storing_byte(o, bits::with_bit(o.low, bits::bit_in(opcode), true))
}

fn clr1(opcode: u8, o: Operands) -> Effect
    ensures { result ≡ effect_of clears opcode o }
{
    kinds::storing_byte(o, bits::with_bit(o.low, bits::bit_in(opcode), false))
}

fn bbs(opcode: u8, o: Operands) -> Effect
    ensures { result ≡ effect_of branches_if_set opcode o }
{
    kinds::branch_if(o, bits::has_bit(o.low, bits::bit_in(opcode)))
}

fn bbc(opcode: u8, o: Operands) -> Effect
    ensures { result ≡ effect_of branches_if_clear opcode o }
{
    kinds::branch_if(o, !bits::has_bit(o.low, bits::bit_in(opcode)))
}
