// What a step costs: clock cycles, of which the processor has 1,024,000 a second.
#![tactic(auto)]

ghost use Rattle.std.specs.Prelude.{◌≡◌, ◌≤◌, slice_index};
ghost use Rattle.cycles.specs.Cost.{cycles, flag_of, branch_byte, is_passed_by, cost_of};

use memory::Memory;
use processor::Processor;
use psw::ProgramStatusWord;

// The cycles of each opcode, a line for each high digit. A branch has those of a taken one; SLEEP and STOP, which end all, have none.
static CYCLES: [u8; 256] = [
    2, 8, 4, 7, 3, 4, 3, 6, 2, 6, 5, 4, 5, 4, 6, 8, // 00
    4, 8, 4, 7, 4, 5, 5, 6, 5, 5, 6, 5, 2, 2, 4, 6, // 10
    2, 8, 4, 7, 3, 4, 3, 6, 2, 6, 5, 4, 5, 4, 7, 4, // 20
    4, 8, 4, 7, 4, 5, 5, 6, 5, 5, 6, 5, 2, 2, 3, 8, // 30
    2, 8, 4, 7, 3, 4, 3, 6, 2, 6, 4, 4, 5, 4, 6, 6, // 40
    4, 8, 4, 7, 4, 5, 5, 6, 5, 5, 4, 5, 2, 2, 4, 3, // 50
    2, 8, 4, 7, 3, 4, 3, 6, 2, 6, 4, 4, 5, 4, 7, 5, // 60
    4, 8, 4, 7, 4, 5, 5, 6, 5, 5, 5, 5, 2, 2, 3, 6, // 70
    2, 8, 4, 7, 3, 4, 3, 6, 2, 6, 5, 4, 5, 2, 4, 5, // 80
    4, 8, 4, 7, 4, 5, 5, 6, 5, 5, 5, 5, 2, 2, 12, 5, // 90
    3, 8, 4, 7, 3, 4, 3, 6, 2, 6, 4, 4, 5, 2, 4, 4, // A0
    4, 8, 4, 7, 4, 5, 5, 6, 5, 5, 5, 5, 2, 2, 3, 4, // B0
    3, 8, 4, 7, 4, 5, 4, 7, 2, 5, 6, 4, 5, 2, 4, 9, // C0
    4, 8, 4, 7, 5, 6, 6, 7, 4, 5, 5, 5, 2, 2, 8, 3, // D0
    2, 8, 4, 7, 3, 4, 3, 6, 2, 4, 5, 3, 4, 3, 4, 0, // E0
    4, 8, 4, 7, 4, 5, 5, 6, 3, 4, 5, 4, 2, 2, 6, 0, // F0
];

// The cycles of an opcode.
#[tactic(auto, unfolding(crate::specs::Cost::cycles))]
fn of_opcode(opcode: u8) -> u8
    ensures { result ≡ slice_index cycles opcode }
{
    CYCLES[opcode as usize]
}

// The flag that a branch on flags looks at, by the opcode's two highest bits.
#[tactic(auto, unfolding(crate::specs::Cost::flag_of))]
fn flag(high: u8, psw: ProgramStatusWord) -> bool
    ensures { result ≡ flag_of high psw }
{
    match high {
        0 => psw.n,
        1 => psw.v,
        2 => psw.c,
        _ => psw.z,
    }
}

// The byte in the direct page that a branch looks at.
fn branch_byte(cpu: Processor, index: u8, memory: &Memory) -> u8
    ensures { result ≡ branch_byte cpu index memory.now }
{
    let low = memory[cpu.pc.wrapping_add(1) as usize].wrapping_add(index);
    let page: usize = if cpu.psw.p { 256 } else { 0 };
    memory[page + low as usize]
}

// Whether there is a branch at PC, with this opcode, that is not taken.
#[tactic(auto, unfolding(crate::specs::Cost::is_passed_by))]
fn is_passed_by(opcode: u8, cpu: Processor, memory: &Memory) -> bool
    ensures { result ≡ is_passed_by opcode cpu memory.now }
{
    if opcode % 32 == 16 {
        return flag(opcode / 64, cpu.psw) != (opcode / 32 % 2 == 1);
    }
    if opcode % 16 == 3 {
        let bit = branch_byte(cpu, 0, memory) >> (opcode / 32);
        return bit % 2 == opcode / 16 % 2;
    }
    match opcode {
        0x2E => cpu.a == branch_byte(cpu, 0, memory),
        0xDE => cpu.a == branch_byte(cpu, cpu.x, memory),
        0x6E => branch_byte(cpu, 0, memory) == 1,
        0xFE => cpu.y == 1,
        _ => false,
    }
}

// The cycles of the step that begins with these registers on this memory, by what it finds there. No step has more than twelve.
pub fn of_step(cpu: Processor, memory: &Memory) -> u8
    ensures { (result ≡ cost_of cpu memory.now) × (result ≤ 12) }
{
    let opcode = memory[cpu.pc as usize];
    let most = of_opcode(opcode);
    if is_passed_by(opcode, cpu, memory) {
        most - 2
    } else {
        most
    }
}
