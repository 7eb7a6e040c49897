// Where to go: what jumps, calls and returns read.
ghost use Rattle.std.specs.Prelude.{◌-◌, ◌*◌, ◌/◌};
ghost use Rattle.memory.specs.Promises.{Reads};
ghost use Rattle.instructions.specs.Rows.Mode.{upper_page, pulled_three};
ghost use Rattle.instructions.specs.Gather.{vector};
ghost use Rattle.gather.specs.Columns.{plainly};

use instructions::Operands;
use memory::Reading;
use processor::Processor;

// PCALL: an operand byte in the upper page.
pub fn upper_page(cpu: Processor, bus: &mut Reading) -> Operands
    ensures { Reads (plainly upper_page cpu) bus.old bus.new result }
{
    let operand = modes::fetch_u8(cpu, bus);
    Operands {
        cpu: operand.cpu,
        at: 0xFF00 + operand.byte as u16,
        next: 0,
        low: 0,
        high: 0,
    }
}

// The word at a vector.
pub fn vector_at(cpu: Processor, bus: &mut Reading, at: u16) -> Operands
    ensures { Reads (vector at cpu) bus.old bus.new result }
{
    let target = bus.read_u16(at);
    Operands {
        cpu,
        at: target,
        next: 0,
        low: 0,
        high: 0,
    }
}

// TCALL n: the word at 0xFFDE - 2n; n is the opcode's top four bits.
pub fn table_vector(cpu: Processor, bus: &mut Reading, opcode: u8) -> Operands
    ensures { Reads (vector (0xFFDE - opcode / 16 * 2) cpu) bus.old bus.new result }
{
    vector_at(cpu, bus, 0xFFDE - opcode as u16 / 16 * 2)
}

// RETI: a byte from the stack, then a word.
pub fn pulled_three(cpu: Processor, bus: &mut Reading) -> Operands
    ensures { Reads (plainly pulled_three cpu) bus.old bus.new result }
{
    let first = modes::pull_from_stack_u8(cpu, bus);
    let found = modes::pull_from_stack_u16(first.cpu, bus);
    Operands {
        cpu: found.cpu,
        at: found.at,
        next: 0,
        low: first.byte,
        high: 0,
    }
}
