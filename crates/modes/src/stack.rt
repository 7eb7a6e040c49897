// The stack, at 0x100 + SP.
ghost use Rattle.memory.specs.Promises.{Reads, Puts};
ghost use Rattle.modes.specs.Stack.{push, push_word, pull, pull_word, called};

use crate::Addressed;
use memory::{Reading, Storing};
use processor::{Processor, Produced};

// Stores a byte, then decreases SP.
pub fn push_to_stack_u8(cpu: Processor, bus: &mut Storing, byte: u8) -> Processor
    ensures { Puts (push byte cpu) bus.old bus.new result }
{
    bus.store(0x100 + cpu.sp as u16, byte);
    let mut next = cpu;
    next.sp = processor::difference(cpu.sp, 1);
    next
}

// Pushes a word, high byte first.
pub fn push_to_stack_u16(cpu: Processor, bus: &mut Storing, word: u16) -> Processor
    ensures { Puts (push_word word cpu) bus.old bus.new result }
{
    let next = push_to_stack_u8(cpu, bus, (word / 256) as u8);
    push_to_stack_u8(next, bus, (word % 256) as u8)
}

// Increases SP, then reads a byte.
pub fn pull_from_stack_u8(cpu: Processor, bus: &mut Reading) -> Produced
    ensures { Reads (pull cpu) bus.old bus.new result }
{
    let mut next = cpu;
    next.sp = cpu.sp.wrapping_add(1);
    let byte = bus.read(0x100 + next.sp as u16);
    Produced { cpu: next, byte }
}

// Pulls a word, low byte first.
pub fn pull_from_stack_u16(cpu: Processor, bus: &mut Reading) -> Addressed
    ensures { Reads (pull_word cpu) bus.old bus.new result }
{
    let low = pull_from_stack_u8(cpu, bus);
    let high = pull_from_stack_u8(low.cpu, bus);
    Addressed {
        cpu: high.cpu,
        at: processor::word(low.byte, high.byte),
    }
}

// Pushes PC and goes to an address.
pub fn call(cpu: Processor, bus: &mut Storing, target: u16) -> Processor
    ensures { Puts (called target cpu) bus.old bus.new result }
{
    let mut next = push_to_stack_u16(cpu, bus, cpu.pc);
    next.pc = target;
    next
}
