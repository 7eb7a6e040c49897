// The phases of an instruction: a transaction. What it reads comes first, then what it makes of that, then the stores, and last a
// taken displacement.
ghost use Rattle.memory.specs.Promises.{Reads, Puts, Performs};
ghost use Rattle.instructions.specs.Step.{begin_of, commit_of, branch_of, finish_of, step_of};

use editions::Edition;
use instructions::{Begun, Effect, Stores};
use memory::{Bus, Reading, Storing};
use processor::Processor;

// The opcode, and what its instruction reads before it stores.
fn begin(cpu: Processor, edition: Edition, bus: &mut Reading) -> Begun
    ensures { Reads (begin_of edition cpu) bus.old bus.new result }
{
    let fetched = modes::fetch_u8(cpu, bus);
    let operands = gather::gather(fetched.cpu, edition, bus, fetched.byte);
    Begun {
        opcode: fetched.byte,
        operands,
    }
}

// The stores, in order.
fn commit(cpu: Processor, bus: &mut Storing, stores: Stores) -> Processor
    ensures { Puts (commit_of stores cpu) bus.old bus.new result }
{
    match stores {
        Stores::Nothing => cpu,
        Stores::Byte(at, byte) => {
            bus.store(at, byte);
            cpu
        }
        Stores::Word(at, low, next, high) => {
            bus.store(at, low);
            bus.store(next, high);
            cpu
        }
        Stores::Push(byte) => modes::push_to_stack_u8(cpu, bus, byte),
        Stores::Call(target) => modes::call(cpu, bus, target),
        Stores::Break(byte, target) => interrupt(cpu, bus, byte, target),
    }
}

// BRK's stores: the return PC, then a status byte.
fn interrupt(cpu: Processor, bus: &mut Storing, byte: u8, target: u16) -> Processor
    ensures { Puts (commit_of (Stores.Break byte target) cpu) bus.old bus.new result }
{
    let pushed = modes::push_to_stack_u16(cpu, bus, cpu.pc);
    let mut next = modes::push_to_stack_u8(pushed, bus, byte);
    next.pc = target;
    next
}

// A taken displacement.
fn branch(cpu: Processor, bus: &mut Reading, taken: bool) -> Processor
    ensures { Reads (branch_of taken cpu) bus.old bus.new result }
{
    if taken {
        return modes::branch_imm(cpu, bus);
    }
    cpu
}

// The stores, and then the displacement.
fn finish(made: Effect, bus: &mut Bus) -> Processor
    ensures { Performs (finish_of made) bus.old bus.new result }
{
    let mut storing = Storing {
        memory: bus.memory,
        reads: bus.reads,
        writes: bus.writes,
    };
    let stored = commit(made.cpu, &mut storing, made.stores);
    let mut reading = Reading {
        memory: bus.memory,
        reads: bus.reads,
        writes: bus.writes,
    };
    branch(stored, &mut reading, made.taken)
}

// A whole instruction, compiled into the loop of steps, its one caller (docs/SPEED.md).
#[inline(always)]
pub fn instruction(cpu: Processor, edition: Edition, bus: &mut Bus) -> Processor
    ensures { Performs (step_of edition cpu) bus.old bus.new result }
{
    let mut reading = Reading {
        memory: bus.memory,
        reads: bus.reads,
        writes: bus.writes,
    };
    let begun = begin(cpu, edition, &mut reading);
    let made = effects::effect_of(begun.opcode, begun.operands);
    finish(made, bus)
}
