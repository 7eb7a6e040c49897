// Modes that read more than one thing.
ghost use Rattle.std.specs.Prelude.{◌^◌, ◌≤◌, ◌≡◌};
ghost use Rattle.memory.specs.Promises.{Reads};
ghost use Rattle.instructions.specs.Rows.Mode.{direct_direct, direct_to_direct, direct_immediate, immediate_to_direct, at_x_at_y, direct_word, to_direct_word, memory_bit};
ghost use Rattle.instructions.specs.Gather.{both_loaded, source_loaded};
ghost use Rattle.gather.specs.Columns.{plainly};

use instructions::Operands;
use memory::Reading;
use modes::Addressed;
use processor::Processor;

// A source and a target, both read.
fn load_both(found: Addressed, bus: &mut Reading, source: u16) -> Operands
    ensures { Reads (both_loaded source found) bus.old bus.new result }
{
    let low = bus.read(source);
    let high = bus.read(found.at);
    Operands {
        cpu: found.cpu,
        at: found.at,
        next: 0,
        low,
        high,
    }
}

// A target's address and a source that is read.
fn load_source(found: Addressed, bus: &mut Reading, source: u16) -> Operands
    ensures { Reads (source_loaded source found) bus.old bus.new result }
{
    let low = bus.read(source);
    Operands {
        cpu: found.cpu,
        at: found.at,
        next: 0,
        low,
        high: 0,
    }
}

// d,d: the source's operand byte comes first.
pub fn direct_direct(cpu: Processor, bus: &mut Reading) -> Operands
    ensures { Reads (plainly direct_direct cpu) bus.old bus.new result }
{
    let source = modes::d(cpu, bus);
    let found = modes::d(source.cpu, bus);
    load_both(found, bus, source.at)
}

// d,d for MOV, which does not read its target.
pub fn direct_to_direct(cpu: Processor, bus: &mut Reading) -> Operands
    ensures { Reads (plainly direct_to_direct cpu) bus.old bus.new result }
{
    let source = modes::d(cpu, bus);
    let found = modes::d(source.cpu, bus);
    load_source(found, bus, source.at)
}

// d,#i: the immediate comes first.
pub fn direct_immediate(cpu: Processor, bus: &mut Reading) -> Operands
    ensures { Reads (plainly direct_immediate cpu) bus.old bus.new result }
{
    let immediate = modes::fetch_u8(cpu, bus);
    let found = modes::d(immediate.cpu, bus);
    let high = bus.read(found.at);
    Operands {
        cpu: found.cpu,
        at: found.at,
        next: 0,
        low: immediate.byte,
        high,
    }
}

// d,#i for MOV, which does not read its target.
pub fn immediate_to_direct(cpu: Processor, bus: &mut Reading) -> Operands
    ensures { Reads (plainly immediate_to_direct cpu) bus.old bus.new result }
{
    let immediate = modes::fetch_u8(cpu, bus);
    let found = modes::d(immediate.cpu, bus);
    Operands {
        cpu: found.cpu,
        at: found.at,
        next: 0,
        low: immediate.byte,
        high: 0,
    }
}

// (X),(Y): (Y) is the source.
pub fn at_x_at_y(cpu: Processor, bus: &mut Reading) -> Operands
    ensures { Reads (plainly at_x_at_y cpu) bus.old bus.new result }
{
    let source = modes::iy(cpu);
    load_both(modes::ix(cpu), bus, source.at)
}

// A word of the direct page.
pub fn direct_word(cpu: Processor, bus: &mut Reading) -> Operands
    ensures { Reads (plainly direct_word cpu) bus.old bus.new result }
{
    let found = modes::dw(cpu, bus);
    let low = bus.read(found.low);
    let high = bus.read(found.high);
    Operands {
        cpu: found.cpu,
        at: found.low,
        next: found.high,
        low,
        high,
    }
}

// The place of a word of the direct page.
pub fn to_direct_word(cpu: Processor, bus: &mut Reading) -> Operands
    ensures { Reads (plainly to_direct_word cpu) bus.old bus.new result }
{
    let found = modes::dw(cpu, bus);
    Operands {
        cpu: found.cpu,
        at: found.low,
        next: found.high,
        low: 0,
        high: 0,
    }
}

// The value of a bit, by its number.
fn bit_value(bit: u8) -> u8
    requires { bit ≤ 7 }
    ensures { result ≡ 2 ^ bit }
{
    1u8 << bit
}

// A byte and one of its bits, by its value.
pub fn memory_bit(cpu: Processor, bus: &mut Reading) -> Operands
    ensures { Reads (plainly memory_bit cpu) bus.old bus.new result }
{
    let found = modes::bit_operand(cpu, bus);
    let low = bus.read(found.at);
    Operands {
        cpu: found.cpu,
        at: found.at,
        next: 0,
        low,
        high: bit_value(found.bit),
    }
}
