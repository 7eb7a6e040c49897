// Address modes, and a branch.
ghost use Rattle.std.specs.Prelude.{◌≡◌};
ghost use Rattle.laws.specs.Lent.{lent};
ghost use Rattle.memory.specs.Words.{read_word};
ghost use Rattle.signed.specs.Displacement.{target_of};
ghost use Rattle.processor.specs.Record.{produced};
ghost use Rattle.processor.specs.declared.Processor.{Processor};
ghost use Rattle.modes.specs.Addresses.{direct_at, onward};
ghost use Rattle.modes.specs.Modes as modes;
ghost use Rattle.modes.specs.Modes.{addressed, pointed, pointer_x, pointer_y, absolute};
ghost use Rattle.instructions.specs.Effects.{branching};
ghost use Rattle.instructions.specs.Step.{finish_of};
ghost use Rattle.instructions.specs.declared.Stores.TheVariants.{Nothing};
ghost use Rattle.registers.specs.Flat.{record_of};
ghost use Rattle.cells.specs.Cells.{Performs};

use cells::Cells;
use editions::Edition;
use registers::Registers;

// An address of the direct page.
pub fn direct(cpu: Registers, byte: u8, index: u8) -> u16
    ensures { result ≡ direct_at (record_of cpu).psw byte index }
{
    let low = std::num::wrapping_add_u8(byte, index) as u16;
    cpu.page / 256 % 2 * 256 + low
}

// The byte at PC.
pub fn fetch(cpu: Registers, cells: &mut Cells) -> u8
    ensures { Performs (modes.fetch (record_of cpu)) (lent cells) (produced (onward (record_of cpu)) result) }
{
    cells::read(cells, cpu.pc)
}

// The word at an address, low byte first.
pub fn read_u16(cells: &mut Cells, at: u16) -> u16
    ensures { Performs (read_word at) (lent cells) result }
{
    let low = cells::read(cells, at);
    let high = cells::read(cells, std::num::wrapping_add_u16(at, 1));
    processor::word(low, high)
}

// d plus an index.
pub fn d_off(cpu: Registers, cells: &mut Cells, index: u8) -> u16
    ensures { Performs (modes.direct index (record_of cpu)) (lent cells) (addressed (onward (record_of cpu)) result) }
{
    let byte = fetch(cpu, cells);
    direct(cpu, byte, index)
}

// The word at PC, low byte first.
pub fn fetch_u16(cpu: Registers, cells: &mut Cells) -> u16
    ensures { Performs (modes.fetch_word (record_of cpu)) (lent cells) (addressed (onward (onward (record_of cpu))) result) }
{
    let low = fetch(cpu, cells);
    let high = fetch(cpu.past(), cells);
    processor::word(low, high)
}

// !a plus an index.
pub fn abs_off(cpu: Registers, cells: &mut Cells, index: u8) -> u16
    ensures { Performs (absolute index (record_of cpu)) (lent cells) (addressed (onward (onward (record_of cpu))) result) }
{
    let word = fetch_u16(cpu, cells);
    std::num::wrapping_add_u16(word, index as u16)
}

// The pointer at an address of the direct page, plus an index. The edition says where its second byte stands.
fn pointer(cells: &mut Cells, edition: Edition, at: u16, index: u8) -> u16
    ensures { (cpu : Processor) → Performs (pointed edition index (addressed cpu at)) (lent cells) (addressed cpu result) }
{
    let low = cells::read(cells, at);
    let high = cells::read(cells, editions::second_at(edition, at));
    std::num::wrapping_add_u16(processor::word(low, high), index as u16)
}

// [d+X]
pub fn idx(cpu: Registers, edition: Edition, cells: &mut Cells) -> u16
    ensures { Performs (pointer_x edition (record_of cpu)) (lent cells) (addressed (onward (record_of cpu)) result) }
{
    let at = d_off(cpu, cells, cpu.x);
    pointer(cells, edition, at, 0)
}

// [d]+Y
pub fn idy(cpu: Registers, edition: Edition, cells: &mut Cells) -> u16
    ensures { Performs (pointer_y edition (record_of cpu)) (lent cells) (addressed (onward (record_of cpu)) result) }
{
    let at = d_off(cpu, cells, 0);
    pointer(cells, edition, at, cpu.y)
}

// Where a displacement leads from a PC: 128 is added to the byte and taken from PC, so that both stay above zero.
fn displaced(pc: u16, byte: u8) -> u16
    ensures { result ≡ target_of pc byte }
{
    let up = std::num::wrapping_add_u8(byte, 128) as u16;
    std::num::wrapping_add_u16(std::num::wrapping_add_u16(pc, up), 65408)
}

// A branch: taken, it reads the displacement at PC; else PC passes it by.
pub fn branch(cpu: Registers, cells: &mut Cells, taken: bool) -> Registers
    ensures { Performs (finish_of (branching taken Nothing (record_of cpu))) (lent cells) (record_of result) }
{
    let next = cpu.past();
    if taken {
        let byte = fetch(cpu, cells);
        return next.jump(displaced(next.pc, byte));
    }
    next
}
