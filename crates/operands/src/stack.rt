// The stack, at 0x100 + SP.
ghost use Rattle.std.specs.Prelude.{◌≡◌};
ghost use Rattle.laws.specs.Lent.{lent};
ghost use Rattle.processor.specs.Record.{produced};
ghost use Rattle.modes.specs.Stack as stack;
ghost use Rattle.registers.specs.Flat.{record_of};
ghost use Rattle.cells.specs.Cells.{Performs};

use cells::Cells;
use registers::Registers;

// Stores a byte, then decreases SP.
pub fn push(cpu: Registers, cells: &mut Cells, byte: u8) -> Registers
    ensures { Performs (stack.push byte (record_of cpu)) (lent cells) (record_of result) }
{
    cells::store(cells, 0x100 + cpu.sp as u16, byte);
    cpu.with_sp(processor::difference(cpu.sp, 1))
}

// Pushes a word, high byte first.
pub fn push_word(cpu: Registers, cells: &mut Cells, word: u16) -> Registers
    ensures { Performs (stack.push_word word (record_of cpu)) (lent cells) (record_of result) }
{
    let next = push(cpu, cells, (word / 256) as u8);
    push(next, cells, (word % 256) as u8)
}

// SP one place up.
pub fn raised(cpu: Registers) -> Registers
    ensures { record_of result ≡ stack.raised (record_of cpu) }
{
    cpu.with_sp(std::num::wrapping_add_u8(cpu.sp, 1))
}

// The byte one place up the stack.
pub fn pull(cpu: Registers, cells: &mut Cells) -> u8
    ensures { Performs (stack.pull (record_of cpu)) (lent cells) (produced (stack.raised (record_of cpu)) result) }
{
    cells::read(cells, 0x100 + std::num::wrapping_add_u8(cpu.sp, 1) as u16)
}
