// Words of the direct page; MOV d,d.
ghost use Rattle.std.specs.Prelude.{◌<◌, ◌≤◌};
ghost use Rattle.laws.specs.Lent.{lent};
ghost use Rattle.cells.specs.Cells.{Performs};
ghost use Rattle.registers.specs.Flat.{record_of};
ghost use Rattle.by_column.specs.Columns.{Follows, word_group, Leaves, word_stepped};

use cells::Cells;
use registers::Registers;

// DECW and INCW: the word plus a number, stored.
fn step_word(cpu: Registers, cells: &mut Cells, by: u16) -> Registers
    ensures { Performs (word_stepped by (record_of cpu)) (lent cells) (record_of result) }
{
    let byte = operands::fetch(cpu, cells);
    let at = operands::direct(cpu, byte, 0);
    let next = operands::direct(cpu, byte, 1);
    let low = cells::read(cells, at);
    let high = cells::read(cells, next);
    let word = std::num::wrapping_add_u16(processor::word(low, high), by);
    let l = (word % 256) as u8;
    let h = (word / 256) as u8;
    cells::store(cells, at, l);
    cells::store(cells, next, h);
    cpu.nz_word(l, h).past()
}

// CMPW, ADDW, SUBW and MOVW of YA with a word.
fn word_with(cpu: Registers, row: u8, low: u8, high: u8) -> Registers
    requires { (2 ≤ row) × (row < 6) }
    ensures { Leaves (word_group row) cpu low high result }
{
    match row {
        2 => cpu.cmpw(low, high),
        3 => cpu.addw(low, high),
        4 => cpu.subw(low, high),
        _ => cpu.load_ya(low, high),
    }
}

fn with_word(cpu: Registers, cells: &mut Cells, row: u8) -> Registers
    requires le_row { (2 ≤ row) × (row < 6) }
    ensures { Follows 0x1A row cpu (lent cells) result }
{
    let byte = operands::fetch(cpu, cells);
    let low = cells::read(cells, operands::direct(cpu, byte, 0));
    let high = cells::read(cells, operands::direct(cpu, byte, 1));
    word_with(cpu.past(), row, low, high)
}

// MOVW d,YA
fn store_ya(cpu: Registers, cells: &mut Cells) -> Registers
    ensures { Follows 0x1A 6 cpu (lent cells) result }
{
    let byte = operands::fetch(cpu, cells);
    cells::store(cells, operands::direct(cpu, byte, 0), cpu.a);
    cells::store(cells, operands::direct(cpu, byte, 1), cpu.y);
    cpu.past()
}

// MOV d,d
fn direct_to_direct(cpu: Registers, cells: &mut Cells) -> Registers
    ensures { Follows 0x1A 7 cpu (lent cells) result }
{
    let from = operands::d_off(cpu, cells, 0);
    let next = cpu.past();
    let at = operands::d_off(next, cells, 0);
    let v = cells::read(cells, from);
    cells::store(cells, at, v);
    next.past()
}

pub fn column_1a(cpu: Registers, cells: &mut Cells, row: u8) -> Registers
    requires row_bound { row < 8 }
    ensures { Follows 0x1A row cpu (lent cells) result }
{
    match row {
        0 => step_word(cpu, cells, 65535),
        1 => step_word(cpu, cells, 1),
        2 | 3 | 4 | 5 => with_word(cpu, cells, row),
        6 => store_ya(cpu, cells),
        _ => direct_to_direct(cpu, cells),
    }
}
