// Shifts, DEC and INC of memory; Y with memory.
ghost use Rattle.std.specs.Prelude.{◌<◌};
ghost use Rattle.laws.specs.Lent.{lent};
ghost use Rattle.by_column.specs.Columns.{Follows};

use crate::families::shift;
use cells::Cells;
use registers::Registers;

// d
pub fn column_0b(cpu: Registers, cells: &mut Cells, row: u8) -> Registers
    requires row_bound { row < 8 }
    ensures { Follows 0x0B row cpu (lent cells) result }
{
    let at = operands::d_off(cpu, cells, 0);
    let behind = cpu.past();
    if row == 6 {
        cells::store(cells, at, cpu.y);
        return behind;
    }
    let v = cells::read(cells, at);
    let next = shift(behind, row, v);
    if row == 7 {
        return next;
    }
    cells::store(cells, at, next.z);
    next
}

// !a
pub fn column_0c(cpu: Registers, cells: &mut Cells, row: u8) -> Registers
    requires row_bound { row < 8 }
    ensures { Follows 0x0C row cpu (lent cells) result }
{
    let at = operands::abs_off(cpu, cells, 0);
    let behind = cpu.past().past();
    if row == 6 {
        cells::store(cells, at, cpu.y);
        return behind;
    }
    let v = cells::read(cells, at);
    let next = shift(behind, row, v);
    if row == 7 {
        return next;
    }
    cells::store(cells, at, next.z);
    next
}

// d+X
pub fn column_1b(cpu: Registers, cells: &mut Cells, row: u8) -> Registers
    requires row_bound { row < 8 }
    ensures { Follows 0x1B row cpu (lent cells) result }
{
    let at = operands::d_off(cpu, cells, cpu.x);
    let behind = cpu.past();
    if row == 6 {
        cells::store(cells, at, cpu.y);
        return behind;
    }
    let v = cells::read(cells, at);
    let next = shift(behind, row, v);
    if row == 7 {
        return next;
    }
    cells::store(cells, at, next.z);
    next
}
