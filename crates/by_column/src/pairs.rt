// A target with a source; X with memory.
ghost use Rattle.std.specs.Prelude.{◌<◌, ◌≤◌};
ghost use Rattle.laws.specs.Lent.{lent};
ghost use Rattle.modes.specs.Modes.{addressed};
ghost use Rattle.registers.specs.Flat.{record_of};
ghost use Rattle.cells.specs.Cells.{Performs};
ghost use Rattle.by_column.specs.Columns.{Follows, paired, moved};

use crate::families::combine;
use cells::Cells;
use registers::Registers;

// A source with the target at an address, PC behind the operand bytes.
fn combined(cpu: Registers, cells: &mut Cells, row: u8, at: u16, source: u8) -> Registers
    requires row_bound { row < 6 }
    ensures { Performs (paired row at source (record_of cpu)) (lent cells) (record_of result) }
{
    let target = cells::read(cells, at);
    if row == 3 {
        return cpu.cmp(target, source);
    }
    let next = combine(cpu, row, target, source);
    cells::store(cells, at, next.z);
    next
}

// MOV of X to or from an address, PC behind the operand bytes.
fn move_x(cpu: Registers, cells: &mut Cells, row: u8, at: u16) -> Registers
    requires le_row { (6 ≤ row) × (row < 8) }
    ensures { Performs (moved row (addressed (record_of cpu) at)) (lent cells) (record_of result) }
{
    if row == 6 {
        cells::store(cells, at, cpu.x);
        return cpu;
    }
    let v = cells::read(cells, at);
    cpu.load_x(v)
}

// d,d; in the last two rows MOV !a,X and MOV X,!a.
pub fn column_09(cpu: Registers, cells: &mut Cells, row: u8) -> Registers
    requires row_bound { row < 8 }
    ensures { Follows 0x09 row cpu (lent cells) result }
{
    if row >= 6 {
        let at = operands::abs_off(cpu, cells, 0);
        return move_x(cpu.past().past(), cells, row, at);
    }
    let from = operands::d_off(cpu, cells, 0);
    let next = cpu.past();
    let at = operands::d_off(next, cells, 0);
    let source = cells::read(cells, from);
    combined(next.past(), cells, row, at, source)
}

// d,#i; in the last two rows MOV d,X and MOV X,d.
pub fn column_18(cpu: Registers, cells: &mut Cells, row: u8) -> Registers
    requires row_bound { row < 8 }
    ensures { Follows 0x18 row cpu (lent cells) result }
{
    if row >= 6 {
        let at = operands::d_off(cpu, cells, 0);
        return move_x(cpu.past(), cells, row, at);
    }
    let source = operands::fetch(cpu, cells);
    let next = cpu.past();
    let at = operands::d_off(next, cells, 0);
    combined(next.past(), cells, row, at, source)
}

// (X),(Y); in the last two rows MOV d+Y,X and MOV X,d+Y.
pub fn column_19(cpu: Registers, cells: &mut Cells, row: u8) -> Registers
    requires row_bound { row < 8 }
    ensures { Follows 0x19 row cpu (lent cells) result }
{
    if row >= 6 {
        let at = operands::d_off(cpu, cells, cpu.y);
        return move_x(cpu.past(), cells, row, at);
    }
    let from = operands::direct(cpu, cpu.y, 0);
    let source = cells::read(cells, from);
    let at = operands::direct(cpu, cpu.x, 0);
    combined(cpu, cells, row, at, source)
}
