// A with a byte in memory, in eight columns; with the operand byte in one more.
ghost use Rattle.std.specs.Prelude.{◌<◌};
ghost use Rattle.laws.specs.Lent.{lent};
ghost use Rattle.by_column.specs.Columns.{Follows, Does-in};

use crate::families::accumulate;
use cells::Cells;
use editions::Edition;
use registers::Registers;

// d
pub fn column_04(cpu: Registers, cells: &mut Cells, row: u8) -> Registers
    requires row_bound { row < 8 }
    ensures { Follows 0x04 row cpu (lent cells) result }
{
    let at = operands::d_off(cpu, cells, 0);
    let next = cpu.past();
    if row == 6 {
        cells::store(cells, at, cpu.a);
        return next;
    }
    let v = cells::read(cells, at);
    accumulate(next, row, v)
}

// !a
pub fn column_05(cpu: Registers, cells: &mut Cells, row: u8) -> Registers
    requires row_bound { row < 8 }
    ensures { Follows 0x05 row cpu (lent cells) result }
{
    let at = operands::abs_off(cpu, cells, 0);
    let next = cpu.past().past();
    if row == 6 {
        cells::store(cells, at, cpu.a);
        return next;
    }
    let v = cells::read(cells, at);
    accumulate(next, row, v)
}

// (X)
pub fn column_06(cpu: Registers, cells: &mut Cells, row: u8) -> Registers
    requires row_bound { row < 8 }
    ensures { Follows 0x06 row cpu (lent cells) result }
{
    let at = operands::direct(cpu, cpu.x, 0);
    if row == 6 {
        cells::store(cells, at, cpu.a);
        return cpu;
    }
    let v = cells::read(cells, at);
    accumulate(cpu, row, v)
}

// [d+X]
pub fn column_07(cpu: Registers, edition: Edition, cells: &mut Cells, row: u8) -> Registers
    requires row_bound { row < 8 }
    ensures { Does-in edition 0x07 row cpu (lent cells) result }
{
    let at = operands::idx(cpu, edition, cells);
    let next = cpu.past();
    if row == 6 {
        cells::store(cells, at, cpu.a);
        return next;
    }
    let v = cells::read(cells, at);
    accumulate(next, row, v)
}

// d+X
pub fn column_14(cpu: Registers, cells: &mut Cells, row: u8) -> Registers
    requires row_bound { row < 8 }
    ensures { Follows 0x14 row cpu (lent cells) result }
{
    let at = operands::d_off(cpu, cells, cpu.x);
    let next = cpu.past();
    if row == 6 {
        cells::store(cells, at, cpu.a);
        return next;
    }
    let v = cells::read(cells, at);
    accumulate(next, row, v)
}

// !a+X
pub fn column_15(cpu: Registers, cells: &mut Cells, row: u8) -> Registers
    requires row_bound { row < 8 }
    ensures { Follows 0x15 row cpu (lent cells) result }
{
    let at = operands::abs_off(cpu, cells, cpu.x);
    let next = cpu.past().past();
    if row == 6 {
        cells::store(cells, at, cpu.a);
        return next;
    }
    let v = cells::read(cells, at);
    accumulate(next, row, v)
}

// !a+Y
pub fn column_16(cpu: Registers, cells: &mut Cells, row: u8) -> Registers
    requires row_bound { row < 8 }
    ensures { Follows 0x16 row cpu (lent cells) result }
{
    let at = operands::abs_off(cpu, cells, cpu.y);
    let next = cpu.past().past();
    if row == 6 {
        cells::store(cells, at, cpu.a);
        return next;
    }
    let v = cells::read(cells, at);
    accumulate(next, row, v)
}

// [d]+Y
pub fn column_17(cpu: Registers, edition: Edition, cells: &mut Cells, row: u8) -> Registers
    requires row_bound { row < 8 }
    ensures { Does-in edition 0x17 row cpu (lent cells) result }
{
    let at = operands::idy(cpu, edition, cells);
    let next = cpu.past();
    if row == 6 {
        cells::store(cells, at, cpu.a);
        return next;
    }
    let v = cells::read(cells, at);
    accumulate(next, row, v)
}

// #i; CMP X in the row that stores elsewhere.
pub fn column_08(cpu: Registers, cells: &mut Cells, row: u8) -> Registers
    requires row_bound { row < 8 }
    ensures { Follows 0x08 row cpu (lent cells) result }
{
    let v = operands::fetch(cpu, cells);
    let next = cpu.past();
    if row == 6 {
        return next.cmp(next.x, v);
    }
    accumulate(next, row, v)
}
