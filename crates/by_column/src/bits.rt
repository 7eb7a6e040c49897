// Bits of memory: of the direct page, whose number is the row, and those that Mb names.
ghost use Rattle.std.specs.Prelude.{◌≡◌, ◌^◌, ◌<◌, ◌≤◌};
ghost use Rattle.laws.specs.Lent.{lent};
ghost use Rattle.instructions.specs.Effects.{with_bit, has_bit};
ghost use Rattle.by_column.specs.Columns.{Follows, carry_group, Leaves};

use cells::Cells;
use registers::Registers;

// The value of a bit.
fn value_of(number: u8) -> u8
    requires { number < 8 }
    ensures { (result ≡ 2 ^ number) × (result ≤ 255) }
{
    1u8 << number
}

// A byte with a bit set or cleared.
fn with_bit(byte: u8, bit: u8, on: bool) -> u8
    ensures { result ≡ with_bit on bit byte }
{
    if on { byte | bit } else { byte & (255 - bit) }
}

// Whether a byte has a bit.
fn has_bit(byte: u8, bit: u8) -> bool
    ensures { result ≡ has_bit bit byte }
{
    byte & bit != 0
}

// SET1
pub fn column_02(cpu: Registers, cells: &mut Cells, row: u8) -> Registers
    requires row_bound { row < 8 }
    ensures { Follows 0x02 row cpu (lent cells) result }
{
    let at = operands::d_off(cpu, cells, 0);
    let v = cells::read(cells, at);
    cells::store(cells, at, with_bit(v, value_of(row), true));
    cpu.past()
}

// CLR1
pub fn column_12(cpu: Registers, cells: &mut Cells, row: u8) -> Registers
    requires row_bound { row < 8 }
    ensures { Follows 0x12 row cpu (lent cells) result }
{
    let at = operands::d_off(cpu, cells, 0);
    let v = cells::read(cells, at);
    cells::store(cells, at, with_bit(v, value_of(row), false));
    cpu.past()
}

// BBS
pub fn column_03(cpu: Registers, cells: &mut Cells, row: u8) -> Registers
    requires row_bound { row < 8 }
    ensures { Follows 0x03 row cpu (lent cells) result }
{
    let at = operands::d_off(cpu, cells, 0);
    let v = cells::read(cells, at);
    operands::branch(cpu.past(), cells, has_bit(v, value_of(row)))
}

// BBC
pub fn column_13(cpu: Registers, cells: &mut Cells, row: u8) -> Registers
    requires row_bound { row < 8 }
    ensures { Follows 0x13 row cpu (lent cells) result }
{
    let at = operands::d_off(cpu, cells, 0);
    let v = cells::read(cells, at);
    operands::branch(cpu.past(), cells, !has_bit(v, value_of(row)))
}

// C with a bit that Mb names: all but the rows that store.
fn carry_with(cpu: Registers, row: u8, v: u8, bit: u8) -> Registers
    requires { row < 6 }
    ensures { Leaves (carry_group row) cpu v bit result }
{
    let one = registers::bit_if(has_bit(v, bit), 1);
    match row {
        0 => cpu.with_c(cpu.c | one),
        1 => cpu.with_c(cpu.c | 1 - one),
        2 => cpu.with_c(cpu.c & one),
        3 => cpu.with_c(cpu.c & 1 - one),
        4 => cpu.with_c(cpu.c ^ one),
        _ => cpu.with_c(one),
    }
}

// Mb: C with a bit, C into a bit, and a bit inverted.
pub fn column_0a(cpu: Registers, cells: &mut Cells, row: u8) -> Registers
    requires row_bound { row < 8 }
    ensures { Follows 0x0A row cpu (lent cells) result }
{
    let word = operands::fetch_u16(cpu, cells);
    let at = word % 8192;
    let bit = value_of((word / 8192) as u8);
    let v = cells::read(cells, at);
    let next = cpu.past().past();
    if row == 6 {
        cells::store(cells, at, with_bit(v, bit, cpu.c % 2 == 1));
        return next;
    }
    if row == 7 {
        cells::store(cells, at, v ^ bit);
        return next;
    }
    carry_with(next, row, v, bit)
}
