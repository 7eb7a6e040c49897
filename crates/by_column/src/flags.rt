// Flags, and the branches by them.
ghost use Rattle.std.specs.Prelude.{◌≡◌, ◌<◌};
ghost use Rattle.laws.specs.Lent.{lent};
ghost use Rattle.registers.specs.Flat.{record_of};
ghost use Rattle.by_column.specs.Columns.{Follows, Becomes, branch_flag};

use cells::Cells;
use registers::Registers;

// NOP, and the instructions that set or clear a flag.
pub fn column_00(cpu: Registers, row: u8) -> Registers
    requires { row < 8 }
    ensures { Becomes 0x00 row cpu result }
{
    match row {
        0 => cpu,
        1 => cpu.with_page(0),
        2 => cpu.with_page(256),
        3 => cpu.with_c(0),
        4 => cpu.with_c(1),
        5 => cpu.with_rest(cpu.rest / 16 % 2 * 16 + 4),
        6 => cpu.with_rest(cpu.rest / 16 % 2 * 16),
        _ => cpu.with_vh(0, 0),
    }
}

// Whether a branch by a flag is taken.
fn branches(cpu: Registers, row: u8) -> bool
    requires { row < 8 }
    ensures { result ≡ branch_flag row (record_of cpu).psw }
{
    match row {
        0 => cpu.n < 128,
        1 => cpu.n >= 128,
        2 => cpu.v < 128,
        3 => cpu.v >= 128,
        4 => cpu.c % 2 != 1,
        5 => cpu.c % 2 == 1,
        6 => cpu.z != 0,
        _ => cpu.z == 0,
    }
}

// BPL, BMI, BVC, BVS, BCC, BCS, BNE, BEQ
pub fn column_10(cpu: Registers, cells: &mut Cells, row: u8) -> Registers
    requires row_bound { row < 8 }
    ensures { Follows 0x10 row cpu (lent cells) result }
{
    operands::branch(cpu, cells, branches(cpu, row))
}
