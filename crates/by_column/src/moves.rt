// Pushes, operand bytes with X and Y, and what needs no memory: shifts of A, moves between registers.
ghost use Rattle.std.specs.Prelude.{◌<◌};
ghost use Rattle.laws.specs.Lent.{lent};
ghost use Rattle.by_column.specs.Columns.{Follows, Becomes};

use cells::Cells;
use registers::Registers;

// MOV Y,#i
fn immediate_y(cpu: Registers, cells: &mut Cells) -> Registers
    ensures { Follows 0x0D 4 cpu (lent cells) result }
{
    let v = operands::fetch(cpu, cells);
    cpu.load_y(v).past()
}

// CMP Y,#i
fn compare_y(cpu: Registers, cells: &mut Cells) -> Registers
    ensures { Follows 0x0D 5 cpu (lent cells) result }
{
    let v = operands::fetch(cpu, cells);
    cpu.cmp(cpu.y, v).past()
}

// MOV X,#i
fn immediate_x(cpu: Registers, cells: &mut Cells) -> Registers
    ensures { Follows 0x0D 6 cpu (lent cells) result }
{
    let v = operands::fetch(cpu, cells);
    cpu.load_x(v).past()
}

// PUSH PSW, A, X, Y; MOV Y,#i; CMP Y,#i; MOV X,#i; NOTC
pub fn column_0d(cpu: Registers, cells: &mut Cells, row: u8) -> Registers
    requires row_bound { row < 8 }
    ensures { Follows 0x0D row cpu (lent cells) result }
{
    match row {
        0 => operands::push(cpu, cells, cpu.status()),
        1 => operands::push(cpu, cells, cpu.a),
        2 => operands::push(cpu, cells, cpu.x),
        3 => operands::push(cpu, cells, cpu.y),
        4 => immediate_y(cpu, cells),
        5 => compare_y(cpu, cells),
        6 => immediate_x(cpu, cells),
        _ => cpu.with_c(1 - cpu.c % 2),
    }
}

// ASL, ROL, LSR, ROR, DEC and INC of A; DEC and INC of Y
pub fn column_1c(cpu: Registers, row: u8) -> Registers
    requires { row < 8 }
    ensures { Becomes 0x1C row cpu result }
{
    match row {
        0 => cpu.asl(cpu.a).in_a(),
        1 => cpu.rol(cpu.a).in_a(),
        2 => cpu.lsr(cpu.a).in_a(),
        3 => cpu.ror(cpu.a).in_a(),
        4 => cpu.dec(cpu.a).in_a(),
        5 => cpu.inc(cpu.a).in_a(),
        6 => cpu.load_y(processor::difference(cpu.y, 1)),
        _ => cpu.load_y(std::num::wrapping_add_u8(cpu.y, 1)),
    }
}

// DEC X, INC X; MOV X,A; MOV A,X; MOV X,SP; MOV SP,X; MOV A,Y; MOV Y,A
pub fn column_1d(cpu: Registers, row: u8) -> Registers
    requires { row < 8 }
    ensures { Becomes 0x1D row cpu result }
{
    match row {
        0 => cpu.load_x(processor::difference(cpu.x, 1)),
        1 => cpu.load_x(std::num::wrapping_add_u8(cpu.x, 1)),
        2 => cpu.load_x(cpu.a),
        3 => cpu.load_a(cpu.x),
        4 => cpu.load_x(cpu.sp),
        5 => cpu.with_sp(cpu.x),
        6 => cpu.load_a(cpu.y),
        _ => cpu.load_y(cpu.a),
    }
}
