// Tests of bits, comparisons, with their branches; pops; DIV and DAS.
ghost use Rattle.std.specs.Prelude.{◌<◌};
ghost use Rattle.laws.specs.Lent.{lent};
ghost use Rattle.modes.specs.Modes as modes;
ghost use Rattle.instructions.specs.Rows.Operation.{cbne as compares_and_branches};
ghost use Rattle.registers.specs.Flat.{record_of};
ghost use Rattle.cells.specs.Cells.{Performs};
ghost use Rattle.by_column.specs.Columns.{Follows, compared_at};

use cells::Cells;
use registers::Registers;

// TSET1
fn tset(cpu: Registers, cells: &mut Cells) -> Registers
    ensures { Follows 0x0E 0 cpu (lent cells) result }
{
    let at = operands::abs_off(cpu, cells, 0);
    let v = cells::read(cells, at);
    cells::store(cells, at, v | cpu.a);
    cpu.nz(processor::difference(cpu.a, v)).past().past()
}

// TCLR1
fn tclr(cpu: Registers, cells: &mut Cells) -> Registers
    ensures { Follows 0x0E 2 cpu (lent cells) result }
{
    let at = operands::abs_off(cpu, cells, 0);
    let v = cells::read(cells, at);
    cells::store(cells, at, v & (255 - cpu.a));
    cpu.nz(processor::difference(cpu.a, v)).past().past()
}

// CBNE, d plus an index
fn cbne(cpu: Registers, cells: &mut Cells, index: u8) -> Registers
    ensures { Performs (compared_at (modes.direct index (record_of cpu)) compares_and_branches) (lent cells) (record_of result) }
{
    let at = operands::d_off(cpu, cells, index);
    let v = cells::read(cells, at);
    operands::branch(cpu.past(), cells, cpu.a != v)
}

// DBNZ on memory, which stores before it reads its displacement
fn dbnz_memory(cpu: Registers, cells: &mut Cells) -> Registers
    ensures { Follows 0x0E 3 cpu (lent cells) result }
{
    let at = operands::d_off(cpu, cells, 0);
    let v = cells::read(cells, at);
    let less = processor::difference(v, 1);
    cells::store(cells, at, less);
    operands::branch(cpu.past(), cells, less != 0)
}

// DBNZ Y
fn dbnz_y(cpu: Registers, cells: &mut Cells) -> Registers
    ensures { Follows 0x1E 7 cpu (lent cells) result }
{
    let less = processor::difference(cpu.y, 1);
    operands::branch(cpu.with_y(less), cells, less != 0)
}

// Pops: the byte from the stack, and SP one up.
fn pop_psw(cpu: Registers, cells: &mut Cells) -> Registers
    ensures { Follows 0x0E 4 cpu (lent cells) result }
{
    let v = operands::pull(cpu, cells);
    operands::raised(cpu).with_status(v)
}

fn pop_a(cpu: Registers, cells: &mut Cells) -> Registers
    ensures { Follows 0x0E 5 cpu (lent cells) result }
{
    let v = operands::pull(cpu, cells);
    operands::raised(cpu).with_a(v)
}

fn pop_x(cpu: Registers, cells: &mut Cells) -> Registers
    ensures { Follows 0x0E 6 cpu (lent cells) result }
{
    let v = operands::pull(cpu, cells);
    operands::raised(cpu).with_x(v)
}

fn pop_y(cpu: Registers, cells: &mut Cells) -> Registers
    ensures { Follows 0x0E 7 cpu (lent cells) result }
{
    let v = operands::pull(cpu, cells);
    operands::raised(cpu).with_y(v)
}

// TSET1; CBNE d; TCLR1; DBNZ d; POP PSW, A, X, Y
pub fn column_0e(cpu: Registers, cells: &mut Cells, row: u8) -> Registers
    requires row_bound { row < 8 }
    ensures { Follows 0x0E row cpu (lent cells) result }
{
    match row {
        0 => tset(cpu, cells),
        1 => cbne(cpu, cells, 0),
        2 => tclr(cpu, cells),
        3 => dbnz_memory(cpu, cells),
        4 => pop_psw(cpu, cells),
        5 => pop_a(cpu, cells),
        6 => pop_x(cpu, cells),
        _ => pop_y(cpu, cells),
    }
}

// CMP X,!a
fn compare_x_abs(cpu: Registers, cells: &mut Cells) -> Registers
    ensures { Follows 0x1E 0 cpu (lent cells) result }
{
    let at = operands::abs_off(cpu, cells, 0);
    let v = cells::read(cells, at);
    cpu.cmp(cpu.x, v).past().past()
}

// CMP X,d
fn compare_x_d(cpu: Registers, cells: &mut Cells) -> Registers
    ensures { Follows 0x1E 1 cpu (lent cells) result }
{
    let at = operands::d_off(cpu, cells, 0);
    let v = cells::read(cells, at);
    cpu.cmp(cpu.x, v).past()
}

// CMP Y,!a
fn compare_y_abs(cpu: Registers, cells: &mut Cells) -> Registers
    ensures { Follows 0x1E 2 cpu (lent cells) result }
{
    let at = operands::abs_off(cpu, cells, 0);
    let v = cells::read(cells, at);
    cpu.cmp(cpu.y, v).past().past()
}

// CMP Y,d
fn compare_y_d(cpu: Registers, cells: &mut Cells) -> Registers
    ensures { Follows 0x1E 3 cpu (lent cells) result }
{
    let at = operands::d_off(cpu, cells, 0);
    let v = cells::read(cells, at);
    cpu.cmp(cpu.y, v).past()
}

// CMP X and CMP Y; DIV; DAS; CBNE d+X; DBNZ Y
pub fn column_1e(cpu: Registers, cells: &mut Cells, row: u8) -> Registers
    requires row_bound { row < 8 }
    ensures { Follows 0x1E row cpu (lent cells) result }
{
    match row {
        0 => compare_x_abs(cpu, cells),
        1 => compare_x_d(cpu, cells),
        2 => compare_y_abs(cpu, cells),
        3 => compare_y_d(cpu, cells),
        4 => cpu.div(),
        5 => cpu.das(),
        6 => cbne(cpu, cells, cpu.x),
        _ => dbnz_y(cpu, cells),
    }
}
