// Jumps, calls and returns; what else stands in their columns.
ghost use Rattle.std.specs.Prelude.{◌<◌};
ghost use Rattle.laws.specs.Lent.{lent};
ghost use Rattle.modes.specs.Stack.{called};
ghost use Rattle.registers.specs.Flat.{record_of};
ghost use Rattle.cells.specs.Cells.{Performs};
ghost use Rattle.by_column.specs.Columns.{Follows};

use cells::Cells;
use registers::Registers;

// PC on the stack, and on to an address.
fn call(cpu: Registers, cells: &mut Cells, to: u16) -> Registers
    ensures { Performs (called to (record_of cpu)) (lent cells) (record_of result) }
{
    operands::push_word(cpu, cells, cpu.pc).jump(to)
}

// TCALL with an even number
pub fn column_01(cpu: Registers, cells: &mut Cells, row: u8) -> Registers
    requires row_bound { row < 8 }
    ensures { Follows 0x01 row cpu (lent cells) result }
{
    let to = operands::read_u16(cells, 0xFFDE - row as u16 * 4);
    call(cpu, cells, to)
}

// TCALL with an odd number
pub fn column_11(cpu: Registers, cells: &mut Cells, row: u8) -> Registers
    requires row_bound { row < 8 }
    ensures { Follows 0x11 row cpu (lent cells) result }
{
    let to = operands::read_u16(cells, 0xFFDC - row as u16 * 4);
    call(cpu, cells, to)
}

// BRK
fn brk(cpu: Registers, cells: &mut Cells) -> Registers
    ensures { Follows 0x0F 0 cpu (lent cells) result }
{
    let to = operands::read_u16(cells, 0xFFDE);
    let next = cpu.with_rest(16);
    let pushed = operands::push_word(next, cells, cpu.pc);
    operands::push(pushed, cells, cpu.status()).jump(to)
}

// PCALL
fn pcall(cpu: Registers, cells: &mut Cells) -> Registers
    ensures { Follows 0x0F 2 cpu (lent cells) result }
{
    let byte = operands::fetch(cpu, cells);
    call(cpu.past(), cells, 0xFF00 + byte as u16)
}

// RET
fn ret(cpu: Registers, cells: &mut Cells) -> Registers
    ensures { Follows 0x0F 3 cpu (lent cells) result }
{
    let low = operands::pull(cpu, cells);
    let next = operands::raised(cpu);
    let high = operands::pull(next, cells);
    operands::raised(next).jump(processor::word(low, high))
}

// RETI
fn reti(cpu: Registers, cells: &mut Cells) -> Registers
    ensures { Follows 0x1F 3 cpu (lent cells) result }
{
    let status = operands::pull(cpu, cells);
    let behind = operands::raised(cpu);
    let low = operands::pull(behind, cells);
    let next = operands::raised(behind);
    let high = operands::pull(next, cells);
    let to = processor::word(low, high);
    operands::raised(next).with_status(status).jump(to)
}

// MOV d,#i
fn immediate_to_direct(cpu: Registers, cells: &mut Cells) -> Registers
    ensures { Follows 0x0F 4 cpu (lent cells) result }
{
    let v = operands::fetch(cpu, cells);
    let next = cpu.past();
    let at = operands::d_off(next, cells, 0);
    cells::store(cells, at, v);
    next.past()
}

// MOV (X)+,A
fn store_and_raise(cpu: Registers, cells: &mut Cells) -> Registers
    ensures { Follows 0x0F 5 cpu (lent cells) result }
{
    let at = operands::direct(cpu, cpu.x, 0);
    cells::store(cells, at, cpu.a);
    cpu.with_x(std::num::wrapping_add_u8(cpu.x, 1))
}

// MOV A,(X)+
fn load_and_raise(cpu: Registers, cells: &mut Cells) -> Registers
    ensures { Follows 0x1F 5 cpu (lent cells) result }
{
    let at = operands::direct(cpu, cpu.x, 0);
    let v = cells::read(cells, at);
    cpu.load_a(v).with_x(std::num::wrapping_add_u8(cpu.x, 1))
}

// BRK; BRA; PCALL; RET; MOV d,#i; MOV (X)+,A; MUL; SLEEP
pub fn column_0f(cpu: Registers, cells: &mut Cells, row: u8) -> Registers
    requires row_bound { row < 8 }
    ensures { Follows 0x0F row cpu (lent cells) result }
{
    match row {
        0 => brk(cpu, cells),
        1 => operands::branch(cpu, cells, true),
        2 => pcall(cpu, cells),
        3 => ret(cpu, cells),
        4 => immediate_to_direct(cpu, cells),
        5 => store_and_raise(cpu, cells),
        6 => cpu.mul(),
        _ => cpu.with_stop(1),
    }
}

// JMP [!a+X]
fn jump_by(cpu: Registers, cells: &mut Cells) -> Registers
    ensures { Follows 0x1F 0 cpu (lent cells) result }
{
    let at = operands::abs_off(cpu, cells, cpu.x);
    let to = operands::read_u16(cells, at);
    cpu.jump(to)
}

// JMP !a
fn jump_to(cpu: Registers, cells: &mut Cells) -> Registers
    ensures { Follows 0x1F 2 cpu (lent cells) result }
{
    let to = operands::abs_off(cpu, cells, 0);
    cpu.jump(to)
}

// CALL !a
fn call_to(cpu: Registers, cells: &mut Cells) -> Registers
    ensures { Follows 0x1F 1 cpu (lent cells) result }
{
    let to = operands::abs_off(cpu, cells, 0);
    call(cpu.past().past(), cells, to)
}

// JMP [!a+X]; CALL; JMP; RETI; XCN; MOV A,(X)+; DAA; STOP
pub fn column_1f(cpu: Registers, cells: &mut Cells, row: u8) -> Registers
    requires row_bound { row < 8 }
    ensures { Follows 0x1F row cpu (lent cells) result }
{
    match row {
        0 => jump_by(cpu, cells),
        1 => call_to(cpu, cells),
        2 => jump_to(cpu, cells),
        3 => reti(cpu, cells),
        4 => cpu.xcn(),
        5 => load_and_raise(cpu, cells),
        6 => cpu.daa(),
        _ => cpu.with_stop(2),
    }
}
