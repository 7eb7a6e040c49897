// What a row picks where columns are alike: A with a byte, a target with a source, shifts.
ghost use Rattle.std.specs.Prelude.{◌≡◌, ◌<◌, ◌≢◌};
ghost use Rattle.instructions.specs.Families.{accumulator_group, pair_group, shift_group};
ghost use Rattle.by_column.specs.Columns.{Leaves, StoresByte};

use registers::Registers;

// A with a byte; in row 6, which stores, A stays.
pub fn accumulate(cpu: Registers, row: u8, v: u8) -> Registers
    requires { row < 8 }
    ensures { Leaves (accumulator_group row) cpu v 0 result }
{
    match row {
        0 => cpu.load_a(cpu.a | v),
        1 => cpu.load_a(cpu.a & v),
        2 => cpu.load_a(cpu.a ^ v),
        3 => cpu.cmp(cpu.a, v),
        4 => cpu.adc(cpu.a, v).in_a(),
        5 => cpu.sbc(cpu.a, v).in_a(),
        6 => cpu,
        _ => cpu.load_a(v),
    }
}

// A target with a source, in the rows that store: what comes out stands in z.
pub fn combine(cpu: Registers, row: u8, target: u8, source: u8) -> Registers
    requires row_bound { row < 6 }
    requires row_nonzero { row ≢ 3 }
    ensures leaves { Leaves (pair_group row) cpu source target result }
    ensures stores_byte { StoresByte (pair_group row) cpu source target result }
{
    match row {
        0 => cpu.nz(target | source),
        1 => cpu.nz(target & source),
        2 => cpu.nz(target ^ source),
        4 => cpu.adc(target, source),
        _ => cpu.sbc(target, source),
    }
}

// Shifts, DEC and INC, of which what comes out stands in z; in the last two rows Y, which row 6 stores and row 7 loads.
pub fn shift(cpu: Registers, row: u8, v: u8) -> Registers
    requires { row < 8 }
    ensures leaves { Leaves (shift_group row) cpu v 0 result }
    ensures stores_byte { row < 6 → StoresByte (shift_group row) cpu v 0 result }
{
    match row {
        0 => cpu.asl(v),
        1 => cpu.rol(v),
        2 => cpu.lsr(v),
        3 => cpu.ror(v),
        4 => cpu.dec(v),
        5 => cpu.inc(v),
        6 => cpu,
        _ => cpu.load_y(v),
    }
}
