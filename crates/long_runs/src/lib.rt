// Long runs: the steps of a run on flat registers and one row of cells.
#![tactic(auto)]

ghost use Rattle.laws.specs.Lent.{lent};
ghost use Rattle.memory.specs.Promises.{Yields};
ghost use Rattle.instructions.specs.Step.{step_of};
ghost use Rattle.instructions.specs.Runs.{run_of};
ghost use Rattle.registers.specs.Flat.{record_of};
ghost use Rattle.cells.specs.Cells.{Performs};
ghost use Rattle.long_runs.specs.Runs.{Ends, taken_of};

use cells::Cells;
use editions::Edition;
use marks::Map;
use memory::Memory;
use processor::Processor;
use registers::Registers;

// The record that a run leaves, flat or not, and how many steps it took.
#[derive(Drop)]
pub struct Taken<R> {
    pub cpu: R,
    pub steps: u32,
}

// One instruction: the opcode at PC, and what the row of its column does.
fn instruction(cpu: Registers, edition: Edition, cells: &mut Cells) -> Registers
    ensures { Performs (step_of edition (record_of cpu)) (lent cells) (record_of result) }
{
    let opcode = operands::fetch(cpu, cells);
    let behind = cpu.past();
    match opcode % 32 {
        0x00 => by_column::column_00(behind, opcode / 32),
        0x01 => by_column::column_01(behind, cells, opcode / 32),
        0x02 => by_column::column_02(behind, cells, opcode / 32),
        0x03 => by_column::column_03(behind, cells, opcode / 32),
        0x04 => by_column::column_04(behind, cells, opcode / 32),
        0x05 => by_column::column_05(behind, cells, opcode / 32),
        0x06 => by_column::column_06(behind, cells, opcode / 32),
        0x07 => by_column::column_07(behind, edition, cells, opcode / 32),
        0x08 => by_column::column_08(behind, cells, opcode / 32),
        0x09 => by_column::column_09(behind, cells, opcode / 32),
        0x0A => by_column::column_0a(behind, cells, opcode / 32),
        0x0B => by_column::column_0b(behind, cells, opcode / 32),
        0x0C => by_column::column_0c(behind, cells, opcode / 32),
        0x0D => by_column::column_0d(behind, cells, opcode / 32),
        0x0E => by_column::column_0e(behind, cells, opcode / 32),
        0x0F => by_column::column_0f(behind, cells, opcode / 32),
        0x10 => by_column::column_10(behind, cells, opcode / 32),
        0x11 => by_column::column_11(behind, cells, opcode / 32),
        0x12 => by_column::column_12(behind, cells, opcode / 32),
        0x13 => by_column::column_13(behind, cells, opcode / 32),
        0x14 => by_column::column_14(behind, cells, opcode / 32),
        0x15 => by_column::column_15(behind, cells, opcode / 32),
        0x16 => by_column::column_16(behind, cells, opcode / 32),
        0x17 => by_column::column_17(behind, edition, cells, opcode / 32),
        0x18 => by_column::column_18(behind, cells, opcode / 32),
        0x19 => by_column::column_19(behind, cells, opcode / 32),
        0x1A => by_column::column_1a(behind, cells, opcode / 32),
        0x1B => by_column::column_1b(behind, cells, opcode / 32),
        0x1C => by_column::column_1c(behind, opcode / 32),
        0x1D => by_column::column_1d(behind, opcode / 32),
        0x1E => by_column::column_1e(behind, cells, opcode / 32),
        _ => by_column::column_1f(behind, cells, opcode / 32),
    }
}

// Steps while budget is left and the record is awake.
fn take_steps(
    start: Registers,
    edition: Edition,
    cells: &mut Cells,
    budget: u32,
) -> Taken<Registers>
    ensures { Ends edition budget start (lent cells) result }
{
    let mut next = start;
    let mut left = budget;
    while left > 0 && next.stop == 0 {
        // field by field, so that the loop carries numbers
        let cpu = Registers {
            a: next.a,
            x: next.x,
            y: next.y,
            sp: next.sp,
            pc: next.pc,
            n: next.n,
            z: next.z,
            v: next.v,
            h: next.h,
            c: next.c,
            page: next.page,
            rest: next.rest,
            stop: next.stop,
        };
        next = instruction(cpu, edition, cells);
        left -= 1;
    }
    Taken {
        cpu: next,
        steps: budget - left,
    }
}

// A run on memory and maps whose lengths are known, by way of cells: 131,072 bytes of stack. Not compiled into its caller, so that a short
// run makes no room for the cells; and since memory and maps, lent one by one, are then seen to stand apart from the cells, the cells are laid
// out eight at a time (docs/SPEED.md).
#[inline(never)]
pub fn run(
    cpu: Processor,
    edition: Edition,
    memory: &mut Memory,
    reads: &mut Map,
    writes: &mut Map,
    budget: u32,
) -> Taken<Processor>
    ensures { Yields (λ w. taken_of (run_of edition budget cpu w)) (lent memory) (lent reads) (lent writes) result }
{
    let mut row = [0u16; 65536];
    cells::lay_out(&mut row, memory, reads, writes);
    let ended = take_steps(Registers::of(cpu), edition, &mut row, budget);
    cells::put_back(&row, memory, reads, writes);
    Taken {
        cpu: ended.cpu.record(),
        steps: ended.steps,
    }
}
