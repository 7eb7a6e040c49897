// All that an instruction reads before it stores.
#![tactic(auto)]

mod bytes;
mod columns;
mod places;
mod several;
mod ways;

ghost use Rattle.memory.specs.Promises.{Reads};
ghost use Rattle.instructions.specs.Gather.{gather_of};
ghost use Rattle.instructions.specs.Rows.{row_of};

use editions::Edition;
use instructions::Operands;
use memory::Reading;
use processor::Processor;

// What the opcode's row reads, with PC behind the opcode. The low five bits pick a column of the table; first come the columns whose rows
// do not all read alike. Each column has an arm of its own, also where two do the same: a step is then cheaper (docs/SPEED.md).
pub fn gather(cpu: Processor, edition: Edition, bus: &mut Reading, op: u8) -> Operands
    ensures { Reads (gather_of edition (row_of op).mode op cpu) bus.old bus.new result }
{
    match op & 0x1F {
        0x09 => columns::column_09(cpu, bus, op),
        0x0D => columns::column_0d(cpu, bus, op),
        0x0E => columns::column_0e(cpu, bus, op),
        0x0F => columns::column_0f(cpu, bus, op),
        0x18 => columns::column_18(cpu, bus, op),
        0x19 => columns::column_19(cpu, bus, op),
        0x1A => columns::column_1a(cpu, bus, op),
        0x1E => columns::column_1e(cpu, bus, op),
        0x00 => bytes::implied(cpu),
        opcodes::TCALL_MASK => ways::table_vector(cpu, bus, op),
        opcodes::SET1_MASK => places::load(modes::d(cpu, bus), bus),
        opcodes::BBS_D_R_MASK => places::load(modes::d(cpu, bus), bus),
        0x04 => places::place(modes::d(cpu, bus), bus, op),
        0x05 => places::place(modes::abs(cpu, bus), bus, op),
        0x06 => places::place(modes::ix(cpu), bus, op),
        0x07 => places::place(modes::idx(cpu, edition, bus), bus, op),
        0x08 => bytes::byte_only(modes::fetch_u8(cpu, bus)),
        0x0A => several::memory_bit(cpu, bus),
        0x0B => places::place(modes::d(cpu, bus), bus, op),
        0x0C => places::place(modes::abs(cpu, bus), bus, op),
        0x10 => bytes::implied(cpu),
        0x11 => ways::table_vector(cpu, bus, op),
        opcodes::CLR1_D => places::load(modes::d(cpu, bus), bus),
        opcodes::BBC_D_R_MASK => places::load(modes::d(cpu, bus), bus),
        0x14 => places::place(modes::dx(cpu, bus), bus, op),
        0x15 => places::place(modes::absx(cpu, bus), bus, op),
        0x16 => places::place(modes::absy(cpu, bus), bus, op),
        0x17 => places::place(modes::idy(cpu, edition, bus), bus, op),
        0x1B => places::place(modes::dx(cpu, bus), bus, op),
        0x1C => bytes::implied(cpu),
        0x1D => bytes::implied(cpu),
        _ => columns::column_1f(cpu, bus, op),
    }
}
