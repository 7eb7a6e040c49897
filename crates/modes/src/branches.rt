// Branches.
ghost use Rattle.memory.specs.Promises.{Reads};
ghost use Rattle.modes.specs.Branches.{branched, branched_if};

use crate::addresses::{fetch_u8, past};
use memory::Reading;
use processor::Processor;

// Reads the displacement at PC and goes where it leads.
pub fn branch_imm(cpu: Processor, bus: &mut Reading) -> Processor
    ensures { Reads (branched cpu) bus.old bus.new result }
{
    let operand = fetch_u8(cpu, bus);
    let mut next = operand.cpu;
    next.pc = signed::branch_target(next.pc, operand.byte);
    next
}

// Branches if the test holds; else PC passes the displacement by, which is then not read.
pub fn read_and_branch_if(cpu: Processor, bus: &mut Reading, test: bool) -> Processor
    ensures { Reads (branched_if test cpu) bus.old bus.new result }
{
    if test {
        return branch_imm(cpu, bus);
    }
    past(cpu)
}
