// The engine: a step and a run of the processor on lent memory and maps.
#![tactic(auto)]

mod phases;

ghost use Rattle.laws.specs.Lent.{lent};
ghost use Rattle.memory.specs.Promises.{Answers, Yields};
ghost use Rattle.engine.specs.Entry.{told, run_of, step_answer, run_answer};

use editions::Edition;
use marks::Map;
use memory::{Bus, Memory};
use processor::Processor;
use refusals::Refusal;

// What a step or a run leaves: the record, whose state says why it ended, and how many steps were taken.
#[derive(Drop)]
pub struct Ran {
    pub cpu: Processor,
    pub steps: u32,
}

// Steps while budget is left and the record is awake.
pub fn take_steps(cpu: Processor, edition: Edition, bus: &mut Bus, budget: u32) -> Ran
    ensures { Answers (λ w. told (run_of edition budget cpu w)) bus.old bus.new result }
{
    let mut next = cpu;
    let mut left: u32 = budget;
    // not a `for`: one that breaks off has to count the steps besides
    while left > 0 && next.is_awake() {
        next = phases::instruction(next, edition, bus);
        left = left - 1;
    }
    let steps = budget - left;
    Ran { cpu: next, steps }
}

// The same steps on flat registers and cells, at a cost before the first step and behind the last.
fn take_long(cpu: Processor, edition: Edition, bus: &mut Bus, budget: u32) -> Ran
    ensures { Answers (λ w. told (run_of edition budget cpu w)) bus.old bus.new result }
{
    let taken = long_runs::run(cpu, edition, bus.memory, bus.reads, bus.writes, budget);
    Ran {
        cpu: taken.cpu,
        steps: taken.steps,
    }
}

// A run on memory and maps that have their lengths, the way that is cheaper for its budget.
pub fn run_on(cpu: Processor, edition: Edition, bus: &mut Bus, budget: u32) -> Ran
    ensures { Answers (λ w. told (run_of edition budget cpu w)) bus.old bus.new result }
{
    // where the long way begins to pay: docs/DECISIONS.md
    if budget < 12000 {
        return take_steps(cpu, edition, bus, budget);
    }
    take_long(cpu, edition, bus, budget)
}

// The same, on memory and maps that are lent one by one.
fn run_within(
    cpu: Processor,
    edition: Edition,
    memory: &mut Memory,
    reads: &mut Map,
    writes: &mut Map,
    budget: u32,
) -> Ran
    ensures { Yields (λ w. told (run_of edition budget cpu w)) (lent memory) (lent reads) (lent writes) result }
{
    let mut bus = Bus {
        memory,
        reads,
        writes,
    };
    run_on(cpu, edition, &mut bus, budget)
}

// A run in one edition, given by its number, since a caller may give any: as many steps as the budget has, or fewer where SLEEP or STOP ends
// it. A record that one of the two has put to rest takes no step until it is woken. Refusals: Edition, neither 1 nor 2; Memory, not 65,536
// bytes; Map, not 8,192 bytes.
pub fn run(
    cpu: Processor,
    edition: u8,
    memory: &mut [u8],
    reads: &mut [u8],
    writes: &mut [u8],
    budget: u32,
) -> Result<Ran, Refusal>
    ensures { Yields (run_answer edition budget cpu) (lent memory) (lent reads) (lent writes) result }
{
    let edition = Edition::try_from(edition)?;
    let Some(memory) = memory.as_mut_array::<65536>() else {
        return Err(Refusal::Memory);
    };
    let Some(reads) = reads.as_mut_array::<8192>() else {
        return Err(Refusal::Map);
    };
    let Some(writes) = writes.as_mut_array::<8192>() else {
        return Err(Refusal::Map);
    };
    Ok(run_within(cpu, edition, memory, reads, writes, budget))
}

// One step: a run of budget 1, so that the step loop is the one caller of `instruction`, which is then compiled into it
// (docs/SPEED.md). Refusals as for a run.
pub fn step(
    cpu: Processor,
    edition: u8,
    memory: &mut [u8],
    reads: &mut [u8],
    writes: &mut [u8],
) -> Result<Ran, Refusal>
    ensures { Yields (step_answer edition cpu) (lent memory) (lent reads) (lent writes) result }
{
    run(cpu, edition, memory, reads, writes, 1)
}
