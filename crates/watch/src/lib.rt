// A run that is watched: it also tells which device addresses, 00F0 to 00FF, its steps read. The read map does not tell that, since it
// marks no read behind a store, and a device's answer is not what was stored there last.
#![tactic(auto)]

ghost use Rattle.std.specs.Prelude.{◌≡◌};
ghost use Rattle.laws.specs.Lent.{lent};
ghost use Rattle.memory.specs.Promises.{Answers, Yields};
ghost use Rattle.watch.specs.Calls.{watching, watched_run};
ghost use Rattle.watch.specs.Marks.{Marks, SetAside, PutBack, with_marks};

use editions::Edition;
use engine::Ran;
use marks::Map;
use memory::{Bus, Memory};
use processor::Processor;
use refusals::Refusal;

// What a run answers, and which device addresses its steps read: the bit of value 2^j stands for 00F0 + j.
#[derive(Drop)]
pub struct Watched {
    pub ran: Ran,
    pub devices: u16,
}

// The marks of the device addresses in a map: its bytes 30 and 31.
pub fn marks_of(map: &Map) -> u16
    ensures { Marks map.now result }
{
    u16::from_le_bytes([map[30], map[31]])
}

// Puts marks in the place of these.
pub fn put_marks(map: &mut Map, marks: u16)
    ensures { map.new ≡ with_marks map.old marks }
{
    let [low, high] = marks.to_le_bytes();
    map[30] = low;
    map[31] = high;
}

// The marks of the device addresses in both maps.
#[derive(Drop)]
struct Aside {
    read: u16,
    stored: u16,
}

// Takes them out of the maps.
fn set_aside(reads: &mut Map, writes: &mut Map) -> Aside
    ensures { SetAside reads.old writes.old result.read result.stored reads.new writes.new }
{
    let read = marks_of(reads);
    let stored = marks_of(writes);
    put_marks(reads, 0);
    put_marks(writes, 0);
    Aside { read, stored }
}

// Puts them back, and answers what the read map has marked since. Of that it keeps what had not been stored to before, as if the marks had
// never been away.
fn put_back(aside: Aside, reads: &mut Map, writes: &mut Map) -> u16
    ensures { PutBack reads.old writes.old aside.read aside.stored result reads.new writes.new }
{
    let devices = marks_of(reads);
    let since = marks_of(writes);
    put_marks(reads, aside.read | (devices & !aside.stored));
    put_marks(writes, aside.stored | since);
    devices
}

// One step, with the marks of the device addresses set aside for it.
fn turn(cpu: Processor, edition: Edition, bus: &mut Bus) -> Watched
    ensures { Answers (watching edition 1 cpu) bus.old bus.new result }
{
    let aside = set_aside(bus.reads, bus.writes);
    let ran = engine::take_steps(cpu, edition, bus, 1);
    let devices = put_back(aside, bus.reads, bus.writes);
    Watched { ran, devices }
}

// Steps while budget is left and the record is awake.
fn take_steps(cpu: Processor, edition: Edition, bus: &mut Bus, budget: u32) -> Watched
    ensures { Answers (watching edition budget cpu) bus.old bus.new result }
{
    let mut next = cpu;
    let mut left: u32 = budget;
    let mut devices: u16 = 0;
    // not a `for`: one that breaks off has to count the steps besides
    while left > 0 && next.is_awake() {
        let turned = turn(next, edition, bus);
        next = turned.ran.cpu;
        devices = devices | turned.devices;
        left = left - 1;
    }
    let steps = budget - left;
    Watched {
        ran: Ran { cpu: next, steps },
        devices,
    }
}

// The same, on memory and maps that are lent one by one. They have their lengths and the edition is one, so nothing is refused.
pub fn run_within(
    cpu: Processor,
    edition: Edition,
    memory: &mut Memory,
    reads: &mut Map,
    writes: &mut Map,
    budget: u32,
) -> Watched
    ensures { Yields (watching edition budget cpu) (lent memory) (lent reads) (lent writes) result }
{
    let mut bus = Bus {
        memory,
        reads,
        writes,
    };
    take_steps(cpu, edition, &mut bus, budget)
}

// A run as the engine makes it, step by step. Before each step the marks of the device addresses are set aside, so that a read of one
// leaves a mark whatever was stored before; behind it they are put back, with what the step adds to them. Refusals as the engine's.
pub fn run(
    cpu: Processor,
    edition: u8,
    memory: &mut [u8],
    reads: &mut [u8],
    writes: &mut [u8],
    budget: u32,
) -> Result<Watched, Refusal>
    ensures { Yields (watched_run edition budget cpu) (lent memory) (lent reads) (lent writes) result }
{
    let edition = Edition::try_from(edition)?;
    let Some(memory) = memory.as_mut_array::<65536>() else {
        return Err(Refusal::Memory);
    };
    let Some(reads) = reads.as_mut_array::<8192>() else {
        return Err(Refusal::Map);
    };
    let Some(writes) = writes.as_mut_array::<8192>() else {
        return Err(Refusal::Map);
    };
    Ok(run_within(cpu, edition, memory, reads, writes, budget))
}
