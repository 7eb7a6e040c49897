// A step while the boot ROM is on, and whether it reads where the ROM is: at FFC0 to FFFF.
#![tactic(auto)]

ghost use Rattle.std.specs.Prelude.{◌≡◌, ◌++◌, take, drop};
ghost use Rattle.blanking.specs.Together.{together};
ghost use Rattle.memory.specs.Promises.{Answers};
ghost use Rattle.boot_rom.specs.Reading.{rom_step};
ghost use Rattle.boot_rom.specs.Inside.{Taken, any_marked, read_back};

use editions::Edition;
use marks::Map;
use memory::Bus;
use processor::Processor;

// The registers behind a step, and whether it has read there.
#[derive(Drop)]
pub struct Stepped {
    pub cpu: Processor,
    pub rom: bool,
}

// Takes the marks of FFC0 to FFFF, the last eight bytes of a map, out of it.
fn set_aside(map: &mut Map) -> [u8; 8]
    ensures { Taken map.old result map.new }
{
    let mut aside = [0u8; 8];
    aside.copy_from_slice(&map[8184..]);
    map[8184..].fill(0);
    aside
}

// Whether a map has a mark there.
fn any_marked(map: &Map) -> bool
    ensures { result ≡ any_marked (drop 8184 map.now) }
{
    map[8184..].iter().any(|&byte| byte != 0)
}

// Puts marks of reads back that were set aside: what was read since stays marked where nothing had been stored before.
fn put_reads_back(map: &mut Map, read: [u8; 8], stored: [u8; 8])
    ensures { map.new ≡ take 8184 map.old ++ read_back (drop 8184 map.old) read stored }
{
    for (i, byte) in map[8184..].iter_mut().enumerate() {
        *byte = read[i] | (*byte & !stored[i]);
    }
}

// And those of stores.
fn put_stores_back(map: &mut Map, stored: [u8; 8])
    ensures { map.new ≡ take 8184 map.old ++ together stored (drop 8184 map.old) }
{
    let last = map.last_chunk_mut::<8>().unwrap();
    blanking::join(&stored, last);
}

// A step as the engine makes it. Meanwhile the marks of FFC0 to FFFF are set aside: so a read there leaves a mark whatever was read and
// stored before.
pub fn step(cpu: Processor, edition: Edition, bus: &mut Bus) -> Stepped
    ensures { Answers (rom_step edition cpu) bus.old bus.new result }
{
    let read = set_aside(bus.reads);
    let stored = set_aside(bus.writes);
    let ran = engine::take_steps(cpu, edition, bus, 1);
    let rom = any_marked(bus.reads);
    put_reads_back(bus.reads, read, stored);
    put_stores_back(bus.writes, stored);
    Stepped { cpu: ran.cpu, rom }
}
