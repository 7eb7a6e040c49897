// A song played without sound: the processor's steps, with its devices answered. What answers at 00F0 to 00FF is laid out in memory before
// each step; behind it the marks of these addresses tell what the step has read and stored there.
#![tactic(auto)]

mod beside;
mod chip;

ghost use Rattle.std.specs.Prelude.{◌≤◌, ◌≡◌, true};
ghost use Rattle.memory.specs.Promises.{Answers};
ghost use Rattle.host.specs.Turn.{laid_out, step_on, noted};
ghost use Rattle.host.specs.Play.{goes_on};
ghost use Rattle.host.specs.Promises.{Turns, Plays};

pub use beside::{Beside, play_both};
use boot_rom::Stepped;
use devices::Devices;
use editions::Edition;
use marks::Map;
use memory::{Bus, Memory};
use processor::Processor;

// The registers, and the devices.
#[derive(Clone, Copy)]
pub struct Player {
    pub cpu: Processor,
    pub devices: Devices,
}

// All that is lent to a playing: memory and maps, the sound chip's row, and the map of what it may fetch. (Memory and maps stand here by
// themselves: what a struct within a struct borrows cannot be lent on as `&`.)
#[derive(Drop)]
pub struct Song<'a> {
    pub memory: &'a mut Memory,
    pub reads: &'a mut Map,
    pub writes: &'a mut Map,
    pub chip: &'a mut [u8; 512],
    pub fetched: &'a mut Map,
}

// What a playing answers: the player, and how many steps it has taken.
#[derive(Drop)]
pub struct Played {
    pub player: Player,
    pub steps: u32,
}

// Lays out in memory what the devices answer. (The ports are stored one by one: a loop over them made a step dearer.)
fn lay_out(devices: Devices, chip: &[u8; 512], memory: &mut Memory)
    ensures { memory.new ≡ laid_out devices chip.now memory.old }
{
    let register = (memory[0xF2] % 128) as usize;
    memory[0xF3] = chip[register];
    memory[0xF4] = devices.ports[0];
    memory[0xF5] = devices.ports[1];
    memory[0xF6] = devices.ports[2];
    memory[0xF7] = devices.ports[3];
    for k in 0..3 {
        memory[0xFD + k] = devices.timers[k].count;
    }
}

// One step, and whether it reads the boot ROM: that is on while bit 7 of what was stored to 00F1 is set.
fn step(cpu: Processor, edition: Edition, bus: &mut Bus) -> Stepped
    ensures { Answers (step_on edition cpu) bus.old bus.new result }
{
    if bus.memory[0xF1] >= 128 {
        return boot_rom::step(cpu, edition, bus);
    }
    let ran = engine::take_steps(cpu, edition, bus, 1);
    Stepped {
        cpu: ran.cpu,
        rom: false,
    }
}

// The devices behind a step: it has read and stored there, and perhaps read the boot ROM, and so many cycles have passed.
fn note(devices: Devices, read: u16, stored: u16, memory: &Memory, rom: bool, cost: u8) -> Devices
    requires { (devices.cycles ≤ 4294967280) × (cost ≤ 12) }
    ensures { result ≡ noted read stored memory.now rom cost devices }
{
    let mut next = devices.take_reads(read).take_stores(stored, memory);
    next.rom = next.rom || rom;
    next.pass(cost)
}

// One step of a song.
fn turn(player: Player, edition: Edition, song: &mut Song) -> Player
    requires { player.devices.cycles ≤ 4294967280 }
    ensures { Turns edition player song.old song.new result }
{
    lay_out(player.devices, song.chip, song.memory);
    let cost = cycles::of_step(player.cpu, song.memory);
    let register = song.memory[0xF2];
    watch::put_marks(song.reads, 0);
    watch::put_marks(song.writes, 0);
    let mut bus = Bus {
        memory: song.memory,
        reads: song.reads,
        writes: song.writes,
    };
    let stepped = step(player.cpu, edition, &mut bus);
    let read = watch::marks_of(song.reads);
    let stored = watch::marks_of(song.writes);
    chip::hear(
        read,
        stored,
        register,
        song.memory,
        song.writes,
        song.chip,
        song.fetched,
    );
    Player {
        cpu: stepped.cpu,
        devices: note(player.devices, read, stored, song.memory, stepped.rom, cost),
    }
}

// Whether there is a step to take: the record is awake, and the cycles are not spent.
fn goes_on(player: Player, until: u32) -> bool
    ensures { result ≡ goes_on until player }
{
    player.devices.cycles < until && player.cpu.is_awake()
}

// Plays on until so many cycles have passed since the beginning, or SLEEP or STOP ends the song, or the budget of steps is spent.
pub fn play(player: Player, edition: Edition, until: u32, budget: u32, song: &mut Song) -> Played
    requires { until ≤ 4294967280 }
    ensures { Plays edition until budget player song.old song.new result }
{
    let mut next = player;
    let mut left: u32 = budget;
    // not a `for`: one that breaks off has to count the steps besides
    while left > 0 && goes_on(next, until) {
        next = turn(next, edition, song);
        left -= 1;
    }
    let steps = budget - left;
    Played {
        player: next,
        steps,
    }
}

// One step of a song that goes on: a playing of budget 1, so that the loop is the one caller of `turn`, which is then compiled into it
// (docs/SPEED.md).
fn take_turn(player: Player, edition: Edition, until: u32, song: &mut Song) -> Player
    requires { (until ≤ 4294967280) × (goes_on until player ≡ true) }
    ensures { Turns edition player song.old song.new result }
{
    play(player, edition, until, 1, song).player
}
