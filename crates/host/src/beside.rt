// Two images played side by side, step by step, as long as they are alike.
ghost use Rattle.std.specs.Prelude.{◌≤◌, ◌≡◌};
ghost use Rattle.host.specs.Beside.{same_stores, alike};
ghost use Rattle.host.specs.Promises.{PlaysBoth};

use crate::{Player, Song, goes_on, take_turn};
use devices::Devices;
use editions::Edition;
use memory::Memory;

// Both players, how many steps each has taken, and whether they were alike to the last.
#[derive(Drop)]
pub struct Beside {
    pub first: Player,
    pub second: Player,
    pub steps: u32,
    pub alike: bool,
}

// Whether the last step of both has stored to the same device addresses, at the same cycle, the same bytes.
fn same_stores(c: Devices, d: Devices, memory: &Memory, other: &Memory) -> bool
    ensures { result ≡ same_stores c d memory.now other.now }
{
    c.cycles == d.cycles
        && c.last == d.last
        && (c.last == 0 || memory[0xF0..0x100] == other[0xF0..0x100])
}

// Whether two playings are alike so far, by their last step.
fn are_alike(a: Player, b: Player, memory: &Memory, other: &Memory) -> bool
    ensures { result ≡ alike a b memory.now other.now }
{
    a.cpu == b.cpu && same_stores(a.devices, b.devices, memory, other)
}

// Plays both on as `play` plays one, and stops behind the first step at which they are not alike.
pub fn play_both(
    first: Player,
    second: Player,
    edition: Edition,
    until: u32,
    budget: u32,
    song: &mut Song,
    other: &mut Song,
) -> Beside
    requires { until ≤ 4294967280 }
    ensures { PlaysBoth edition until budget first second song.old other.old song.new other.new result }
{
    let mut a = first;
    let mut b = second;
    let mut left: u32 = budget;
    let mut alike = are_alike(a, b, song.memory, other.memory);
    // not a `for`: one that breaks off has to count the steps besides
    while left > 0 && alike && goes_on(a, until) && goes_on(b, until) {
        a = take_turn(a, edition, until, song);
        b = take_turn(b, edition, until, other);
        alike = are_alike(a, b, song.memory, other.memory);
        left -= 1;
    }
    let steps = budget - left;
    Beside {
        first: a,
        second: b,
        steps,
        alike,
    }
}
