// What the sound chip may fetch of an image: directory entries, and the blocks of samples.
#![tactic(auto)]

ghost use Rattle.std.specs.Prelude.{◌≡◌, ◌≤◌, length};
ghost use Rattle.samples.specs.Fetched.{word_at, fetched, blocks, sample, voices};

use marks::Map;
use memory::Memory;

// The word at an address, low byte first.
fn word_at(memory: &Memory, at: u16) -> u16
    ensures { result ≡ word_at memory.now at }
{
    processor::word(memory[at as usize], memory[at.wrapping_add(1) as usize])
}

// Marks so many addresses from one on, but those that the processor has stored to.
// (Memory and maps are handed on one by one: a struct of borrows would have to promise of each that it is still the one borrowed.)
fn fetch(n: u16, at: u16, writes: &Map, map: &mut Map)
    ensures { map.new ≡ fetched n at writes.now map.old }
{
    for place in 0..n {
        marks::mark_unless(map, writes, at.wrapping_add(place));
    }
}

// Marks the blocks from an address up to a last one. Blocks that have no last one go all round: 65,536 of them begin at every address.
fn fetch_blocks(start: u16, memory: &Memory, writes: &Map, map: &mut Map)
    ensures { map.new ≡ blocks 65536 start memory.now writes.now map.old }
{
    let mut at = start;
    for _ in 0..65536u32 {
        fetch(9, at, writes, map);
        if memory[at as usize] % 2 == 1 {
            break;
        }
        at = at.wrapping_add(9);
    }
}

// Marks what may be fetched of a sample, given by its number: its entry in the directory, and the blocks from its start and from its loop.
#[tactic(auto, unfolding(crate::specs::Fetched::sample))]
fn fetch_sample(directory: u8, number: u8, memory: &Memory, writes: &Map, map: &mut Map)
    ensures { map.new ≡ sample directory number memory.now writes.now map.old }
{
    let entry = (256 * directory as u16).wrapping_add(4 * number as u16);
    fetch(4, entry, writes, map);
    fetch_blocks(word_at(memory, entry), memory, writes, map);
    let looped = entry.wrapping_add(2);
    fetch_blocks(word_at(memory, looped), memory, writes, map);
}

// Marks what may be fetched of the samples of voices, which are given by a bit each, as the sound registers name them.
// (The registers stay a slice, since callers have a longer row: an array of 128 bytes would ask them for a length.)
pub fn fetch_voices(bits: u8, chip: &[u8], memory: &Memory, writes: &Map, map: &mut Map)
    requires { 128 ≤ length chip.now }
    ensures { map.new
        ≡ voices 8 0 bits chip.now memory.now writes.now map.old }
{
    for voice in 0..8 {
        if (bits >> voice) % 2 == 1 {
            fetch_sample(chip[0x5D], chip[16 * voice + 4], memory, writes, map);
        }
    }
}
