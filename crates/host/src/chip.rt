// The sound chip's row of 512 bytes: its 128 registers; then a byte for each of them, 1 where the song has asked for it; then a byte for
// each number of a sample, 1 where the song has keyed it on.
ghost use Rattle.std.specs.Prelude.{◌≡◌};
ghost use Rattle.host.specs.Chip.{sound, asked, keyed, stored_to, heard};

use marks::Map;
use memory::Memory;

// A step has read the register that 00F2 names.
fn ask(name: u8, chip: &mut [u8; 512])
    ensures { chip.new ≡ asked name chip.old }
{
    let register = (name % 128) as usize;
    chip[128 + register] = 1;
}

// Notes the samples of voices, which are given by a bit each.
fn note_keyed(bits: u8, chip: &mut [u8; 512])
    ensures { chip.new ≡ keyed 8 0 bits chip.old }
{
    for voice in 0..8 {
        if (bits >> voice) % 2 == 1 {
            let number = chip[16 * voice + 4] as usize;
            chip[256 + number] = 1;
        }
    }
}

// A step has stored to 00F3: that goes to the register that 00F2 names, unless its bit 7 is set. A store to 4C keys voices on.
fn store(memory: &Memory, writes: &Map, chip: &mut [u8; 512], fetched: &mut Map)
    ensures { sound chip.new fetched.new
        ≡ stored_to memory.now writes.now chip.old fetched.old }
{
    let register = memory[0xF2];
    if register >= 128 {
        return;
    }
    let byte = memory[0xF3];
    chip[register as usize] = byte;
    if register == 0x4C {
        note_keyed(byte, chip);
        samples::fetch_voices(byte, chip, memory, writes, fetched);
    }
}

// What a step has read and stored, by the bits of its device addresses: a read of 00F3 asks for the register that 00F2 named before the
// step, and a store there goes to the one that it names now.
pub fn hear(
    read: u16,
    stored: u16,
    name: u8,
    memory: &Memory,
    writes: &Map,
    chip: &mut [u8; 512],
    fetched: &mut Map,
)
    ensures { sound chip.new fetched.new ≡ heard read stored name memory.now writes.now (sound chip.old fetched.old) }
{
    if read / 8 % 2 == 1 {
        ask(name, chip);
    }
    if stored / 8 % 2 == 1 {
        store(memory, writes, chip, fetched);
    }
}
