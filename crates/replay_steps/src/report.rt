// The line that answers a case. Printing a mark also clears it, and printing a store puts the background back, so that each map is
// gone through only once.
ghost use Rattle.std.specs.Prelude.{◌+◌, ◌≤◌};

use crate::asked::Answer;
use crate::case::background;
use marks::Map;
use memory::{Bus, Memory};
use text::Line;

// Registers, stop and results; then the stores with their values; then the marked reads; both in the order of addresses.
pub fn line(answer: Answer, bus: &mut Bus) -> Line {
    let begun = numbers(answer).push(b'w');
    let stored = stores(begun, bus.memory, bus.writes);
    marked(stored.push(b'r'), bus.reads).push(b'\n')
}

// The columns that stand in every line.
fn numbers(answer: Answer) -> Line {
    let cpu = answer.cpu;
    let three = Line::new().hex_byte(cpu.a).hex_byte(cpu.x).hex_byte(cpu.y);
    let all = three
        .hex_byte(cpu.sp)
        .hex_word(cpu.pc)
        .hex_byte(cpu.psw.to_byte());
    all.hex_byte(answer.stop)
        .hex_word(answer.result)
        .hex_word(answer.second)
}

// Whether eight bytes of a map have no mark. They are looked at as one number: nearly all are 0, and each case goes through both maps.
fn is_clear(map: &Map, i: usize) -> bool
    requires { i + 8 ≤ 8192 }
{
    let eight = [
        map[i],
        map[i + 1],
        map[i + 2],
        map[i + 3],
        map[i + 4],
        map[i + 5],
        map[i + 6],
        map[i + 7],
    ];
    u64::from_le_bytes(eight) == 0
}

// All stores; their marks are cleared.
fn stores(mut line: Line, memory: &mut Memory, writes: &mut Map) -> Line {
    for row in 0..1024 {
        if is_clear(writes, row * 8) {
            continue;
        }
        for i in row * 8..row * 8 + 8 {
            line = eight_stores(line, memory, i * 8, writes[i]);
            writes[i] = 0;
        }
    }
    line
}

// The stores that one byte of the map marks; the background is put back.
fn eight_stores(mut line: Line, memory: &mut Memory, from: usize, map_byte: u8) -> Line
    requires { from + 8 ≤ 65536 }
{
    for bit in 0..8 {
        if (map_byte >> bit) % 2 == 1 {
            let address = from + bit;
            line = line.hex_word(address as u16).hex_byte(memory[address]);
            memory[address] = background(address);
        }
    }
    line
}

// All marked reads; the marks are cleared.
fn marked(mut line: Line, reads: &mut Map) -> Line {
    for row in 0..1024 {
        if is_clear(reads, row * 8) {
            continue;
        }
        for i in row * 8..row * 8 + 8 {
            line = eight_reads(line, i * 8, reads[i]);
            reads[i] = 0;
        }
    }
    line
}

// The reads that one byte of the map marks.
fn eight_reads(mut line: Line, from: usize, map_byte: u8) -> Line
    requires { from + 8 ≤ 65536 }
{
    for bit in 0..8 {
        if (map_byte >> bit) % 2 == 1 {
            line = line.hex_word((from + bit) as u16);
        }
    }
    line
}
