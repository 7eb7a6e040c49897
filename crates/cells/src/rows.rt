// The way in and the way out: memory and maps laid out as cells, and cells put back into memory and maps.
ghost use Rattle.std.specs.Prelude.{◌<◌, ◌≤◌, ◌≡◌};
ghost use Rattle.laws.specs.Lent.{shared, lent};
ghost use Rattle.memory.specs.Promises.{before, after};
ghost use Rattle.cells.specs.Cells.{byte_of, mark_of, eight_of, values, world_of};

use crate::Cells;
use marks::Map;
use memory::Memory;

// A cell for each address.
pub fn lay_out(cells: &mut Cells, memory: &Memory, reads: &Map, writes: &Map)
    ensures { world_of cells.new ≡ before (shared memory) (shared reads) (shared writes) }
{
    for (k, cell) in cells.iter_mut().enumerate() {
        let at = k as u16;
        let read = if marks::is_marked(reads, at) { 256 } else { 0 };
        let stored = if marks::is_marked(writes, at) { 512 } else { 0 };
        *cell = memory[k] as u16 + read + stored;
    }
}

// The low byte of each cell.
fn put_bytes(cells: &Cells, memory: &mut Memory)
    ensures { memory.new ≡ values 65536 (byte_of cells.now) }
{
    for (k, byte) in memory.iter_mut().enumerate() {
        *byte = (cells[k] % 256) as u8;
    }
}

// One bit of a cell.
fn mark_of(cells: &Cells, bit: u16, k: usize) -> u8
    requires { (bit < 16) × (k < 65536) }
    ensures { (result ≡ mark_of bit cells.now k) × (result ≤ 1) }
{
    ((cells[k] >> bit) % 2) as u8
}

// The marks of eight addresses.
fn eight(cells: &Cells, bit: u16, i: usize) -> u8
    requires { (bit < 16) × (i < 8192) }
    ensures { result ≡ eight_of bit cells.now i }
{
    let mut marks: u8 = 0;
    for j in 0..8 {
        marks += mark_of(cells, bit, i * 8 + j) << j;
    }
    marks
}

// The marks that one bit of the cells holds.
fn put_marks(cells: &Cells, bit: u16, map: &mut Map)
    requires { bit < 16 }
    ensures { map.new ≡ values 8192 (eight_of bit cells.now) }
{
    for (i, byte) in map.iter_mut().enumerate() {
        *byte = eight(cells, bit, i);
    }
}

// Memory and maps of the cells.
pub fn put_back(cells: &Cells, memory: &mut Memory, reads: &mut Map, writes: &mut Map)
    ensures { after (lent memory) (lent reads) (lent writes) ≡ world_of cells.now }
{
    put_bytes(cells, memory);
    put_marks(cells, 8, reads);
    put_marks(cells, 9, writes);
}
