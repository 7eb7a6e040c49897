// One row of cells in place of memory and both maps: a number of 16 bits for each address. Its low byte is the memory's, bit 8 is set
// where the read map marks the address, bit 9 where the written map does. So a read is one load and one test, a store one load and one
// store.
#![tactic(auto)]

mod rows;

ghost use Rattle.laws.specs.Lent.{lent};
ghost use Rattle.memory.specs.Access.{ask, put};
ghost use Rattle.cells.specs.Cells.{Performs};

pub use rows::{lay_out, put_back};

// A row: a cell for each address.
pub type Cells = [u16; 65536];

// The byte at an address, which is marked as read unless it has been stored to before.
pub fn read(cells: &mut Cells, at: u16) -> u8
    ensures { Performs (ask at) (lent cells) result }
{
    let k = at as usize;
    let cell = cells[k];
    if cell / 256 % 4 == 0 {
        cells[k] = cell + 256;
        return (cell % 256) as u8;
    }
    (cell % 256) as u8
}

// Stores a byte at an address.
pub fn store(cells: &mut Cells, at: u16, byte: u8)
    ensures { Performs (put at byte) (lent cells) tt }
{
    let k = at as usize;
    cells[k] = cells[k] / 256 % 2 * 256 + 512 + byte as u16;
}
