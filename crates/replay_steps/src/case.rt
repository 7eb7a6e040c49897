// A case: registers, what is asked, arguments, and bytes to put into memory.
ghost use Rattle.std.specs.Prelude.{◌<◌};

use memory::Memory;
use processor::{Processor, word};
use psw::ProgramStatusWord;
use waking::State;

// The bytes of a case.
pub type Case = [u8; 64];

// A X Y SP PC-low PC-high PSW, in the bytes 0 to 6; awake, since the Rust crate's record has no state.
pub fn registers(given: &Case) -> Processor {
    Processor {
        a: given[0],
        x: given[1],
        y: given[2],
        sp: given[3],
        pc: word(given[4], given[5]),
        psw: ProgramStatusWord::from_byte(given[6]),
        state: State::Awake,
    }
}

// What memory holds at an address before a case's own bytes are put into it.
pub fn background(address: usize) -> u8 {
    let low = address % 256;
    let high = address / 256 % 256;
    ((low * 7 + high * 13 + 5) % 256) as u8
}

// The background everywhere.
pub fn fill(memory: &mut Memory) {
    for address in 0..65536 {
        memory[address] = background(address);
    }
}

// Where the k-th of a case's own seventeen bytes goes.
fn place(given: &Case, k: usize) -> u16
    requires { k < 17 }
{
    word(given[11 + k * 3], given[12 + k * 3])
}

// Puts a case's own bytes into memory.
pub fn poke(memory: &mut Memory, given: &Case) {
    for k in 0..17 {
        memory[place(given, k) as usize] = given[13 + k * 3];
    }
}

// Puts the background back.
pub fn unpoke(memory: &mut Memory, given: &Case) {
    for k in 0..17 {
        let address = place(given, k) as usize;
        memory[address] = background(address);
    }
}
