// Reads and stores of the lent memory, and the marks that they leave in the two maps.
#![tactic(auto)]

ghost use Rattle.memory.specs.Access.{ask, put};
ghost use Rattle.memory.specs.Promises.{Reads, Puts};
ghost use Rattle.memory.specs.Words.{read_word, write_word};

use marks::Map;

// A byte for each address.
pub type Memory = [u8; 65536];

// What a step works on: the memory, and the maps of what steps have read and stored there. All three are lent.
#[derive(Drop)]
pub struct Bus<'a> {
    pub memory: &'a mut Memory,
    pub reads: &'a mut Map,
    pub writes: &'a mut Map,
}

// The same to who reads: the memory and the written map stay as they are.
#[derive(Drop)]
pub struct Reading<'a> {
    pub memory: &'a Memory,
    pub reads: &'a mut Map,
    pub writes: &'a Map,
}

// The same to who stores: the read map stays as it is.
#[derive(Drop)]
pub struct Storing<'a> {
    pub memory: &'a mut Memory,
    pub reads: &'a Map,
    pub writes: &'a mut Map,
}

impl<'a> Reading<'a> {
    // The byte at an address, which is marked as read unless it has been stored to before.
    pub fn read(&mut self, at: u16) -> u8
        ensures { Reads (ask at) self.old self.new result }
    {
        marks::mark_unless(self.reads, self.writes, at);
        self.memory[at as usize]
    }

    // The word at an address, low byte first.
    pub fn read_u16(&mut self, at: u16) -> u16
        ensures { Reads (read_word at) self.old self.new result }
    {
        let low = self.read(at);
        let high = self.read(at.wrapping_add(1));
        u16::from_le_bytes([low, high])
    }
}

impl<'a> Storing<'a> {
    // Stores a byte at an address.
    pub fn store(&mut self, at: u16, byte: u8)
        ensures { Puts (put at byte) self.old self.new tt }
    {
        marks::mark(self.writes, at);
        self.memory[at as usize] = byte;
    }

    // Stores a word at an address, low byte first.
    pub fn write_u16(&mut self, at: u16, word: u16)
        ensures { Puts (write_word at word) self.old self.new tt }
    {
        let [low, high] = word.to_le_bytes();
        self.store(at, low);
        self.store(at.wrapping_add(1), high);
    }
}
