// Operations on words. A word comes as its low and high byte; YA is Y high, A low.
ghost use Rattle.std.specs.Prelude.{◌≡◌};
ghost use Rattle.processor.specs.Record.{with_ya, word_of, nz_word_of};
ghost use Rattle.processor.specs.Words.{addw_of, subw_of, cmpw_of};
ghost use Rattle.registers.specs.Flat.{record_of};

use crate::{Registers, bit_if};

impl Registers {
    // N and Z of a word.
    pub fn nz_word(self, low: u8, high: u8) -> Registers
        ensures { record_of result ≡ nz_word_of (record_of self) (word_of low high) }
    {
        self.with_nz(high, low | high)
    }

    // A word into YA, with N and Z of it.
    pub fn load_ya(self, low: u8, high: u8) -> Registers
        ensures { record_of result ≡ with_ya high low (nz_word_of (record_of self) (word_of low high)) }
    {
        self.with_a(low).with_y(high).nz_word(low, high)
    }

    pub fn addw(self, low: u8, high: u8) -> Registers
        ensures { record_of result ≡ addw_of (record_of self) low high }
    {
        let l = self.with_c(0).adc(self.a, low);
        let h = l.adc(self.y, high);
        h.load_ya(l.z, h.z)
    }

    pub fn subw(self, low: u8, high: u8) -> Registers
        ensures { record_of result ≡ subw_of (record_of self) low high }
    {
        let l = self.with_c(1).sbc(self.a, low);
        let h = l.sbc(self.y, high);
        h.load_ya(l.z, h.z)
    }

    pub fn cmpw(self, low: u8, high: u8) -> Registers
        ensures { record_of result ≡ cmpw_of (record_of self) low high }
    {
        let ya = processor::word(self.a, self.y);
        let word = processor::word(low, high);
        let d = std::num::wrapping_sub_u16(ya, word);
        self.nz_word((d % 256) as u8, (d / 256) as u8)
            .with_c(bit_if(ya >= word, 1))
    }
}
