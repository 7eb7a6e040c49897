// Moves, sums and differences of bytes.
ghost use Rattle.std.specs.Prelude.{◌≡◌};
ghost use Rattle.processor.specs.Record.{with_a, with_x, with_y, nz_of};
ghost use Rattle.processor.specs.Logic.{mov_of};
ghost use Rattle.processor.specs.Sums.{adc_of, sbc_of, cmp_of};
ghost use Rattle.registers.specs.Flat.{record_of, Makes};

use crate::{Registers, bit_if};

impl Registers {
    // N and Z of a byte.
    pub fn nz(self, byte: u8) -> Registers
        ensures { Makes result (mov_of (record_of self) byte) }
    {
        self.with_nz(byte, byte)
    }

    // A byte into A, X or Y, with N and Z of it.
    pub fn load_a(self, byte: u8) -> Registers
        ensures { record_of result ≡ with_a byte (nz_of (record_of self) byte) }
    {
        self.with_a(byte).nz(byte)
    }

    pub fn load_x(self, byte: u8) -> Registers
        ensures { record_of result ≡ with_x byte (nz_of (record_of self) byte) }
    {
        self.with_x(byte).nz(byte)
    }

    pub fn load_y(self, byte: u8) -> Registers
        ensures { record_of result ≡ with_y byte (nz_of (record_of self) byte) }
    {
        self.with_y(byte).nz(byte)
    }

    // Compares two bytes.
    pub fn cmp(self, l: u8, r: u8) -> Registers
        ensures { record_of result ≡ cmp_of (record_of self) l r }
    {
        self.nz(processor::difference(l, r))
            .with_c(bit_if(l >= r, 1))
    }

    // The sum of two bytes and the carry, which is left in z. Where it overflows, both bytes differ from it in their top bits; the half
    // carry is what the sum of the low digits has above them.
    pub fn adc(self, l: u8, r: u8) -> Registers
        ensures { Makes result (adc_of (record_of self) l r) }
    {
        let carry = self.c % 2;
        let sum = l as u16 + r as u16 + carry as u16;
        let byte = (sum % 256) as u8;
        self.with_nz(byte, byte)
            .with_vh((l ^ byte) & (r ^ byte), l % 16 + r % 16 + carry)
            .with_c((sum / 256) as u8)
    }

    // The difference of two bytes and the borrow: the sum with the complement.
    pub fn sbc(self, l: u8, r: u8) -> Registers
        ensures { Makes result (sbc_of (record_of self) l r) }
    {
        self.adc(l, 255 - r)
    }

    // What the flags were last set from, as the new A.
    pub fn in_a(self) -> Registers
        ensures { record_of result ≡ with_a self.z (record_of self) }
    {
        self.with_a(self.z)
    }
}
