// Operations on the two digits of A.
ghost use Rattle.std.specs.Prelude.{◌≡◌};
ghost use Rattle.processor.specs.Decimal.{high_adjusted, daa_of, high_reduced, das_of, xcn_of};
ghost use Rattle.registers.specs.Flat.{record_of};

use crate::Registers;

impl Registers {
    // DAA's first half: the high digit.
    fn adjust_high(self) -> Registers
        ensures { record_of result ≡ high_adjusted (record_of self) }
    {
        if (self.c % 2 == 1) | (self.a > 0x99) {
            self.with_c(1)
                .with_a(std::num::wrapping_add_u8(self.a, 0x60))
        } else {
            self
        }
    }

    // Adjusts A after a sum of decimal digits.
    pub fn daa(self) -> Registers
        ensures { record_of result ≡ daa_of (record_of self) }
    {
        let cpu = self.adjust_high();
        if (cpu.h / 16 % 2 == 1) | (cpu.a % 16 > 9) {
            cpu.load_a(std::num::wrapping_add_u8(cpu.a, 6))
        } else {
            cpu.load_a(cpu.a)
        }
    }

    // DAS's first half: the high digit.
    fn reduce_high(self) -> Registers
        ensures { record_of result ≡ high_reduced (record_of self) }
    {
        if (self.c % 2 != 1) | (self.a > 0x99) {
            self.with_c(0).with_a(processor::difference(self.a, 0x60))
        } else {
            self
        }
    }

    // Adjusts A after a difference of decimal digits.
    pub fn das(self) -> Registers
        ensures { record_of result ≡ das_of (record_of self) }
    {
        let cpu = self.reduce_high();
        if (cpu.h / 16 % 2 != 1) | (cpu.a % 16 > 9) {
            cpu.load_a(processor::difference(cpu.a, 6))
        } else {
            cpu.load_a(cpu.a)
        }
    }

    // Exchanges the nibbles of A.
    pub fn xcn(self) -> Registers
        ensures { record_of result ≡ xcn_of (record_of self) }
    {
        self.load_a(self.a % 16 * 16 + self.a / 16)
    }
}
