// Shifts, INC and DEC. What comes out is left in z.
ghost use Rattle.processor.specs.Sums.{inc_of, dec_of};
ghost use Rattle.processor.specs.Shifts.{asl_of, lsr_of, rol_of, ror_of};
ghost use Rattle.registers.specs.Flat.{record_of, Makes};

use crate::Registers;

impl Registers {
    pub fn asl(self, v: u8) -> Registers
        ensures { Makes result (asl_of (record_of self) v) }
    {
        self.nz(v % 128 * 2).with_c(v / 128)
    }

    pub fn rol(self, v: u8) -> Registers
        ensures { Makes result (rol_of (record_of self) v) }
    {
        self.nz(v % 128 * 2 + self.c % 2).with_c(v / 128)
    }

    pub fn lsr(self, v: u8) -> Registers
        ensures { Makes result (lsr_of (record_of self) v) }
    {
        self.nz(v / 2).with_c(v)
    }

    pub fn ror(self, v: u8) -> Registers
        ensures { Makes result (ror_of (record_of self) v) }
    {
        self.nz(v / 2 + self.c % 2 * 128).with_c(v)
    }

    pub fn dec(self, v: u8) -> Registers
        ensures { Makes result (dec_of (record_of self) v) }
    {
        self.nz(processor::difference(v, 1))
    }

    pub fn inc(self, v: u8) -> Registers
        ensures { Makes result (inc_of (record_of self) v) }
    {
        self.nz(std::num::wrapping_add_u8(v, 1))
    }
}
