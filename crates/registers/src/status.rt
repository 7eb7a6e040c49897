// The status byte.
ghost use Rattle.std.specs.Prelude.{◌≡◌};
ghost use Rattle.psw.specs.Status.{byte_of, flags_of};
ghost use Rattle.processor.specs.Record.{with_flags};
ghost use Rattle.registers.specs.Flat.{record_of};

use crate::{Registers, bit_if};

impl Registers {
    // The flags as one byte.
    pub fn status(self) -> u8
        ensures { result ≡ byte_of (record_of self).psw }
    {
        let high = self.n / 128 * 128
            + self.v / 128 * 64
            + (self.page / 256 % 2) as u8 * 32
            + self.rest / 16 % 2 * 16;
        let low = self.h / 16 % 2 * 8 + self.rest / 4 % 2 * 4 + bit_if(self.z == 0, 2) + self.c % 2;
        high + low
    }

    // The flags that a byte holds: most stay in the byte itself, or in its double, where they stand in their places.
    pub fn with_status(self, byte: u8) -> Registers
        ensures { record_of result ≡ with_flags (flags_of byte) (record_of self) }
    {
        let twice = byte % 128 * 2;
        let flags = self
            .with_nz(byte, 2 - byte / 2 % 2 * 2)
            .with_vh(twice, twice)
            .with_c(byte);
        flags.with_page(byte as u16 * 8).with_rest(byte)
    }
}
