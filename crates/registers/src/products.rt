// MUL and DIV, on YA: Y high, A low.
ghost use Rattle.std.specs.Prelude.{◌≡◌};
ghost use Rattle.processor.specs.Products.{mul_of, divided, div_of};
ghost use Rattle.registers.specs.Flat.{record_of};

use crate::{Registers, bit_if};

impl Registers {
    // YA is Y times A, worked out by additions.
    pub fn mul(self) -> Registers
        ensures { record_of result ≡ mul_of (record_of self) }
    {
        let product = processor::times(self.y, self.a);
        self.with_a((product % 256) as u8)
            .load_y((product / 256) as u8)
    }

    // A quotient in A and a rest in Y; V and H come from the old values.
    fn with_quotient(self, quotient: u8, rest: u8) -> Registers
        ensures { record_of result ≡ divided (record_of self) quotient rest }
    {
        let v = bit_if(self.y >= self.x, 128);
        let h = bit_if(self.y % 16 >= self.x % 16, 16);
        self.with_y(rest).load_a(quotient).with_vh(v, h)
    }

    // YA divided by X.
    pub fn div(self) -> Registers
        ensures { record_of result ≡ div_of (record_of self) }
    {
        let x = self.x as u32;
        let ya = self.y as u32 * 256 + self.a as u32;
        if (self.y as u32) < x * 2 {
            self.with_quotient((ya / x % 256) as u8, (ya % x) as u8)
        } else {
            let over = ya - x * 512;
            let quotient = 255 - over / (256 - x);
            let rest = x + over % (256 - x);
            self.with_quotient(quotient as u8, rest as u8)
        }
    }
}
