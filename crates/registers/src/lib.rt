// The registers as a long run carries them: flat, so that the step loop holds each in a register of the machine. A flag stays in the byte
// that set it.
#![tactic(auto)]

mod decimal;
mod fields;
mod products;
mod shifts;
mod status;
mod sums;
mod words;

ghost use Rattle.std.specs.Prelude.{◌≡◌, ◌≤◌, if◌then◌else◌};
ghost use Rattle.registers.specs.Flat.{flags_in, record_of};

use processor::Processor;
use psw::ProgramStatusWord;

// N is bit 7 of n, Z holds where z is 0, V is bit 7 of v, H is bit 4 of h, C is bit 0 of c, P is bit 8 of page, B and I are bits 4 and 2
// of rest; stop is the number of the record's state. The order of the fields is a matter of what a step costs (docs/SPEED.md).
#[derive(Clone, Copy)]
pub struct Registers {
    pub x: u8,
    pub y: u8,
    pub sp: u8,
    pub pc: u16,
    pub page: u16,
    pub z: u8,
    pub n: u8,
    pub v: u8,
    pub h: u8,
    pub c: u8,
    pub a: u8,
    pub rest: u8,
    pub stop: u8,
}

// A flag as the bit of a byte.
pub fn bit_if(set: bool, value: u8) -> u8
    ensures { (result ≡ (if set then value else 0)) × (result ≤ value) }
{
    if set { value } else { 0 }
}

impl Registers {
    // The record, made flat.
    pub fn of(cpu: Processor) -> Registers
        ensures { record_of result ≡ cpu }
    {
        let psw = cpu.psw;
        Registers {
            a: cpu.a,
            x: cpu.x,
            y: cpu.y,
            sp: cpu.sp,
            pc: cpu.pc,
            n: bit_if(psw.n, 128),
            z: bit_if(!psw.z, 1),
            v: bit_if(psw.v, 128),
            h: bit_if(psw.h, 16),
            c: bit_if(psw.c, 1),
            page: if psw.p { 256 } else { 0 },
            rest: bit_if(psw.b, 16) + bit_if(psw.i, 4),
            stop: u8::from(cpu.state),
        }
    }

    // The flags, each from its byte.
    fn flags(self) -> ProgramStatusWord
        ensures { result ≡ flags_in self }
    {
        ProgramStatusWord {
            n: self.n >= 128,
            v: self.v >= 128,
            p: self.page / 256 % 2 == 1,
            b: self.rest / 16 % 2 == 1,
            h: self.h / 16 % 2 == 1,
            i: self.rest / 4 % 2 == 1,
            z: self.z == 0,
            c: self.c % 2 == 1,
        }
    }

    // The record that the flat registers stand for.
    pub fn record(self) -> Processor
        ensures { result ≡ record_of self }
    {
        let psw = self.flags();
        let state = waking::state_of(self.stop);
        Processor {
            a: self.a,
            x: self.x,
            y: self.y,
            sp: self.sp,
            pc: self.pc,
            psw,
            state,
        }
    }
}
