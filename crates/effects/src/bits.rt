// Single bits: of a byte in memory, and of the status word.
ghost use Rattle.std.specs.Prelude.{◌≡◌, true, false};
ghost use Rattle.instructions.specs.Effects.{bit_in, has_bit, with_bit};
ghost use Rattle.psw.specs.Flags.{with_vh, with_p, with_b, with_i};

use psw::ProgramStatusWord;

// The value of the bit whose number stands in the opcode's top three bits.
pub fn bit_in(opcode: u8) -> u8
    ensures { result ≡ bit_in opcode }
{
    1u8 << (opcode / 32)
}

// Whether a byte has a bit.
pub fn has_bit(byte: u8, bit: u8) -> bool
    ensures { result ≡ has_bit bit byte }
{
    byte & bit != 0
}

// A byte with a bit set or cleared.
pub fn with_bit(byte: u8, bit: u8, on: bool) -> u8
    ensures { result ≡ with_bit on bit byte }
{
    if on { byte | bit } else { byte & (255 - bit) }
}

// Status words that differ in the flag named.
pub fn with_p(mut psw: ProgramStatusWord, on: bool) -> ProgramStatusWord
    ensures { result ≡ with_p on psw }
{
    psw.p = on;
    psw
}

pub fn with_i(mut psw: ProgramStatusWord, on: bool) -> ProgramStatusWord
    ensures { result ≡ with_i on psw }
{
    psw.i = on;
    psw
}

pub fn without_vh(mut psw: ProgramStatusWord) -> ProgramStatusWord
    ensures { result ≡ with_vh false false psw }
{
    psw.v = false;
    psw.h = false;
    psw
}

// B set and I cleared, as BRK leaves them.
pub fn interrupted(mut psw: ProgramStatusWord) -> ProgramStatusWord
    ensures { result ≡ with_b true (with_i false psw) }
{
    psw.b = true;
    psw.i = false;
    psw
}
