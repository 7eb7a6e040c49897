// Address modes.
ghost use Rattle.std.specs.Prelude.{◌≡◌, ◌^◌, ◌≤◌};
ghost use Rattle.memory.specs.Promises.{Reads};
ghost use Rattle.modes.specs.Addresses.{direct_at, onward};
ghost use Rattle.modes.specs.Modes.{fetch, fetch_word, immediate, direct, direct_word, indirect, pointed, pointer_x, pointer_y, absolute, absolute_pointer, bit_operand, bit_read};
ghost use Rattle.psw.specs.Status.{bit_of};

use crate::{Addressed, BitAddressed, BitRead, WordAddressed};
use editions::Edition;
use memory::Reading;
use processor::{Processor, Produced};
use psw::ProgramStatusWord;

// The record with PC one byte further.
pub fn past(mut cpu: Processor) -> Processor
    ensures { result ≡ onward cpu }
{
    cpu.pc = cpu.pc.wrapping_add(1);
    cpu
}

// An address of the direct page.
fn page(psw: ProgramStatusWord, byte: u8, index: u8) -> u16
    ensures { result ≡ direct_at psw byte index }
{
    let low = byte.wrapping_add(index) as u16;
    if psw.p { 0x100 + low } else { low }
}

// The byte at PC, with PC behind it. Every opcode, operand and displacement byte is read here.
pub fn fetch_u8(cpu: Processor, bus: &mut Reading) -> Produced
    ensures { Reads (fetch cpu) bus.old bus.new result }
{
    let byte = bus.read(cpu.pc);
    Produced {
        cpu: past(cpu),
        byte,
    }
}

// The word at PC, low byte first, with PC behind it.
pub fn fetch_u16(cpu: Processor, bus: &mut Reading) -> Addressed
    ensures { Reads (fetch_word cpu) bus.old bus.new result }
{
    let low = fetch_u8(cpu, bus);
    let high = fetch_u8(low.cpu, bus);
    Addressed {
        cpu: high.cpu,
        at: processor::word(low.byte, high.byte),
    }
}

// Immediate: the address of the operand byte.
pub fn imm(cpu: Processor) -> Addressed
    ensures { result ≡ immediate cpu }
{
    Addressed {
        cpu: past(cpu),
        at: cpu.pc,
    }
}

// d plus an index.
pub fn d_off(cpu: Processor, bus: &mut Reading, index: u8) -> Addressed
    ensures { Reads (direct index cpu) bus.old bus.new result }
{
    let operand = fetch_u8(cpu, bus);
    Addressed {
        cpu: operand.cpu,
        at: page(cpu.psw, operand.byte, index),
    }
}

// d
pub fn d(cpu: Processor, bus: &mut Reading) -> Addressed
    ensures { Reads (direct 0 cpu) bus.old bus.new result }
{
    d_off(cpu, bus, 0)
}

// d+X
pub fn dx(cpu: Processor, bus: &mut Reading) -> Addressed
    ensures { Reads (direct cpu.x cpu) bus.old bus.new result }
{
    d_off(cpu, bus, cpu.x)
}

// d+Y
pub fn dy(cpu: Processor, bus: &mut Reading) -> Addressed
    ensures { Reads (direct cpu.y cpu) bus.old bus.new result }
{
    d_off(cpu, bus, cpu.y)
}

// d as a word: the addresses of its low and its high byte, both in the direct page.
pub fn dw(cpu: Processor, bus: &mut Reading) -> WordAddressed
    ensures { Reads (direct_word cpu) bus.old bus.new result }
{
    let operand = fetch_u8(cpu, bus);
    WordAddressed {
        cpu: operand.cpu,
        low: page(cpu.psw, operand.byte, 0),
        high: page(cpu.psw, operand.byte, 1),
    }
}

// (X)
pub fn ix(cpu: Processor) -> Addressed
    ensures { result ≡ indirect cpu.x cpu }
{
    Addressed {
        cpu,
        at: page(cpu.psw, cpu.x, 0),
    }
}

// (Y)
pub fn iy(cpu: Processor) -> Addressed
    ensures { result ≡ indirect cpu.y cpu }
{
    Addressed {
        cpu,
        at: page(cpu.psw, cpu.y, 0),
    }
}

// The pointer at an address of the direct page, plus an index. The edition says where its second byte stands.
fn pointer(d: Addressed, edition: Edition, bus: &mut Reading, index: u8) -> Addressed
    ensures { Reads (pointed edition index d) bus.old bus.new result }
{
    let low = bus.read(d.at);
    let high = bus.read(editions::second_at(edition, d.at));
    Addressed {
        cpu: d.cpu,
        at: processor::word(low, high).wrapping_add(index as u16),
    }
}

// [d+X]
pub fn idx(cpu: Processor, edition: Edition, bus: &mut Reading) -> Addressed
    ensures { Reads (pointer_x edition cpu) bus.old bus.new result }
{
    let at = dx(cpu, bus);
    pointer(at, edition, bus, 0)
}

// [d]+Y
pub fn idy(cpu: Processor, edition: Edition, bus: &mut Reading) -> Addressed
    ensures { Reads (pointer_y edition cpu) bus.old bus.new result }
{
    let at = d(cpu, bus);
    pointer(at, edition, bus, cpu.y)
}

// !a plus an index.
pub fn abs_off(cpu: Processor, bus: &mut Reading, index: u8) -> Addressed
    ensures { Reads (absolute index cpu) bus.old bus.new result }
{
    let operand = fetch_u16(cpu, bus);
    Addressed {
        cpu: operand.cpu,
        at: operand.at.wrapping_add(index as u16),
    }
}

// !a
pub fn abs(cpu: Processor, bus: &mut Reading) -> Addressed
    ensures { Reads (absolute 0 cpu) bus.old bus.new result }
{
    abs_off(cpu, bus, 0)
}

// !a+X
pub fn absx(cpu: Processor, bus: &mut Reading) -> Addressed
    ensures { Reads (absolute cpu.x cpu) bus.old bus.new result }
{
    abs_off(cpu, bus, cpu.x)
}

// !a+Y
pub fn absy(cpu: Processor, bus: &mut Reading) -> Addressed
    ensures { Reads (absolute cpu.y cpu) bus.old bus.new result }
{
    abs_off(cpu, bus, cpu.y)
}

// [!a+X]: the word there, whatever the edition.
pub fn iax(cpu: Processor, bus: &mut Reading) -> Addressed
    ensures { Reads (absolute_pointer cpu) bus.old bus.new result }
{
    let operand = absx(cpu, bus);
    let at = bus.read_u16(operand.at);
    Addressed {
        cpu: operand.cpu,
        at,
    }
}

// Mb: the address of a byte and the number of a bit.
pub fn bit_operand(cpu: Processor, bus: &mut Reading) -> BitAddressed
    ensures performed { Reads (bit_operand cpu) bus.old bus.new result }
    ensures one_of_eight { result.bit ≤ 7 }
{
    let operand = fetch_u16(cpu, bus);
    BitAddressed {
        cpu: operand.cpu,
        at: operand.at % 8192,
        bit: (operand.at / 8192) as u8,
    }
}

// A bit of a byte.
pub fn has_bit(byte: u8, bit: u8) -> bool
    requires { bit ≤ 7 }
    ensures { result ≡ bit_of (2 ^ bit) byte }
{
    (byte >> bit) % 2 == 1
}

// The bit that Mb names.
pub fn mb(cpu: Processor, bus: &mut Reading) -> BitRead
    ensures { Reads (bit_read cpu) bus.old bus.new result }
{
    let operand = bit_operand(cpu, bus);
    let byte = bus.read(operand.at);
    BitRead {
        cpu: operand.cpu,
        bit: has_bit(byte, operand.bit),
    }
}
