// What an address that a mode found is for: the byte there, or the address alone.
ghost use Rattle.std.specs.Prelude.{◌≡◌};
ghost use Rattle.memory.specs.Promises.{Reads};
ghost use Rattle.instructions.specs.Gather.{operands, loaded};
ghost use Rattle.gather.specs.Columns.{placed};

use instructions::Operands;
use memory::Reading;
use modes::Addressed;

// An address alone: a plain store does not read its target, a jump not what it goes to.
pub fn aim(found: Addressed) -> Operands
    ensures { result ≡ operands found.cpu found.at 0 0 0 }
{
    Operands {
        cpu: found.cpu,
        at: found.at,
        next: 0,
        low: 0,
        high: 0,
    }
}

// An address with the byte that stands there.
pub fn load(found: Addressed, bus: &mut Reading) -> Operands
    ensures { Reads (loaded found) bus.old bus.new result }
{
    let low = bus.read(found.at);
    Operands {
        cpu: found.cpu,
        at: found.at,
        next: 0,
        low,
        high: 0,
    }
}

// Either, by the opcode: where A, X and Y are loaded and stored, the stores are the opcodes whose top three bits are 6.
pub fn place(found: Addressed, bus: &mut Reading, op: u8) -> Operands
    ensures { Reads (placed op found) bus.old bus.new result }
{
    if op / 32 == 6 {
        return aim(found);
    }
    load(found, bus)
}
