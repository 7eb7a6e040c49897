// Nothing, or a byte alone.
ghost use Rattle.std.specs.Prelude.{◌≡◌};
ghost use Rattle.instructions.specs.Gather.{operands};

use instructions::Operands;
use processor::{Processor, Produced};

// Nothing is read.
pub fn implied(cpu: Processor) -> Operands
    ensures { result ≡ operands cpu 0 0 0 0 }
{
    Operands {
        cpu,
        at: 0,
        next: 0,
        low: 0,
        high: 0,
    }
}

// A byte alone: an operand, or one from the stack.
pub fn byte_only(read: Produced) -> Operands
    ensures { result ≡ operands read.cpu 0 0 read.byte 0 }
{
    Operands {
        cpu: read.cpu,
        at: 0,
        next: 0,
        low: read.byte,
        high: 0,
    }
}
