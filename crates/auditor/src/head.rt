// The head of a packet: what is asked stands in it, and then what is told of the run.
ghost use Rattle.std.specs.Prelude.{◌≡◌, ◌++◌, ◌∷◌};
ghost use Rattle.std.proofs.lemmas.List.Edits.{sets};
ghost use Rattle.marks.specs.Counts.{three_counts};
ghost use Rattle.waking.specs.States.{number_of};
ghost use Rattle.state.specs.Registers.{whole_in, whole_bytes_of, four_bytes};
ghost use Rattle.auditor.specs.Packet.{registers_in, budget_in, devices_in};
ghost use Rattle.auditor.specs.Inside.{told_in};

use engine::Ran;
use marks::{Counted, Map};
use processor::Processor;
use refusals::Refusal;
use watch::Watched;

// What stands in a packet before the memory.
pub type Head = [u8; 64];

// The registers; bytes that are no whole record are refused.
pub fn registers(head: &Head) -> Result<Processor, Refusal>
    ensures { result ≡ whole_in (registers_in head.now) }
{
    state::whole_in(&head[6..14])
}

// The budget, which stands behind the edition.
pub fn budget(head: &Head) -> u32
    ensures { result ≡ budget_in head.now }
{
    u32::from_le_bytes([head[1], head[2], head[3], head[4]])
}

// The device addresses that earlier parts have read.
fn devices_in(head: &Head) -> u16
    ensures { result ≡ devices_in head.now }
{
    u16::from_le_bytes([head[35], head[36]])
}

// Registers, stop and steps.
fn outcome(head: &mut Head, ran: Ran)
    ensures { head.new ≡ sets head.old 6 (whole_bytes_of ran.cpu ++ number_of ran.cpu.state ∷ four_bytes ran.steps) }
{
    state::set_whole(&mut head[6..14], ran.cpu);
    head[14] = u8::from(ran.cpu.state);
    state::set_number(&mut head[15..19], ran.steps);
}

// How many addresses are read only, stored only, and both, and how many were given the byte.
fn counts(head: &mut Head, counted: Counted, blanked: u32)
    ensures { head.new ≡ sets head.old 19
        (four_bytes counted.read_only ++ four_bytes counted.stored_only ++ four_bytes counted.both ++ four_bytes blanked) }
{
    state::set_number(&mut head[19..23], counted.read_only);
    state::set_number(&mut head[23..27], counted.stored_only);
    state::set_number(&mut head[27..31], counted.both);
    state::set_number(&mut head[31..35], blanked);
}

// All that is told, but for what was asked and for what has no meaning yet. The devices that the run has read are added to those of earlier
// parts.
pub fn tell(head: &mut Head, watched: Watched, reads: &Map, writes: &Map, blanked: u32)
    ensures { head.new ≡ told_in head.old watched (three_counts reads.now writes.now) blanked }
{
    let counted = marks::counts(reads, writes).unwrap();
    let devices = devices_in(head) | watched.devices;
    outcome(head, watched.ran);
    counts(head, counted, blanked);
    let [low, high] = devices.to_le_bytes();
    head[35] = low;
    head[36] = high;
}
