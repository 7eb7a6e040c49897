// A part of a run, and the image blanked by what has been read so far: all of it in one packet of bytes, answered in its place. The run is
// made on the packet's own memory and maps.
#![tactic(auto)]

mod head;

ghost use Rattle.laws.specs.Lent.{lent};
ghost use Rattle.laws.specs.Filled.{Fills};
ghost use Rattle.auditor.specs.Inside.{Keeping};
ghost use Rattle.auditor.specs.Audit.{audit_of};

use editions::Edition;
use marks::Map;
use memory::Memory;
use refusals::Refusal;

// The kept map with the read map's marks, and the image blanked by both; how many addresses were given the byte.
fn keep(reads: &Map, kept: &mut Map, image: &mut Memory, byte: u8) -> u32
    ensures { Keeping reads.now kept.old image.old byte kept.new image.new result }
{
    blanking::join(reads, kept);
    blanking::blank(image, kept, byte).unwrap()
}

// Answers a packet in its own bytes; refused, the packet stays as it was. Refusals: Form, a packet of a wrong length or with registers whose
// last byte is above 2; Edition, neither 1 nor 2.
pub fn session(packet: &mut [u8]) -> Result<(), Refusal>
    ensures { Fills audit_of (lent packet) result }
{
    let Some((head, rest)) = packet.split_first_chunk_mut::<64>() else {
        return Err(Refusal::Form);
    };
    let Some((memory, rest)) = rest.split_first_chunk_mut::<65536>() else {
        return Err(Refusal::Form);
    };
    let Some((image, rest)) = rest.split_first_chunk_mut::<65536>() else {
        return Err(Refusal::Form);
    };
    let Some((reads, rest)) = rest.split_first_chunk_mut::<8192>() else {
        return Err(Refusal::Form);
    };
    let Some((writes, rest)) = rest.split_first_chunk_mut::<8192>() else {
        return Err(Refusal::Form);
    };
    let Some(kept) = rest.as_mut_array::<8192>() else {
        return Err(Refusal::Form);
    };
    let cpu = head::registers(head)?;
    let edition = Edition::try_from(head[0])?;
    let budget = head::budget(head);
    let byte = head[5];
    let watched = watch::run_within(cpu, edition, memory, reads, writes, budget);
    let blanked = keep(reads, kept, image, byte);
    head::tell(head, watched, reads, writes, blanked);
    Ok(())
}
