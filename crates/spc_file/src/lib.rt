// SPC files: reading the record and the memory out of one, and writing them into one.
#![tactic(auto)]

ghost use Rattle.std.specs.Prelude.{◌≡◌, MatchResult};
ghost use Rattle.laws.specs.Lent.{lent};
ghost use Rattle.laws.specs.Filled.{Fills};
ghost use Rattle.spc_file.specs.Layout.{record_in, record_bytes};
ghost use Rattle.spc_file.specs.Calls.{refusal_of, read_of, memory_of, write_of};

use processor::Processor;
use psw::ProgramStatusWord;
use refusals::Refusal;
use waking::State;

// What has the length of a file.
pub type File = [u8; 66048];

// The first 33 bytes of every file.
pub const SIGNATURE: [u8; 33] = *b"SNES-SPC700 Sound File Data v0.30";

// Bytes as an SPC file, the one test that reading and writing share: another length is refused, and then another beginning.
fn accepted(file: &[u8]) -> Result<&File, Refusal>
    ensures { MatchResult result
        (λ accepted. (accepted.now ≡ file.now) × (refusal_of file.now ≡ Ok tt))
        (λ refusal. refusal_of file.now ≡ Err refusal) }
{
    let file: &File = file.as_array().ok_or(Refusal::File)?;
    if !file.starts_with(&SIGNATURE) {
        return Err(Refusal::Signature);
    }
    Ok(file)
}

// The record that stands in a file: awake, since a file has no place for a state.
fn record_in(file: &File) -> Processor
    ensures { result ≡ record_in file.now }
{
    Processor {
        pc: u16::from_le_bytes([file[37], file[38]]),
        a: file[39],
        x: file[40],
        y: file[41],
        psw: ProgramStatusWord::from_byte(file[42]),
        sp: file[43],
        state: State::Awake,
    }
}

// Reads the record.
pub fn read(file: &[u8]) -> Result<Processor, Refusal>
    ensures { result ≡ read_of file.now }
{
    let file = accepted(file)?;
    Ok(record_in(file))
}

// The part of the file that is memory, 65,536 bytes; an empty part where reading is refused.
pub fn memory(file: &[u8]) -> &[u8]
    ensures { result.now ≡ memory_of file.now }
{
    match accepted(file) {
        Ok(file) => &file[256..65792],
        Err(_) => &[],
    }
}

// The seven bytes of a record, in the file's order.
fn record_bytes(cpu: Processor) -> [u8; 7]
    ensures { result ≡ record_bytes cpu }
{
    let [low, high] = cpu.pc.to_le_bytes();
    [low, high, cpu.a, cpu.x, cpu.y, cpu.psw.to_byte(), cpu.sp]
}

// Lays record and memory into a file. Refused are what reading refuses, then a memory that is not 65,536 bytes, then a record that is not
// awake; the file then stays as it was.
pub fn write(file: &mut [u8], cpu: Processor, memory: &[u8]) -> Result<(), Refusal>
    ensures { Fills (write_of cpu memory.now) (lent file) result }
{
    accepted(file)?;
    if memory.len() != 65536 {
        return Err(Refusal::Memory);
    }
    if !cpu.is_awake() {
        return Err(Refusal::Asleep);
    }
    file[37..44].copy_from_slice(&record_bytes(cpu));
    file[256..65792].copy_from_slice(memory);
    Ok(())
}
