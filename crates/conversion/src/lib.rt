// From a state record, the register record's seven bytes and the memory, to an SPC file and back.
#![tactic(auto)]

mod unnamed;

ghost use Rattle.laws.specs.Lent.{lent};
ghost use Rattle.laws.specs.Filled.{Fills};
ghost use Rattle.conversion.specs.Calls.{file_from_record, record_from_file};

use refusals::Refusal;
use spc_file::File;

// Makes a file of a record: every byte of the lent file is written. Refused are a record that is not 65,543 bytes, and then a file that is
// not 66,048 bytes; the file then stays as it was.
pub fn file_from_record(file: &mut [u8], record: &[u8]) -> Result<(), Refusal>
    ensures { Fills (file_from_record «record».now) (lent file) result }
{
    if record.len() != 65543 {
        return Err(Refusal::Form);
    }
    let file: &mut File = file.as_mut_array().ok_or(Refusal::File)?;
    file[..33].copy_from_slice(&spc_file::SIGNATURE);
    unnamed::set_defaults(file);
    let (registers, memory) = record.split_at(7);
    spc_file::write(file, state::registers(registers), memory)
}

// Makes a record of a file that holds nothing else. Refused are a lent record that is not 65,543 bytes, then what reading a file refuses,
// and then an unnamed byte that is not its default; the record then stays as it was.
pub fn record_from_file(record: &mut [u8], file: &[u8]) -> Result<(), Refusal>
    ensures { Fills (record_from_file file.now) (lent «record») result }
{
    if record.len() != 65543 {
        return Err(Refusal::Form);
    }
    let file: &File = file.as_array().ok_or(Refusal::File)?;
    let cpu = spc_file::read(file)?;
    if !unnamed::has_defaults(file) {
        return Err(Refusal::Unnamed);
    }
    let (registers, memory) = record.split_at_mut(7);
    state::set_registers(registers, cpu);
    memory.copy_from_slice(spc_file::memory(file));
    Ok(())
}
