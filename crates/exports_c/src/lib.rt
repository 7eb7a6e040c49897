// The functions of crate exports as C calls them: each with the same contract. include/spc700.h documents them. They stand apart because a
// crate is a library or a static library, and not both.
#![tactic(auto)]

ghost use Rattle.laws.specs.Lent.{lent};
ghost use Rattle.listing.specs.Instruction.{listed_of};
ghost use Rattle.laws.specs.Filled.{Fills};
ghost use Rattle.exports.specs.Calls.{step_call, run_call, wake_call, CallYields, TextYields};
ghost use Rattle.exports.specs.Calls.{counts_call, differences_call, blank_call};
ghost use Rattle.exports.specs.Calls.{file_read_call, file_write_call, file_from_record_call, record_from_file_call};

#[unsafe(no_mangle)]
pub extern "C" fn spc700_step(
    registers: &mut [u8],
    edition: u8,
    memory: &mut [u8],
    reads: &mut [u8],
    writes: &mut [u8],
) -> u64
    ensures { CallYields (step_call edition) (lent registers) (lent memory) (lent reads) (lent writes) result }
{
    exports::spc700_step(registers, edition, memory, reads, writes)
}

#[unsafe(no_mangle)]
pub extern "C" fn spc700_run(
    registers: &mut [u8],
    edition: u8,
    budget: u32,
    memory: &mut [u8],
    reads: &mut [u8],
    writes: &mut [u8],
) -> u64
    ensures { CallYields (run_call edition budget) (lent registers) (lent memory) (lent reads) (lent writes) result }
{
    exports::spc700_run(registers, edition, budget, memory, reads, writes)
}

#[unsafe(no_mangle)]
pub extern "C" fn spc700_wake(registers: &mut [u8]) -> u64
    ensures { Fills wake_call (lent registers) result }
{
    exports::spc700_wake(registers)
}

#[unsafe(no_mangle)]
pub extern "C" fn spc700_counts(reads: &[u8], writes: &[u8], counts: &mut [u32]) -> u64
    ensures { Fills (counts_call reads.now writes.now) (lent counts) result }
{
    exports::spc700_counts(reads, writes, counts)
}

#[unsafe(no_mangle)]
pub extern "C" fn spc700_differences(
    first: &[u8],
    second: &[u8],
    has_map: u8,
    map: &[u8],
    row: &mut [u16],
) -> u64
    ensures { Fills (differences_call first.now second.now has_map map.now) (lent row) result }
{
    exports::spc700_differences(first, second, has_map, map, row)
}

#[unsafe(no_mangle)]
pub extern "C" fn spc700_blank(memory: &mut [u8], map: &[u8], byte: u8) -> u64
    ensures { Fills (blank_call map.now byte) (lent memory) result }
{
    exports::spc700_blank(memory, map, byte)
}

#[unsafe(no_mangle)]
pub extern "C" fn spc700_text(code: &[u8], text: &mut [u8]) -> u64
    ensures { TextYields (listed_of code.now) (lent text) result }
{
    exports::spc700_text(code, text)
}

#[unsafe(no_mangle)]
pub extern "C" fn spc700_file_read(file: &[u8], registers: &mut [u8]) -> u64
    ensures { Fills (file_read_call file.now) (lent registers) result }
{
    exports::spc700_file_read(file, registers)
}

#[unsafe(no_mangle)]
pub extern "C" fn spc700_file_write(file: &mut [u8], registers: &[u8], memory: &[u8]) -> u64
    ensures { Fills (file_write_call registers.now memory.now) (lent file) result }
{
    exports::spc700_file_write(file, registers, memory)
}

#[unsafe(no_mangle)]
pub extern "C" fn spc700_file_from_record(file: &mut [u8], record: &[u8]) -> u64
    ensures { Fills (file_from_record_call «record».now) (lent file) result }
{
    exports::spc700_file_from_record(file, record)
}

#[unsafe(no_mangle)]
pub extern "C" fn spc700_record_from_file(record: &mut [u8], file: &[u8]) -> u64
    ensures { Fills (record_from_file_call file.now) (lent «record») result }
{
    exports::spc700_record_from_file(record, file)
}
