// The library that other programs link: C's view of the engine and of a wake, the count of marks, the differences between two memories,
// blanked images, the listing, SPC files and state records, which include/spc700.h documents. Every call has no condition, and answers one
// number. Crate exports_c gives C these calls, where a slice is a pointer and a length: so slices have any length here, a sign stands beside
// a map that there may be, and what a call answers is packed.
#![tactic(auto)]

ghost use Rattle.std.specs.Prelude.{◌≡◌};
ghost use Rattle.laws.specs.Lent.{lent};
ghost use Rattle.listing.specs.Instruction.{listed_of};
ghost use Rattle.laws.specs.Filled.{Fills};
ghost use Rattle.exports.specs.Calls.{told_number, step_call, run_call, wake_call, CallYields, TextYields};
ghost use Rattle.exports.specs.Calls.{counts_call, differences_call, blank_call};
ghost use Rattle.exports.specs.Calls.{file_read_call, file_write_call, file_from_record_call, record_from_file_call};

use refusals::Refusal;

// What a call tells that is not refused.
#[derive(Default, Drop)]
struct Told {
    stop: u8,
    number: u32,
}

// The one number that a call answers.
fn packed(told: Result<Told, Refusal>) -> u64
    ensures { result ≡ told_number told }
{
    let (refusal, stop, number) = match told {
        Ok(told) => (0, told.stop, told.number),
        Err(refusal) => (u8::from(refusal), 0, 0),
    };
    refusal as u64 * 0x100_0000_0000 + stop as u64 * 0x1_0000_0000 + number as u64
}

// One step in an edition, which is a number, or none of a record that is not awake. Refusals: 6 registers that are not eight bytes with 0,
// 1 or 2 as the last, 9 an edition that is neither 1 nor 2, 1 memory that is not 65,536 bytes, 2 a map that is not 8,192 bytes.
pub fn spc700_step(
    registers: &mut [u8],
    edition: u8,
    memory: &mut [u8],
    reads: &mut [u8],
    writes: &mut [u8],
) -> u64
    ensures { CallYields (step_call edition) (lent registers) (lent memory) (lent reads) (lent writes) result }
{
    // a run of budget 1
    packed(run_from(registers, edition, 1, memory, reads, writes))
}

// A run of at most `budget` steps, or of none where the record is not awake. Refusals as for a step.
pub fn spc700_run(
    registers: &mut [u8],
    edition: u8,
    budget: u32,
    memory: &mut [u8],
    reads: &mut [u8],
    writes: &mut [u8],
) -> u64
    ensures { CallYields (run_call edition budget) (lent registers) (lent memory) (lent reads) (lent writes) result }
{
    packed(run_from(registers, edition, budget, memory, reads, writes))
}

// The run, from registers and back into them. Compiled into both calls, since a step by itself would pay for one with so many arguments.
#[inline(always)]
fn run_from(
    registers: &mut [u8],
    edition: u8,
    budget: u32,
    memory: &mut [u8],
    reads: &mut [u8],
    writes: &mut [u8],
) -> Result<Told, Refusal>
    ensures { CallYields (run_call edition budget) (lent registers) (lent memory) (lent reads) (lent writes) (told_number result) }
{
    let cpu = state::whole_in(registers)?;
    let ran = engine::run(cpu, edition, memory, reads, writes, budget)?;
    state::set_whole(registers, ran.cpu);
    Ok(Told {
        stop: u8::from(ran.cpu.state),
        number: ran.steps,
    })
}

// Sets the record awake, and changes nothing else. Refusal: 6 as for a step.
pub fn spc700_wake(registers: &mut [u8]) -> u64
    ensures { Fills wake_call (lent registers) result }
{
    packed(wake_in(registers))
}

fn wake_in(registers: &mut [u8]) -> Result<Told, Refusal>
    ensures { Fills wake_call (lent registers) (told_number result) }
{
    let cpu = state::whole_in(registers)?;
    state::set_whole(registers, cpu.wake());
    Ok(Told::default())
}

// How many addresses two maps mark as read only, as stored to only, and as both: three numbers. Refusals: 6 a row that is not three numbers
// long, 2 a map that is not 8,192 bytes.
pub fn spc700_counts(reads: &[u8], writes: &[u8], counts: &mut [u32]) -> u64
    ensures { Fills (counts_call reads.now writes.now) (lent counts) result }
{
    packed(count_into(counts, reads, writes))
}

fn count_into(row: &mut [u32], reads: &[u8], writes: &[u8]) -> Result<Told, Refusal>
    ensures { Fills (counts_call reads.now writes.now) (lent row) (told_number result) }
{
    let row: &mut [u32; 3] = row.as_mut_array().ok_or(Refusal::Form)?;
    let counted = marks::counts(reads, writes)?;
    *row = [counted.read_only, counted.stored_only, counted.both];
    Ok(Told::default())
}

// First and last address of every stretch at which two memories differ, two numbers each, into the row. The stop is 1 where there is a map,
// that is where `has_map` is not 0, and a stretch touches one of its marks. Refusals: 1 a memory that is not 65,536 bytes, 2 a map, where
// there is one, that is not 8,192 bytes, 3 a row that is too short.
pub fn spc700_differences(
    first: &[u8],
    second: &[u8],
    has_map: u8,
    map: &[u8],
    row: &mut [u16],
) -> u64
    ensures { Fills (differences_call first.now second.now has_map map.now) (lent row) result }
{
    let map = (has_map != 0).then_some(map);
    packed(differences::between(first, second, map, row).map(|found| Told {
        stop: found.touched as u8,
        number: found.stretches,
    }))
}

// The byte at every address that the map does not mark, in place; the number is how many addresses these are. Refusals: 1 memory that is
// not 65,536 bytes, 2 a map that is not 8,192 bytes.
pub fn spc700_blank(memory: &mut [u8], map: &[u8], byte: u8) -> u64
    ensures { Fills (blank_call map.now byte) (lent memory) result }
{
    packed(blanking::blank(memory, map, byte).map(|blanked| Told {
        stop: 0,
        number: blanked,
    }))
}

// One instruction's text from its bytes. Refusals: 4 fewer bytes than the instruction has, 3 a buffer that is too short.
pub fn spc700_text(code: &[u8], text: &mut [u8]) -> u64
    ensures { TextYields (listed_of code.now) (lent text) result }
{
    packed(list_into(text, code))
}

fn list_into(text: &mut [u8], code: &[u8]) -> Result<Told, Refusal>
    ensures { TextYields (listed_of code.now) (lent text) (told_number result) }
{
    let length = listing::instruction(code, text)?;
    // a text has at most 80 bytes
    Ok(Told {
        stop: 0,
        number: length as u32,
    })
}

// The record of an SPC file, awake. Refusals: 6 registers that are not eight bytes, whatever they hold, 7 a file that is not 66,048 bytes,
// 8 a file that begins otherwise.
pub fn spc700_file_read(file: &[u8], registers: &mut [u8]) -> u64
    ensures { Fills (file_read_call file.now) (lent registers) result }
{
    packed(read_into(registers, file))
}

fn read_into(registers: &mut [u8], file: &[u8]) -> Result<Told, Refusal>
    ensures { Fills (file_read_call file.now) (lent registers) (told_number result) }
{
    let registers: &mut [u8; 8] = registers.as_mut_array().ok_or(Refusal::Form)?;
    let cpu = spc_file::read(file)?;
    state::set_whole(registers, cpu);
    Ok(Told::default())
}

// Record and memory into an SPC file. Refusals: 6 as for a step, 7 and 8 as above, then 1 memory that is not 65,536 bytes, then 12 a record
// that is not awake.
pub fn spc700_file_write(file: &mut [u8], registers: &[u8], memory: &[u8]) -> u64
    ensures { Fills (file_write_call registers.now memory.now) (lent file) result }
{
    packed(write_into(file, registers, memory))
}

fn write_into(file: &mut [u8], registers: &[u8], memory: &[u8]) -> Result<Told, Refusal>
    ensures { Fills (file_write_call registers.now memory.now) (lent file) (told_number result) }
{
    let cpu = state::whole_in(registers)?;
    spc_file::write(file, cpu, memory)?;
    Ok(Told::default())
}

// A state record into an SPC file, of which every byte is written. Refusals: 6 a record that is not 65,543 bytes, 7 a file that is not
// 66,048 bytes.
pub fn spc700_file_from_record(file: &mut [u8], record: &[u8]) -> u64
    ensures { Fills (file_from_record_call «record».now) (lent file) result }
{
    packed(conversion::file_from_record(file, record).map(|()| Told::default()))
}

// An SPC file that holds nothing else into a state record. Refusals: 6 a record that is not 65,543 bytes, 7 and 8 as above, then 10 an
// unnamed byte that is not its default.
pub fn spc700_record_from_file(record: &mut [u8], file: &[u8]) -> u64
    ensures { Fills (record_from_file_call file.now) (lent «record») result }
{
    packed(conversion::record_from_file(record, file).map(|()| Told::default()))
}
