// The runner: a run on a state record, and the report of it.
#![tactic(auto)]

mod lines;

ghost use Rattle.std.specs.Prelude.{◌≡◌, [], take};
ghost use Rattle.laws.specs.Lent.{lent};
ghost use Rattle.text.specs.Line.{blank};
ghost use Rattle.marks.specs.Counts.{three_counts};
ghost use Rattle.runner.specs.Session.{budget_of, from_clear, run_in, reported, session_of};
ghost use Rattle.runner.specs.Told.{Tells};

use editions::Edition;
use marks::{Counted, Map};
use memory::{Bus, Memory};
use processor::Processor;
use text::Line;

// What stands in an input: an edition's number, a budget and a state record.
type Input = [u8; 65548];

// What the program prints: two lines of text, each of which may hold several that end in a newline.
#[derive(Drop)]
pub struct Report {
    pub opening: Line,
    pub closing: Line,
}

// The budget, which stands behind the edition.
fn budget(input: &Input) -> u32
    ensures { result ≡ budget_of input.now }
{
    u32::from_le_bytes([input[1], input[2], input[3], input[4]])
}

// How many addresses two maps mark: their lengths are right, so that no count is refused.
fn count(reads: &Map, writes: &Map) -> Counted
    ensures { result ≡ three_counts reads.now writes.now }
{
    marks::counts(reads, writes).unwrap()
}

// Runs in an edition from clear maps, and reports.
#[tactic(auto, using(marks::specs::Sums::few))]
fn run_on(cpu: Processor, edition: Edition, memory: &mut Memory, budget: u32) -> Report
    ensures { Tells (λ image. reported [] (from_clear edition budget cpu image)) (lent memory) result }
{
    let mut reads = [0u8; 8192];
    let mut writes = [0u8; 8192];
    let mut bus = Bus {
        memory,
        reads: &mut reads,
        writes: &mut writes,
    };
    let ran = engine::run_on(cpu, edition, &mut bus, budget);
    let counted = count(&reads, &writes);
    let read = counted.read_only + counted.both;
    let written = counted.stored_only + counted.both;
    Report {
        opening: lines::opening(&ran),
        closing: lines::closing(ran.cpu.psw, read, written, counted.both),
    }
}

// Runs an input in an edition.
fn accepted(input: &mut Input, edition: Edition) -> Report
    ensures { Tells (λ bytes. reported (take 12 bytes) (run_in edition bytes)) (lent input) result }
{
    let budget = budget(input);
    let cpu = state::registers(&input[5..12]);
    let (_, memory) = input.split_last_chunk_mut::<65536>().unwrap();
    run_on(cpu, edition, memory, budget)
}

// A report of one line.
fn alone(line: Line) -> Report
    ensures { result ≡ record { opening = line; closing = blank } }
{
    Report {
        opening: line,
        closing: Line::new(),
    }
}

// Runs the input, in whose bytes the memory stands, from clear maps, and reports. An input of a wrong length gives `refused 6`, one with an
// edition that is neither 1 nor 2 `refused 9`.
pub fn session(input: &mut [u8]) -> Report
    ensures { Tells session_of (lent input) result }
{
    let Some(input) = input.as_mut_array::<65548>() else {
        return alone(Line::new().text(b"refused 6\n"));
    };
    let Ok(edition) = Edition::try_from(input[0]) else {
        return alone(Line::new().text(b"refused 9\n"));
    };
    accepted(input, edition)
}
