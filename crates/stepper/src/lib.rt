// One step from a state record, and how the record that it leaves compares with a second one.
#![tactic(auto)]

ghost use Rattle.std.specs.Prelude.{◌≤◌, ◌≡◌};
ghost use Rattle.laws.specs.Lent.{lent};
ghost use Rattle.text.specs.Line.{blank, adds};
ghost use Rattle.stepper.specs.Alike.{alike};
ghost use Rattle.stepper.specs.Session.{stepped, after_step, comparison_text, compared_in, session_of};
ghost use Rattle.stepper.specs.Told.{Tells, Takes};

use editions::Edition;
use engine::Ran;
use memory::{Bus, Memory};
use processor::Processor;
use text::Line;

// A state record.
type Record = [u8; 65543];

// What stands in an input: an edition's number and two state records.
type Input = [u8; 131087];

// A step from clear maps, of which nothing is kept.
#[tactic(auto, using(runs::proofs::Run::run_one))]
fn step_on(cpu: Processor, edition: Edition, memory: &mut Memory) -> Ran
    ensures { Takes (stepped edition cpu) (lent memory) result }
{
    let mut reads = [0u8; 8192];
    let mut writes = [0u8; 8192];
    let mut bus = Bus {
        memory,
        reads: &mut reads,
        writes: &mut writes,
    };
    engine::run_on(cpu, edition, &mut bus, 1)
}

// Takes a step from a record, and leaves the record after it in its place.
fn take_step(edition: Edition, state: &mut Record)
    ensures { state.new ≡ after_step edition state.old }
{
    let (registers, memory) = state.split_last_chunk_mut::<65536>().unwrap();
    let cpu = state::registers(registers);
    let ran = step_on(cpu, edition, memory);
    state::set_registers(registers, ran.cpu);
}

// How many bytes two records begin with alike.
fn alike(first: &Record, second: &Record) -> usize
    ensures { result ≡ alike first.now second.now }
{
    let pairs = first.iter().zip(second);
    pairs.take_while(|(byte, other)| byte == other).count()
}

// What is printed of two records that begin alike with so many bytes: `same` where that is all of them, else the first offset behind them.
#[tactic(auto, using(text::proofs::Laws::adds_append))]
fn comparison(at: usize) -> Line
    requires { at ≤ 65543 }
    ensures { result ≡ adds blank (comparison_text at) }
{
    if at == 65543 {
        return Line::new().text(b"same\n");
    }
    Line::new().decimal(at as u32).text(b"\n")
}

// Takes a step from the first record of an input, and compares.
fn accepted(edition: Edition, input: &mut Input) -> Line
    ensures { Tells (compared_in edition) (lent input) result }
{
    let (before, second) = input.split_last_chunk_mut::<65543>().unwrap();
    let (_, first) = before.split_last_chunk_mut::<65543>().unwrap();
    take_step(edition, first);
    comparison(alike(first, second))
}

// The line that the program prints. The record that the step leaves stands in the input's bytes, in the first record's place. An input of
// a wrong length gives `refused 6`, one with an edition that is neither 1 nor 2 `refused 9`.
pub fn session(input: &mut [u8]) -> Line
    ensures { Tells session_of (lent input) result }
{
    let Some(input) = input.as_mut_array::<131087>() else {
        return Line::new().text(b"refused 6\n");
    };
    let Ok(edition) = Edition::try_from(input[0]) else {
        return Line::new().text(b"refused 9\n");
    };
    accepted(edition, input)
}
