// What a case asks: a step, or one of the functions on memory. Pointers are those of the first edition, which is the Rust crate's.
use crate::case::{Case, registers};
use editions::Edition;
use memory::{Bus, Reading, Storing};
use modes::{Addressed, BitRead, WordAddressed};
use processor::{Processor, Produced, word};

// The registers afterwards, why a step stopped, and what a function found: a byte, a word or an address; two addresses for `dw`.
#[derive(Drop)]
pub struct Answer {
    pub cpu: Processor,
    pub stop: u8,
    pub result: u16,
    pub second: u16,
}

// The answer of a function that found one number, or, with 0, none.
fn found(cpu: Processor, res: u16) -> Answer {
    Answer {
        cpu,
        stop: 0,
        result: res,
        second: 0,
    }
}

// The answer of a function that found an address, or a pulled word.
fn address(a: Addressed) -> Answer {
    found(a.cpu, a.at)
}

// The answer of `dw`.
fn addresses(w: WordAddressed) -> Answer {
    Answer {
        cpu: w.cpu,
        stop: 0,
        result: w.low,
        second: w.high,
    }
}

// The answer of a function that read a byte.
fn byte(p: Produced) -> Answer {
    found(p.cpu, p.byte as u16)
}

// The answer of `mb`.
fn bit(b: BitRead) -> Answer {
    found(b.cpu, b.bit as u16)
}

// Does what a case asks: byte 7 says what.
pub fn ask(bus: &mut Bus, given: &Case) -> Answer {
    let cpu = registers(given);
    match given[7] {
        0 => step(cpu, bus),
        1..=20 => {
            let mut reading = Reading {
                memory: bus.memory,
                reads: bus.reads,
                writes: bus.writes,
            };
            reader(cpu, &mut reading, given)
        }
        _ => {
            let mut storing = Storing {
                memory: bus.memory,
                reads: bus.reads,
                writes: bus.writes,
            };
            writer(cpu, &mut storing, given)
        }
    }
}

// A step, and why it stopped.
fn step(cpu: Processor, bus: &mut Bus) -> Answer {
    let ran = engine::take_steps(cpu, Edition::First, bus, 1);
    Answer {
        cpu: ran.cpu,
        stop: u8::from(ran.cpu.state),
        result: 0,
        second: 0,
    }
}

// The modes that find one address.
fn mode(cpu: Processor, bus: &mut Reading, number: u8, index: u8) -> Addressed {
    match number {
        1 => modes::imm(cpu),
        2 => modes::d_off(cpu, bus, index),
        3 => modes::d(cpu, bus),
        4 => modes::dx(cpu, bus),
        5 => modes::dy(cpu, bus),
        6 => modes::ix(cpu),
        7 => modes::iy(cpu),
        8 => modes::idx(cpu, Edition::First, bus),
        9 => modes::idy(cpu, Edition::First, bus),
        10 => modes::abs_off(cpu, bus, index),
        11 => modes::abs(cpu, bus),
        12 => modes::absx(cpu, bus),
        _ => modes::absy(cpu, bus),
    }
}

// The functions that read.
fn reader(cpu: Processor, bus: &mut Reading, given: &Case) -> Answer {
    let low = given[8];
    let argument = word(low, given[9]);
    match given[7] {
        14 => addresses(modes::dw(cpu, bus)),
        15 => bit(modes::mb(cpu, bus)),
        16 => found(cpu, bus.read_u16(argument)),
        17 => byte(modes::pull_from_stack_u8(cpu, bus)),
        18 => address(modes::pull_from_stack_u16(cpu, bus)),
        19 => found(modes::branch_imm(cpu, bus), 0),
        20 => found(modes::read_and_branch_if(cpu, bus, low != 0), 0),
        number => address(mode(cpu, bus, number, low)),
    }
}

// The functions that store. The word that is stored alone is a byte of the case, with A as its high byte.
fn writer(cpu: Processor, bus: &mut Storing, given: &Case) -> Answer {
    let low = given[8];
    let argument = word(low, given[9]);
    match given[7] {
        21 => {
            bus.write_u16(argument, word(given[10], cpu.a));
            found(cpu, 0)
        }
        22 => found(modes::push_to_stack_u8(cpu, bus, low), 0),
        23 => found(modes::push_to_stack_u16(cpu, bus, argument), 0),
        _ => found(modes::call(cpu, bus, argument), 0),
    }
}
