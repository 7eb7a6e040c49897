// What a method makes of a record and two bytes: the produced byte or word, and A X Y PSW.
use processor::{Processor, Produced, ProducedWord};
use text::Line;

pub fn method(line: Line, number: u8, cpu: Processor, l: u8, r: u8) -> Line {
    match number {
        16 => record(line, cpu.set_nz(l)),
        17 => record(line, cpu.set_nz_16le(l, r)),
        18 => byte(line, cpu.adc(l, r)),
        19 => byte(line, cpu.sbc(l, r)),
        20 => byte(line, cpu.and(l, r)),
        21 => byte(line, cpu.or(l, r)),
        22 => record(line, cpu.or_a(l)),
        23 => byte(line, cpu.eor(l, r)),
        24 => record(line, cpu.cmp(l, r)),
        25 => record(line, cpu.cmp_a(l)),
        26 => record(line, cpu.cmp_x(l)),
        27 => record(line, cpu.cmp_y(l)),
        28 => byte(line, cpu.asl(l)),
        29 => byte(line, cpu.lsr(l)),
        30 => byte(line, cpu.rol(l)),
        31 => byte(line, cpu.ror(l)),
        _ => more(line, number, cpu, l, r),
    }
}

fn more(line: Line, number: u8, cpu: Processor, l: u8, r: u8) -> Line {
    match number {
        32 => byte(line, cpu.inc(l)),
        33 => byte(line, cpu.dec(l)),
        34 => byte(line, cpu.mov(l)),
        35 => byte(line, cpu.mov_no_flags(l)),
        36 => byte(line, cpu.tclr(l)),
        37 => byte(line, cpu.tset(l)),
        38 => record(line, cpu.addw(l, r)),
        39 => record(line, cpu.subw(l, r)),
        40 => record(line, cpu.cmpw(l, r)),
        41 => word(line, cpu.incw(l, r)),
        42 => word(line, cpu.decw(l, r)),
        43 => record(line, cpu.mul()),
        44 => record(line, cpu.div()),
        45 => record(line, cpu.daa()),
        46 => record(line, cpu.das()),
        47 => record(line, cpu.xcn()),
        _ => line.text(b"no such case"),
    }
}

fn record(line: Line, cpu: Processor) -> Line {
    shown(line, 0, 0, cpu)
}

fn byte(line: Line, made: Produced) -> Line {
    let cpu = made.cpu;
    shown(line, 0, made.byte, cpu)
}

fn word(line: Line, made: ProducedWord) -> Line {
    let cpu = made.cpu;
    shown(line, made.high, made.low, cpu)
}

fn shown(line: Line, high: u8, low: u8, cpu: Processor) -> Line {
    let psw = cpu.psw;
    let produced = line.hex_byte(high).hex_byte(low).push(b' ');
    let registers = produced
        .hex_byte(cpu.a)
        .hex_byte(cpu.x)
        .hex_byte(cpu.y)
        .push(b' ');
    registers.hex_byte(psw.to_byte())
}
