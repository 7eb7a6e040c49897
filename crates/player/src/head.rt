// The head of a packet, 64 bytes: what is asked, and the player.
ghost use Rattle.std.specs.Prelude.{◌+◌, ◌<◌, ◌≡◌, length};
ghost use Rattle.player.specs.Head.{word_in, timer_in, devices_of, devices_bytes, budget_in, until_in, asked_in, head_of};

use devices::{Devices, Timer};
use editions::Edition;
use host::Player;
use refusals::Refusal;

// In which edition is played, up to which cycle, and how many steps at most.
#[derive(Drop)]
pub struct Request {
    pub edition: Edition,
    pub until: u32,
    pub budget: u32,
}

// At which cycle the playing ends.
fn until(head: &[u8; 64]) -> u32
    ensures { result ≡ until_in head.now }
{
    u32::from_le_bytes([head[5], head[6], head[7], head[8]])
}

// How many steps may be taken.
fn budget(head: &[u8; 64]) -> u32
    ensures { result ≡ budget_in head.now }
{
    u32::from_le_bytes([head[1], head[2], head[3], head[4]])
}

// All that a head asks. Refusals: Form, registers whose last byte is above 2, or more cycles than can be counted; Edition, one that is
// neither 1 nor 2.
pub fn asked(head: &[u8; 64]) -> Result<Request, Refusal>
    ensures { result ≡ asked_in head.now }
{
    if !state::is_whole(&head[10..18]) {
        return Err(Refusal::Form);
    }
    if until(head) > 4294967280 {
        return Err(Refusal::Form);
    }
    Ok(Request {
        edition: Edition::try_from(head[0])?,
        until: until(head),
        budget: budget(head),
    })
}

// A number of two bytes, low first.
fn word_in(bytes: &[u8], at: usize) -> u16
    requires { at + 1 < length bytes.now }
    ensures { result ≡ word_in at bytes.now }
{
    processor::word(bytes[at], bytes[at + 1])
}

// A timer of four bytes.
fn timer_in(bytes: &[u8], at: usize) -> Timer
    requires { at + 3 < length bytes.now }
    ensures { result ≡ timer_in at bytes.now }
{
    Timer {
        on: bytes[at] != 0,
        target: bytes[at + 1],
        ticks: bytes[at + 2],
        count: bytes[at + 3],
    }
}

// The devices that 27 bytes hold.
pub fn devices(bytes: &[u8]) -> Devices
    requires { length bytes.now ≡ 27 }
    ensures { result ≡ devices_of bytes.now }
{
    Devices {
        cycles: state::number(bytes[0], bytes[1], bytes[2], bytes[3]),
        read: word_in(bytes, 4),
        stored: word_in(bytes, 6),
        last: word_in(bytes, 8),
        rom: bytes[10] != 0,
        timers: [
            timer_in(bytes, 11),
            timer_in(bytes, 15),
            timer_in(bytes, 19),
        ],
        ports: [bytes[23], bytes[24], bytes[25], bytes[26]],
    }
}

// Stores the devices in 27 bytes.
fn set_devices(bytes: &mut [u8], devices: Devices)
    requires { length bytes.old ≡ 27 }
    ensures { bytes.new ≡ devices_bytes devices }
{
    let timer0 = devices.timers[0];
    let timer1 = devices.timers[1];
    let timer2 = devices.timers[2];
    let laid = [
        (devices.cycles % 256) as u8,
        (devices.cycles / 256 % 256) as u8,
        (devices.cycles / 65536 % 256) as u8,
        (devices.cycles / 16777216) as u8,
        (devices.read % 256) as u8,
        (devices.read / 256) as u8,
        (devices.stored % 256) as u8,
        (devices.stored / 256) as u8,
        (devices.last % 256) as u8,
        (devices.last / 256) as u8,
        psw::one_if(devices.rom),
        psw::one_if(timer0.on),
        timer0.target,
        timer0.ticks,
        timer0.count,
        psw::one_if(timer1.on),
        timer1.target,
        timer1.ticks,
        timer1.count,
        psw::one_if(timer2.on),
        timer2.target,
        timer2.ticks,
        timer2.count,
        devices.ports[0],
        devices.ports[1],
        devices.ports[2],
        devices.ports[3],
    ];
    bytes.copy_from_slice(&laid);
}

// Lays the player and its steps into a head: who sends it back asks for what comes then.
pub fn lay(head: &mut [u8; 64], player: Player, steps: u32)
    ensures { head.new ≡ head_of head.old player steps }
{
    head[9] = 1;
    state::set_whole(&mut head[10..18], player.cpu);
    state::set_number(&mut head[18..22], steps);
    set_devices(&mut head[23..50], player.devices);
}
