// What answers at the device addresses 00F0 to 00FF: three timers, four ports and the clock that drives them, held by value.
#![tactic(auto)]

mod timer;

ghost use Rattle.std.specs.Prelude.{◌≡◌, ◌+◌, ◌<◌, ◌≤◌};
ghost use Rattle.devices.specs.Devices.{bit, timer_in, started, after_reads, controlled, aimed_all, after_stores, passed};

use memory::Memory;
pub use timer::Timer;

// The order of the fields is the cheapest that was found for the step of a song (docs/SPEED.md).
#[derive(Clone, Copy)]
pub struct Devices {
    // clock cycles since the playing began
    pub cycles: u32,
    // whether a step has read where the boot ROM was
    pub rom: bool,
    // what the console sent last
    pub ports: [u8; 4],
    // The device addresses that steps have read, those that they have stored to, and those that the last step has stored to: the bit of
    // value 2^j stands for 00F0 + j.
    pub read: u16,
    pub stored: u16,
    pub last: u16,
    pub timers: [Timer; 3],
}

// Whether the bit of value 2^j is set.
fn has(n: u16, j: usize) -> bool
    requires { j < 16 }
    ensures { result ≡ bit n j }
{
    (n >> j) % 2 == 1
}

// Timer k as an image leaves it.
fn timer_in(k: usize, memory: &Memory) -> Timer
    requires { k < 3 }
    ensures { result ≡ timer_in k memory.now }
{
    Timer {
        on: has(memory[0xF1] as u16, k),
        target: memory[0xFA + k],
        ticks: 0,
        count: memory[0xFD + k] % 16,
    }
}

impl Devices {
    // The devices as an image holds them, when its playing begins.
    pub fn start(memory: &Memory) -> Devices
        ensures { result ≡ started memory.now }
    {
        Devices {
            timers: [
                timer_in(0, memory),
                timer_in(1, memory),
                timer_in(2, memory),
            ],
            ports: [memory[0xF4], memory[0xF5], memory[0xF6], memory[0xF7]],
            cycles: 0,
            read: 0,
            stored: 0,
            last: 0,
            rom: false,
        }
    }

    // After a step that has read these device addresses: a counter that was read is zero again.
    pub fn take_reads(mut self, read: u16) -> Devices
        ensures { result ≡ after_reads read self }
    {
        if read == 0 {
            return self;
        }
        for k in 0..3 {
            if has(read, 13 + k) {
                self.timers[k] = self.timers[k].clear();
            }
        }
        self.read |= read;
        self
    }

    // A store to 00F1: bits 0 to 2 turn the timers on and off; bit 4 clears what is read at 00F4 and 00F5, bit 5 at 00F6 and 00F7.
    fn control(mut self, byte: u16) -> Devices
        ensures { result ≡ controlled byte self }
    {
        for k in 0..3 {
            self.timers[k] = self.timers[k].switch(has(byte, k));
        }
        if has(byte, 4) {
            self.ports[0] = 0;
            self.ports[1] = 0;
        }
        if has(byte, 5) {
            self.ports[2] = 0;
            self.ports[3] = 0;
        }
        self
    }

    // Stores to 00FA, 00FB and 00FC: targets.
    fn aim(mut self, stored: u16, memory: &Memory) -> Devices
        ensures { result ≡ aimed_all stored memory.now self }
    {
        for k in 0..3 {
            if has(stored, 10 + k) {
                self.timers[k] = self.timers[k].aim(memory[0xFA + k]);
            }
        }
        self
    }

    // After a step that has stored to these device addresses what stands in memory there now.
    pub fn take_stores(mut self, stored: u16, memory: &Memory) -> Devices
        ensures { result ≡ after_stores stored memory.now self }
    {
        if stored == 0 {
            self.last = 0;
            return self;
        }
        if has(stored, 1) {
            self = self.control(memory[0xF1] as u16);
        }
        self = self.aim(stored, memory);
        self.stored |= stored;
        self.last = stored;
        self
    }

    // Cycles pass, fewer than sixteen: timers 0 and 1 tick where a multiple of 128 is reached, timer 2 where one of 16 is.
    pub fn pass(mut self, cycles: u8) -> Devices
        requires cycles_bound { self.cycles + cycles ≤ 4294967295 }
        requires cycles_bound_2 { cycles ≤ 15 }
        ensures { result ≡ passed cycles self }
    {
        let before = self.cycles;
        self.cycles += cycles as u32;
        if before / 16 == self.cycles / 16 {
            return self;
        }
        self.timers[2] = self.timers[2].tick();
        if before / 128 != self.cycles / 128 {
            self.timers[0] = self.timers[0].tick();
            self.timers[1] = self.timers[1].tick();
        }
        self
    }
}
