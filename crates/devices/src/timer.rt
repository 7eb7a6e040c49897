// One timer: at each tick it counts up to its target, and then its counter goes up by one.
ghost use Rattle.std.specs.Prelude.{◌≡◌};
ghost use Rattle.devices.specs.Timers.{ticked, switched, cleared, aimed};

#[derive(Clone, Copy)]
pub struct Timer {
    pub on: bool,
    pub target: u8,
    // ticks since the counter went up
    pub ticks: u8,
    // the counter, four bits
    pub count: u8,
}

impl Timer {
    // A tick. The eight bits that count ticks come to a target of 0 at the 256th.
    #[tactic(auto, unfolding(crate::specs::Timers::ticked))]
    pub fn tick(mut self) -> Timer
        ensures { result ≡ ticked self }
    {
        if !self.on {
            return self;
        }
        self.ticks = self.ticks.wrapping_add(1);
        if self.ticks == self.target {
            self.ticks = 0;
            self.count = self.count.wrapping_add(1) % 16;
        }
        self
    }

    // Turned on or off. A timer that was off starts from zero.
    #[tactic(auto, unfolding(crate::specs::Timers::switched))]
    pub fn switch(mut self, on: bool) -> Timer
        ensures { result ≡ switched on self }
    {
        if on && !self.on {
            self.ticks = 0;
            self.count = 0;
        }
        self.on = on;
        self
    }

    // Its counter was read, which sets it to zero.
    pub fn clear(mut self) -> Timer
        ensures { result ≡ cleared self }
    {
        self.count = 0;
        self
    }

    // It was given a target.
    pub fn aim(mut self, target: u8) -> Timer
        ensures { result ≡ aimed target self }
    {
        self.target = target;
        self
    }
}
