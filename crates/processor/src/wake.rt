// The state of the record: SLEEP and STOP set it, and a wake sets it back.
ghost use Rattle.std.specs.Prelude.{◌≡◌};
ghost use Rattle.waking.specs.States.{is_awake};
ghost use Rattle.processor.specs.Record.{with_state, woken};

use crate::Processor;
use waking::State;

impl Processor {
    // Whether the record takes steps.
    pub fn is_awake(self) -> bool
        ensures { result ≡ is_awake self.state }
    {
        self.state.is_awake()
    }

    // The record in another state.
    pub fn with_state(self, state: State) -> Processor
        ensures { result ≡ with_state state self }
    {
        Processor { state, ..self }
    }

    // The record awake.
    pub fn wake(self) -> Processor
        ensures { result ≡ woken self }
    {
        self.with_state(State::Awake)
    }
}
