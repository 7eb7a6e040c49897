// Whether a record is awake. SLEEP and STOP end that, and a wake brings it back.
#![tactic(auto)]

ghost use Rattle.std.specs.Prelude.{◌≡◌};
ghost use Rattle.waking.specs.States.{number_of, is_state, state_of, is_awake};

#[derive(Clone, Copy, Debug, PartialEq, Eq)]
pub enum State {
    Awake = 0,
    // by SLEEP
    Slept = 1,
    // by STOP
    Stopped = 2,
}

// The number of a state, which is the stop of a run that ends in it.
impl From<State> for u8 {
    ghost from_gives = { λ state number. number ≡ number_of state };

    fn from(state: State) -> u8 {
        state as u8
    }
}

// Whether a number names a state. There is no TryFrom: who tests a record's bytes wants no state yet, and who then asks for it cannot fail.
pub fn is_state(number: u8) -> bool
    ensures { result ≡ is_state number }
{
    number <= 2
}

// The state that a number names; of a number that names none, the last.
pub fn state_of(number: u8) -> State
    ensures { result ≡ state_of number }
{
    match number {
        0 => State::Awake,
        1 => State::Slept,
        _ => State::Stopped,
    }
}

impl State {
    // Whether a record in this state takes steps.
    pub fn is_awake(self) -> bool
        ensures { result ≡ is_awake self }
    {
        matches!(self, State::Awake)
    }
}
