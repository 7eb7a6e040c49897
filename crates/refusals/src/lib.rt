// Why a call is refused. Each reason has a number of its own, by which C and the programs tell it.
#![tactic(auto)]

ghost use Rattle.std.specs.Prelude.{◌≡◌};
ghost use Rattle.refusals.specs.Numbers.{number_of};

#[derive(Clone, Copy, Debug, PartialEq, Eq)]
pub enum Refusal {
    // memory is not 65,536 bytes
    Memory = 1,
    // a map is not 8,192 bytes
    Map = 2,
    // what the answer is laid into is too short for it
    Room = 3,
    // fewer bytes than the operands have
    Operands = 4,
    // more than three modes
    Count = 5,
    // registers, a record or another input are not of their form
    Form = 6,
    // an SPC file is not 66,048 bytes
    File = 7,
    // an SPC file begins otherwise
    Signature = 8,
    // there is no such edition
    Edition = 9,
    // an unnamed byte of an SPC file is not its default
    Unnamed = 10,
    // a record that is not awake has no place in an SPC file
    Asleep = 12,
}

impl From<Refusal> for u8 {
    ghost from_gives = { λ refusal number. number ≡ number_of refusal };

    fn from(refusal: Refusal) -> u8 {
        refusal as u8
    }
}
