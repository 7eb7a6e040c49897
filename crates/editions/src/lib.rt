// The editions of the pointer rule: what a pointer of [d+X] and [d]+Y does at the end of a page.
#![tactic(auto)]

ghost use Rattle.std.specs.Prelude.{◌≡◌};
ghost use Rattle.editions.specs.Editions.{is_edition, edition_of, edition_named, second_at};

use refusals::Refusal;

#[derive(Clone, Copy, Debug, PartialEq, Eq)]
pub enum Edition {
    // the Rust crate's
    First,
    // the part's own, as captures show it
    Second,
}

// Whether a number names an edition.
pub fn is_edition(number: u8) -> bool
    ensures { result ≡ is_edition number }
{
    number == 1 || number == 2
}

// The edition that a number names; of a number that names none, the first.
pub fn edition_of(number: u8) -> Edition
    ensures { result ≡ edition_of number }
{
    if number == 2 {
        Edition::Second
    } else {
        Edition::First
    }
}

// The edition that a number names; any other number is refused.
impl TryFrom<u8> for Edition {
    type Error = Refusal;

    ghost try_from_gives = { λ number result. result ≡ edition_named number };

    fn try_from(number: u8) -> Result<Edition, Refusal> {
        if !is_edition(number) {
            return Err(Refusal::Edition);
        }
        Ok(edition_of(number))
    }
}

// Where the second byte of a pointer stands whose first byte stands at an address.
pub fn second_at(edition: Edition, at: u16) -> u16
    ensures { result ≡ second_at edition at }
{
    match edition {
        Edition::First => at.wrapping_add(1),
        Edition::Second => at / 256 * 256 + (at % 256 + 1) % 256,
    }
}
