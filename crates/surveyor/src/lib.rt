// Where the marks of a map stand, and where two memories differ: the stretches of addresses, as bytes.
#![tactic(auto)]

ghost use Rattle.std.specs.Prelude.{◌≤◌, cond, ◌≡◌, ◌∷◌, length, take, drop, true};
ghost use Rattle.std.specs.Option.{option_copied};
ghost use Rattle.laws.specs.Lent.{lent};
ghost use Rattle.text.specs.Given.{Gives, says};
ghost use Rattle.differences.specs.Calls.{memories_right, map_right, marks_of};
ghost use Rattle.surveyor.specs.Survey.{in_bytes, of_map, survey_of};
ghost use Rattle.surveyor.specs.Compared.{compared};

use refusals::Refusal;
use text::Line;

// Gives the byte of the touch, and numbers as bytes, low byte first. Whether the buffer has room is known before anything is stored.
fn give(touch: bool, numbers: &[u16], out: &mut [u8]) -> Result<usize, Refusal>
    ensures { Gives (says (cond touch 1 0 ∷ in_bytes numbers.now)) (lent out) result }
{
    let total = 2 * numbers.len() + 1;
    if out.len() < total {
        return Err(Refusal::Room);
    }
    out[0] = touch as u8;
    for (i, number) in numbers.iter().enumerate() {
        let [low, high] = number.to_le_bytes();
        out[2 * i + 1] = low;
        out[2 * i + 2] = high;
    }
    Ok(total)
}

// Gives the stretches at which two memories differ, and whether one of them touches a mark of a map, where there is one.
fn compare(
    first: &[u8],
    second: &[u8],
    map: Option<&[u8]>,
    out: &mut [u8],
) -> Result<usize, Refusal>
    requires memories { memories_right first.now second.now ≡ true }
    requires map { map_right (option_copied map) ≡ true }
    ensures { Gives (says (compared (marks_of (option_copied map.entry)) first.now second.now)) (lent out) result }
{
    // two numbers for each of 32,768 stretches: there are never more
    let mut row = [0u16; 65536];
    let found = differences::between(first, second, map, &mut row)?;
    let numbers = &row[..2 * found.stretches as usize];
    give(found.touched, numbers, out)
}

// Gives the stretches that a map marks. Memory that is 0 where the map marks an address and else 1 differs there, and only there, from
// memory that is 1 throughout.
fn of_map(map: &[u8], out: &mut [u8]) -> Result<usize, Refusal>
    requires { length map.now ≡ 8192 }
    ensures { Gives (says (of_map map.now)) (lent out) result }
{
    let mut first = [0u8; 65536];
    blanking::blank(&mut first, map, 1)?;
    let second = [1u8; 65536];
    compare(&first, &second, None, out)
}

// Gives the stretches at which two memories differ that stand one behind the other, and whether one of them touches a mark of a map, where
// there is one.
fn of_memories(memories: &[u8], map: Option<&[u8]>, out: &mut [u8]) -> Result<usize, Refusal>
    requires memories { length memories.now ≡ 131072 }
    requires map { map_right (option_copied map) ≡ true }
    ensures { Gives (says (compared (marks_of (option_copied map.entry))
        (take 65536 memories.now) (drop 65536 memories.now))) (lent out) result }
{
    let (first, second) = memories.split_at(65536);
    compare(first, second, map, out)
}

// Gives the answer to an input into a lent buffer. Refused where the buffer is too short for it.
pub fn session(input: &[u8], out: &mut [u8]) -> Result<usize, Refusal>
    ensures { Gives (says (survey_of input.now)) (lent out) result }
{
    match input.len() {
        8192 => of_map(input, out),
        131072 => of_memories(input, None, out),
        139264 => {
            let (map, memories) = input.split_at(8192);
            of_memories(memories, Some(map), out)
        }
        _ => Line::new().text(b"refused 6\n").give(out),
    }
}
