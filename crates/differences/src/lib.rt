// What differs between two images of memory, and whether it touches what a read map marks.
#![tactic(auto)]

ghost use Rattle.std.specs.Prelude.{◌≡◌, ◌≢◌, ◌≤◌, ◌*◌, length, not, MatchResult, true, false};
ghost use Rattle.std.specs.Option.{option_copied};
ghost use Rattle.std.specs.Iterator.{YieldsFirst, item_count};
ghost use Rattle.laws.specs.Lent.{lent};
ghost use Rattle.laws.specs.Filled.{Fills};
ghost use Rattle.differences.specs.Stretches.{touches};
ghost use Rattle.differences.specs.Calls.{differ, stretches_of, marks_of, map_right, accepted, written, differences_of};
ghost use Rattle.differences.specs.Walk.{Sought, left};

use marks::Map;
use refusals::Refusal;

// All addresses' bytes.
type Memory = [u8; 65536];

// What a comparison answers: how many stretches there are, and whether one of them touches a mark.
#[derive(Clone, Copy, Debug, PartialEq, Eq)]
pub struct Differences {
    pub stretches: u32,
    pub touched: bool,
}

// A stretch of addresses: its first and its last. One address is a stretch, too. Public for the definitions of crates above.
#[derive(Clone, Copy, Debug, PartialEq, Eq)]
pub struct Stretch {
    pub first: u16,
    pub last: u16,
}

// Whether there is a map and it marks an address of a stretch. The first mark decides.
fn touches(map: Option<&Map>, stretch: Stretch) -> bool
    ensures { result ≡ touches (marks_of (option_copied map.entry)) stretch }
{
    let Some(map) = map else {
        return false;
    };
    for at in stretch.first..=stretch.last {
        if marks::is_marked(map, at) {
            return true;
        }
    }
    false
}

// The stretches of addresses at which two memories differ, each as long as possible and in ascending order, from an address on.
#[derive(Clone, Copy)]
struct Stretches<'a> {
    first: &'a Memory,
    second: &'a Memory,
    from: usize,
}

// The first address from one on at which two memories differ, or at which they do not. (A loop: `find` took twice as many instructions.)
fn first_from(first: &Memory, second: &Memory, from: usize, differing: bool) -> Option<usize>
    ensures { Sought (differ first.now second.now) differing (not differing) from result }
{
    for at in from..65536 {
        if (first[at] != second[at]) == differing {
            return Some(at);
        }
    }
    None
}

impl Iterator for Stretches<'_> {
    type Item = Stretch;

    ghost next_gives = { YieldsFirst left };

    ghost remaining = { item_count left };

    fn next(&mut self) -> Option<Stretch> {
        let at = first_from(self.first, self.second, self.from, true)?;
        let end = first_from(self.first, self.second, at, false).unwrap_or(65536);
        self.from = end;
        Some(Stretch {
            first: at as u16,
            last: (end - 1) as u16,
        })
    }
}

// How many stretches there are, and whether one of them touches a mark. Once one does, the map is not looked at any more.
fn count(stretches: Stretches<'_>, map: Option<&Map>) -> Differences
    ensures { result ≡ accepted (left stretches.entry) (marks_of (option_copied map.entry)) }
{
    let mut found = Differences {
        stretches: 0,
        touched: false,
    };
    for stretch in stretches {
        found.stretches += 1;
        found.touched = found.touched || touches(map, stretch);
    }
    found
}

// Stores first and last address of every stretch, two numbers each. The rest of the row stays. So many are left: behind the last of them
// the memories are not looked at.
fn write(stretches: Stretches<'_>, many: usize, row: &mut [u16])
    requires counted { many ≡ length (left stretches) }
    requires room { 2 * many ≤ length row.old }
    ensures { row.new ≡ written (left stretches.entry) row.old }
{
    for (i, stretch) in (0..many).zip(stretches) {
        row[2 * i] = stretch.first;
        row[2 * i + 1] = stretch.last;
    }
}

// Bytes as a memory. Refused exactly if they are not 65,536.
fn as_memory(bytes: &[u8]) -> Result<&Memory, Refusal>
    ensures { MatchResult result
        (λ memory. (memory.now ≡ bytes.now) × (length bytes.now ≡ 65536))
        (λ refusal. (refusal ≡ Refusal.Memory) × (length bytes.now ≢ 65536)) }
{
    bytes.try_into().map_err(|_| Refusal::Memory)
}

// Bytes as a map, where there are any.
fn optional_map(bytes: Option<&[u8]>) -> Result<Option<&Map>, Refusal>
    ensures { MatchResult result
        (λ map. (option_copied map ≡ option_copied bytes.entry) × (map_right (option_copied bytes.entry) ≡ true))
        (λ refusal. (refusal ≡ Refusal.Map) × (map_right (option_copied bytes.entry) ≡ false)) }
{
    bytes.map(marks::as_map).transpose()
}

// The differences between two memories: first and last address of every stretch, each as long as possible and in ascending order, into
// the lent row, whose rest stays. Where there is a map, the answer says whether a stretch touches a mark. Refused where a memory is not
// 65,536 bytes, where there is a map that is not 8,192 bytes, and where the row has fewer than two numbers for each stretch; to know this,
// all are counted before one is written.
pub fn between(
    first: &[u8],
    second: &[u8],
    map: Option<&[u8]>,
    row: &mut [u16],
) -> Result<Differences, Refusal>
    ensures { Fills (differences_of first.now second.now (option_copied map.entry)) (lent row) result }
{
    let first = as_memory(first)?;
    let second = as_memory(second)?;
    let map = optional_map(map)?;
    // what is equal before the first stretch is passed once, and not in both walks
    let from = first_from(first, second, 0, true).unwrap_or(65536);
    let stretches = Stretches {
        first,
        second,
        from,
    };
    let found = count(stretches, map);
    let many = found.stretches as usize;
    if row.len() < 2 * many {
        return Err(Refusal::Room);
    }
    write(stretches, many, row);
    Ok(found)
}
