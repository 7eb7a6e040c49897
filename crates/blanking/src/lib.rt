// Blanked images: a chosen byte at every address that a map does not mark.
#![tactic(auto)]

ghost use Rattle.std.specs.Prelude.{◌≡◌, length};
ghost use Rattle.laws.specs.Lent.{lent};
ghost use Rattle.laws.specs.Filled.{Fills};
ghost use Rattle.blanking.specs.Calls.{blank_of};
ghost use Rattle.blanking.specs.Together.{together};

use refusals::Refusal;

// Puts the byte at every address that the map does not mark, and answers how many addresses these are, also where the byte stood there
// before. What is marked stays. Refused where memory is not 65,536 bytes, and where the map is not 8,192 bytes.
pub fn blank(memory: &mut [u8], map: &[u8], byte: u8) -> Result<u32, Refusal>
    ensures { Fills (blank_of map.now byte) (lent memory) result }
{
    if memory.len() != 65536 {
        return Err(Refusal::Memory);
    }
    let map = marks::as_map(map)?;
    let mut blanked: u32 = 0;
    for (at, own) in memory.iter_mut().enumerate() {
        let kept = marks::is_marked(map, at as u16);
        if !kept {
            *own = byte;
            blanked += 1;
        }
    }
    Ok(blanked)
}

// Puts a map together with another, byte by byte: for an image that is to keep what either marks. (Slices, since parts of maps are put
// together, too, whose common length may be known only when they are cut: arrays would ask for it beforehand.)
pub fn join(map: &[u8], other: &mut [u8])
    requires { length map.now ≡ length other.old }
    ensures { other.new ≡ together map.now other.old }
{
    for (i, own) in other.iter_mut().enumerate() {
        *own = map[i] | *own;
    }
}
