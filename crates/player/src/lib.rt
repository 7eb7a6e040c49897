// Parts of playings. What is asked and what is answered stand in the same slices, a packet: a head of 64 bytes, the sound chip's row of
// 512, the memory, and four maps, of what was read, of what was stored to, of what the sound chip may fetch, and of what the playing is
// made of.
#![tactic(auto)]

mod head;

ghost use Rattle.std.specs.Prelude.{◌≡◌, ◌≤◌};
ghost use Rattle.laws.specs.Lent.{shared, lent};
ghost use Rattle.player.specs.Head.{head_of};
ghost use Rattle.player.specs.Packet.{played_of, played_beside};
ghost use Rattle.player.specs.Promises.{Answers, AnswersBoth, AnswersSecond, Plays, PlaysBoth, Begins, Finishes, Tells};

use devices::Devices;
use head::Request;
use host::{Player, Song};
use marks::Map;
use memory::Memory;
use refusals::Refusal;

// The player that a packet holds. Where its playing begins, the devices are as the image leaves them, and all eight voices may be sounding
// already.
fn begin(
    head: &[u8; 64],
    chip: &[u8; 512],
    memory: &Memory,
    writes: &Map,
    fetched: &mut Map,
) -> Player
    ensures { Begins (shared head) (shared chip) (shared memory) (shared writes) (lent fetched) result }
{
    let cpu = state::whole(&head[10..18]);
    if head[9] == 0 {
        samples::fetch_voices(255, chip, memory, writes, fetched);
        return Player {
            cpu,
            devices: Devices::start(memory),
        };
    }
    Player {
        cpu,
        devices: head::devices(&head[23..50]),
    }
}

// Takes the marks of the device addresses out of both maps, and makes the map of what the playing is made of: what was read, what may be
// fetched, and the devices' own sixteen.
fn finish(reads: &mut Map, writes: &mut Map, fetched: &Map, made: &mut Map)
    ensures { Finishes (lent reads) (lent writes) (shared fetched) (lent made) }
{
    watch::put_marks(reads, 0);
    watch::put_marks(writes, 0);
    made.copy_from_slice(fetched);
    blanking::join(reads, made);
    watch::put_marks(made, 65535);
}

// Lays the player and its steps into a head, and ends with the maps.
fn end(
    player: Player,
    steps: u32,
    head: &mut [u8; 64],
    reads: &mut Map,
    writes: &mut Map,
    fetched: &Map,
    made: &mut Map,
)
    ensures { (head.new ≡ head_of head.old player steps) × Finishes (lent reads) (lent writes) (shared fetched) (lent made) }
{
    head::lay(head, player, steps);
    finish(reads, writes, fetched, made);
}

// The same, and tells in byte 50 whether two packets were alike.
fn end_told(
    player: Player,
    steps: u32,
    alike: bool,
    head: &mut [u8; 64],
    reads: &mut Map,
    writes: &mut Map,
    fetched: &Map,
    made: &mut Map,
)
    ensures { Tells alike player steps (lent head) × Finishes (lent reads) (lent writes) (shared fetched) (lent made) }
{
    end(player, steps, head, reads, writes, fetched, made);
    head[50] = psw::one_if(alike);
}

// Plays on as is asked, what is lent having its lengths.
fn play_on(
    asked: Request,
    head: &mut [u8; 64],
    chip: &mut [u8; 512],
    memory: &mut Memory,
    reads: &mut Map,
    writes: &mut Map,
    fetched: &mut Map,
    made: &mut Map,
)
    requires { asked.until ≤ 4294967280 }
    ensures { Plays asked (lent head) (lent chip) (lent memory) (lent reads) (lent writes) (lent fetched) (lent made) }
{
    let player = begin(head, chip, memory, writes, fetched);
    let mut song = Song {
        memory,
        reads,
        writes,
        chip,
        fetched,
    };
    let played = host::play(player, asked.edition, asked.until, asked.budget, &mut song);
    end(
        played.player,
        played.steps,
        head,
        reads,
        writes,
        fetched,
        made,
    );
}

// Plays on as a packet asks, and answers in its own slices. Refused, all stays as it was. Refusals: Form, a head or a row of a wrong length,
// registers whose last byte is above 2, or more cycles than can be counted; Edition, one that is neither 1 nor 2; Memory or Map, one of a
// wrong length.
pub fn session(
    head: &mut [u8],
    chip: &mut [u8],
    memory: &mut [u8],
    reads: &mut [u8],
    writes: &mut [u8],
    fetched: &mut [u8],
    made: &mut [u8],
) -> Result<(), Refusal>
    ensures { Answers played_of (lent head) (lent chip) (lent memory) (lent reads) (lent writes) (lent fetched) (lent made) result }
{
    let Some(head) = head.as_mut_array::<64>() else {
        return Err(Refusal::Form);
    };
    let Some(chip) = chip.as_mut_array::<512>() else {
        return Err(Refusal::Form);
    };
    let asked = head::asked(head)?;
    let Some(memory) = memory.as_mut_array::<65536>() else {
        return Err(Refusal::Memory);
    };
    let Some(reads) = reads.as_mut_array::<8192>() else {
        return Err(Refusal::Map);
    };
    let Some(writes) = writes.as_mut_array::<8192>() else {
        return Err(Refusal::Map);
    };
    let Some(fetched) = fetched.as_mut_array::<8192>() else {
        return Err(Refusal::Map);
    };
    let Some(made) = made.as_mut_array::<8192>() else {
        return Err(Refusal::Map);
    };
    play_on(asked, head, chip, memory, reads, writes, fetched, made);
    Ok(())
}

// Plays two packets on side by side as is asked, what is lent having its lengths.
fn play_both_on(
    asked: Request,
    head: &mut [u8; 64],
    chip: &mut [u8; 512],
    memory: &mut Memory,
    reads: &mut Map,
    writes: &mut Map,
    fetched: &mut Map,
    made: &mut Map,
    head2: &mut [u8; 64],
    chip2: &mut [u8; 512],
    memory2: &mut Memory,
    reads2: &mut Map,
    writes2: &mut Map,
    fetched2: &mut Map,
    made2: &mut Map,
)
    requires { asked.until ≤ 4294967280 }
    ensures { PlaysBoth asked (lent head) (lent chip) (lent memory) (lent reads) (lent writes) (lent fetched) (lent made)
        (lent head2) (lent chip2) (lent memory2) (lent reads2) (lent writes2) (lent fetched2) (lent made2) }
{
    let first = begin(head, chip, memory, writes, fetched);
    let second = begin(head2, chip2, memory2, writes2, fetched2);
    let mut song = Song {
        memory,
        reads,
        writes,
        chip,
        fetched,
    };
    let mut other = Song {
        memory: memory2,
        reads: reads2,
        writes: writes2,
        chip: chip2,
        fetched: fetched2,
    };
    let both = host::play_both(
        first,
        second,
        asked.edition,
        asked.until,
        asked.budget,
        &mut song,
        &mut other,
    );
    let steps = both.steps;
    let alike = both.alike;
    end_told(both.first, steps, alike, head, reads, writes, fetched, made);
    end_told(
        both.second,
        steps,
        alike,
        head2,
        reads2,
        writes2,
        fetched2,
        made2,
    );
}

// The same, the second one's slices being tested here.
fn play_second(
    asked: Request,
    head: &mut [u8; 64],
    chip: &mut [u8; 512],
    memory: &mut Memory,
    reads: &mut Map,
    writes: &mut Map,
    fetched: &mut Map,
    made: &mut Map,
    head2: &mut [u8],
    chip2: &mut [u8],
    memory2: &mut [u8],
    reads2: &mut [u8],
    writes2: &mut [u8],
    fetched2: &mut [u8],
    made2: &mut [u8],
) -> Result<(), Refusal>
    requires { asked.until ≤ 4294967280 }
    ensures { AnswersSecond asked (lent head) (lent chip) (lent memory) (lent reads) (lent writes) (lent fetched) (lent made)
        (lent head2) (lent chip2) (lent memory2) (lent reads2) (lent writes2) (lent fetched2) (lent made2) result }
{
    let Some(head2) = head2.as_mut_array::<64>() else {
        return Err(Refusal::Form);
    };
    let Some(chip2) = chip2.as_mut_array::<512>() else {
        return Err(Refusal::Form);
    };
    head::asked(head2)?;
    let Some(memory2) = memory2.as_mut_array::<65536>() else {
        return Err(Refusal::Memory);
    };
    let Some(reads2) = reads2.as_mut_array::<8192>() else {
        return Err(Refusal::Map);
    };
    let Some(writes2) = writes2.as_mut_array::<8192>() else {
        return Err(Refusal::Map);
    };
    let Some(fetched2) = fetched2.as_mut_array::<8192>() else {
        return Err(Refusal::Map);
    };
    let Some(made2) = made2.as_mut_array::<8192>() else {
        return Err(Refusal::Map);
    };
    play_both_on(
        asked, head, chip, memory, reads, writes, fetched, made, head2, chip2, memory2, reads2,
        writes2, fetched2, made2,
    );
    Ok(())
}

// Plays two packets on side by side, as the first one asks, and tells in byte 50 of both heads whether they were alike to the last step.
// Refusals as of one packet, the first one's before the second's; refused, all stays as it was.
pub fn beside(
    head: &mut [u8],
    chip: &mut [u8],
    memory: &mut [u8],
    reads: &mut [u8],
    writes: &mut [u8],
    fetched: &mut [u8],
    made: &mut [u8],
    head2: &mut [u8],
    chip2: &mut [u8],
    memory2: &mut [u8],
    reads2: &mut [u8],
    writes2: &mut [u8],
    fetched2: &mut [u8],
    made2: &mut [u8],
) -> Result<(), Refusal>
    ensures { AnswersBoth played_beside (lent head) (lent chip) (lent memory) (lent reads) (lent writes) (lent fetched) (lent made)
        (lent head2) (lent chip2) (lent memory2) (lent reads2) (lent writes2) (lent fetched2) (lent made2) result }
{
    let Some(head) = head.as_mut_array::<64>() else {
        return Err(Refusal::Form);
    };
    let Some(chip) = chip.as_mut_array::<512>() else {
        return Err(Refusal::Form);
    };
    let asked = head::asked(head)?;
    let Some(memory) = memory.as_mut_array::<65536>() else {
        return Err(Refusal::Memory);
    };
    let Some(reads) = reads.as_mut_array::<8192>() else {
        return Err(Refusal::Map);
    };
    let Some(writes) = writes.as_mut_array::<8192>() else {
        return Err(Refusal::Map);
    };
    let Some(fetched) = fetched.as_mut_array::<8192>() else {
        return Err(Refusal::Map);
    };
    let Some(made) = made.as_mut_array::<8192>() else {
        return Err(Refusal::Map);
    };
    play_second(
        asked, head, chip, memory, reads, writes, fetched, made, head2, chip2, memory2, reads2,
        writes2, fetched2, made2,
    )
}
