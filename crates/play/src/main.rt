// Parts of playings: packets from standard input, one after the other, each answered on standard output. A packet whose head has a byte 22
// that is not 0 is followed by a second one, with which it is played side by side; then both are answered. What is refused is answered by a
// line, as `refused 6`, and ends the program.
#![tactic(auto)]

use refusals::Refusal;
use std::io::{self, Read, Write};
use text::Line;

// The line that answers a refused packet: there is no next one.
fn refuse<W: Write>(to: &mut W, refusal: Refusal) -> io::Result<bool> {
    output::print(
        to,
        Line::new()
            .text(b"refused ")
            .decimal(u8::from(refusal) as u32)
            .text(b"\n"),
    )?;
    Ok(false)
}

// Fills a part of a packet, and tells whether there was enough for it.
fn fill<R: Read>(from: &mut R, part: &mut [u8]) -> io::Result<bool> {
    Ok(output::read_full(from, part)? == part.len())
}

// Fills all that stands behind the head.
fn read<R: Read>(
    from: &mut R,
    chip: &mut [u8],
    memory: &mut [u8],
    reads: &mut [u8],
    writes: &mut [u8],
    fetched: &mut [u8],
    made: &mut [u8],
) -> io::Result<bool> {
    let c = fill(from, chip)?;
    let m = fill(from, memory)?;
    let r = fill(from, reads)?;
    let w = fill(from, writes)?;
    let f = fill(from, fetched)?;
    let k = fill(from, made)?;
    Ok(c && m && r && w && f && k)
}

// Writes a packet.
fn write<W: Write>(
    to: &mut W,
    head: &[u8],
    chip: &[u8],
    memory: &[u8],
    reads: &[u8],
    writes: &[u8],
    fetched: &[u8],
    made: &[u8],
) -> io::Result<()> {
    to.write_all(head)?;
    to.write_all(chip)?;
    to.write_all(memory)?;
    to.write_all(reads)?;
    to.write_all(writes)?;
    to.write_all(fetched)?;
    to.write_all(made)
}

// Plays one packet on, whose head was read, and tells whether there may be a next one.
fn play<R: Read, W: Write>(from: &mut R, to: &mut W, head: &mut [u8]) -> io::Result<bool> {
    let mut chip = [0u8; 512];
    let mut memory = [0u8; 65536];
    let mut reads = [0u8; 8192];
    let mut writes = [0u8; 8192];
    let mut fetched = [0u8; 8192];
    let mut made = [0u8; 8192];
    if !read(
        from,
        &mut chip,
        &mut memory,
        &mut reads,
        &mut writes,
        &mut fetched,
        &mut made,
    )? {
        return refuse(to, Refusal::Form);
    }
    let played = player::session(
        head,
        &mut chip,
        &mut memory,
        &mut reads,
        &mut writes,
        &mut fetched,
        &mut made,
    );
    if let Err(refusal) = played {
        return refuse(to, refusal);
    }
    write(to, head, &chip, &memory, &reads, &writes, &fetched, &made)?;
    Ok(true)
}

// Plays two packets on side by side, of which the first one's head was read.
fn beside<R: Read, W: Write>(from: &mut R, to: &mut W, head: &mut [u8]) -> io::Result<bool> {
    let mut chip = [0u8; 512];
    let mut memory = [0u8; 65536];
    let mut reads = [0u8; 8192];
    let mut writes = [0u8; 8192];
    let mut fetched = [0u8; 8192];
    let mut made = [0u8; 8192];
    let mut head2 = [0u8; 64];
    let mut chip2 = [0u8; 512];
    let mut memory2 = [0u8; 65536];
    let mut reads2 = [0u8; 8192];
    let mut writes2 = [0u8; 8192];
    let mut fetched2 = [0u8; 8192];
    let mut made2 = [0u8; 8192];
    let first = read(
        from,
        &mut chip,
        &mut memory,
        &mut reads,
        &mut writes,
        &mut fetched,
        &mut made,
    )?;
    if !first || !fill(from, &mut head2)? {
        return refuse(to, Refusal::Form);
    }
    if !read(
        from,
        &mut chip2,
        &mut memory2,
        &mut reads2,
        &mut writes2,
        &mut fetched2,
        &mut made2,
    )? {
        return refuse(to, Refusal::Form);
    }
    let played = player::beside(
        head,
        &mut chip,
        &mut memory,
        &mut reads,
        &mut writes,
        &mut fetched,
        &mut made,
        &mut head2,
        &mut chip2,
        &mut memory2,
        &mut reads2,
        &mut writes2,
        &mut fetched2,
        &mut made2,
    );
    if let Err(refusal) = played {
        return refuse(to, refusal);
    }
    write(to, head, &chip, &memory, &reads, &writes, &fetched, &made)?;
    write(
        to, &head2, &chip2, &memory2, &reads2, &writes2, &fetched2, &made2,
    )?;
    Ok(true)
}

// Answers the packet that begins with this head, or the two, and tells whether there may be a next one.
fn serve<R: Read, W: Write>(from: &mut R, to: &mut W, head: &mut [u8]) -> io::Result<bool> {
    if head.len() == 0 {
        return Ok(false);
    }
    if head.len() != 64 {
        return refuse(to, Refusal::Form);
    }
    if head[22] == 0 {
        return play(from, to, head);
    }
    beside(from, to, head)
}

fn main(rt: HostRuntime) -> io::Result<()> {
    let mut from = rt.stdin();
    let mut to = rt.stdout();
    let mut head = [0u8; 64];
    for _ in 0..u32::MAX {
        let n = output::read_full(&mut from, &mut head)?;
        if !serve(&mut from, &mut to, &mut head[..n])? {
            return Ok(());
        }
    }
    Ok(())
}
