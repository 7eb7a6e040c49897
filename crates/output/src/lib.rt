// What the programs read from standard input and write to standard output: bytes, and lines of text.
#![tactic(auto)]

ghost use Rattle.std.specs.Prelude.{◌≡◌, ◌≤◌, length, take, IfOk, OnOk};
ghost use Rattle.std.specs.Io.KnownBytes.{Appends};

use std::io::{self, Read, Write};
use text::Line;

// Fills a buffer from a reader, and tells how many bytes there were: fewer than it holds only where the input has ended.
// A loop, and not std's read_exact, which does not tell how many there were.
pub fn read_full<R: Read>(from: &mut R, buffer: &mut [u8]) -> io::Result<usize>
    ensures { IfOk result (λ n. n ≤ length buffer.old) }
{
    let mut n = 0;
    while n < buffer.len() {
        match from.read(&mut buffer[n..])? {
            0 => break,
            got => n += got,
        }
    }
    Ok(n)
}

// Writes out what stands on a line. A writer that fails has written some of it, or nothing.
pub fn print<W: Write>(to: &mut W, line: Line) -> io::Result<()>
    ensures { OnOk result (Appends (W.contents to.old) (W.contents to.new) (take line.length line.bytes)) }
{
    to.write_all(line.shown())
}

// The first n bytes, or all where there are fewer.
pub fn first(bytes: &[u8], n: usize) -> &[u8]
    ensures { result.now ≡ take n bytes.now }
{
    &bytes[..n.min(bytes.len())]
}
