// What the programs that replay stored answers share: their one shape, parts led by their length, bytes in hexadecimal, and what
// is written of a refusal and of a report; and the reading into a buffer of those that read a bundle at a time.
//
// All of the input is read before anything is written, but by `each_line` and by those that read a bundle at a time. What writes an
// answer takes any writer, `out`, first. A read or a write that fails ends the program with that error.
#![tactic(auto)]

mod frames;
mod hex;
mod report;
#[cfg(test)]
mod tests;

ghost use Rattle.std.specs.Prelude.{◌≡◌, ◌<◌, ◌≤◌, ◌++◌, ◌∷◌, length, take, IfOk, MatchOption};
ghost use Rattle.std.specs.Io.KnownBytes.{Consumes, IsAtEnd};
ghost use Rattle.lines.specs.Words.{HasNone};

pub use frames::Frames;
pub use hex::{Hex, tell_hex, unhex, unhexed};
pub use report::{ring, tell_faults, tell_refusal, tell_ring};
use std::io;
use std::io::{BufRead, BufReader, BufWriter, Printer, Read, Write};

// All of standard input.
pub fn input(rt: &(impl Input + AllocGlobal)) -> io::Result<Vec<u8>> {
    let mut bytes = Vec::new(rt.alloc());
    rt.reader().read_to_end(&mut bytes)?;
    Ok(bytes)
}

// Answers each part of standard input (Frames) on standard output, which has a buffer in front.
pub fn each_part<R, F>(rt: &R, mut tell: F) -> io::Result<()>
where
    R: Input + Print + AllocGlobal,
    F: FnMut(&mut BufWriter<Printer<'_, R>>, &[u8]) -> io::Result<()>,
    requires { F.IsAlwaysCallable tell }
{
    let input = input(rt)?;
    let mut out = BufWriter::new(rt.alloc(), io::writer(rt))?;
    for part in Frames(&input) {
        tell(&mut out, part)?;
    }
    out.flush()
}

// Answers each line of standard input, which is text, on standard output, which has a buffer in front: as they are read, so that the
// input may be longer than memory. A line that is no text is an error.
pub fn each_line<R, F>(rt: &R, mut tell: F) -> io::Result<()>
where
    R: Input + Print + AllocGlobal,
    F: FnMut(&mut BufWriter<Printer<'_, R>>, &str) -> io::Result<()>,
    requires { F.IsAlwaysCallable tell }
{
    let mut out = BufWriter::new(rt.alloc(), io::writer(rt))?;
    for line in BufReader::new(rt.alloc(), rt.reader())?.lines(rt.alloc()) {
        tell(&mut out, line?.as_str())?;
    }
    out.flush()
}

// The same of whatever bytes, all of which are read before the first answer. Here a line is all that stands between two line feeds: a
// carriage return stays, and what follows the last line feed is a line too, though it be empty.
pub fn each_byte_line<R, F>(rt: &R, mut tell: F) -> io::Result<()>
where
    R: Input + Print + AllocGlobal,
    F: FnMut(&mut BufWriter<Printer<'_, R>>, &[u8]) -> io::Result<()>,
    requires { F.IsAlwaysCallable tell }
{
    let input = input(rt)?;
    let mut out = BufWriter::new(rt.alloc(), io::writer(rt))?;
    for line in input.split(|b| *b == b'\n') {
        tell(&mut out, line)?;
    }
    out.flush()
}

// What stands before the first byte c, and what behind it; `None` where there is none.
pub fn split_once(s: &[u8], c: u8) -> Option<(&[u8], &[u8])>
    ensures { MatchOption result (HasNone c s.now) (λ p. HasNone c p.0.now × (s.now ≡ p.0.now ++ (c ∷ p.1.now))) }
{
    let i = s.iter().position(|b| *b == c)?;
    Some((&s[..i], &s[i + 1..]))
}

// Reads until the buffer is full or the input ends: how many bytes that are. They stand at the buffer's start.
pub fn fill<R: Read>(reader: &mut R, buffer: &mut [u8]) -> io::Result<usize>
    ensures within { IfOk result (λ n. n ≤ length buffer.new) }
    ensures bytes { IfOk result (λ n. Consumes (R.remaining reader.old) (R.remaining reader.new) (take n buffer.new)) }
    ensures end { IfOk result (λ n. n < length buffer.new → IsAtEnd (R.remaining reader.new)) }
{
    // A `while`: only the reader says how far a read comes, so no count or list of turns stands before them.
    let mut n = 0;
    while n < buffer.len() {
        let more = reader.read(&mut buffer[n..])?;
        if more == 0 {
            return Ok(n);
        }
        n += more;
    }
    Ok(n)
}
