// Replays stored remapping lists: standard input has each led by its length in 4 bytes, big-endian, and behind it, likewise, the
// buffer as it is lent. For each are written `ok` and the section's length, or `no` with the number and the place of the
// refusal, and on a line of its own the buffer afterwards in hexadecimal.
#![tactic(auto)]

use lines::Frames;
use std::io;
use std::io::{BufWriter, Write};

// No buffer is longer; what is beyond these bytes is not lent.
const SIZE: usize = 32768;

// Reads the list into the buffer that is lent.
fn tell<W: Write>(out: &mut W, list: &[u8], lent: &mut [u8]) -> io::Result<()> {
    match remapping_lines::read_lines(list, lent) {
        Ok(k) => writeln!(out, "ok {k}")?,
        Err(refusal) => writeln!(out, "{refusal}")?,
    }
    lines::tell_hex(out, lent)?;
    writeln!(out)
}

fn main(rt: HostRuntime) -> io::Result<()> {
    let input = lines::input(&rt)?;
    let mut out = BufWriter::new(rt.alloc(), io::writer(&rt))?;
    let mut list = None;
    for part in Frames(&input) {
        list = match list {
            None => Some(part),
            Some(list) => {
                let lent = &part[..part.len().min(SIZE)];
                tell(&mut out, list, &mut lent.to_vec(rt.alloc())?)?;
                None
            }
        };
    }
    out.flush()
}
