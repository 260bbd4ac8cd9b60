// Links stored bundles: standard input has each led by its length in 4 bytes, big-endian. For each the lines of the printing program
// are written, the image in hexadecimal where there is one, and a line `--`; they come out before the next bundle is read.
#![tactic(auto)]

use printing::{IMAGE, REPORT};
use program::Assembled;
use std::io;
use std::io::{BufWriter, Read, Write};

// No bundle that is longer is stored.
const SIZE: usize = 131072;

// No more bundles are read.
const BUNDLES: usize = 10_000_000;

// The next bundle, in a lent buffer; none at the end.
fn next<'a, R: Read>(reader: &mut R, buffer: &'a mut [u8]) -> io::Result<Option<&'a [u8]>> {
    let mut head = [0u8; 4];
    let n = lines::fill(reader, &mut head)?;
    let size = u32::from_be_bytes(head) as usize;
    if n < head.len() || size > buffer.len() {
        return Ok(None);
    }
    let part = &mut buffer[..size];
    let n = lines::fill(reader, part)?;
    Ok(Some(&part[..n]))
}

// A line `image` and the image of a bundle in hexadecimal, where it is linked.
fn tell_image<W: Write>(out: &mut W, s: &[u8]) -> io::Result<()> {
    let mut report = [0u8; REPORT];
    let mut image = [0u8; IMAGE];
    let linked = linker::link(s, &mut report, &mut image, scopes::empty());
    let Ok(Assembled::Image(_, n)) = linked.answer else {
        return Ok(());
    };
    write!(out, "image ")?;
    lines::tell_hex(out, image.get(..n).unwrap_or(&[]))?;
    writeln!(out)
}

fn tell<W: Write>(out: &mut W, s: &[u8]) -> io::Result<()> {
    printing::print(out, s)?;
    tell_image(out, s)?;
    out.write_all(b"--\n")?;
    out.flush()
}

fn main(rt: HostRuntime) -> io::Result<()> {
    let mut reader = rt.reader();
    let mut out = BufWriter::new(rt.alloc(), io::writer(&rt))?;
    let mut buffer = [0u8; SIZE];
    for _ in 0..BUNDLES {
        let Some(bundle) = next(&mut reader, &mut buffer)? else {
            break;
        };
        tell(&mut out, bundle)?;
    }
    Ok(())
}
