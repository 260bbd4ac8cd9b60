// Reads a bundle on standard input and prints the lines for it: `printed` of its bytes (printing's specs/Lines.antt).
//
// For a file of whatever bytes that is the contract of `tell`, from that of `printing::tell` (printing's specs/Sent.antt:
// program_sends). READ bytes are enough: the first 65,539 decide what is told of a file (specs/ReadTheorems.antt: verdict_enough,
// read_enough). TEXT bytes are enough: no text is longer (specs/LengthTheorems.antt: printed-fits). Trusted, not proved: that what
// is read of standard input are the file's bytes in order, and that what is written to standard output reaches the screen in order.
#![tactic(auto)]

ghost use Rattle.std.specs.Prelude.{OnOk, IfSome};
ghost use Rattle.std.specs.Io.KnownBytes.{Appends};
ghost use Rattle.bundle.specs.Read.{Bytes};
ghost use Rattle.printing.specs.Lines.{printed};

use printing::TEXT;
use std::io;
use std::io::{Read, Write};

const READ: usize = 66048;

// Writes all that is printed of the bytes that the reader gives.
fn tell<R: Read, W: Write>(reader: &mut R, out: &mut W) -> io::Result<()>
    ensures { OnOk result (IfSome (R.remaining reader.old) (λ s. Bytes s → Appends (W.contents out.old) (W.contents out.new) (printed s))) }
{
    let mut bundle = [0u8; READ];
    let n = lines::fill(reader, &mut bundle)?;
    let mut text = [0u8; TEXT];
    let r = printing::tell(&bundle[..n], &mut text);
    out.write_all(&text[..r])
}

fn main(rt: HostRuntime) -> io::Result<()> {
    tell(&mut rt.reader(), &mut io::writer(&rt))
}
