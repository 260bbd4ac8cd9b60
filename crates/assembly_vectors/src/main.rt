// Replays stored bundles: standard input has each led by its length in 4 bytes, big-endian. For each is written what steps 1 to
// 5 and the image come to: `no NUMBER PLACE` for a refusal or for each fault, `ring` and its ids after `no 26 0`; or `ok` and
// the number of units, and the image in hexadecimal.
#![tactic(auto)]

use program::Assembled;
use refusal::Cause;
use std::io;
use std::io::Write;

const SIZE: usize = 65538;

fn tell<W: Write>(out: &mut W, bundle: &[u8]) -> io::Result<()> {
    let mut report = [0u8; 4096];
    let mut image = [0u8; SIZE];
    match program::assemble(bundle, &mut report, &mut image) {
        Err(refusal) => writeln!(out, "{refusal}"),
        Ok(Assembled::Report(n)) => {
            let told = report.get(..n).unwrap_or(&[]);
            let Some(ids) = lines::ring(told) else {
                return lines::tell_faults(out, told);
            };
            writeln!(out, "{}", Cause::Ring.at(0))?;
            lines::tell_ring(out, ids)
        }
        Ok(Assembled::Image(linked, n)) => {
            let image = image.get(..n).unwrap_or(&[]);
            write!(out, "ok {}\nimage ", linked.units)?;
            lines::tell_hex(out, image)?;
            writeln!(out)
        }
    }
}

fn main(rt: HostRuntime) -> io::Result<()> {
    lines::each_part(&rt, |out, bundle| tell(out, bundle))
}
