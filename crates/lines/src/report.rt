// What the programs write of a refusal and of a report.
ghost use Rattle.std.specs.Prelude.{◌≡◌, ◌<◌, ◌≢◌, ◌⊎◌, length, drop, slice_index, MatchOption};
ghost use Rattle.refusal.specs.Numbers.{number_of};
ghost use Rattle.refusal.specs.declared.Cause.TheVariants.{Ring};

use refusal::Cause;
use std::io;
use std::io::Write;

pub fn tell_refusal<W: Write>(out: &mut W, n: u8, p: usize) -> io::Result<()> {
    writeln!(out, "no {n} {p}")
}

// A report of faults: a number and a place for each; a byte of the last that isn't there is 0.
pub fn tell_faults<W: Write>(out: &mut W, report: &[u8]) -> io::Result<()> {
    for fault in report.chunks(3) {
        let byte = |i: usize| fault.get(i).copied().unwrap_or(0);
        let place = u16::from_be_bytes([byte(1), byte(2)]);
        tell_refusal(out, byte(0), usize::from(place))?;
    }
    Ok(())
}

// The ids of the ring that a report tells, where it tells one. Ruled out: a fault's place read as ids.
pub fn ring(report: &[u8]) -> Option<&[u8]>
    ensures { MatchOption result ((length report.now < 4) ⊎ (slice_index report.now 0 ≢ number_of Ring)) (λ ids. (slice_index report.now 0 ≡ number_of Ring) × (ids.now ≡ drop 4 report.now)) }
{
    match report {
        [number, _, _, _, ids @ ..] if *number == u8::from(Cause::Ring) => Some(ids),
        _ => None,
    }
}

pub fn tell_ring<W: Write>(out: &mut W, ids: &[u8]) -> io::Result<()> {
    write!(out, "ring")?;
    for id in ids {
        write!(out, " {id}")?;
    }
    writeln!(out)
}
