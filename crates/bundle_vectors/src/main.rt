// Replays stored bundles: standard input has each led by its length in 4 bytes, big-endian. For each a line is written: `ok`,
// or `no` with the number and the place of the refusal.
#![tactic(auto)]

use std::io;
use std::io::Write;

fn tell<W: Write>(out: &mut W, bundle: &[u8]) -> io::Result<()> {
    match reader::check(bundle) {
        Ok(_) => writeln!(out, "ok"),
        Err(refusal) => writeln!(out, "{refusal}"),
    }
}

fn main(rt: HostRuntime) -> io::Result<()> {
    lines::each_part(&rt, |out, bundle| tell(out, bundle))
}
