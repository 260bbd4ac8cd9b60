// Replays stored bundles as the oracle's mode `--discover` does (docs/ORACLE.md): standard input has each led by its length in 4
// bytes, big-endian. For each the units with their lists and the linked order or the ring are written, or a line for each fault.
#![tactic(auto)]

use bundle::limits::FILES;
use card::{Card, Carded};
use discovery::UNITS;
use order::Ordered;
use std::io;
use std::io::Write;

// Ids, and the line's end.
fn tell_ids<W: Write>(out: &mut W, ids: &[u16]) -> io::Result<()> {
    for id in ids {
        write!(out, " {id}")?;
    }
    writeln!(out)
}

// The path of the file of this index.
fn path_of(bundle: &[u8], index: usize) -> &[u8] {
    if index < FILES {
        bundle::file_path(bundle, bundle::file_at(bundle, index))
    } else {
        b""
    }
}

// The units of a bundle, by id, with their lists.
fn tell_units<W: Write>(out: &mut W, b: &Carded<'_>) -> io::Result<()> {
    let g = driver::discover_carded(b);
    for u in 0..g.units.min(UNITS) {
        write!(out, "unit {u} ")?;
        out.write_all(path_of(b.bytes, g.files[u]))?;
        let first = usize::from(g.start[u]);
        let list = g.ids.get(first..first + usize::from(g.len[u]));
        tell_ids(out, list.unwrap_or(&[]))?;
    }
    Ok(())
}

// What the order of a bundle's units is.
fn tell_order<W: Write>(out: &mut W, b: &Carded<'_>) -> io::Result<()> {
    let mut report = [0u8; 1024];
    match order::order(b.bytes, &mut report) {
        Err(refusal) => writeln!(out, "{refusal}"),
        Ok(Ordered::Report(n)) => {
            let told = report.get(..n).unwrap_or(&[]);
            let Some(ids) = lines::ring(told) else {
                return lines::tell_faults(out, told);
            };
            tell_units(out, b)?;
            lines::tell_ring(out, ids)
        }
        Ok(Ordered::Units(linked)) => {
            tell_units(out, b)?;
            write!(out, "order")?;
            tell_ids(out, linked.ids.get(..linked.units).unwrap_or(&[]))
        }
    }
}

fn tell<W: Write>(out: &mut W, bundle: &[u8]) -> io::Result<()> {
    match reader::read(bundle, &mut Card::empty()) {
        Ok(b) => tell_order(out, &b),
        Err(refusal) => writeln!(out, "{refusal}"),
    }
}

fn main(rt: HostRuntime) -> io::Result<()> {
    lines::each_part(&rt, |out, bundle| tell(out, bundle))
}
