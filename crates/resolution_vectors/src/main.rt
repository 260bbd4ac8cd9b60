// Resolves uses, one to a line, as the oracle's mode `--resolve` does (docs/ORACLE.md): a line `bundle HEX` lends a bundle to
// the lines `use IMPORTER SEGMENT::..` that follow. The stored questions are in stdin and the oracle's answers in stdout.
#![tactic(auto)]

use bundle::limits::{FILES, FOLDERS};
use resolution::{Segments, Target};
use std::alloc::{AllocError, Global};
use std::io;
use std::io::Write;

// No bundle, and no use's path as a bundle has it, has more bytes; what is beyond them is left out.
const BUNDLE: usize = 32768;

const PATH: usize = 4096;

const NOTHING: &[u8] = &[];

// The low byte of a number.
fn low(n: usize) -> u8 {
    (n % 256) as u8
}

// A word's bytes, and none of `-`.
fn nothing_if_dash(word: &[u8]) -> &[u8] {
    match word {
        b"-" => NOTHING,
        _ => word,
    }
}

// A use's path as a bundle has it: the number of segments, and each led by its length, the low byte of these. `-` has none. Behind
// a segment come a colon and one byte more; a path that ends there has its segments, and 0 for their number.
fn encode(alloc: Global, path: &[u8]) -> Result<Vec<u8>, AllocError> {
    let mut bytes = Vec::new(alloc);
    bytes.push(0)?;
    let mut rest = nothing_if_dash(path);
    for count in 1..=rest.len() {
        let parts = lines::split_once(rest, b':');
        if let (None, Some(first)) = (parts, bytes.first_mut()) {
            *first = low(count);
        }
        let (segment, behind) = parts.unwrap_or((rest, NOTHING));
        bytes.push(low(segment.len()))?;
        bytes.extend_from_slice(segment)?;
        rest = behind.get(1..).unwrap_or(NOTHING);
        if rest.is_empty() {
            break;
        }
    }
    bytes.truncate(PATH);
    Ok(bytes)
}

// The last `left` segments of a use's path.
fn tell_segments<W: Write>(out: &mut W, use_path: &[u8], left: usize) -> io::Result<()> {
    if left == 0 {
        return writeln!(out, " -");
    }
    let Ok(segments) = Segments::given(use_path) else {
        return Ok(());
    };
    let before = segments.len().saturating_sub(left);
    for (i, segment) in segments.enumerate().skip(before) {
        write!(out, "{}", if i == before { " " } else { "::" })?;
        out.write_all(segment)?;
    }
    writeln!(out)
}

fn tell<W: Write>(out: &mut W, bundle: &[u8], importer: &[u8], use_path: &[u8]) -> io::Result<()> {
    match resolution::resolve(bundle, importer, use_path) {
        Err(refusal) => writeln!(out, "{refusal}"),
        Ok(found) => {
            let path = match found.target {
                Target::File(i) if i < FILES => {
                    bundle::file_path(bundle, bundle::file_at(bundle, i))
                }
                Target::Folder(i) if i < FOLDERS => {
                    bundle::string(bundle, bundle::folder_at(bundle, i))
                }
                _ => return Ok(()),
            };
            out.write_all(b"ok ")?;
            out.write_all(path)?;
            tell_segments(out, use_path, found.left)
        }
    }
}

fn tell_bundle<W: Write>(out: &mut W, bundle: &[u8]) -> io::Result<()> {
    match reader::check(bundle) {
        Ok(_) => writeln!(out, "ok"),
        Err(refusal) => writeln!(out, "{refusal}"),
    }
}

// Answers a line; `-` is an importer or a path of nothing.
fn answer<W: Write>(
    alloc: Global,
    out: &mut W,
    bundle: &mut Vec<u8>,
    line: &[u8],
) -> io::Result<()> {
    let (word, operands) = lines::split_once(line, b' ').unwrap_or((line, NOTHING));
    match word {
        b"bundle" => {
            let digits = &operands[..operands.len().min(2 * BUNDLE)];
            *bundle = lines::unhexed(alloc, digits)?;
            tell_bundle(out, bundle)
        }
        b"use" => match lines::split_once(operands, b' ') {
            Some((importer, path)) => {
                tell(
                    out,
                    bundle,
                    nothing_if_dash(importer),
                    &encode(alloc, path)?,
                )
            }
            None => Ok(()),
        },
        _ => Ok(()),
    }
}

fn main(rt: HostRuntime) -> io::Result<()> {
    let alloc = rt.alloc();
    let mut bundle = Vec::new(alloc);
    lines::each_byte_line(&rt, |out, line| answer(alloc, out, &mut bundle, line))
}
