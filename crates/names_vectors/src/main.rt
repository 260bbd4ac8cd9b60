// Answers questions on paths and names, one to a line, as the oracle's mode `--names` does (docs/ORACLE.md): a word, then
// operands in hexadecimal (of `unit` a number in decimal). The stored questions are in stdin and the oracle's answers in
// stdout.
#![tactic(auto)]

use lines::{split_once, tell_hex, unhex};
use std::io;
use std::io::Write;

// No operand has more bytes; what a longer one has beyond them is left out.
const OPERAND: usize = 512;

// The largest number to which a digit can be added, whatever it is.
const FRONT: u64 = u64::MAX / 10 - 1;

// The parent's bytes; `-` of `/`.
fn tell_parent<W: Write>(out: &mut W, path: &[u8]) -> io::Result<()> {
    let n = names::parent_len(path);
    if n < path.len() {
        tell_hex(out, &path[..n])?;
        writeln!(out)
    } else {
        writeln!(out, "-")
    }
}

fn tell_unit<W: Write>(out: &mut W, id: u64) -> io::Result<()> {
    let u = names::unit_name(id);
    out.write_all(u.as_slice())?;
    writeln!(out)
}

// The number that a word spells in decimal; 0 where it is too large, or has a byte below the digits. A byte above them counts as
// the digit that it is so far past `0`, by tens.
fn number(word: &[u8]) -> u64 {
    word.iter()
        .try_fold(0, |front: u64, b| {
            if front <= FRONT && *b >= b'0' {
                Some(front * 10 + u64::from((*b - b'0') % 10))
            } else {
                None
            }
        })
        .unwrap_or(0)
}

// What is asked of three operands, of which there may be fewer: an operand that isn't there has no bytes. `None` of another word.
fn holds(word: &[u8], a: &[u8], b: &[u8], c: &[u8]) -> Option<bool> {
    Some(match word {
        b"keyword" => names::is_keyword(a),
        b"identifier" => names::is_identifier(a),
        b"path" => names::is_path(a),
        b"prefix" => names::starts_with(a, b),
        b"in" => names::is_directly_in(a, b),
        b"child" => names::is_child(a, b, c),
        b"simf" => names::is_child_file(a, b, c),
        b"same" => names::name_of(a) == names::name_of(b),
        _ => return None,
    })
}

fn operand<'a>(digits: &[u8], room: &'a mut [u8; OPERAND]) -> &'a [u8] {
    let n = unhex(digits, room);
    &room[..n]
}

fn answer<W: Write>(out: &mut W, line: &[u8]) -> io::Result<()> {
    let Some((word, operands)) = split_once(line, b' ') else {
        return Ok(());
    };
    if let b"unit" = word {
        return tell_unit(out, number(operands));
    }
    let mut operands = operands.split(|b| *b == b' ');
    // Arrays, not Vecs: three of those a line take a third of the time.
    let (mut first, mut second, mut third) = ([0; OPERAND], [0; OPERAND], [0; OPERAND]);
    let a = operand(operands.next().unwrap_or(&[]), &mut first);
    if let b"parent" = word {
        return tell_parent(out, a);
    }
    let b = operand(operands.next().unwrap_or(&[]), &mut second);
    let c = operand(operands.next().unwrap_or(&[]), &mut third);
    match holds(word, a, b, c) {
        Some(true) => out.write_all(b"1\n"),
        Some(false) => out.write_all(b"0\n"),
        None => Ok(()),
    }
}

fn main(rt: HostRuntime) -> io::Result<()> {
    lines::each_byte_line(&rt, |out, line| answer(out, line))
}
