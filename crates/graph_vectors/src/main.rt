// Answers graphs given directly, one to a line, as the oracle's mode `--graph` does (docs/ORACLE.md): start and length of
// each unit's list, a space, and the ids. The stored graphs are in stdin and the oracle's answers in stdout.
#![tactic(auto)]

use graph::{Graph, IDS, Ids, UNITS, Unordered};
use refusal::Cause;
use std::alloc::{AllocError, Global};
use std::io;
use std::io::Write;

// The number that a word spells in decimal, 65,535 if it is larger. A byte below the digits ends it; one above them counts as a
// digit too, by tens of what is past `0`.
fn number(word: &[u8]) -> u16 {
    word.iter()
        .take_while(|b| **b >= b'0')
        .fold(0, |front: u16, b| {
            front
                .saturating_mul(10)
                .saturating_add(u16::from(*b % b'0' % 10))
        })
}

// The numbers of a word; each byte below the digits ends one. None of `-`.
fn numbers(alloc: Global, word: &[u8]) -> Result<Vec<u16>, AllocError> {
    if let b"-" = word {
        return Ok(Vec::new(alloc));
    }
    word.split_inclusive(|b| *b < b'0')
        .map(number)
        .collect(alloc)
}

// The graph of two words: the lists `START+LEN` and the ids, each with commas between, and `-` for none. A length that isn't there
// is 0.
fn graph_of(alloc: Global, lists: &[u8], ids: &[u8]) -> Result<Graph, AllocError> {
    let mut g = Graph {
        start: [0; UNITS],
        len: [0; UNITS],
        ids: [0; IDS],
        units: 0,
        count: 0,
    };
    let lists = numbers(alloc, lists)?;
    for (u, list) in lists.chunks(2).enumerate() {
        if u < UNITS {
            g.start[u] = list[0];
            g.len[u] = list.get(1).copied().unwrap_or(0);
        }
        g.units = u + 1;
    }
    let ids = numbers(alloc, ids)?;
    for (i, id) in ids.iter().enumerate() {
        if i < IDS {
            g.ids[i] = *id;
        }
    }
    g.count = ids.len();
    Ok(g)
}

// Ends a line with the ids of an answer.
fn tell<W: Write>(out: &mut W, ids: &Ids) -> io::Result<()> {
    for id in ids.as_slice() {
        write!(out, " {id}")?;
    }
    out.write_all(b"\n")
}

fn answer<W: Write>(out: &mut W, g: Graph) -> io::Result<()> {
    match &graph::linearize_given(g) {
        Ok(ids) => {
            out.write_all(b"ok")?;
            tell(out, ids)
        }
        Err(Unordered::Ring(ids)) => {
            write!(out, "no {}", u8::from(Cause::Ring))?;
            tell(out, ids)
        }
        Err(Unordered::Refused(cause)) => writeln!(out, "no {}", u8::from(*cause)),
    }
}

fn main(rt: HostRuntime) -> io::Result<()> {
    let alloc = rt.alloc();
    lines::each_byte_line(&rt, |out, line| match lines::split_once(line, b' ') {
        Some((lists, ids)) => answer(out, graph_of(alloc, lists, ids)?),
        None => Ok(()),
    })
}
