// Replays the call lists of standard input (the form is that of scopes_c) and writes each answer on a line.
#![tactic(auto)]

use refusal::Cause;
use std::io;
use std::io::{BufWriter, Write};

// The most calls that are made.
const CALLS: usize = 65536;

// No call is made that starts here or further on.
const END: usize = 16777216;

fn tell<W: Write>(out: &mut W, answer: Result<Option<u16>, Cause>) -> io::Result<()> {
    match answer {
        Ok(None) => writeln!(out, "ok"),
        Ok(Some(mark)) => writeln!(out, "ok {mark}"),
        Err(cause) => {
            let number = u8::from(cause);
            writeln!(out, "no {number}")
        }
    }
}

fn main(rt: HostRuntime) -> io::Result<()> {
    let calls = lines::input(&rt)?;
    let mut out = BufWriter::new(rt.alloc(), io::writer(&rt))?;
    let mut tree = scopes::empty();
    let mut at = 0;
    for _ in 0..CALLS {
        if at >= calls.len().min(END) {
            break;
        }
        let step = scopes_c::call_at(tree, &calls, at);
        tell(&mut out, step.answer)?;
        tree = step.tree;
        at = step.next;
    }
    out.flush()
}
