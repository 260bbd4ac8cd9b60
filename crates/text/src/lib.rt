// What is written of numbers, names and refusals, to whatever sink: what is then told is the definition's.
#![tactic(auto)]

mod sink;

ghost use Rattle.names.specs.Decimal.{decimal};
ghost use Rattle.text.specs.Words.{line, no_line, bytes_of, spelled};

use names::Name;
pub use sink::{Buffer, Sink, Writer};

// A number in decimal: the digits of the unit's name with that id.
#[tactic(auto, unfolding(names::specs::Decimal::unit_name, names::specs::Bytes::ascii))]
pub fn put_decimal<S: Sink>(out: &mut S, n: u64)
    ensures { S.tells out.old (decimal n) out.new }
{
    out.put(names::after(names::unit_name(n).as_slice(), 5));
}

// The bytes of a word, big-endian, up to the first 0.
fn put_word<S: Sink>(out: &mut S, word: u64)
    ensures { S.tells out.old (bytes_of 8 word) out.new }
{
    let bytes = word.to_be_bytes();
    let end = bytes.iter().position(|b| *b == 0).unwrap_or(bytes.len());
    out.put(&bytes[..end]);
}

// A name as it stands in the source.
pub fn put_name<S: Sink>(out: &mut S, name: Name)
    ensures { S.tells out.old (spelled name) out.new }
{
    put_word(out, name.w0);
    put_word(out, name.w1);
    put_word(out, name.w2);
    put_word(out, name.w3);
}

// A line `no`, a number and a place.
pub fn put_no<S: Sink>(out: &mut S, n: u64, p: u64)
    ensures { S.tells out.old (line (no_line n p)) out.new }
{
    out.put(b"no ");
    put_decimal(out, n);
    out.put(b" ");
    put_decimal(out, p);
    out.put(b"\n");
}
