// Bytes in hexadecimal.
ghost use Rattle.std.specs.Prelude.{◌≡◌, ◌/◌, ◌<◌, ◌≤◌, length, min, false, Some, IfOk, OnOk, vec_len};
ghost use Rattle.std.specs.Fmt.{HasWritten, IsPlainFormatter, digit_glyph};
ghost use Rattle.std.specs.Io.KnownBytes.{Appends};
ghost use Rattle.lines.specs.Hex.{hex, pair};

use std::alloc::Global;
use std::io::Write;
use std::{fmt, io};

// Bytes, two digits for each.
#[derive(Clone, Copy)]
pub struct Hex<'a>(pub &'a [u8]);

// A byte's two digits, the high one first.
fn put_pair<W: fmt::Write>(f: &mut fmt::Formatter<W>, b: u8) -> fmt::Result
    ensures { IsPlainFormatter f.old → OnOk result (HasWritten W.write_str_gives f.old (pair b) f.new) }
{
    write!(f, "{b:02x}")
}

impl fmt::Display for Hex<'_> {
    ghost output = { λ h. Some (hex h.0.now) };

    fn fmt<W: fmt::Write>(&self, f: &mut fmt::Formatter<W>) -> fmt::Result {
        for b in self.0 {
            put_pair(f, *b)?;
        }
        Ok(())
    }
}

// The digit of a value below 16.
fn glyph(value: u8) -> u8
    requires { value < 16 }
    ensures { result ≡ digit_glyph false value }
{
    if value < 10 {
        b'0' + value
    } else {
        b'a' - 10 + value
    }
}

// Appends what Hex shows: a pair at once, in a quarter of the time that a formatter takes.
pub fn tell_hex<W: Write>(out: &mut W, bytes: &[u8]) -> io::Result<()>
    ensures { OnOk result (Appends (W.contents out.old) (W.contents out.new) (hex bytes.now)) }
{
    for b in bytes {
        out.write_all(&[glyph(*b / 16), glyph(*b % 16)])?;
    }
    Ok(())
}

// The value of a digit; 0 of what is none, as of a capital one.
fn digit(b: u8) -> u8
    ensures { result < 16 }
{
    match b {
        b'0'..=b'9' => b - b'0',
        b'a'..=b'f' => b - b'a' + 10,
        _ => 0,
    }
}

// The byte of two digits.
fn byte(high: u8, low: u8) -> u8 {
    digit(high) * 16 + digit(low)
}

// The bytes that digits spell, two for each, at the start of the buffer, as many as there is room for; answers how many. What is
// no digit counts as 0.
pub fn unhex(s: &[u8], out: &mut [u8]) -> usize
    ensures room { result ≤ length out.old }
    ensures count { result ≡ min (length out.old) (length s.now / 2) }
{
    for (slot, pair) in out.iter_mut().zip(s.chunks_exact(2)) {
        *slot = byte(pair[0], pair[1]);
    }
    out.len().min(s.len() / 2)
}

// The bytes that a word's digits spell, two for each; one digit more spells none. What is no digit counts as 0. Ruled out: a byte
// for each digit.
pub fn unhexed(alloc: Global, word: &[u8]) -> io::Result<Vec<u8>>
    ensures { IfOk result (λ v. vec_len v ≡ length word.now / 2) }
{
    let pairs = word.chunks_exact(2);
    Ok(pairs.map(|pair| byte(pair[0], pair[1])).collect(alloc)?)
}
