// The second pass: the remappings of lines that passed the first, one after the other.
ghost use Rattle.std.specs.Prelude.{◌≡◌, ◌≤◌, length};
ghost use Rattle.encoder.specs.Started.{started};
ghost use Rattle.remapping_lines.specs.Writing.{Passable, piece_bytes, list_bytes, Accepted};

use crate::line::Line;
use encoder::put_string;

// A line's remapping; nothing for an empty line.
fn write_line(out: &mut [u8], t: &[u8]) -> usize
    requires { Passable t.now × (length (piece_bytes t.now) ≤ length out.old) }
    ensures { (result ≡ length (piece_bytes t.now)) × (out.new ≡ started (piece_bytes t.now) out.old) }
{
    let line = Line::of(t);
    let Some(target) = line.target else {
        return 0;
    };
    let a = put_string(out, line.context);
    let b = a + put_string(&mut out[a..], line.name);
    b + put_string(&mut out[b..], target)
}

// All lines' remappings.
pub fn write_lines(s: &[u8], out: &mut [u8])
    requires { Accepted s.now × (length (list_bytes s.now) ≤ length out.old) }
    ensures { out.new ≡ started (list_bytes s.now) out.old }
{
    let mut n = 0;
    for line in s.split(|b| *b == b'\n') {
        n += write_line(&mut out[n..], line);
    }
}
