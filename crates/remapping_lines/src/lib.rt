// Remapping lists of Solidity projects, `context:prefix=target` one to a line: any bytes are read into a version 1
// remapping section at the start of a lent buffer, or refused with a cause and a place and the buffer as it was.
#![tactic(auto)]

mod line;
mod test;
mod write;

ghost use Rattle.std.specs.Prelude.{◌≡◌, length};
ghost use Rattle.remapping_lines.specs.Lines.{lines_answer, lines_buffer};
ghost use Rattle.remapping_lines.specs.Told.{told};

use crate::test::Counted;
use refusal::{Cause, Refusal};

// Reads a list, and answers how many bytes its section takes. Ruled out: `/b` as target of `a=/b=c`; 14 for a list with a
// bad line; a byte of the buffer changed where the answer is a refusal.
pub fn read_lines(s: &[u8], out: &mut [u8]) -> Result<usize, Refusal>
    ensures value { told result ≡ lines_answer s.now (length out.old) }
    ensures out_after { out.new ≡ lines_buffer s.now out.old }
{
    let counted = Counted::of(s)?;
    if out.len() < counted.size {
        return Err(Cause::SmallBuffer.at(0));
    }
    out[0] = counted.lines as u8;
    write::write_lines(s, &mut out[1..]);
    Ok(counted.size)
}
