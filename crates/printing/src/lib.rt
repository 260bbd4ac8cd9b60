// The specification's printed lines: what the linker answers to a bundle, in a lent buffer or to whatever writer.
#![tactic(auto)]

ghost use Rattle.std.specs.Prelude.{OnOk};
ghost use Rattle.std.specs.Io.KnownBytes.{Appends};
ghost use Rattle.bundle.specs.Read.{read};
ghost use Rattle.printing.specs.Lines.{reading_lines, printed};
ghost use Rattle.printing.specs.Answers.{Shows};

mod report;
mod units;

use program::Assembled;
use std::io;
use std::io::Write;
use text::{Buffer, Sink, Writer};

// Room for the longest report: 1,025 faults. The longest image. Arrays of these sizes are lent: the linker has no heap. Room for the longest text.
pub const REPORT: usize = 4096;

pub const IMAGE: usize = 65538;

pub const TEXT: usize = 440000;

// All that is printed of a bundle, or of any other bytes. Ruled out: a line left out or cut; a line of a tree where no image fits.
fn put_all<S: Sink>(out: &mut S, s: &[u8])
    ensures { S.tells out.old (printed s.now) out.new }
{
    let mut report = [0u8; REPORT];
    let mut image = [0u8; IMAGE];
    let linked = linker::link_new(s, &mut report, &mut image);
    match linked.answer {
        Ok(told) => match told {
            Assembled::Image(units, _) => {
                units::put_units(out, s, &units.files, &units.ids[..units.units]);
                tree_lines::put_tree(out, &linked.tree);
            }
            Assembled::Report(n) => report::put_report(out, &report[..n]),
        },
        Err(e) => text::put_no(out, u64::from(u8::from(e.cause)), e.place as u64),
    }
}

// All that is printed, written at the start of the buffer; answers how many bytes that is. TEXT bytes are enough for every
// bundle; a shorter buffer has as much as there is room for.
#[tactic(auto, using(text::specs::Writing::put_whole), unfolding(crate::specs::Lines::printed))]
pub fn tell(s: &[u8], out: &mut [u8]) -> usize
    ensures { Shows (reading_lines (read s.now)) out.old out.new result }
{
    let mut buffer = Buffer { bytes: out, at: 0 };
    put_all(&mut buffer, s);
    buffer.at
}

// All that is printed, to a writer.
pub fn print<W: Write>(out: &mut W, s: &[u8]) -> io::Result<()>
    ensures { OnOk result (Appends (W.contents out.old) (W.contents out.new) (printed s.now)) }
{
    let mut writer = Writer { out, error: None };
    put_all(&mut writer, s);
    writer.finish()
}
