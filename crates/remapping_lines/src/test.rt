// The first pass: lines are tested in order and counted, nothing is written.
ghost use Rattle.std.specs.Prelude.{◌≡◌, ◌+◌, ◌*◌, ◌≤◌, ◌<◌, ◌^◌, length};
ghost use Rattle.bundle.specs.Limits.{remapping_limit, remapping_size};

use crate::line::Line;
use bundle::limits::REMAPPINGS;
use refusal::{Cause, Refusal};

// The longest name.
const NAME: usize = 255;

// How many lines have content, and how many bytes their section takes.
#[derive(Clone, Copy)]
pub struct Counted {
    pub lines: usize,
    pub size: usize,
    ghost within: { (lines ≤ remapping_limit) × (size ≤ 1 + remapping_size * lines) },
}

impl Counted {
    ghost use Rattle.remapping_lines.specs.Lines.{lines_of};
    ghost use Rattle.remapping_lines.specs.Testing.{tally, tally_piece};
    ghost use Rattle.remapping_lines.specs.Tested.{tested};

    // With the line t at the offset `at`; an empty one is skipped.
    #[tactic(auto, unfolding(crate::specs::Lines::line_verdict, crate::specs::Lines::remapping_of), using(crate::specs::Testing::tests))]
    fn with(self, t: &[u8], at: usize) -> Result<Counted, Refusal>
        requires { at + length t.now < 2 ^ 63 }
        ensures { tested result ≡ tally_piece at self.lines self.size t.now }
    {
        if t.is_empty() {
            return Ok(self);
        }
        let line = Line::of(t);
        if self.lines >= REMAPPINGS {
            return Err(Cause::TooMany.at(at));
        }
        let target = line.target.ok_or(Cause::BadLine.at(at))?;
        if !names::is_path(line.context) {
            return Err(Cause::BadPath.at(at));
        }
        if !names::is_path(target) {
            return Err(Cause::BadPath.at(at + line.target_at));
        }
        if line.name.len() > NAME {
            return Err(Cause::OddName.at(at + line.name_at));
        }
        // A context, a name and a target, each behind its length byte.
        Ok(Counted {
            lines: self.lines + 1,
            size: self.size + (3 + line.context.len() + line.name.len() + target.len()),
        })
    }

    // All lines.
    pub fn of(s: &[u8]) -> Result<Counted, Refusal>
        ensures { tested result ≡ tally 0 1 (lines_of s.now) }
    {
        let mut counted = Counted { lines: 0, size: 1 };
        let mut at = 0;
        for line in s.split(|b| *b == b'\n') {
            counted = counted.with(line, at)?;
            at += line.len() + 1;
        }
        Ok(counted)
    }
}
