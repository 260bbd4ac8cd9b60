// What the uses of a linked unit become.
ghost use Rattle.std.specs.Prelude.{◌≡◌, ◌==◌, length};
ghost use Rattle.std.specs.List.{position};
ghost use Rattle.bundle.specs.Decode.{decode};
ghost use Rattle.discovery.specs.Walk.{UseMark};
ghost use Rattle.assembly.specs.Assemble.{file_of, rewrite_use};
ghost use Rattle.assembly.specs.Targets.{UnitOf, InFile, path_by, Within, unit_by};
ghost use Rattle.assembly.specs.Walk.{segments_at};

use crate::Unit;
use discovery::Known;
use resolution::Target::{File, Folder};

// What a use's path becomes: `crate`, the name of the unit `id`, and the last `left` segments.
#[derive(Clone, Copy, Debug, PartialEq, Eq)]
pub struct Target {
    pub id: usize,
    pub left: usize,
}

// Which unit a file is; these are the units' files.
fn find_unit(files: &[usize], file: usize) -> Option<usize>
    ensures { result ≡ position (λ f. f == file) files.now }
{
    files.iter().position(|f| *f == file)
}

// Which unit a use resolves to; these are the units' files. A folder is no unit, nor a file that nothing reaches: the definition gives
// these the number past the last unit, which no linked program has.
fn unit_of(files: &[usize], target: resolution::Target) -> usize
    ensures { result ≡ unit_by files.now (length files.now) target }
{
    match target {
        File(file) => find_unit(files, file).unwrap_or(files.len()),
        Folder(_) => files.len(),
    }
}

// The target of the use at `mark` in the unit `id` of so many, of which nothing more is asked than its uses' entries and the units' files:
// the unit that the use's path resolves to, as discovery kept it; no path is resolved here. There is none where it fails.
pub fn target_of(s: &[u8], known: &Known, units: usize, id: usize, mark: usize) -> Option<Target>
    requires { UnitOf s.now known.now units id × UseMark s.now mark × InFile s.now (file_of (decode s.now) id) mark }
    ensures { (rewrite_use (decode s.now) (file_of (decode s.now) id) (segments_at s.now mark) ≡ path_by (segments_at s.now mark) result) × Within (segments_at s.now mark) result }
{
    let found = known.find_use(known.files[id], mark)?;
    Some(Target {
        id: unit_of(&known.files[..units], found.target),
        left: found.left,
    })
}

impl<'a> Unit<'a> {
    // The target of its use at `mark`.
    pub fn target_of(&self, mark: usize) -> Option<Target>
        requires { UseMark self.now.bytes.now mark × InFile self.now.bytes.now (file_of (decode self.now.bytes.now) self.now.id) mark }
        ensures { (rewrite_use (decode self.now.bytes.now) (file_of (decode self.now.bytes.now) self.now.id) (segments_at self.now.bytes.now mark) ≡ path_by (segments_at self.now.bytes.now mark) result) × Within (segments_at self.now.bytes.now mark) result }
    {
        target_of(self.bytes, self.known, self.units, self.id, mark)
    }
}
