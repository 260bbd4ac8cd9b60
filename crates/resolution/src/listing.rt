// The lookup below a folder: a child is looked for, segment by segment.
ghost use Rattle.std.specs.Prelude.{◌≡◌};
ghost use Rattle.names.specs.Prefix.{child_file};
ghost use Rattle.bundle.specs.Form.{IsName};
ghost use Rattle.resolution.specs.Resolution.{build_and_verify_path};
ghost use Rattle.resolution.specs.Indices.{lists_in, path_in, IsFolder, Enters, located, Tells};

use crate::Segments;
use card::Mapped;

// What a lookup finds: the index of a file or a folder, and how many segments are left.
#[derive(Clone, Copy, Debug, PartialEq, Eq)]
pub struct Spot {
    pub index: usize,
    pub left: usize,
}

// The folder of a name in the folder of index dir. A folder is its index, no struct with the bundle and `IsFolder` as a ghost field: a lookup
// would then also have to say that the folder found is of the same bundle.
fn enter(b: &Mapped<'_>, dir: usize, name: &[u8]) -> Option<usize>
    requires { IsFolder b.now.bytes.now dir × IsName name.now }
    ensures { Enters b.now.bytes.now dir name.now result }
{
    // Tried: `filter`; what its closure answers is not found of an index that is not known.
    let i = b.find_child(dir, name, b"")?;
    if i > b.card.folders {
        return None;
    }
    Some(i)
}

// The file, or the folder, that a name in the folder of index dir stands for; `left` segments are left.
fn locate(b: &Mapped<'_>, dir: usize, name: &[u8], left: usize) -> Option<Spot>
    requires { IsFolder b.now.bytes.now dir × IsName name.now }
    ensures { located b.now.bytes.now (child_file (path_in b.now.bytes.now dir) name.now) left result }
{
    let index = b.find_child(dir, name, b".simf")?;
    Some(Spot { index, left })
}

// From the folder of index base: the segments that name folders are entered, the next names the file.
pub fn build_and_verify_path(
    b: &Mapped<'_>,
    base: usize,
    mut segments: Segments<'_>,
) -> Option<Spot>
    requires { IsFolder b.now.bytes.now base }
    ensures { Tells b.now.bytes.now result (build_and_verify_path (lists_in b.now.bytes.now) (path_in b.now.bytes.now base) segments.entry) }
{
    // A `while let`: the body asks how many are left.
    let mut dir = base;
    while let Some(name) = segments.next() {
        let Some(next) = enter(b, dir, name) else {
            return locate(b, dir, name, segments.len());
        };
        dir = next;
    }
    None
}
