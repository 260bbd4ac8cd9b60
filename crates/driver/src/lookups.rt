// The lookups of a unit: every fault is pushed, and what a use resolves to is gathered.
ghost use Rattle.std.specs.Prelude.{◌≡◌, length, ◌+◌, ◌<◌, ◌≤◌};
ghost use Rattle.bundle.specs.Limits.{use_limit};
ghost use Rattle.bundle.specs.Form.{Every};
ghost use Rattle.resolution.specs.Indices.{lists_in, path_in, Importer};
ghost use Rattle.resolution.specs.Told.{answered};
ghost use Rattle.resolution.specs.Resolution.{resolve_path_internal};
ghost use Rattle.discovery.specs.Known.{Fills, Wide};
ghost use Rattle.discovery.specs.Walk.{use_at, UseMark, UseMarks, use_list, NamedUse};
ghost use Rattle.driver.specs.Record.{looked_all, no_imports};

use crate::{Graph, Import};
use card::Carded;
use discovery::{Known, Uses};
use refusal::Cause;
use resolution::{Found, Segments};

// A lookup: what the use at `mark` in the file of index f of the card resolves to.
fn resolve_single(b: &Carded<'_>, f: usize, mark: usize) -> Result<Found, Cause>
    requires { Importer b.now.bytes.now f × (UseMark b.now.bytes.now mark × NamedUse (use_at b.now.bytes.now mark)) }
    ensures { result ≡ answered (lists_in b.now.bytes.now) (resolve_path_internal (lists_in b.now.bytes.now) (path_in b.now.bytes.now f) (use_at b.now.bytes.now mark).segments) }
{
    let segments = Segments::of(b.bytes, bundle::use_segments(b.bytes, mark));
    resolution::resolve_path_internal(&b.mapped(), f, segments)
}

// All lookups of the file of index f of the card, whose uses these are. What each resolves to is kept, from the entry `first` on. Ruled
// out: a fault at the place of another use; a use that fails gathered as an import; a target kept for another use.
pub fn resolve_imports(
    b: &Carded<'_>,
    f: usize,
    uses: &Uses,
    g: &mut Graph,
    known: &mut Known,
    first: usize,
)
    requires importer { Importer b.now.bytes.now f }
    requires uses { UseMarks b.now.bytes.now uses.now × Every NamedUse (use_list b.now.bytes.now uses.now) }
    requires wide { Wide known.old }
    requires room { (length uses.now ≤ use_limit) × ((g.old.fault_count + length uses.now ≤ use_limit) × (first + length uses.now ≤ use_limit)) }
    ensures value { g.new ≡ looked_all (lists_in b.now.bytes.now) (path_in b.now.bytes.now f) (use_list b.now.bytes.now uses.now) (no_imports g.old) }
    ensures fills { Fills (lists_in b.now.bytes.now) (path_in b.now.bytes.now f) known.old known.new first (use_list b.now.bytes.now uses.now) (length uses.now) }
{
    g.import_count = 0;
    for (i, mark) in uses.as_slice().iter().enumerate() {
        let mark = *mark;
        let found = resolve_single(b, f, mark);
        known.keep(first + i, mark, found.ok());
        match found {
            Ok(found) => g.push_import(Import {
                target: found.target,
                mark,
            }),
            Err(cause) => g.push_fault(cause.at(mark)),
        }
    }
}
