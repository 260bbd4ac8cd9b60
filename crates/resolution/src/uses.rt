// What a use resolves to.
ghost use Rattle.std.specs.Prelude.{◌≡◌, ◌<◌, length};
ghost use Rattle.bundle.specs.Decode.{decode};
ghost use Rattle.bundle.specs.Read.{value};
ghost use Rattle.card.specs.Layout.{node_limit};
ghost use Rattle.card.specs.Card.{nodes_in};
ghost use Rattle.resolution.specs.Resolution.{build_and_verify_path, check_local_file_imported_as_external, external, resolve_crate_path, resolve_path_internal};
ghost use Rattle.resolution.specs.Call.{answer, lent};
ghost use Rattle.resolution.specs.Told.{found_told, told_use};
ghost use Rattle.resolution.specs.Indices.{lists_in, path_in, Importer, ImporterIs, IsFolder, resolved_at, itself_in};

use crate::listing::{Spot, build_and_verify_path};
use crate::package::remapping_for;
use crate::{Found, Segments, Target};
use card::{Card, Mapped};
use refusal::Cause;

// What is found at an index: the files come after the folders.
fn resolved(card: &Card, spot: Spot) -> Found
    requires { 0 < spot.index }
    ensures { found_told result ≡ resolved_at card.now.folders spot.index spot.left }
{
    let target = if spot.index > card.folders {
        Target::File(spot.index - 1 - card.folders)
    } else {
        Target::Folder(spot.index - 1)
    };
    Found {
        target,
        left: spot.left,
    }
}

// Whether index t has the package root of the file of index f.
fn check_local_file_imported_as_external(b: &Mapped<'_>, f: usize, t: usize) -> bool
    requires { (f < length (nodes_in b.now.bytes.now)) × (t < length (nodes_in b.now.bytes.now)) }
    ensures { result ≡ check_local_file_imported_as_external (lists_in b.now.bytes.now) (path_in b.now.bytes.now f) (path_in b.now.bytes.now t) }
{
    match b.nearest_root(f) {
        Some(curr) => b.nearest_root(t) == Some(curr),
        None => false,
    }
}

// The segments from the target of index base on.
fn resolve_external_path(
    b: &Mapped<'_>,
    f: usize,
    base: usize,
    segments: Segments<'_>,
) -> Result<Found, Cause>
    requires { (f < length (nodes_in b.now.bytes.now)) × IsFolder b.now.bytes.now base }
    ensures { told_use result ≡ answer (lists_in b.now.bytes.now) (external (lists_in b.now.bytes.now) (path_in b.now.bytes.now f) (build_and_verify_path (lists_in b.now.bytes.now) (path_in b.now.bytes.now base) segments.entry)) }
{
    let Some(spot) = build_and_verify_path(b, base, segments) else {
        return Err(Cause::NoLibraryFile);
    };
    if check_local_file_imported_as_external(b, f, spot.index) {
        return Err(Cause::OwnFile);
    }
    Ok(resolved(b.card, spot))
}

// After a failed lookup: the importer itself, where it lies directly in the root of index base.
fn itself(card: &Card, f: usize, base: usize, left: usize) -> Result<Found, Cause>
    requires { (0 < f) × (f < node_limit) }
    ensures { told_use result ≡ itself_in card.now f base left }
{
    if usize::from(card.nodes[f].parent) != base {
        return Err(Cause::NoFile);
    }
    Ok(resolved(card, Spot { index: f, left }))
}

// Below the file's package root. The importer is its index, no struct with the bundle: so the driver and the card have it.
fn resolve_crate_path(b: &Mapped<'_>, f: usize, segments: Segments<'_>) -> Result<Found, Cause>
    requires { Importer b.now.bytes.now f }
    ensures { told_use result ≡ answer (lists_in b.now.bytes.now) (resolve_crate_path (lists_in b.now.bytes.now) (path_in b.now.bytes.now f) segments.entry) }
{
    let Some(root) = b.nearest_root(f) else {
        return Err(Cause::NoRoot);
    };
    let n = segments.len();
    match build_and_verify_path(b, root, segments) {
        Some(spot) => Ok(resolved(b.card, spot)),
        None => itself(b.card, f, root, n),
    }
}

// A use in the file of index f. Ruled out: a file below another package root than the importer's for `crate`; 23 for a `crate` path
// that fails in a file directly in its package root, which resolves to itself.
pub fn resolve_path_internal(
    b: &Mapped<'_>,
    f: usize,
    mut segments: Segments<'_>,
) -> Result<Found, Cause>
    requires { Importer b.now.bytes.now f }
    ensures { told_use result ≡ answer (lists_in b.now.bytes.now) (resolve_path_internal (lists_in b.now.bytes.now) (path_in b.now.bytes.now f) segments.entry) }
{
    let Some(name) = segments.next() else {
        return Err(Cause::EmptyUse);
    };
    if names::is_crate(name) {
        return resolve_crate_path(b, f, segments);
    }
    let Some(taken) = remapping_for(b, f, name) else {
        return Err(Cause::UnknownLibrary);
    };
    resolve_external_path(b, f, usize::from(b.card.maps[taken].target), segments)
}

// The index of the file of a path.
fn importer_of(b: &Mapped<'_>, file: &[u8]) -> Option<usize>
    ensures { ImporterIs b.now.bytes.now file.now result }
{
    // No `filter`: as for listing's `enter`.
    let f = b.find_path(file)?;
    if f <= b.card.folders {
        return None;
    }
    Some(f)
}

// The arguments of a call: 4, the segments' count and forms, 29, then 20 to 25.
pub fn resolve_in(b: &Mapped<'_>, file: &[u8], u: &[u8]) -> Result<Found, Cause>
    ensures { told_use result ≡ lent (value (decode b.now.bytes.now)) file.now u.now }
{
    if !names::is_path(file) {
        return Err(Cause::BadPath);
    }
    let segments = Segments::given(u)?;
    let Some(f) = importer_of(b, file) else {
        return Err(Cause::UnknownUnit);
    };
    resolve_path_internal(b, f, segments)
}
