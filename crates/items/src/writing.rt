// The image's items. Each function lends the later part of its buffer on to be filled, then sets the length ahead of it.
ghost use Rattle.std.specs.Prelude.{◌≡◌, ◌+◌, ◌≤◌, ◌<◌, ◌^◌, ◌++◌, length};
ghost use Rattle.bundle.specs.Limits.{segment_limit, use_kind, module_kind};
ghost use Rattle.bundle.specs.Scan.{byte};
ghost use Rattle.bundle.specs.Encode.{string, counted, element};
ghost use Rattle.bundle.specs.Decode.{items_at, decode};
ghost use Rattle.discovery.specs.Walk.{UseMark, Small};
ghost use Rattle.encoder.specs.Started.{started};
ghost use Rattle.encoder.specs.Parts.{head_bytes};
ghost use Rattle.assembly.specs.Assemble.{file_of};
ghost use Rattle.assembly.specs.Image.{length_cap};
ghost use Rattle.assembly.specs.Given.{unit_bytes, program_bytes};
ghost use Rattle.assembly.specs.Targets.{UnitOf, InFile, file_uses, path_by, Within};
ghost use Rattle.assembly.specs.Walk.{segments_at, elements_at, use_bytes, named_bytes, one_at, item_bytes, items_bytes, Brief, HasName};
ghost use Rattle.items.specs.Written.{Wrote, Fits};

use crate::segments::last_segments;
use assembly::{Program, Target, Unit, target_of};
use bundle::limits::{DEPTH, MODULE, USE};
use bundle::{Items, Kind, Range};
use discovery::Known;
use encoder::{Strings, put_head, put_segments, put_start, put_two, put_unit_start};

// A use's new path: its count, and its segments.
fn put_path(s: &[u8], mark: usize, target: Option<Target>, out: &mut [u8]) -> usize
    requires { (UseMark s.now mark × Within (segments_at s.now mark) target) × ((length (segments_at s.now mark) ≤ segment_limit) × (length (counted string (path_by (segments_at s.now mark) target)) ≤ length out.old)) }
    ensures { (result ≡ length (counted string (path_by (segments_at s.now mark) target))) × (out.new ≡ started (counted string (path_by (segments_at s.now mark) target)) out.old) }
{
    match target {
        None => {
            out[0] = 0;
            1
        }
        Some(target) => {
            out[0] = (target.left + 2) as u8;
            1 + put_segments(
                &mut out[1..],
                target.id,
                last_segments(s, mark, target.left),
            )
        }
    }
}

// A use's elements: their count, and a name and an alias for each.
fn put_elements(s: &[u8], mark: usize, out: &mut [u8]) -> usize
    requires { UseMark s.now mark × (length (counted element (elements_at s.now mark)) ≤ length out.old) }
    ensures { (result ≡ length (counted element (elements_at s.now mark))) × (out.new ≡ started (counted element (elements_at s.now mark)) out.old) }
{
    let elements = bundle::use_elements(s, mark);
    out[0] = elements.count as u8;
    1 + Strings::new(s, elements.first, 2 * elements.count).put(&mut out[1..])
}

// The use at `mark` in the unit `id` of so many, with its path rewritten: segment count, segments, element count, elements. Nothing more is
// asked of the unit than its uses' entries and the units' files.
pub fn rewrite_use(
    s: &[u8],
    known: &Known,
    units: usize,
    id: usize,
    mark: usize,
    out: &mut [u8],
) -> usize
    requires { (UnitOf s.now known.now units id × UseMark s.now mark × InFile s.now (file_of (decode s.now) id) mark) × ((length (segments_at s.now mark) ≤ segment_limit) × (length (use_bytes s.now (file_of (decode s.now) id) mark) ≤ length out.old)) }
    ensures { (result ≡ length (use_bytes s.now (file_of (decode s.now) id) mark)) × (out.new ≡ started (use_bytes s.now (file_of (decode s.now) id) mark) out.old) }
{
    let target = target_of(s, known, units, id, mark);
    let a = put_path(s, mark, target, out);
    a + put_elements(s, mark, &mut out[a..])
}

// A use: its rewritten form, then its head.
fn write_use(unit: &Unit<'_>, at: usize, out: &mut [u8]) -> usize
    requires { (UseMark unit.now.bytes.now at × InFile unit.now.bytes.now (file_of (decode unit.now.bytes.now) unit.now.id) at) × ((length (segments_at unit.now.bytes.now at) ≤ segment_limit) × ((4 + length (use_bytes unit.now.bytes.now (file_of (decode unit.now.bytes.now) unit.now.id) at) ≤ length out.old) × (4 + length (use_bytes unit.now.bytes.now (file_of (decode unit.now.bytes.now) unit.now.id) at) < length_cap))) }
    ensures { (result ≡ 4 + length (use_bytes unit.now.bytes.now (file_of (decode unit.now.bytes.now) unit.now.id) at)) × (out.new ≡ started (head_bytes (2 + length (use_bytes unit.now.bytes.now (file_of (decode unit.now.bytes.now) unit.now.id) at)) use_kind (byte unit.now.bytes.now (at + 3)) ++ use_bytes unit.now.bytes.now (file_of (decode unit.now.bytes.now) unit.now.id) at) out.old) }
{
    let n = rewrite_use(
        unit.bytes,
        unit.known,
        unit.units,
        unit.id,
        at,
        &mut out[4..],
    );
    put_head(out, 2 + n, USE, bundle::item_visibility(unit.bytes, at));
    4 + n
}

// An item that is a name alone, or a module with nothing inside.
fn write_named(s: &[u8], at: usize, kind: usize, out: &mut [u8]) -> usize
    requires { ((at < 2 ^ 58) × HasName s.now at) × ((kind < 256) × Fits (named_bytes s.now at kind) out.old) }
    ensures { Wrote (named_bytes s.now at kind) out.old result out.new }
{
    let a = put_start(
        out,
        kind,
        bundle::item_visibility(s, at),
        bundle::item_name(s, at),
    );
    put_two(out, 0, a - 2);
    a
}

// A module, with modules at most `depth` deep: its items are written behind its start, then its length ahead of them.
#[cycle(write_item_write_items_write_module)]
fn write_module(unit: &Unit<'_>, at: usize, depth: usize, out: &mut [u8]) -> usize
    requires { (Small at depth × (byte unit.now.bytes.now (at + 2) ≡ module_kind)) × (Brief (file_uses unit.now.bytes.now (file_of (decode unit.now.bytes.now) unit.now.id)) (one_at depth unit.now.bytes.now at) × Fits (item_bytes unit.now.bytes.now (file_of (decode unit.now.bytes.now) unit.now.id) depth at) out.old) }
    ensures { Wrote (item_bytes unit.now.bytes.now (file_of (decode unit.now.bytes.now) unit.now.id) depth at) out.old result out.new }
{
    if depth == 0 {
        return write_named(unit.bytes, at, MODULE, out);
    }
    let a = put_start(
        out,
        MODULE,
        bundle::item_visibility(unit.bytes, at),
        bundle::item_name(unit.bytes, at),
    );
    let inner = bundle::module_items(unit.bytes, at);
    let n = a + write_items(unit, inner, depth - 1, &mut out[a..]);
    put_two(out, 0, n - 2);
    n
}

// An item; an ignored one goes.
#[cycle(write_item_write_items_write_module)]
fn write_item(unit: &Unit<'_>, at: usize, depth: usize, out: &mut [u8]) -> usize
    requires { Small at depth × (Brief (file_uses unit.now.bytes.now (file_of (decode unit.now.bytes.now) unit.now.id)) (one_at depth unit.now.bytes.now at) × Fits (item_bytes unit.now.bytes.now (file_of (decode unit.now.bytes.now) unit.now.id) depth at) out.old) }
    ensures { Wrote (item_bytes unit.now.bytes.now (file_of (decode unit.now.bytes.now) unit.now.id) depth at) out.old result out.new }
{
    match bundle::kind(unit.bytes, at) {
        Kind::Ignored => 0,
        Kind::Use => write_use(unit, at, out),
        Kind::Named(kind) => write_named(unit.bytes, at, usize::from(kind), out),
        Kind::Module => write_module(unit, at, depth, out),
    }
}

// These items, with modules at most `depth` deep.
#[cycle(write_item_write_items_write_module)]
fn write_items(unit: &Unit<'_>, items: Range, depth: usize, out: &mut [u8]) -> usize
    requires { Small items.end depth × (Brief (file_uses unit.now.bytes.now (file_of (decode unit.now.bytes.now) unit.now.id)) (items_at depth unit.now.bytes.now items.end items.at) × Fits (items_bytes unit.now.bytes.now (file_of (decode unit.now.bytes.now) unit.now.id) depth items.end items.at) out.old) }
    ensures { Wrote (items_bytes unit.now.bytes.now (file_of (decode unit.now.bytes.now) unit.now.id) depth items.end items.at) out.old result out.new }
{
    let mut sum = 0;
    for at in Items::of(unit.bytes, items) {
        sum += write_item(unit, at, depth, &mut out[sum..]);
    }
    sum
}

// A unit: a private module.
fn write_unit(unit: &Unit<'_>, out: &mut [u8]) -> usize
    requires { Fits (unit_bytes (decode unit.now.bytes.now) unit.now.id) out.old }
    ensures { Wrote (unit_bytes (decode unit.now.bytes.now) unit.now.id) out.old result out.new }
{
    let a = put_unit_start(out, unit.id);
    let n = a + write_items(unit, unit.items(), DEPTH, &mut out[a..]);
    put_two(out, 0, n - 2);
    n
}

// The program: the units in their order.
pub fn write_program(program: &Program<'_>, out: &mut [u8]) -> usize
    requires { (length (program_bytes (decode program.now.bytes.now) program.now.ids.now) ≤ length out.old) × (length (program_bytes (decode program.now.bytes.now) program.now.ids.now) < length_cap) }
    ensures { (result ≡ length (program_bytes (decode program.now.bytes.now) program.now.ids.now)) × (out.new ≡ started (program_bytes (decode program.now.bytes.now) program.now.ids.now) out.old) }
{
    let mut sum = 0;
    for id in program.ids {
        sum += write_unit(&program.unit(usize::from(*id)), &mut out[sum..]);
    }
    sum
}
