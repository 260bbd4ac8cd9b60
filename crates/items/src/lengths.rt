// How many bytes the image has. A sum that passes LIMIT stays there: one more byte than an image may have.
ghost use Rattle.std.specs.Prelude.{◌≡◌, ◌+◌, ◌<◌, ◌^◌, min, length};
ghost use Rattle.bundle.specs.Limits.{module_kind};
ghost use Rattle.bundle.specs.Scan.{byte, text};
ghost use Rattle.bundle.specs.Encode.{string, counted, element};
ghost use Rattle.bundle.specs.Decode.{decode, items_at};
ghost use Rattle.discovery.specs.Walk.{UseMark, Small};
ghost use Rattle.assembly.specs.Assemble.{file_of};
ghost use Rattle.assembly.specs.Image.{length_cap};
ghost use Rattle.assembly.specs.Given.{unit_bytes, program_bytes};
ghost use Rattle.assembly.specs.Targets.{InFile, file_uses, path_by, Within};
ghost use Rattle.assembly.specs.Walk.{segments_at, elements_at, use_bytes, one_at, item_bytes, items_bytes, Brief, HasName};

use crate::segments::last_segments;
use assembly::{Program, Target, Unit};
use bundle::limits::DEPTH;
use bundle::{Items, Kind, Range};
use encoder::Strings;

pub const LIMIT: usize = 65536;

// A use's new path: its count, and its segments.
fn path_length(s: &[u8], mark: usize, target: Option<Target>) -> usize
    requires { UseMark s.now mark × Within (segments_at s.now mark) target }
    ensures { (result ≡ length (counted string (path_by (segments_at s.now mark) target))) × (result < 2 ^ 20) }
{
    match target {
        None => 1,
        Some(target) => {
            let unit = names::unit_name(target.id as u64);
            1 + 6 + 1 + unit.as_slice().len() + last_segments(s, mark, target.left).size()
        }
    }
}

// A use's elements: their count, and a name and an alias for each.
fn elements_length(s: &[u8], mark: usize) -> usize
    requires { UseMark s.now mark }
    ensures { (result ≡ length (counted element (elements_at s.now mark))) × (result < 2 ^ 20) }
{
    let elements = bundle::use_elements(s, mark);
    1 + Strings::new(s, elements.first, 2 * elements.count).size()
}

// A use: its head, its new path and its elements.
fn use_length(unit: &Unit<'_>, mark: usize) -> usize
    requires { UseMark unit.now.bytes.now mark × InFile unit.now.bytes.now (file_of (decode unit.now.bytes.now) unit.now.id) mark }
    ensures { (result ≡ 4 + length (use_bytes unit.now.bytes.now (file_of (decode unit.now.bytes.now) unit.now.id) mark)) × (result < 2 ^ 32) }
{
    let path = path_length(unit.bytes, mark, unit.target_of(mark));
    4 + path + elements_length(unit.bytes, mark)
}

// Any other item, but for what is inside it: its head and its name.
fn head_length(s: &[u8], at: usize) -> usize
    requires { (at < 2 ^ 58) × HasName s.now at }
    ensures { (result ≡ 4 + length (string (text s.now (at + 4)))) × (result < 2 ^ 16) }
{
    5 + bundle::item_name(s, at).len()
}

// A module, with modules at most `depth` deep.
#[cycle(item_length_items_length_module_length)]
fn module_length(unit: &Unit<'_>, at: usize, depth: usize) -> usize
    requires { (Small at depth × (byte unit.now.bytes.now (at + 2) ≡ module_kind)) × Brief (file_uses unit.now.bytes.now (file_of (decode unit.now.bytes.now) unit.now.id)) (one_at depth unit.now.bytes.now at) }
    ensures { result ≡ min (length (item_bytes unit.now.bytes.now (file_of (decode unit.now.bytes.now) unit.now.id) depth at)) length_cap }
{
    let head = head_length(unit.bytes, at);
    if depth == 0 {
        return head;
    }
    let n = items_length(unit, bundle::module_items(unit.bytes, at), depth - 1);
    (head + n).min(LIMIT)
}

// An item as the image has it; an ignored one is not there.
#[cycle(item_length_items_length_module_length)]
fn item_length(unit: &Unit<'_>, at: usize, depth: usize) -> usize
    requires { Small at depth × Brief (file_uses unit.now.bytes.now (file_of (decode unit.now.bytes.now) unit.now.id)) (one_at depth unit.now.bytes.now at) }
    ensures { result ≡ min (length (item_bytes unit.now.bytes.now (file_of (decode unit.now.bytes.now) unit.now.id) depth at)) length_cap }
{
    match bundle::kind(unit.bytes, at) {
        Kind::Ignored => 0,
        Kind::Use => use_length(unit, at).min(LIMIT),
        Kind::Named(_) => head_length(unit.bytes, at),
        Kind::Module => module_length(unit, at, depth),
    }
}

// These items, with modules at most `depth` deep.
#[cycle(item_length_items_length_module_length)]
fn items_length(unit: &Unit<'_>, items: Range, depth: usize) -> usize
    requires { Small items.end depth × Brief (file_uses unit.now.bytes.now (file_of (decode unit.now.bytes.now) unit.now.id)) (items_at depth unit.now.bytes.now items.end items.at) }
    ensures { result ≡ min (length (items_bytes unit.now.bytes.now (file_of (decode unit.now.bytes.now) unit.now.id) depth items.end items.at)) length_cap }
{
    let mut sum = 0;
    for at in Items::of(unit.bytes, items) {
        let n = item_length(unit, at, depth);
        sum = (sum + n).min(LIMIT);
    }
    sum
}

// A unit: a private module.
fn unit_length(unit: &Unit<'_>) -> usize
    ensures { result ≡ min (length (unit_bytes (decode unit.now.bytes.now) unit.now.id)) length_cap }
{
    let name = names::unit_name(unit.id as u64);
    let n = items_length(unit, unit.items(), DEPTH);
    (5 + name.as_slice().len() + n).min(LIMIT)
}

// The program: the units in their order.
pub fn program_length(program: &Program<'_>) -> usize
    ensures { result ≡ min (length (program_bytes (decode program.now.bytes.now) program.now.ids.now)) length_cap }
{
    let mut sum = 0;
    for id in program.ids {
        let n = unit_length(&program.unit(usize::from(*id)));
        sum = (sum + n).min(LIMIT);
    }
    sum
}
