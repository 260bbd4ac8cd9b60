// The enums of a unit, those of its modules included.
ghost use Rattle.std.specs.Prelude.{◌≡◌, ◌+◌, ◌<◌, ◌≤◌, ◌++◌, length, map};
ghost use Rattle.bundle.specs.Limits.{module_kind};
ghost use Rattle.bundle.specs.Scan.{byte};
ghost use Rattle.bundle.specs.Decode.{decode};
ghost use Rattle.discovery.specs.Walk.{Small};
ghost use Rattle.assembly.specs.Assemble.{items_of, enum_declarations};
ghost use Rattle.assembly.specs.FaultRoom.{fault_limit, foreign, Told};
ghost use Rattle.assembly.specs.Walk.{item_enums, items_enums, named_enums};

use crate::{Faults, Unit};
use bundle::limits::{DEPTH, ENUM};
use bundle::{Items, Kind, Range};
use refusal::Cause;

// 28 for an item of this kind, if it is an enum.
fn tell_named(kind: u8, at: usize, faults: &mut Faults)
    requires { length faults.old + length (named_enums kind at) ≤ fault_limit }
    ensures { Told faults.old faults.new (named_enums kind at) }
{
    if kind == ENUM {
        faults.push(Cause::ForeignEnum.at(at));
    }
}

// The enums of the module at `at`, with modules at most `depth` deep.
#[cycle(tell_items_tell_module)]
fn tell_module(s: &[u8], at: usize, depth: usize, faults: &mut Faults)
    requires { (Small at depth × (byte s.now (at + 2) ≡ module_kind)) × (length faults.old + length (item_enums s.now depth at) ≤ fault_limit) }
    ensures { Told faults.old faults.new (item_enums s.now depth at) }
{
    if depth > 0 {
        tell_items(s, bundle::module_items(s, at), depth - 1, faults);
    }
}

// Those of these items: an enum is told, a module's items are walked.
#[cycle(tell_items_tell_module)]
fn tell_items(s: &[u8], items: Range, depth: usize, faults: &mut Faults)
    requires { Small items.end depth × (length faults.old + length (items_enums s.now depth items.end items.at) ≤ fault_limit) }
    ensures { Told faults.old faults.new (items_enums s.now depth items.end items.at) }
{
    for at in Items::of(s, items) {
        match bundle::kind(s, at) {
            Kind::Named(kind) => tell_named(kind, at, faults),
            Kind::Module => tell_module(s, at, depth, faults),
            Kind::Use | Kind::Ignored => {}
        }
    }
}

// 28 for each enum of a unit.
pub fn forbid_enum_dec(unit: &Unit<'_>, faults: &mut Faults)
    requires { length faults.old + length (enum_declarations (items_of (decode unit.now.bytes.now) unit.now.id)) ≤ fault_limit }
    ensures { Told faults.old faults.new (enum_declarations (items_of (decode unit.now.bytes.now) unit.now.id)) }
{
    tell_items(unit.bytes, unit.items(), DEPTH, faults);
}
