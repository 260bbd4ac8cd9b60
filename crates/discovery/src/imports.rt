// The uses of a file, in item order, those of inline modules included.
ghost use Rattle.std.specs.Prelude.{◌+◌, ◌<◌, ◌≤◌, ◌^◌, ◌≡◌, length};
ghost use Rattle.bundle.specs.Limits.{use_limit, module_kind};
ghost use Rattle.bundle.specs.Scan.{byte};
ghost use Rattle.bundle.specs.Decode.{file_at};
ghost use Rattle.discovery.specs.Discovery.{uses};
ghost use Rattle.discovery.specs.Walk.{uses_at, item_uses, Gathered, Room, Small, UsesAre};

use crate::Uses;
use bundle::limits::DEPTH;
use bundle::{Items, Kind, Range};

// The items of the module at `at`, with modules at most `depth` deep. Document 01: one function handles an item, the other a module's
// items, and they call each other.
#[cycle(process_items_process_module)]
fn process_module(s: &[u8], at: usize, depth: usize, uses: &mut Uses)
    requires { Small at depth × (Room uses.old (item_uses depth s.now at) × (byte s.now (at + 2) ≡ module_kind)) }
    ensures { Gathered s.now uses.old uses.new (item_uses depth s.now at) }
{
    if depth > 0 {
        process_items(s, bundle::module_items(s, at), depth - 1, uses);
    }
}

// These items, with modules at most `depth` deep: a use is added, a module's items are walked.
#[cycle(process_items_process_module)]
fn process_items(s: &[u8], items: Range, depth: usize, uses: &mut Uses)
    requires { Small items.end depth × Room uses.old (uses_at depth s.now items.end items.at) }
    ensures { Gathered s.now uses.old uses.new (uses_at depth s.now items.end items.at) }
{
    for at in Items::of(s, items) {
        match bundle::kind(s, at) {
            Kind::Use => uses.push(at),
            Kind::Module => process_module(s, at, depth, uses),
            Kind::Named(_) | Kind::Ignored => {}
        }
    }
}

// The uses of the file at `at`. Ruled out: a use of an inline module left out, or told after one that follows the module; the
// mark of an item that is no use.
pub fn uses_of(s: &[u8], at: usize) -> Uses
    requires { (at < 2 ^ 57) × (length (uses (file_at s.now at).items) ≤ use_limit) }
    ensures { UsesAre s.now result (uses (file_at s.now at).items) }
{
    let mut uses = Uses::new();
    process_items(s, bundle::file_items(s, at), DEPTH, &mut uses);
    uses
}
