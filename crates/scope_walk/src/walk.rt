// The tree calls of a linked program, one item after the other, up to the first that is refused.
ghost use Rattle.std.specs.Prelude.{◌≡◌, ◌+◌, ◌<◌};
ghost use Rattle.bundle.specs.Limits.{module_kind};
ghost use Rattle.bundle.specs.Scan.{byte};
ghost use Rattle.bundle.specs.Decode.{decode, items_at};
ghost use Rattle.discovery.specs.Walk.{Small};
ghost use Rattle.assembly.specs.Assemble.{file_of};
ghost use Rattle.assembly.specs.Targets.{file_uses};
ghost use Rattle.assembly.specs.Walk.{one_at};
ghost use Rattle.scope_tree.specs.Trees.{cleared};
ghost use Rattle.commit.specs.Lending.{lent_in, Kept};
ghost use Rattle.scope_walk.specs.Steps.{Walks, stop_of, item_calls, items_calls, Plain};
ghost use Rattle.scope_walk.specs.Units.{unit_calls, program_calls};

use crate::calls::{ask, ask_named, ask_use, item_at};
use assembly::{Program, Unit};
use bundle::limits::DEPTH;
use bundle::{Items, Kind, Range};
use refusal::Refusal;
use scopes::lent::Lent;
use scopes::{Call, Item, Tree};

// A module is entered, its items are walked, and it is left; one that stands as deep as modules may has no items.
#[cycle(walk_item_walk_items_walk_module)]
fn walk_module(unit: &Unit<'_>, at: usize, depth: usize, tree: &mut Lent) -> Result<(), Refusal>
    requires { (Small at depth × (byte unit.now.bytes.now (at + 2) ≡ module_kind)) × Plain (file_uses unit.now.bytes.now (file_of (decode unit.now.bytes.now) unit.now.id)) (one_at depth unit.now.bytes.now at) }
    ensures kept { Kept tree.old tree.new }
    ensures walked { Walks (lent_in tree.old) (item_calls unit.now.bytes.now (file_of (decode unit.now.bytes.now) unit.now.id) depth at) (stop_of result) (lent_in tree.new) }
{
    ask(tree, Call::Enter(item_at(unit.bytes, at)), at)?;
    if depth > 0 {
        walk_items(unit, bundle::module_items(unit.bytes, at), depth - 1, tree)?;
    }
    ask(tree, Call::Exit, at)
}

// An item; an ignored one makes no call.
#[cycle(walk_item_walk_items_walk_module)]
fn walk_item(unit: &Unit<'_>, at: usize, depth: usize, tree: &mut Lent) -> Result<(), Refusal>
    requires { Small at depth × Plain (file_uses unit.now.bytes.now (file_of (decode unit.now.bytes.now) unit.now.id)) (one_at depth unit.now.bytes.now at) }
    ensures kept { Kept tree.old tree.new }
    ensures walked { Walks (lent_in tree.old) (item_calls unit.now.bytes.now (file_of (decode unit.now.bytes.now) unit.now.id) depth at) (stop_of result) (lent_in tree.new) }
{
    match bundle::kind(unit.bytes, at) {
        Kind::Ignored => Ok(()),
        Kind::Use => ask_use(unit, at, tree),
        Kind::Named(kind) => ask_named(unit.bytes, at, kind, tree),
        Kind::Module => walk_module(unit, at, depth, tree),
    }
}

// These items, with modules at most `depth` deep.
#[cycle(walk_item_walk_items_walk_module)]
fn walk_items(unit: &Unit<'_>, items: Range, depth: usize, tree: &mut Lent) -> Result<(), Refusal>
    requires { Small items.end depth × Plain (file_uses unit.now.bytes.now (file_of (decode unit.now.bytes.now) unit.now.id)) (items_at depth unit.now.bytes.now items.end items.at) }
    ensures kept { Kept tree.old tree.new }
    ensures walked { Walks (lent_in tree.old) (items_calls unit.now.bytes.now (file_of (decode unit.now.bytes.now) unit.now.id) depth items.end items.at) (stop_of result) (lent_in tree.new) }
{
    for at in Items::of(unit.bytes, items) {
        walk_item(unit, at, depth, tree)?;
    }
    Ok(())
}

// A unit: a private module of its name, with the mark 0.
fn walk_unit(unit: &Unit<'_>, tree: &mut Lent) -> Result<(), Refusal>
    ensures kept { Kept tree.old tree.new }
    ensures walked { Walks (lent_in tree.old) (unit_calls (decode unit.now.bytes.now) unit.now.id) (stop_of result) (lent_in tree.new) }
{
    let name = names::unit_name(unit.id as u64);
    let item = Item {
        name: name.as_slice(),
        public: false,
        mark: 0,
    };
    ask(tree, Call::Enter(item), 0)?;
    walk_items(unit, unit.items(), DEPTH, tree)?;
    ask(tree, Call::Exit, 0)
}

// The tree calls of the units in their order, made on the arrays that the caller lends: up to the first that is refused. Ruled out: the
// tree of the entry's items alone; a unit's number told with the mark of its first item.
pub fn walk_units(program: &Program<'_>, tree: &mut Lent) -> Result<(), Refusal>
    ensures kept { Kept tree.old tree.new }
    ensures walked { Walks (lent_in tree.old) (program_calls (decode program.now.bytes.now) program.now.ids.now) (stop_of result) (lent_in tree.new) }
{
    for id in program.ids {
        walk_unit(&program.unit(usize::from(*id)), tree)?;
    }
    Ok(())
}

// The same on the arrays of a tree that was empty.
pub fn walk_tree(program: &Program<'_>, tree: &mut Tree) -> Result<(), Refusal>
    requires { tree.old ≡ cleared }
    ensures { Walks cleared (program_calls (decode program.now.bytes.now) program.now.ids.now) (stop_of result) tree.new }
{
    // Written out: of a struct of nine loans that a function hands out, no clause says what the tree then ends as (tried).
    let mut arrays = Lent {
        opened: &mut tree.opened,
        cells: &mut tree.cells,
        visible: &mut tree.visible,
        scopes: &mut tree.scopes,
        marks: &mut tree.marks,
        n0: &mut tree.n0,
        n1: &mut tree.n1,
        n2: &mut tree.n2,
        n3: &mut tree.n3,
    };
    walk_units(program, &mut arrays)
}
