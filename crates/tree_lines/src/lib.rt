// The lines `has` of a tree, to whatever sink.
#![tactic(auto)]

ghost use Rattle.std.specs.Prelude.{◌≡◌, [], ◌∷◌, get_or};
ghost use Rattle.text.specs.Words.{line, lines};
ghost use Rattle.scope_tree.specs.Flat.{none};
ghost use Rattle.scope_tree.specs.Trees.{flat_of};
ghost use Rattle.tree_lines.specs.Entries.{module_path, has_line, has_lines};
ghost use Rattle.tree_lines.specs.EntryLaws.{shown_of};

use names::Name;
use scope_tree::KINDS;
use scope_tree::look::cell;
use scopes::{ENTRIES, Tree};
use text::Sink;

// What is printed of an entry.
#[derive(Clone, Copy)]
struct Shown {
    // 0 the root, i + 1 the module at entry i
    scope: usize,
    kind: u64,
    name: Name,
    mark: u64,
}

// What is printed where there is no entry.
const NONE: Shown = Shown {
    scope: 0,
    kind: 0,
    name: Name {
        w0: 0,
        w1: 0,
        w2: 0,
        w3: 0,
    },
    mark: 0,
};

// Entry i of a tree.
#[tactic(auto, using(crate::specs::EntryLaws::entries_at))]
fn entry_at(tree: &Tree, i: usize) -> Shown
    ensures { result ≡ shown_of (get_or (flat_of tree.now).entries i none) }
{
    let view = tree.view();
    if i >= view.count() || i >= ENTRIES {
        return NONE;
    }
    Shown {
        scope: usize::from(tree.scopes[i]),
        kind: u64::from(cell(&tree.cells, KINDS, i)),
        name: view.name(i),
        mark: u64::from(tree.marks[i]),
    }
}

// The path of the module of a scope, from `crate` on: the modules around it, outermost first, of which there are at most `depth`.
fn put_module<S: Sink>(out: &mut S, tree: &Tree, scope: usize, depth: usize)
    ensures { S.tells out.old (module_path depth (flat_of tree.now).entries scope) out.new }
{
    if scope == 0 || depth == 0 {
        out.put(b"crate");
        return;
    }
    let module = entry_at(tree, scope - 1);
    put_module(out, tree, module.scope, depth - 1);
    out.put(b"::");
    text::put_name(out, module.name);
}

// The line of entry i; none of a unit.
fn put_entry<S: Sink>(out: &mut S, tree: &Tree, i: usize)
    ensures { S.tells out.old (lines (has_lines (flat_of tree.now).entries (get_or (flat_of tree.now).entries i none ∷ []))) out.new }
{
    let entry = entry_at(tree, i);
    if entry.scope == 0 {
        return;
    }
    out.put(b"has ");
    put_module(out, tree, entry.scope, tree.view().count());
    out.put(b" ");
    text::put_decimal(out, entry.kind);
    out.put(b" ");
    text::put_name(out, entry.name);
    out.put(b" ");
    text::put_decimal(out, entry.mark);
    out.put(b"\n");
}

// The entries in the order made; units are not shown.
pub fn put_tree<S: Sink>(out: &mut S, tree: &Tree)
    ensures { S.tells out.old (lines (has_lines (flat_of tree.now).entries (flat_of tree.now).entries)) out.new }
{
    for i in 0..tree.view().count() {
        put_entry(out, tree, i);
    }
}
