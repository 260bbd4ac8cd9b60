// A tree's entries as rows of numbers, for programs in other languages: how a module tree is told outside.
#![tactic(auto)]

ghost use Rattle.std.specs.Prelude.{◌≡◌, ◌<◌, ◌≤◌, get_or};
ghost use Rattle.scope_tree.specs.Trees.{tree_in, flat_of, view};
ghost use Rattle.scope_tree.specs.Views.{rows};
ghost use Rattle.rows.specs.Written.{written};
ghost use Rattle.rows.specs.TreeRows.{numbers, scope_of, time_of, Listed};

use scope_tree::look::{View, cell};
use scope_tree::{KINDS, ORIGINS, TARGETS, TIMES};

// How many numbers tell an entry.
const ROW: usize = 11;

// What entry i shows where it is a copy: a scope and a time. Zeros of a module's own.
#[tactic(auto, using(scope_tree::specs::Pack::parts))]
fn shown(tree: &View, i: usize) -> (u16, u16)
    requires { i < 1024 }
    ensures { (result.0 ≡ scope_of (rows (view (tree_in tree.now)) i).body) × (result.1 ≡ time_of (rows (view (tree_in tree.now)) i).body) }
{
    if tree.is_own(i) {
        return (0, 0);
    }
    let target = cell(tree.cells, TARGETS, i);
    (target, cell(tree.cells, TIMES, i))
}

// The numbers of entry i.
#[tactic(auto, using(scope_tree::specs::Pack::parts, crate::specs::TreeRows::origin_came))]
fn row_of(tree: &View, i: usize) -> [u64; ROW]
    requires { i < 1024 }
    ensures { result ≡ numbers (rows (view (tree_in tree.now)) i) }
{
    let (target, time) = shown(tree, i);
    let name = tree.name(i);
    [
        u64::from(cell(tree.cells, KINDS, i)),
        u64::from(tree.is_public(i)),
        u64::from(tree.scopes[i]),
        u64::from(tree.marks[i]),
        u64::from(cell(tree.cells, ORIGINS, i)),
        u64::from(target),
        u64::from(time),
        name.w0,
        name.w1,
        name.w2,
        name.w3,
    ]
}

// As much of a row, from `at` on, as there is place for.
fn put_part(out: &mut [u64], at: usize, row: [u64; ROW])
    requires { at < 65536 }
    ensures { out.new ≡ written out.old at row }
{
    for (i, number) in row.iter().enumerate() {
        if at + i < out.len() {
            out[at + i] = *number;
        }
    }
}

// A row from `at` on. One that fits is stored with no further test, in half as many steps.
fn put(out: &mut [u64], at: usize, row: [u64; ROW])
    requires { at < 65536 }
    ensures { out.new ≡ written out.old at row }
{
    if out.len() < at + ROW {
        put_part(out, at, row);
        return;
    }
    for (i, number) in row.iter().enumerate() {
        out[at + i] = *number;
    }
}

// A tree's entries, eleven numbers each: kind, visibility, scope, mark, origin, what a copy shows (a scope and a time), and the
// name's four words; as far as there is place. Gives how many entries there are. Ruled out: an entry left out; a copy that shows a
// later time.
pub fn put_rows(tree: &View, out: &mut [u64]) -> usize
    requires { get_or tree.now.opened.now 9 0 ≤ 1024 }
    ensures { Listed (flat_of (tree_in tree.now)).entries out.old result out.new }
{
    let count = tree.count();
    for i in 0..count {
        put(out, i * ROW, row_of(tree, i));
    }
    count
}
