// What a use adds, and from where.
ghost use Rattle.std.specs.Prelude.{◌≤◌};

use names::Name;
use scope_tree::Kind;
use scope_tree::look::{Place, View};

// What a use imports into the module `here` from the module `from`, in the tree before the use.
#[derive(Clone, Copy)]
pub struct Import<'a> {
    pub tree: &'a View<'a>,
    pub here: Place,
    pub from: Place,
    ghost few: { from.time ≤ 1024 },
}

// The most entries that a use adds, three of each element.
pub const STAGED: usize = 96;

// An entry that a use adds: all of its entries stand in one module and have one visibility.
#[derive(Clone, Copy)]
pub struct Staged {
    pub kind: Kind,
    pub name: Name,
    pub mark: u16,
    pub origin: u16,
    pub target: u16,
    pub moment: u16,
}

// What a use adds: the first `count` entries. No FixedVec: its methods are the stage's, and the commit's definitions read an entry by its
// index.
#[derive(Clone, Copy)]
pub struct Batch {
    pub count: usize,
    pub entries: [Staged; STAGED],
    ghost few: { count ≤ 96 },
}
