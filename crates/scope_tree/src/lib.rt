// The module tree of ast/scope/modules.rs as a record, lookups in it and the bytes of a use. Nothing here changes a tree: the calls are
// in the crate scopes, and what each comes to in the crate decision.
#![tactic(auto)]

ghost use Rattle.std.specs.Prelude.{◌≡◌};
ghost use Rattle.scope_tree.specs.Kinds.{kind_number, twice_number, opens_for, deepest_for};
ghost use Rattle.scope_tree.specs.Trees.{tree_in};
ghost use Rattle.refusal.specs.Numbers.{number_of};

pub mod form;
pub mod look;

use look::View;
use names::Name;
use refusal::Cause;

// The most entries of a tree, whose arrays are written with the number itself, and the most open modules.
pub const ENTRIES: usize = 1024;

pub const OPEN: usize = 9;

// Places of `Tree.opened`, and of two of its numbers: how many entries there are, and how many open modules.
pub const OPENED: usize = OPEN + 2;

pub const COUNT: usize = OPEN;

pub const DEPTH: usize = OPEN + 1;

// Places of `Tree.cells`, and the first of each of its parts.
pub const CELLS: usize = INDEX + SLOTS;

pub const KINDS: usize = 0;

pub const ORIGINS: usize = ENTRIES;

pub const TARGETS: usize = 2 * ENTRIES;

pub const TIMES: usize = 3 * ENTRIES;

pub const INDEX: usize = 4 * ENTRIES;

// Slots of the index: one for each hash, and two below each entry.
pub const SLOTS: usize = 3 * ENTRIES;

// 1,024 entries in the order made, and the open modules. The root is scope 0, the module at entry i is scope i + 1.
#[derive(Clone, Copy)]
pub struct Tree {
    // the scopes of the open modules, outermost first, in nine places; then how many entries and how many open modules there are
    pub opened: [u16; OPENED],
    // Four parts of 1,024, of the entries: the kind (1 type, 2 function, 3 module); the origin (0 for a declaration, i + 1 for a copy of
    // entry i); what is inside a copy, a scope and a time (that scope, among the first so many entries). Then the index, 3,072 slots, each
    // an entry plus one, or 0 for none: 1,024 by a hash of scope, kind and name, for the first entry of each hash, and two below each
    // entry, for later ones of the same hash; which of the two, a bit of scope, kind and name says, at each depth another.
    pub cells: [u16; CELLS],
    // 0 private, 1 public
    pub visible: [u8; 1024],
    pub scopes: [u16; 1024],
    pub marks: [u16; 1024],
    pub n0: [u64; 1024],
    pub n1: [u64; 1024],
    pub n2: [u64; 1024],
    pub n3: [u64; 1024],
}

// An entry to add, in the numbers that the arrays hold.
#[derive(Clone, Copy)]
pub struct Entry {
    pub kind: u16,
    pub visible: u8,
    pub scope: u16,
    pub mark: u16,
    pub name: Name,
    pub origin: u16,
    pub target: u16,
    pub moment: u16,
    // whether a module opens
    pub opens: bool,
}

// What a name stands for. A module holds a name once of each kind.
#[derive(Clone, Copy, Debug, PartialEq, Eq)]
pub enum Kind {
    Type,
    Function,
    Module,
}

impl Kind {
    // Why a name is refused that is held in this kind.
    pub fn twice(self) -> Cause
        ensures { number_of result ≡ twice_number self }
    {
        match self {
            Kind::Type => Cause::TypeTwice,
            Kind::Function => Cause::FunctionTwice,
            Kind::Module => Cause::ModuleTwice,
        }
    }

    // Whether a module opens with its declaration.
    pub fn opens(self) -> bool
        ensures { result ≡ opens_for self }
    {
        self == Kind::Module
    }

    // How many modules may be open where this is declared.
    pub fn deepest(self) -> usize
        ensures { result ≡ deepest_for self }
    {
        match self {
            Kind::Module => OPEN - 1,
            Kind::Type | Kind::Function => OPEN,
        }
    }
}

// The number of a kind in the cells, which C lends. Ruled out: one number for two kinds.
impl From<Kind> for u16 {
    ghost from_gives = { λ k n. n ≡ kind_number k };

    fn from(kind: Kind) -> u16 {
        match kind {
            Kind::Type => 1,
            Kind::Function => 2,
            Kind::Module => 3,
        }
    }
}

impl Tree {
    pub fn view(&self) -> View<'_>
        ensures { tree_in result ≡ self.now }
    {
        View {
            opened: &self.opened,
            cells: &self.cells,
            visible: &self.visible,
            scopes: &self.scopes,
            marks: &self.marks,
            n0: &self.n0,
            n1: &self.n1,
            n2: &self.n2,
            n3: &self.n3,
        }
    }
}
