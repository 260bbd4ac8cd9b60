// The one writer of a tree: the entries that a call comes to, written at the end of the nine arrays that the caller lends.
#![tactic(auto)]

ghost use Rattle.std.specs.Prelude.{◌≡◌, true, get_or, length, ◌+◌, ◌<◌, ◌≤◌};
ghost use Rattle.scope_tree.specs.Trees.{tree_in};
ghost use Rattle.scope_tree.specs.Views.{bit_of};
ghost use Rattle.scope_tree.specs.Pack.{added};
ghost use Rattle.decision.specs.Batches.{staged_of};
ghost use Rattle.commit.specs.Lending.{entry_told, numbers_told, lent_in, Kept};
ghost use Rattle.commit.specs.Filled.{numbers_staged, filled};

use decision::batch::{Batch, Staged};
use scope_tree::look::{Key, View, free_slot};
use scope_tree::{
    CELLS, COUNT, DEPTH, Entry as Numbers, INDEX, KINDS, OPENED, ORIGINS, TARGETS, TIMES,
};

// An entry to add, and where it stands.
#[derive(Clone, Copy)]
pub struct Entry {
    pub staged: Staged,
    pub public: bool,
    pub scope: u16,
    // whether a module opens
    pub opens: bool,
}

// The nine arrays of a tree, lent to be written.
#[derive(Drop)]
pub struct Lent<'a> {
    pub opened: &'a mut [u16; OPENED],
    pub cells: &'a mut [u16; CELLS],
    pub visible: &'a mut [u8; 1024],
    pub scopes: &'a mut [u16; 1024],
    pub marks: &'a mut [u16; 1024],
    pub n0: &'a mut [u64; 1024],
    pub n1: &'a mut [u64; 1024],
    pub n2: &'a mut [u64; 1024],
    pub n3: &'a mut [u64; 1024],
}

impl<'a> Lent<'a> {
    pub fn view(&self) -> View<'_>
        ensures { tree_in result ≡ lent_in self.now }
    {
        View {
            opened: &*self.opened,
            cells: &*self.cells,
            visible: &*self.visible,
            scopes: &*self.scopes,
            marks: &*self.marks,
            n0: &*self.n0,
            n1: &*self.n1,
            n2: &*self.n2,
            n3: &*self.n3,
        }
    }

    // Entry `at`, at the tree's end, and a module opened with it: any numbers as its kind and its visibility. Ruled out: a number that is
    // cut.
    #[tactic(auto, unfolding(scope_tree::specs::Pack::added))]
    pub fn add_numbers(&mut self, at: usize, entry: Numbers)
        requires few { at < 1024 }
        requires shallow { entry.opens ≡ true → get_or self.old.opened.now 10 0 < 9 }
        ensures kept { Kept self.old self.new }
        ensures added { lent_in self.new ≡ added at (lent_in self.old) (numbers_told entry) }
    {
        let depth = usize::from(self.opened[DEPTH]);
        let place = (at + 1) as u16;
        let Numbers {
            kind,
            visible,
            scope,
            mark,
            name,
            origin,
            target,
            moment,
            opens,
        } = entry;
        let slot = free_slot(&*self.cells, Key { scope, kind, name });
        self.visible[at] = visible;
        self.scopes[at] = scope;
        self.marks[at] = mark;
        self.n0[at] = name.w0;
        self.n1[at] = name.w1;
        self.n2[at] = name.w2;
        self.n3[at] = name.w3;
        self.cells[KINDS + at] = kind;
        self.cells[ORIGINS + at] = origin;
        self.cells[TARGETS + at] = target;
        self.cells[TIMES + at] = moment;
        self.cells[INDEX + slot] = place;
        self.opened[COUNT] = place;
        if opens {
            self.opened[depth] = place;
            self.opened[DEPTH] = (depth + 1) as u16;
        }
    }

    // The same of an entry of a kind, public or not.
    pub fn add(&mut self, at: usize, entry: Entry)
        requires few { at < 1024 }
        requires shallow { entry.opens ≡ true → get_or self.old.opened.now 10 0 < 9 }
        ensures kept { Kept self.old self.new }
        ensures added { lent_in self.new ≡ added at (lent_in self.old) (entry_told entry) }
    {
        let Staged {
            kind,
            name,
            mark,
            origin,
            target,
            moment,
        } = entry.staged;
        let numbers = Numbers {
            kind: u16::from(kind),
            visible: u8::from(entry.public),
            scope: entry.scope,
            mark,
            name,
            origin,
            target,
            moment,
            opens: entry.opens,
        };
        self.add_numbers(at, numbers);
    }

    // The entries of a use, one after another from the place `first` on, of any number as their visibility. Ruled out: entries that stand
    // at the tree's end where `first` is another place.
    pub fn commit_at(&mut self, first: usize, batch: &Batch, scope: u16, public: u8)
        requires { first + batch.now.count ≤ 1024 }
        ensures kept { Kept self.old self.new }
        ensures filled { lent_in self.new ≡ filled first (lent_in self.old) (staged_of batch.now) scope public batch.now.count }
    {
        for (i, staged) in batch.entries[..batch.count].iter().enumerate() {
            let Staged {
                kind,
                name,
                mark,
                origin,
                target,
                moment,
            } = *staged;
            let numbers = Numbers {
                kind: u16::from(kind),
                visible: public,
                scope,
                mark,
                name,
                origin,
                target,
                moment,
                opens: false,
            };
            self.add_numbers(first + i, numbers);
        }
    }

    // The same of entries in numbers: any as a kind. One scope and one visibility are every entry's, and no module opens. Ruled out: a
    // kind that is cut.
    pub fn commit_numbers(&mut self, first: usize, entries: &[Numbers], scope: u16, visible: u8)
        requires { first + length entries.now ≤ 1024 }
        ensures kept { Kept self.old self.new }
        ensures filled { lent_in self.new ≡ filled first (lent_in self.old) (numbers_staged entries.now) scope visible (length entries.now) }
    {
        for (i, given) in entries.iter().enumerate() {
            let entry = Numbers {
                visible,
                scope,
                opens: false,
                ..*given
            };
            self.add_numbers(first + i, entry);
        }
    }

    // The same at the tree's end, public or not.
    pub fn commit(&mut self, batch: &Batch, scope: u16, public: bool)
        requires { get_or self.old.opened.now 9 0 + batch.now.count ≤ 1024 }
        ensures kept { Kept self.old self.new }
        ensures filled { lent_in self.new ≡ filled (get_or self.old.opened.now 9 0) (lent_in self.old) (staged_of batch.now) scope (bit_of public) batch.now.count }
    {
        let first = self.view().count();
        self.commit_at(first, batch, scope, u8::from(public));
    }
}
