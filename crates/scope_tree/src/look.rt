// Lookups. Nothing here changes a tree.
ghost use Rattle.std.specs.Prelude.{◌≡◌, ◌+◌, ◌*◌, ◌<◌, ◌≤◌, eqb, get_or, IfSome};
ghost use Rattle.scope_tree.specs.Kinds.{kind_number};
ghost use Rattle.scope_tree.specs.Index.{Small, half_mix, mix_by, mix, word_at, bucket, turn, below, held_in, free_slot};
ghost use Rattle.scope_tree.specs.Rows.{name_at, is_own};
ghost use Rattle.scope_tree.specs.Nav.{current_of};
ghost use Rattle.scope_tree.specs.Trees.{part, index_of, doors_of, tree_in};
ghost use Rattle.scope_tree.specs.Looks.{sought_in, found_in, site_in, leads_in, Led, Here};

use crate::form::{name_at, next};
use crate::{
    CELLS, COUNT, DEPTH, ENTRIES, INDEX, KINDS, Kind, OPEN, OPENED, ORIGINS, TARGETS, TIMES,
};
use names::Name;
use refusal::Cause;

// By what an entry is looked for; the kind in the number that the cells hold.
#[derive(Clone, Copy, Debug, PartialEq, Eq)]
pub struct Key {
    pub scope: u16,
    pub kind: u16,
    pub name: Name,
}

// The multipliers of a mix: for the two halves of each word of a name, then for scope and kind.
type Multipliers = [(u64, u64); 5];

// Those of the mix whose lowest ten bits are the hash.
const FIRST: Multipliers = [
    (165902239, 189812533),
    (232471937, 220889051),
    (176714393, 215493451),
    (150740719, 182388329),
    (7000208109065, 3387945472435),
];

// Those of the other, for walks that the first bits do not part.
const AGAIN: Multipliers = [
    (220889051, 150740719),
    (182388329, 176714393),
    (189812533, 232471937),
    (215493451, 165902239),
    (3387945472435, 7000208109065),
];

// The two halves of a word, each times its multiplier.
fn halves(word: u64, by: (u64, u64)) -> u64
    requires { (by.0 < 268435456) × (by.1 < 268435456) }
    ensures { (result ≡ half_mix word by) × (result < 2305843009213693952) }
{
    word / 4294967296 % 4294967296 * by.0 + word % 4294967296 * by.1
}

impl Key {
    // Scope, kind and name mixed into 36 bits.
    #[tactic(auto, using(crate::specs::Index::part_small), unfolding(crate::specs::Index::mix_by))]
    fn mixed(&self, by: &Multipliers) -> u64
        requires { Small by.now }
        ensures { result ≡ mix_by by.now self.now.scope self.now.kind self.now.name }
    {
        let Key { scope, kind, name } = *self;
        (halves(name.w0, by[0])
            + halves(name.w1, by[1])
            + halves(name.w2, by[2])
            + halves(name.w3, by[3])
            + (u64::from(scope) * by[4].0 + u64::from(kind) * by[4].1))
            / 268435456
    }

    // The words of the name, then one of scope and kind: all that two keys can differ in.
    #[tactic(auto, unfolding(crate::specs::Index::word_at))]
    fn word(&self, i: usize) -> u64
        ensures { result ≡ word_at self.now.scope self.now.kind self.now.name i }
    {
        let name = self.name;
        let last = u64::from(self.scope) + u64::from(self.kind) * 65536;
        let words = [name.w0, name.w1, name.w2, name.w3, last];
        words[i.min(4)]
    }
}

// The way of a key through the index: from the slot of its hash, at each entry to one of the two slots below.
#[derive(Clone, Copy)]
struct Route {
    key: Key,
    bits: u64,
    ghost mixed: { bits ≡ mix key.scope key.kind key.name },
}

impl Route {
    #[tactic(auto, unfolding(crate::specs::Index::mix, crate::specs::Index::mix_by))]
    fn new(key: Key) -> Route
        ensures { result.key ≡ key }
    {
        Route {
            key: key,
            bits: key.mixed(&FIRST),
        }
    }

    // The slot of the hash.
    #[tactic(auto, unfolding(crate::specs::Index::bucket))]
    fn start(&self) -> usize
        ensures { (result ≡ bucket self.now.key.scope self.now.key.kind self.now.key.name) × (result < 3072) }
    {
        (self.bits % 1024) as usize
    }

    // The bit by which it goes on at a depth: those of the mix that aren't the hash, those of the other mix, then those of the words.
    #[tactic(auto, unfolding(crate::specs::Index::turn_of, crate::specs::Index::mix_again, crate::specs::Index::mix_by))]
    fn turn(&self, depth: usize) -> usize
        ensures { (result ≡ turn self.now.key.scope self.now.key.kind self.now.key.name depth) × (result < 2) }
    {
        let bits = if depth < 26 {
            self.bits >> (depth + 10)
        } else if depth < 62 {
            self.key.mixed(&AGAIN) >> (depth - 26)
        } else {
            self.key.word((depth - 62) / 64) >> ((depth - 62) % 64)
        };
        (bits % 2) as usize
    }

    // The slot below entry i.
    #[tactic(auto, unfolding(crate::specs::Index::below))]
    fn below(&self, depth: usize, i: usize) -> usize
        requires { i < 1024 }
        ensures { (result ≡ below (turn self.now.key.scope self.now.key.kind self.now.key.name) depth i) × (result < 3072) }
    {
        ENTRIES + 2 * i + self.turn(depth)
    }
}

// The entry in a slot of the index. A number past the limit, which no tree has, is none's.
#[tactic(auto, using(crate::specs::Pack::parts), unfolding(crate::specs::Index::held_in, crate::specs::Index::place_in))]
fn held(cells: &[u16; CELLS], slot: usize) -> Option<usize>
    requires { slot < 3072 }
    ensures held { result ≡ held_in (index_of cells.now) slot }
    ensures below { IfSome result (λ i. i < 1024) }
{
    let place = usize::from(cells[INDEX + slot]);
    if place == 0 || ENTRIES < place {
        return None;
    }
    Some(place - 1)
}

// The slot for one more entry of a key: the empty one that its walk ends at.
#[tactic(auto, using(crate::specs::Index::reaching_steps))]
pub fn free_slot(cells: &[u16; CELLS], key: Key) -> usize
    ensures { (result ≡ free_slot (index_of cells.now) key.scope key.kind key.name) × (result < 3072) }
{
    let route = Route::new(key);
    let mut slot = route.start();
    for depth in 0..ENTRIES {
        let Some(i) = held(cells, slot) else {
            return slot;
        };
        slot = route.below(depth, i);
    }
    slot
}

// A scope among the first `time` entries.
#[derive(Clone, Copy, Debug, PartialEq, Eq)]
pub struct Place {
    pub scope: u16,
    pub time: usize,
}

// Where a path leads, and the place after it in the bytes.
#[derive(Clone, Copy, Debug, PartialEq, Eq)]
pub struct Way {
    pub to: Place,
    pub next: usize,
}

// A number of a part of the cells.
#[tactic(auto, using(crate::specs::Pack::parts))]
pub fn cell(cells: &[u16; CELLS], p: usize, i: usize) -> u16
    requires { (i < 1024) × (p + 1024 ≤ 7168) }
    ensures { result ≡ get_or (part p cells.now) i 0 }
{
    cells[p + i]
}

// The nine arrays of a tree, to be looked at.
#[derive(Clone, Copy)]
pub struct View<'a> {
    pub opened: &'a [u16; OPENED],
    pub cells: &'a [u16; CELLS],
    pub visible: &'a [u8; 1024],
    pub scopes: &'a [u16; 1024],
    pub marks: &'a [u16; 1024],
    pub n0: &'a [u64; 1024],
    pub n1: &'a [u64; 1024],
    pub n2: &'a [u64; 1024],
    pub n3: &'a [u64; 1024],
}

impl<'a> View<'a> {
    // How many entries there are.
    pub fn count(&self) -> usize
        ensures { result ≡ get_or self.now.opened.now 9 0 }
    {
        usize::from(self.opened[COUNT])
    }

    // How many modules are open.
    pub fn depth(&self) -> usize
        ensures { result ≡ get_or self.now.opened.now 10 0 }
    {
        usize::from(self.opened[DEPTH])
    }

    // The name of entry i.
    pub fn name(&self, i: usize) -> Name
        requires { i < 1024 }
        ensures { result ≡ name_at self.now.n0.now self.now.n1.now self.now.n2.now self.now.n3.now i }
    {
        Name {
            w0: self.n0[i],
            w1: self.n1[i],
            w2: self.n2[i],
            w3: self.n3[i],
        }
    }

    // Whether entry i is public.
    pub fn is_public(&self, i: usize) -> bool
        requires { i < 1024 }
        ensures { result ≡ eqb (get_or self.now.visible.now i 0) 1 }
    {
        self.visible[i] == 1
    }

    // Whether entry i is a declared module, which has a scope of its own.
    #[tactic(auto, unfolding(crate::specs::Rows::is_own))]
    pub fn is_own(&self, i: usize) -> bool
        requires { i < 1024 }
        ensures { result ≡ is_own (get_or (part 0 self.now.cells.now) i 0) (get_or (part 1024 self.now.cells.now) i 0) }
    {
        cell(self.cells, KINDS, i) == u16::from(Kind::Module) && cell(self.cells, ORIGINS, i) == 0
    }

    // Whether entry i is the one looked for: of those from the scope's first on and below the time.
    #[tactic(auto, unfolding(crate::specs::Rows::is_row, crate::specs::Index::within, names::specs::Packed::same_name))]
    fn is_sought(&self, i: usize, key: &Key, time: usize) -> bool
        requires { i < 1024 }
        ensures { result ≡ sought_in (tree_in self.now) key.now.scope time key.now.kind key.now.name i }
    {
        usize::from(key.scope) <= i
            && i < time
            && self.scopes[i] == key.scope
            && cell(self.cells, KINDS, i) == key.kind
            && self.name(i) == key.name
    }

    // The first entry of a kind and a name at a place.
    pub fn find(&self, at: Place, kind: Kind, name: Name) -> Option<usize>
        ensures found { result ≡ found_in (tree_in self.now) at.scope at.time (kind_number kind) name }
        ensures below { IfSome result (λ i. i < 1024) }
    {
        self.find_in(at, u16::from(kind), name)
    }

    // The same of any number as the kind: a walk through the index from the slot of the hash. It ends at an empty slot; an earlier entry
    // stands before a later one of the same scope, kind and name.
    #[tactic(auto, using(crate::specs::Index::seeking_steps))]
    pub fn find_in(&self, at: Place, kind: u16, name: Name) -> Option<usize>
        ensures found { result ≡ found_in (tree_in self.now) at.scope at.time kind name }
        ensures below { IfSome result (λ i. i < 1024) }
    {
        let route = Route::new(Key {
            scope: at.scope,
            kind,
            name,
        });
        let mut slot = route.start();
        for depth in 0..ENTRIES {
            let i = held(self.cells, slot)?;
            if self.is_sought(i, &route.key, at.time) {
                return Some(i);
            }
            slot = route.below(depth, i);
        }
        None
    }

    // What is inside entry i, looked at among the first `time` entries: a declared module's own scope, or that of a copy at its time.
    #[tactic(auto, unfolding(crate::specs::Rows::site))]
    pub fn inside(&self, i: usize, time: usize) -> Place
        requires { i < 1024 }
        ensures shown { result ≡ site_in (tree_in self.now) i time }
        ensures early { result.time ≤ time }
    {
        if self.is_own(i) {
            return Place {
                scope: (i + 1) as u16,
                time,
            };
        }
        Place {
            scope: cell(self.cells, TARGETS, i),
            time: usize::from(cell(self.cells, TIMES, i)).min(time),
        }
    }

    // The scope of the innermost open module.
    #[tactic(auto, using(crate::specs::Pack::parts), unfolding(crate::specs::Nav::current_of))]
    pub fn current(&self) -> u16
        requires { get_or self.now.opened.now 10 0 ≤ 9 }
        ensures { result ≡ current_of (doors_of self.now.opened.now) (get_or self.now.opened.now 10 0) }
    {
        let depth = self.depth();
        if depth == 0 {
            0
        } else {
            self.opened[depth - 1]
        }
    }

    // The current module among all entries; a record that no calls left has none.
    pub fn here(&self) -> Result<Place, Cause>
        ensures { Here (tree_in self.now) result }
    {
        if ENTRIES < self.count() || OPEN < self.depth() {
            return Err(Cause::TreeFull);
        }
        Ok(Place {
            scope: self.current(),
            time: self.count(),
        })
    }

    // Whether a path still leads the open path after this segment.
    #[tactic(auto, using(crate::specs::Pack::parts), unfolding(crate::specs::Nav::leads_on, names::specs::Packed::same_name))]
    fn leads(&self, led: bool, index: usize, name: Name) -> bool
        requires { get_or self.now.opened.now 10 0 ≤ 9 }
        ensures { result ≡ leads_in (tree_in self.now) led index name }
    {
        if !led || self.depth() <= index {
            return false;
        }
        let scope = usize::from(self.opened[index]);
        scope != 0 && scope <= ENTRIES && self.name(scope - 1) == name
    }

    // From the root along `count` segments that stand at `at`.
    pub fn navigate(&self, decl: &[u8], at: usize, count: usize) -> Result<Way, Cause>
        requires sound { (get_or self.now.opened.now 9 0 ≤ 1024) × (get_or self.now.opened.now 10 0 ≤ 9) }
        requires short { at + 256 * count < 16384 }
        ensures { Led (tree_in self.now) decl.now at count result }
    {
        let mut to = Place {
            scope: 0,
            time: self.count(),
        };
        let mut p = at;
        let mut led = true;
        for i in 0..count {
            let name = name_at(decl, p);
            let Some(e) = self.find(to, Kind::Module, name) else {
                return Err(Cause::NoModule);
            };
            if !self.is_public(e) && !led {
                return Err(Cause::PrivateModule);
            }
            to = self.inside(e, to.time);
            led = self.leads(led, i, name);
            p = next(decl, p);
        }
        Ok(Way { to, next: p })
    }
}
