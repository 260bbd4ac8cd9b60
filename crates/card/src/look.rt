// Lookups in a card.
ghost use Rattle.std.specs.Prelude.{◌≡◌, ◌++◌, ◌<◌, length};
ghost use Rattle.names.specs.FolderTheorems.{Plain};
ghost use Rattle.names.specs.Path.{component_limit};
ghost use Rattle.bundle.specs.Read.{verdict};
ghost use Rattle.bundle.specs.Stand.{Bytes};
ghost use Rattle.bundle.specs.Results as Checked;
ghost use Rattle.card.specs.Layout.{node_limit, parent_at, root_at};
ghost use Rattle.card.specs.Tree.{Tree, ascends};
ghost use Rattle.card.specs.Laws.{nearest};
ghost use Rattle.card.specs.Index.{Looked};
ghost use Rattle.card.specs.Card.{Above, CardOf, CardIs, nodes_in, is_at, hit, cut_of, sought};

use crate::chain::Chain;
use crate::hash::mix;
use crate::index::Paths;
use crate::parts::Card;

// The most components of a path.
const DEEP: usize = 16;

impl Card {
    // Whether the path of index f lies at or below the one of index d: a walk up parents. Ruled out: `true` of `/r/payroll` below
    // `/r/pay`.
    #[tactic(auto, unfolding(crate::specs::Tree::ascends))]
    pub fn is_below(&self, f: usize, d: usize) -> bool
        requires { Above self.now × (f < node_limit) }
        ensures { result ≡ ascends component_limit (parent_at self.now) f d }
    {
        let mut i = f;
        for _ in 0..DEEP {
            if i == d {
                return true;
            }
            if i == 0 {
                return false;
            }
            i = usize::from(self.nodes[i].parent);
        }
        i == d
    }

    // The nearest package root at or above f. Ruled out: one further up than another.
    #[tactic(auto, unfolding(crate::specs::Laws::nearest))]
    pub fn nearest_root(&self, f: usize) -> Option<usize>
        requires { Above self.now × (f < node_limit) }
        ensures { result ≡ nearest component_limit (parent_at self.now) (root_at self.now) f }
    {
        let mut i = f;
        for _ in 0..DEEP {
            let node = &self.nodes[i];
            if node.is_root {
                return Some(i);
            }
            if i == 0 {
                return None;
            }
            i = usize::from(node.parent);
        }
        self.nodes[i].is_root.then_some(i)
    }
}

impl<'a> Paths<'a> {
    // Whether the path of index i is the one of a name, with its ending, in the folder d; its hash would be h, and its last component
    // stand at cut.
    #[tactic(auto, unfolding(crate::specs::Card::hit), using(names::specs::Bytes::equals))]
    fn is_hit(&self, i: usize, h: u32, d: usize, cut: usize, name: &[u8], ending: &[u8]) -> bool
        requires { i < node_limit }
        ensures { result ≡ hit self.now.bytes.now self.now.card.now i h d cut (name.now ++ ending.now) }
    {
        if self.card.links[i].hash != h {
            return false;
        }
        let node = &self.card.nodes[i];
        if usize::from(node.parent) != d {
            return false;
        }
        let last = names::after(bundle::string(self.bytes, node.start as usize), cut);
        last.starts_with(name) && names::after(last, name.len()) == ending
    }

    // Where the last component of what lies in the folder d stands in its path.
    #[tactic(auto, unfolding(crate::specs::Card::cut_of))]
    fn cut_of(&self, d: usize) -> usize
        requires { d < node_limit }
        ensures { result ≡ cut_of self.now.bytes.now self.now.card.now d }
    {
        if d == 0 {
            return 1;
        }
        bundle::string(self.bytes, self.card.nodes[d].start as usize).len() + 1
    }

    // The index of the path of a name, with its ending, in the folder d.
    pub fn find_child(&self, d: usize, name: &[u8], ending: &[u8]) -> Option<usize>
        requires tree { Tree (nodes_in self.now.bytes.now) (parent_at self.now.card.now) }
        requires child { (d < length (nodes_in self.now.bytes.now)) × Plain (name.now ++ ending.now) }
        ensures { Looked (sought (nodes_in self.now.bytes.now) d (name.now ++ ending.now)) (length (nodes_in self.now.bytes.now)) result }
    {
        let card = self.card;
        let a = mix(card.key, card.links[d].hash, b"/");
        let b = mix(card.key, a, name);
        let h = mix(card.key, b, ending);
        let cut = self.cut_of(d);
        for i in Chain::of(card, card.last_of(h)) {
            if self.is_hit(i, h, d, cut, name, ending) {
                return Some(i);
            }
        }
        None
    }
}

// A bundle's bytes, and a card by which its uses resolve; whether they pass 1 to 13 is not asked.
#[derive(Clone, Copy)]
pub struct Mapped<'a> {
    pub bytes: &'a [u8],
    pub card: &'a Card,
    ghost is: { CardOf bytes.now card.now },
}

impl<'a> Mapped<'a> {
    // The paths alone.
    fn paths(&self) -> Paths<'a>
        ensures bytes { result.bytes.now ≡ self.now.bytes.now }
        ensures card { result.card.now ≡ self.now.card.now }
    {
        Paths {
            bytes: self.bytes,
            card: self.card,
        }
    }

    // The index of a path that is not `/`.
    pub fn find_path(&self, t: &[u8]) -> Option<usize>
        ensures { Looked (is_at (nodes_in self.now.bytes.now) t.now) (length (nodes_in self.now.bytes.now)) result }
    {
        self.paths().find_path(t)
    }

    // The index of the path of a name, with its ending, in the folder d.
    pub fn find_child(&self, d: usize, name: &[u8], ending: &[u8]) -> Option<usize>
        requires { (d < length (nodes_in self.now.bytes.now)) × Plain (name.now ++ ending.now) }
        ensures { Looked (sought (nodes_in self.now.bytes.now) d (name.now ++ ending.now)) (length (nodes_in self.now.bytes.now)) result }
    {
        self.paths().find_child(d, name, ending)
    }

    // Whether the path of index f lies at or below the one of index d.
    pub fn is_below(&self, f: usize, d: usize) -> bool
        requires { f < node_limit }
        ensures { result ≡ ascends component_limit (parent_at self.now.card.now) f d }
    {
        self.card.is_below(f, d)
    }

    // The nearest package root at or above f.
    pub fn nearest_root(&self, f: usize) -> Option<usize>
        requires { f < node_limit }
        ensures { result ≡ nearest component_limit (parent_at self.now.card.now) (root_at self.now.card.now) f }
    {
        self.card.nearest_root(f)
    }
}

// A bundle that passes 1 to 13, and its card.
#[derive(Clone, Copy)]
pub struct Carded<'a> {
    pub bytes: &'a [u8],
    pub card: &'a Card,
    ghost fit: { Bytes bytes.now },
    ghost ok: { verdict bytes.now ≡ Checked.Ok },
    ghost is: { CardIs bytes.now card.now },
}

impl<'a> Carded<'a> {
    // The same, for what asks no verdict.
    pub fn mapped(&self) -> Mapped<'a>
        ensures bytes { result.bytes.now ≡ self.now.bytes.now }
        ensures card { result.card.now ≡ self.now.card.now }
    {
        let Carded { bytes, card } = *self;
        Mapped { bytes, card }
    }

    // The index of a path that is not `/`.
    pub fn find_path(&self, t: &[u8]) -> Option<usize>
        ensures { Looked (is_at (nodes_in self.now.bytes.now) t.now) (length (nodes_in self.now.bytes.now)) result }
    {
        self.mapped().find_path(t)
    }

    // The index of the path of a name, with its ending, in the folder d.
    pub fn find_child(&self, d: usize, name: &[u8], ending: &[u8]) -> Option<usize>
        requires { (d < length (nodes_in self.now.bytes.now)) × Plain (name.now ++ ending.now) }
        ensures { Looked (sought (nodes_in self.now.bytes.now) d (name.now ++ ending.now)) (length (nodes_in self.now.bytes.now)) result }
    {
        self.mapped().find_child(d, name, ending)
    }

    // Whether the path of index f lies at or below the one of index d.
    pub fn is_below(&self, f: usize, d: usize) -> bool
        requires { f < node_limit }
        ensures { result ≡ ascends component_limit (parent_at self.now.card.now) f d }
    {
        self.mapped().is_below(f, d)
    }

    // The nearest package root at or above f.
    pub fn nearest_root(&self, f: usize) -> Option<usize>
        requires { f < node_limit }
        ensures { result ≡ nearest component_limit (parent_at self.now.card.now) (root_at self.now.card.now) f }
    {
        self.mapped().nearest_root(f)
    }
}
