// Lookups by path.
ghost use Rattle.std.specs.Prelude.{◌≡◌, suc, ◌<◌, length};
ghost use Rattle.bundle.specs.Decode.{decode};
ghost use Rattle.card.specs.Layout.{node_limit};
ghost use Rattle.card.specs.Index.{Looked};
ghost use Rattle.card.specs.Card.{IndexOf, nodes_in, is_at, is_up_to, met, Chain, InFolder};

use crate::chain;
use crate::hash::hash_of;
use crate::parts::{Card, NODES};

// A bundle's bytes, and a card with the index of its paths; the rest of it need not be there.
#[derive(Clone, Copy)]
pub struct Paths<'a> {
    pub bytes: &'a [u8],
    pub card: &'a Card,
    ghost index: { IndexOf bytes.now (nodes_in bytes.now) card.now },
}

impl<'a> Paths<'a> {
    // Whether the path of index i is t, whose hash is h; of an index after last it is not asked.
    #[tactic(auto, unfolding(crate::specs::Card::met), using(names::specs::Bytes::equals))]
    fn is_path_at(&self, i: usize, last: usize, h: u32, t: &[u8]) -> bool
        requires { i < node_limit }
        ensures { result ≡ met self.now.bytes.now self.now.card.now i last h t.now }
    {
        self.card.links[i].hash == h
            && i <= last
            && bundle::string(self.bytes, self.card.nodes[i].start as usize) == t
    }

    // Down a chain from `from`, the first index of the path t, whose hash is h, that is not after last.
    pub fn walk(&self, h: u32, t: &[u8], from: usize, last: usize) -> Option<usize>
        requires { Chain (nodes_in self.now.bytes.now) self.now.card.now h t.now from }
        ensures { Looked (is_up_to (nodes_in self.now.bytes.now) t.now last) (suc from) result }
    {
        for i in chain::Chain::of(self.card, from) {
            if self.is_path_at(i, last, h, t) {
                return Some(i);
            }
        }
        None
    }

    // The last index of a path that is not after last.
    fn find_up_to(&self, t: &[u8], last: usize) -> Option<usize>
        ensures { Looked (is_up_to (nodes_in self.now.bytes.now) t.now last) (length (nodes_in self.now.bytes.now)) result }
    {
        let h = hash_of(self.card.key, t);
        self.walk(h, t, self.card.last_of(h), last)
    }

    // The index of a path that is not `/`.
    pub fn find_path(&self, t: &[u8]) -> Option<usize>
        ensures { Looked (is_at (nodes_in self.now.bytes.now) t.now) (length (nodes_in self.now.bytes.now)) result }
    {
        self.find_up_to(t, NODES)
    }
}

// The same, and how many of the paths are folders.
#[derive(Clone, Copy)]
pub struct Index<'a> {
    pub bytes: &'a [u8],
    pub card: &'a Card,
    ghost index: { IndexOf bytes.now (nodes_in bytes.now) card.now },
    ghost folders: { card.now.folders ≡ length (decode bytes.now).folders },
}

impl<'a> Index<'a> {
    // The paths alone.
    fn paths(&self) -> Paths<'a>
        ensures bytes { result.bytes.now ≡ self.now.bytes.now }
        ensures card { result.card.now ≡ self.now.card.now }
    {
        Paths {
            bytes: self.bytes,
            card: self.card,
        }
    }

    // Down a chain from `from`, the first index of the path t, whose hash is h, that is not after last.
    pub fn walk(&self, h: u32, t: &[u8], from: usize, last: usize) -> Option<usize>
        requires { Chain (nodes_in self.now.bytes.now) self.now.card.now h t.now from }
        ensures { Looked (is_up_to (nodes_in self.now.bytes.now) t.now last) (suc from) result }
    {
        self.paths().walk(h, t, from, last)
    }

    // The index of a path that is not `/`.
    pub fn find_path(&self, t: &[u8]) -> Option<usize>
        ensures { Looked (is_at (nodes_in self.now.bytes.now) t.now) (length (nodes_in self.now.bytes.now)) result }
    {
        self.paths().find_path(t)
    }

    // The index of the folder t, `/` among them.
    pub fn folder_of(&self, t: &[u8]) -> Option<usize>
        ensures { InFolder (decode self.now.bytes.now) t.now result }
    {
        if names::is_root(t) {
            return Some(0);
        }
        self.paths().find_up_to(t, self.card.folders)
    }
}
