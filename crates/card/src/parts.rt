// What a card holds.
ghost use Rattle.std.specs.Prelude.{◌≡◌};
ghost use Rattle.card.specs.Layout.{bucket_of, empty, head_at};

use crate::hash::chain_of;
use bundle::limits::{FILES, FOLDERS, REMAPPINGS};

// `/`, the folders and the files; the chains.
pub const NODES: usize = FOLDERS + FILES + 1;

pub const BUCKETS: usize = 256;

// A listed path: its position, the index of the folder that it lies in, and whether it is a package root. The position of a file's
// path is the file's.
#[derive(Clone, Copy, Debug, Default, PartialEq, Eq)]
pub struct Node {
    pub start: u32,
    pub parent: u16,
    pub is_root: bool,
}

// A listed path in its chain: its hash, and the index before it. 0 is none: index 0, `/`, is looked for in no chain. No
// Option, which takes twice the bytes, and the card is cleared twice a reading.
#[derive(Clone, Copy, Debug, Default, PartialEq, Eq)]
pub struct Link {
    pub hash: u32,
    pub next: u16,
}

// A remapping: the indices of the folders of its context and its target, and its position.
#[derive(Clone, Copy, Debug, Default, PartialEq, Eq)]
pub struct Map {
    pub context: u16,
    pub target: u16,
    pub place: u32,
}

// Of each chain the last index; the multiplier of the hash; how many folders, remappings and files; the index of the entry's root.
// Arrays, not Vecs: the linker has no heap.
#[derive(Clone, Copy)]
pub struct Card {
    pub nodes: [Node; NODES],
    pub links: [Link; NODES],
    pub heads: [u16; BUCKETS],
    pub key: u32,
    pub maps: [Map; REMAPPINGS],
    pub folders: usize,
    pub remappings: usize,
    pub files: usize,
    pub root: usize,
}

impl Card {
    // Of no bundle: all places 0.
    pub fn empty() -> Card
        ensures { result ≡ empty }
    {
        Card {
            nodes: [Node::default(); NODES],
            links: [Link::default(); NODES],
            heads: [0; BUCKETS],
            key: 0,
            maps: [Map::default(); REMAPPINGS],
            folders: 0,
            remappings: 0,
            files: 0,
            root: 0,
        }
    }

    // The last index of the chain of a hash.
    pub fn last_of(&self, h: u32) -> usize
        ensures { result ≡ head_at self.now (bucket_of h) }
    {
        usize::from(self.heads[chain_of(h)])
    }
}
