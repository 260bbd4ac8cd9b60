// The card of a bundle: its listed paths as a tree of folders, by numbers. Index 0 is `/`, then come the folders and the files, in
// the bundle's order: folder i is i + 1, file i is folders + 1 + i. Crate reader makes it.
#![tactic(auto)]

mod chain;
pub mod hash;
mod index;
mod look;
mod parts;

pub use index::{Index, Paths};
pub use look::{Carded, Mapped};
pub use parts::{BUCKETS, Card, Link, Map, NODES, Node};
