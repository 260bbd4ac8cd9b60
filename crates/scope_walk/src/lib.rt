// Step 6, the scope walk: the tree calls of a linked program, made on a tree that the caller lends.
#![tactic(auto)]

mod calls;
mod walk;

pub use walk::{walk_tree, walk_units};
