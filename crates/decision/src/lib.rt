// What a call comes to on the tree as it is: a number, or what it would add. Nothing here changes a tree: the calls are in the crate
// scopes.
#![tactic(auto)]

pub mod batch;
pub mod decide;
pub mod stage;
