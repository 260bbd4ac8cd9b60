// What a link comes to.
use program::Assembled;
use refusal::Refusal;
use scopes::Tree;

// What is answered, and the tree: that of the program where it is linked, and otherwise the one that was given, or an empty one.
#[derive(Clone, Copy)]
pub struct Linked {
    pub answer: Result<Assembled, Refusal>,
    pub tree: Tree,
}

// The same where the tree is told as rows: how many entries it has.
#[derive(Clone, Copy)]
pub struct Told {
    pub answer: Result<Assembled, Refusal>,
    pub entries: usize,
}
