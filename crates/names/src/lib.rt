// Paths and names: the ported parts of lexer.rs, source.rs and str.rs. Every public function takes any bytes, has no
// `requires`, and answers what its definition in specs/ says.
#![tactic(auto)]

mod bytes;
mod identifier;
mod keyword;
mod packed;
mod path;
mod unit;

pub use bytes::after;
pub use identifier::is_identifier;
pub use keyword::{is_crate, is_keyword, is_main};
pub use packed::name_of;
pub use path::{
    is_child, is_child_file, is_directly_in, is_path, is_root, parent_len, starts_with,
};
pub use unit::{UnitName, unit_name};

// A name as a value: at most 32 bytes in four words, big-endian, zero past the end. Fields, not an array: the tree's arrays have one
// word of a name each (document 01, "Form by location"), and so the C interface tells a name. `==` is derived: specs/Packed.antt says that
// it is `same_name`.
#[derive(Clone, Copy, Debug, PartialEq, Eq)]
pub struct Name {
    pub w0: u64,
    pub w1: u64,
    pub w2: u64,
    pub w3: u64,
}
