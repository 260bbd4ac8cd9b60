// The uses of a file, and the table of what each resolves to. Crate driver makes the graph with them; what is discovered is defined here.
#![tactic(auto)]

mod imports;
mod known;
mod uses;

pub use imports::uses_of;
pub use known::{Entry, FileRow, Known};
pub use uses::Uses;

// The most files and folders of a bundle, and the most uses, so the most ids in all lists and the most faults: the limits of the
// reader.
pub const UNITS: usize = bundle::limits::FILES;

pub const IDS: usize = bundle::limits::USES;

pub const FOLDERS: usize = bundle::limits::FOLDERS;
