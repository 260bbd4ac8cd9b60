// The items of a program, each use with its path rewritten: their length, and their bytes in a lent buffer. Two walks over the same
// items, and no trait for both: a writer lends on the rest of its buffer, and puts a length behind which there is room ahead of it.
#![tactic(auto)]

mod lengths;
mod segments;
mod writing;

pub use lengths::{LIMIT, program_length};
pub use writing::{rewrite_use, write_program};
