// A bundle: what it is, and access to its parts by position. Crate form tells 1 to 6 of any bytes, crate card 7 to 13.
#![tactic(auto)]

mod access;
mod bytes;
mod kinds;
pub mod limits;
mod steps;
mod walk;

pub use access::{
    Listed, Range, element_alias, element_name, file_at, file_items, file_path, files, folder_at,
    folders, item_name, item_visibility, kind, module_items, next_element, next_file,
    next_remapping, next_string, remapping_at, remapping_context, remapping_name, remapping_target,
    remappings, root, string, use_elements, use_segments,
};
pub use bytes::{byte_at, count_at, text_at, version_of, word_at};
pub use kinds::Kind;
pub use steps::{Files, Part, Remappings, Texts, past};
pub use walk::Items;

// What a walk over items has passed: where the next starts, and how many items and uses there were.
#[derive(Clone, Copy, Debug, PartialEq, Eq)]
pub struct Passed {
    pub at: usize,
    pub items: usize,
    pub uses: usize,
}

// How wide a count is written: a byte, or two.
#[derive(Clone, Copy, Debug, PartialEq, Eq)]
pub enum Width {
    Byte,
    Word,
}

// The fields that stand in counted lists.
#[derive(Clone, Copy, Debug, PartialEq, Eq)]
pub enum Field {
    Path,
    Name,
    Element,
    Remapping,
}
