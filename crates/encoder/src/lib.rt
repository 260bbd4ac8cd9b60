// The bytes of an image at the start of a lent part: numbers, strings, segments, starts of items. What follows them is as it was.
#![tactic(auto)]

mod bytes;
mod heads;
mod segments;
mod strings;

pub use bytes::{put_head, put_string, put_two};
pub use heads::{put_start, put_unit_start};
pub use segments::{put_segments, put_unit};
pub use strings::Strings;
