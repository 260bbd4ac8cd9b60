// Access by position to the parts of a bundle. A position is where a part stands; the contracts say which part of the decoded
// value that is. None of them needs a checked bundle: of other bytes they give the parts of what `decode` makes of them.
ghost use Rattle.std.specs.Prelude.{◌≡◌, ℕ, suc, ◌+◌, ◌<◌, ◌≤◌, ◌^◌, length, get_or};
ghost use Rattle.bundle.specs.Bundle.{Text, Remapping, File};
ghost use Rattle.bundle.specs.Limits.{capacity, count_limit, string_size, element_size, remapping_size, file_size, depth_limit, use_kind, module_kind, ignored_kind};
ghost use Rattle.bundle.specs.Scan.{byte, text, count, past_count};
ghost use Rattle.bundle.specs.Decode.{each, after, after_element, after_remapping, after_file, element_at, remapping_at, file_at, items_at, decode, folder_first, folder_count, remapping_first, remapping_count, file_first, file_count};
ghost use Rattle.bundle.specs.Told.{kind_from};
ghost use Rattle.bundle.specs.Parts.{kind_of, visibility_of, name_of, segments_of, elements_of, inner_of, rest_of};

use crate::bytes::{after_length, after_string, byte_at, count_at, text_at, version_of};
use crate::limits::{HEADER, file_width, folder_width, width_bytes};
use crate::steps::{Files, Remappings, Texts, past};
use crate::{Kind, Width};

// A counted list: the position of its first value, and how many there are.
#[derive(Clone, Copy)]
pub struct Listed {
    pub first: usize,
    pub count: usize,
}

// Items: the position of the first, and of their end.
#[derive(Clone, Copy)]
pub struct Range {
    pub at: usize,
    pub end: usize,
}

// The counted list whose count, of a width, stands at `at`.
fn listed_at(s: &[u8], at: usize, width: Width) -> Listed
    requires { at < 2 ^ 63 }
    ensures { ((result.first ≡ past_count width at) × (result.count ≡ count width s.now at)) × (result.count < capacity width) }
{
    let n = count_at(s, at, width);
    Listed {
        first: at + width_bytes(width),
        count: n,
    }
}

// The three lists, each after the one before it: a value is read at its position, and the next stands after it. Three functions and not one
// over `Part`: each list has its width and another type of values.
pub fn folders(s: &[u8]) -> Listed
    ensures place { (result.first ≡ folder_first s.now) × (result.count ≡ folder_count s.now) }
    ensures list { each (after s.now) (text s.now) result.count result.first ≡ (decode s.now).folders }
    ensures bound { (result.first < 2 ^ 10) × (result.count < count_limit) }
{
    let at = after_string(s, HEADER);
    listed_at(s, at, folder_width(version_of(s)))
}

pub fn remappings(s: &[u8]) -> Listed
    ensures place { (result.first ≡ remapping_first s.now) × (result.count ≡ remapping_count s.now) }
    ensures list { each (after_remapping s.now) (remapping_at s.now) result.count result.first ≡ (decode s.now).remappings }
    ensures bound { (result.first < 2 ^ 18) × (result.count < count_limit) }
{
    let folders = folders(s);
    let at = past::<Texts>(s, folders.first, folders.count);
    listed_at(s, at, Width::Byte)
}

pub fn files(s: &[u8]) -> Listed
    ensures place { (result.first ≡ file_first s.now) × (result.count ≡ file_count s.now) }
    ensures list { each (after_file s.now) (file_at s.now) result.count result.first ≡ (decode s.now).files }
    ensures bound { (result.first < 2 ^ 20) × (result.count < count_limit) }
{
    let remappings = remappings(s);
    let at = past::<Remappings>(s, remappings.first, remappings.count);
    listed_at(s, at, file_width(version_of(s)))
}

// The package root of the entry.
pub fn root(s: &[u8]) -> &[u8]
    ensures { result.now ≡ (decode s.now).root }
{
    text_at(s, HEADER)
}

// The positions of the i-th folder, remapping and file.
pub fn folder_at(s: &[u8], i: usize) -> usize
    requires { i < count_limit }
    ensures { ((d : Text) → i < length (decode s.now).folders → get_or (decode s.now).folders i d ≡ text s.now result) × (result < 2 ^ 20) }
{
    let folders = folders(s);
    past::<Texts>(s, folders.first, i)
}

pub fn remapping_at(s: &[u8], i: usize) -> usize
    requires { i < count_limit }
    ensures { ((d : Remapping) → i < length (decode s.now).remappings → get_or (decode s.now).remappings i d ≡ remapping_at s.now result) × (result < 2 ^ 20) }
{
    let remappings = remappings(s);
    past::<Remappings>(s, remappings.first, i)
}

pub fn file_at(s: &[u8], i: usize) -> usize
    requires { i < count_limit }
    ensures { ((d : File) → i < length (decode s.now).files → get_or (decode s.now).files i d ≡ file_at s.now result) × (result < 2 ^ 26) }
{
    let files = files(s);
    past::<Files>(s, files.first, i)
}

// The string at a position: a folder, a segment.
pub fn string(s: &[u8], at: usize) -> &[u8]
    requires { at < 2 ^ 63 }
    ensures { result.now ≡ text s.now at }
{
    text_at(s, at)
}

pub fn next_string(s: &[u8], at: usize) -> usize
    requires { at < 2 ^ 63 }
    ensures { (result ≡ after s.now at) × (result ≤ at + string_size) }
{
    after_string(s, at)
}

pub fn next_remapping(s: &[u8], at: usize) -> usize
    requires { at < 2 ^ 61 }
    ensures { (result ≡ after_remapping s.now at) × (result ≤ at + remapping_size) }
{
    let name = after_string(s, at);
    let target = after_string(s, name);
    after_string(s, target)
}

pub fn next_file(s: &[u8], at: usize) -> usize
    requires { at < 2 ^ 62 }
    ensures { (result ≡ after_file s.now at) × (result ≤ at + file_size) }
{
    let length = after_string(s, at);
    after_length(s, length)
}

pub fn next_element(s: &[u8], at: usize) -> usize
    requires { at < 2 ^ 62 }
    ensures { (result ≡ after_element s.now at) × (result ≤ at + element_size) }
{
    let alias = after_string(s, at);
    after_string(s, alias)
}

// A remapping's parts.
pub fn remapping_context(s: &[u8], at: usize) -> &[u8]
    requires { at < 2 ^ 62 }
    ensures { result.now ≡ (remapping_at s.now at).context }
{
    text_at(s, at)
}

pub fn remapping_name(s: &[u8], at: usize) -> &[u8]
    requires { at < 2 ^ 62 }
    ensures { result.now ≡ (remapping_at s.now at).name }
{
    let name = after_string(s, at);
    text_at(s, name)
}

pub fn remapping_target(s: &[u8], at: usize) -> &[u8]
    requires { at < 2 ^ 62 }
    ensures { result.now ≡ (remapping_at s.now at).target }
{
    let name = after_string(s, at);
    let target = after_string(s, name);
    text_at(s, target)
}

// A file's parts.
pub fn file_path(s: &[u8], at: usize) -> &[u8]
    requires { at < 2 ^ 62 }
    ensures { result.now ≡ (file_at s.now at).path }
{
    text_at(s, at)
}

pub fn file_items(s: &[u8], at: usize) -> Range
    requires { at < 2 ^ 62 }
    ensures { (items_at depth_limit s.now result.end result.at ≡ (file_at s.now at).items) × (result.end ≤ at + file_size) }
{
    let length = after_string(s, at);
    let end = after_length(s, length);
    Range {
        at: length + 2,
        end: end,
    }
}

// An element's parts; an empty alias is none.
pub fn element_name(s: &[u8], at: usize) -> &[u8]
    requires { at < 2 ^ 62 }
    ensures { result.now ≡ (element_at s.now at).name }
{
    text_at(s, at)
}

pub fn element_alias(s: &[u8], at: usize) -> &[u8]
    requires { at < 2 ^ 62 }
    ensures { result.now ≡ (element_at s.now at).alias }
{
    let alias = after_string(s, at);
    text_at(s, alias)
}

// AN ITEM'S PARTS. Its mark is its position. The items from `at` to `end` are read with modules `depth` deep, as the items of
// a file are with `depth_limit`; a module's items are read one less deep. A part is (s, at), no struct with the bound of `at`: marks are
// kept as numbers, in arrays and by C, and a struct would be made and taken apart at each call.
pub fn kind(s: &[u8], at: usize) -> Kind
    requires { at < 2 ^ 63 }
    ensures item { (depth end : ℕ) → at < end → result ≡ kind_from (kind_of (items_at depth s.now end at)) }
    ensures byte { result ≡ kind_from (byte s.now (at + 2)) }
{
    Kind::from(byte_at(s, at + 2) as u8)
}

pub fn item_visibility(s: &[u8], at: usize) -> usize
    requires { at < 2 ^ 62 }
    ensures { (depth end : ℕ) → at < end → result ≡ visibility_of (items_at depth s.now end at) }
{
    byte_at(s, at + 3)
}

// The name of a type alias, function, enum or module.
pub fn item_name(s: &[u8], at: usize) -> &[u8]
    requires { at < 2 ^ 62 }
    ensures { (depth end : ℕ) → at < end → (kind_of (items_at depth s.now end at) ≡ use_kind → ⊥) → (kind_of (items_at depth s.now end at) ≡ ignored_kind → ⊥) → result.now ≡ name_of (items_at depth s.now end at) }
{
    text_at(s, at + 4)
}

// A use's segments.
pub fn use_segments(s: &[u8], at: usize) -> Listed
    requires { at < 2 ^ 62 }
    ensures { ((depth end : ℕ) → at < end → kind_of (items_at depth s.now end at) ≡ use_kind → each (after s.now) (text s.now) result.count result.first ≡ segments_of (items_at depth s.now end at)) × ((result.first ≤ at + 5) × (result.count < count_limit)) }
{
    listed_at(s, at + 4, Width::Byte)
}

// A use's elements.
pub fn use_elements(s: &[u8], at: usize) -> Listed
    requires { at < 2 ^ 59 }
    ensures { ((depth end : ℕ) → at < end → kind_of (items_at depth s.now end at) ≡ use_kind → each (after_element s.now) (element_at s.now) result.count result.first ≡ elements_of (items_at depth s.now end at)) × ((result.first ≤ at + file_size) × (result.count < count_limit)) }
{
    let segments = listed_at(s, at + 4, Width::Byte);
    let elements = past::<Texts>(s, segments.first, segments.count);
    listed_at(s, elements, Width::Byte)
}

// A module's items.
pub fn module_items(s: &[u8], at: usize) -> Range
    requires { at < 2 ^ 62 }
    ensures { ((depth end : ℕ) → at < end → kind_of (items_at (suc depth) s.now end at) ≡ module_kind → items_at depth s.now result.end result.at ≡ inner_of (items_at (suc depth) s.now end at)) × ((at < result.at) × (result.end ≤ at + file_size)) }
{
    let inner = after_string(s, at + 4);
    let end = after_length(s, at);
    Range {
        at: inner,
        end: end,
    }
}
