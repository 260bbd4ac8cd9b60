// The refusals 9 to 13, and what the card has of the remappings.
ghost use Rattle.std.specs.Prelude.{◌≡◌, ◌+◌, ◌<◌, ◌^◌, IfOk, length};
ghost use Rattle.bundle.specs.Decode.{each, after, after_remapping, decode};
ghost use Rattle.bundle.specs.Conflicts.{any, located, named, same_remapping, placed_at, placed_remapping_at};
ghost use Rattle.bundle.specs.Scan.{text};
ghost use Rattle.bundle.specs.Limits.{count_limit};
ghost use Rattle.bundle.specs.Told.{checked};
ghost use Rattle.card.specs.Card.{FolderAt};
ghost use Rattle.reader.specs.Mapping.{folders_in, files_in, one_told, MapsTo, Unmapped, MapsOf};

use card::{Card, Index, Map};
use refusal::{Cause, Refusal};

// The folder of the root, context or target at `at`, or 9 or 10.
pub fn locate(index: &Index, at: usize) -> Result<usize, Refusal>
    requires { at < 2 ^ 62 }
    ensures tells { checked result ≡ located (folders_in index.now.bytes.now) (files_in index.now.bytes.now) (placed_at index.now.bytes.now at) }
    ensures found { IfOk result (λ i. FolderAt (decode index.now.bytes.now) (text index.now.bytes.now at) i) }
{
    let t = bundle::string(index.bytes, at);
    match index.folder_of(t) {
        Some(i) => Ok(i),
        None => match index.find_path(t) {
            None => Err(Cause::Nowhere.at(at)),
            Some(_) => Err(Cause::NoFolder.at(at)),
        },
    }
}

// 11 and 12 of the remapping name at `at`.
#[tactic(auto, unfolding(bundle::specs::Conflicts::named, bundle::specs::Conflicts::placed_at))]
fn name_verdict(s: &[u8], at: usize) -> Result<(), Refusal>
    requires { at < 2 ^ 62 }
    ensures { checked result ≡ named (placed_at s.now at) }
{
    let t = bundle::string(s, at);
    if names::is_crate(t) {
        return Err(Cause::Reserved.at(at));
    }
    if !names::is_identifier(t) || names::is_keyword(t) {
        return Err(Cause::OddName.at(at));
    }
    Ok(())
}

// Whether the remappings at a and b have one context and one name.
#[tactic(auto, unfolding(bundle::specs::Conflicts::same_remapping, bundle::specs::Conflicts::placed_remapping_at, bundle::specs::Conflicts::placed_at), using(names::specs::Bytes::equals))]
fn same_remapping(s: &[u8], a: usize, b: usize) -> bool
    requires { (a < 2 ^ 61) × (b < 2 ^ 61) }
    ensures { result ≡ same_remapping (placed_remapping_at s.now a) (placed_remapping_at s.now b) }
{
    bundle::string(s, a) == bundle::string(s, b)
        && bundle::string(s, bundle::next_string(s, a))
            == bundle::string(s, bundle::next_string(s, b))
}

// Whether the remapping at r repeats one of the n from `at` on.
fn repeats(s: &[u8], at: usize, n: usize, r: usize) -> bool
    requires { ((at < 2 ^ 60) × (n < count_limit)) × (r < 2 ^ 61) }
    ensures { result ≡ any (same_remapping (placed_remapping_at s.now r)) (each (after_remapping s.now) (placed_remapping_at s.now) n at) }
{
    let mut a = at;
    for _ in 0..n {
        if same_remapping(s, r, a) {
            return true;
        }
        a = bundle::next_remapping(s, a);
    }
    false
}

// The remapping at a, before which there are j from first on.
fn map_one(index: &Index, first: usize, j: usize, a: usize) -> Result<Map, Refusal>
    requires { (first < 2 ^ 60) × ((j < count_limit) × (a < 2 ^ 26)) }
    ensures tells { checked result ≡ one_told index.now.bytes.now first j a }
    ensures found { IfOk result (λ m. MapsTo index.now.bytes.now a m) }
{
    let s = index.bytes;
    let context = locate(index, a)?;
    let name = bundle::next_string(s, a);
    let target = locate(index, bundle::next_string(s, name))?;
    name_verdict(s, name)?;
    if repeats(s, first, j, a) {
        return Err(Cause::SameRemapping.at(a));
    }
    Ok(Map {
        context: context as u16,
        target: target as u16,
        place: a as u32,
    })
}

// 9 to 13 of the remappings; and what the card has of them. A target is a package root.
pub fn map_names(s: &[u8], card: &mut Card) -> Result<(), Refusal>
    requires { Unmapped s.now card.old }
    ensures { MapsOf s.now card.old card.new (checked result) }
{
    let list = bundle::remappings(s);
    card.remappings = list.count;
    let mut a = list.first;
    for j in 0..list.count {
        let index = Index { bytes: s, card };
        let map = map_one(&index, list.first, j, a)?;
        card.maps[j] = map;
        card.nodes[usize::from(map.target)].is_root = true;
        a = bundle::next_remapping(s, a);
    }
    Ok(())
}
