// The refusals 7 and 8, and the parents.
ghost use Rattle.std.specs.Prelude.{◌≡◌, true, [], ◌<◌, length, get_or, take};
ghost use Rattle.names.specs.Bytes.{member};
ghost use Rattle.names.specs.Path.{is_path};
ghost use Rattle.names.specs.Prefix.{parent};
ghost use Rattle.bundle.specs.Decode.{decode};
ghost use Rattle.bundle.specs.Told.{checked};
ghost use Rattle.card.specs.Card.{nodes_in, InFolder};
ghost use Rattle.reader.specs.Linking.{Indexed, Linked};

use card::{Card, Index};
use refusal::{Cause, Refusal};

// Whether the path p of index i is `/` or listed before.
fn is_again(index: &Index, i: usize, p: &[u8]) -> bool
    requires { (i < length (nodes_in index.now.bytes.now)) × ((i ≡ 0 → ⊥) × (p.now ≡ get_or (nodes_in index.now.bytes.now) i [])) }
    ensures { result ≡ member p.now (take i (nodes_in index.now.bytes.now)) }
{
    if names::is_root(p) {
        return true;
    }
    let link = &index.card.links[i];
    index
        .walk(link.hash, p, usize::from(link.next), i)
        .is_some()
}

// The index of the folder that the path p lies in.
fn parent_of(index: &Index, p: &[u8]) -> Option<usize>
    requires { is_path p.now ≡ true }
    ensures { InFolder (decode index.now.bytes.now) (parent p.now) result }
{
    index.folder_of(&p[..names::parent_len(p)])
}

// 7 and 8 of the paths, index by index; and their parents.
pub fn link_paths(s: &[u8], card: &mut Card) -> Result<(), Refusal>
    requires { Indexed s.now card.old }
    ensures { Linked s.now card.old card.new (checked result) }
{
    for i in 1..card.folders + card.files + 1 {
        let index = Index { bytes: s, card };
        let a = index.card.nodes[i].start as usize;
        let p = bundle::string(s, a);
        if is_again(&index, i, p) {
            return Err(Cause::Twice.at(a));
        }
        match parent_of(&index, p) {
            None => return Err(Cause::Orphan.at(a)),
            Some(d) => card.nodes[i].parent = d as u16,
        }
    }
    Ok(())
}
