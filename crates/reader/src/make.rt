// The pass that makes a card.
ghost use Rattle.std.specs.Prelude.{◌≡◌, OnOk};
ghost use Rattle.bundle.specs.Conflicts.{conflicts};
ghost use Rattle.bundle.specs.Read.{form};
ghost use Rattle.bundle.specs.Results as Checked;
ghost use Rattle.bundle.specs.Told.{checked};
ghost use Rattle.card.specs.Card.{CardIs};
ghost use Rattle.reader.specs.Linking.{Indexed};

use crate::fill::{fill, key_of};
use crate::maps::{locate, map_names};
use crate::paths::link_paths;
use bundle::limits::HEADER;
use bundle::{Files, Texts};
use card::hash::SEED;
use card::{Card, Index};
use refusal::Refusal;

// The index of `/`, the folders and the files, and how many there are.
fn index_paths(s: &[u8], card: &mut Card)
    requires { form s.now ≡ Checked.Ok }
    ensures { Indexed s.now card.new }
{
    let folders = bundle::folders(s);
    let files = bundle::files(s);
    *card = Card::empty();
    card.key = key_of(s);
    card.links[0].hash = SEED;
    card.folders = folders.count;
    card.files = files.count;
    fill::<Texts>(s, card, folders.first, folders.count, 1);
    fill::<Files>(s, card, files.first, files.count, folders.count + 1);
}

// 7 to 13 of a bundle in form, and its card. The root, of which 9 and 10 are told, is a package root.
pub fn make(s: &[u8], card: &mut Card) -> Result<(), Refusal>
    requires { form s.now ≡ Checked.Ok }
    ensures tells { checked result ≡ conflicts s.now }
    ensures is { OnOk result (CardIs s.now card.new) }
{
    index_paths(s, card);
    link_paths(s, card)?;
    map_names(s, card)?;
    let index = Index { bytes: s, card };
    let root = locate(&index, HEADER)?;
    card.root = root;
    card.nodes[root].is_root = true;
    Ok(())
}
