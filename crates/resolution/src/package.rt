// Which remapping a name takes. The longest context is searched for, so that nothing is sorted; of two folders above a file the one
// below the other is the longer.
ghost use Rattle.std.specs.Prelude.{◌≡◌, ◌<◌, length};
ghost use Rattle.bundle.specs.Decode.{decode};
ghost use Rattle.bundle.specs.Limits.{remapping_limit};
ghost use Rattle.card.specs.Card.{nodes_in};
ghost use Rattle.resolution.specs.Resolution.{applies, remapping_for};
ghost use Rattle.resolution.specs.Indices.{lists_in, path_in, remapping_in, chosen, further, Within, CanTake};

use card::Mapped;

// Whether a name in the file of index f can take remapping j.
fn remapping_applies(b: &Mapped<'_>, f: usize, name: &[u8], j: usize) -> bool
    requires { (f < length (nodes_in b.now.bytes.now)) × (j < length (decode b.now.bytes.now).remappings) }
    ensures { result ≡ applies (path_in b.now.bytes.now f) name.now (remapping_in b.now.bytes.now j) }
{
    let map = b.card.maps[j];
    bundle::remapping_name(b.bytes, map.place as usize) == name
        && b.is_below(f, usize::from(map.context))
}

// The one with the longer context, the first where they are equally long.
fn longer(b: &Mapped<'_>, best: Option<usize>, j: usize) -> usize
    requires { Within b.now.card.now best × (j < remapping_limit) }
    ensures { result ≡ further b.now.card.now best j }
{
    let maps = &b.card.maps;
    match best {
        Some(a) if b.is_below(usize::from(maps[a].context), usize::from(maps[j].context)) => a,
        _ => j,
    }
}

// The remapping that a name in the file of index f takes.
pub fn remapping_for(b: &Mapped<'_>, f: usize, name: &[u8]) -> Option<usize>
    requires { f < length (nodes_in b.now.bytes.now) }
    ensures { (chosen b.now.bytes.now result ≡ remapping_for (lists_in b.now.bytes.now) (path_in b.now.bytes.now f) name.now) × CanTake b.now.bytes.now (path_in b.now.bytes.now f) name.now result }
{
    let mut best = None;
    for j in 0..b.card.remappings {
        if remapping_applies(b, f, name, j) {
            best = Some(longer(b, best, j));
        }
    }
    best
}
