// The start of an item: its kind, its visibility and its name. Its length is put ahead of them when all of it is there.
ghost use Rattle.std.specs.Prelude.{◌≡◌, ◌+◌, ◌≤◌, ◌<◌, ◌∷◌, ◌++◌, length, take};
ghost use Rattle.names.specs.Decimal.{unit_name};
ghost use Rattle.bundle.specs.Encode.{string};
ghost use Rattle.bundle.specs.Limits.{capacity, module_kind};
ghost use Rattle.bundle.specs.declared.Width.TheVariants.{Byte};
ghost use Rattle.encoder.specs.Started.{started};

use crate::bytes::put_string;
use bundle::limits::MODULE;

// The start of an item but for its length: the kind, the visibility and the name.
#[tactic(auto, unfolding(bundle::specs::Encode::string))]
pub fn put_start(out: &mut [u8], kind: usize, visibility: usize, name: &[u8]) -> usize
    requires { ((kind < 256) × (visibility < 256)) × ((length name.now < capacity Byte) × (4 + length (string name.now) ≤ length out.old)) }
    ensures { (result ≡ 4 + length (string name.now)) × (out.new ≡ started (take 2 out.old ++ (kind ∷ visibility ∷ string name.now)) out.old) }
{
    out[2] = kind as u8;
    out[3] = visibility as u8;
    4 + put_string(&mut out[4..], name)
}

// The start of a unit's item but for its length.
pub fn put_unit_start(out: &mut [u8], u: usize) -> usize
    requires { 4 + length (string (unit_name u)) ≤ length out.old }
    ensures { (result ≡ 4 + length (string (unit_name u))) × (out.new ≡ started (take 2 out.old ++ (module_kind ∷ 0 ∷ string (unit_name u))) out.old) }
{
    let unit = names::unit_name(u as u64);
    put_start(out, MODULE, 0, unit.as_slice())
}
