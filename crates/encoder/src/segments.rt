// Segments of a path: `crate`, the name of a unit, and strings of the bundle.
ghost use Rattle.std.specs.Prelude.{◌≡◌, ◌≤◌, ◌++◌, length};
ghost use Rattle.names.specs.Bytes.{ascii};
ghost use Rattle.names.specs.Decimal.{unit_name};
ghost use Rattle.bundle.specs.Encode.{string, joined};
ghost use Rattle.encoder.specs.Started.{started};

use crate::Strings;
use crate::bytes::put_string;

// The name of the unit, as a string.
#[tactic(auto, unfolding(bundle::specs::Encode::string))]
pub fn put_unit(out: &mut [u8], id: usize) -> usize
    requires { length (string (unit_name id)) ≤ length out.old }
    ensures { (result ≡ length (string (unit_name id))) × (out.new ≡ started (string (unit_name id)) out.old) }
{
    let unit = names::unit_name(id as u64);
    put_string(out, unit.as_slice())
}

// `crate`, the name of the unit, and the rest.
#[tactic(auto, unfolding(bundle::specs::Encode::string, names::specs::Bytes::ascii))]
pub fn put_segments(out: &mut [u8], id: usize, rest: Strings) -> usize
    requires { length (string (ascii "crate") ++ (string (unit_name id) ++ joined string rest)) ≤ length out.old }
    ensures { (result ≡ length (string (ascii "crate") ++ (string (unit_name id) ++ joined string rest.entry))) × (out.new ≡ started (string (ascii "crate") ++ (string (unit_name id) ++ joined string rest.entry)) out.old) }
{
    let a = put_string(out, b"crate");
    let b = a + put_unit(&mut out[a..], id);
    b + rest.put(&mut out[b..])
}
