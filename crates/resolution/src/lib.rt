// Resolution: what a use of a file resolves to, over the card of a bundle. The functions have the names of resolution.rs.
#![tactic(auto)]

mod listing;
mod package;
mod segments;
mod uses;

ghost use Rattle.std.specs.Prelude.{◌≡◌};
ghost use Rattle.resolution.specs.Call.{resolve as call_resolve};
ghost use Rattle.resolution.specs.Told.{told};

use card::Card;
use refusal::Refusal;
pub use segments::Segments;
pub use uses::resolve_path_internal;

// Which file, or which folder, of the bundle, counted from 0. Only reading refuses a folder.
#[derive(Clone, Copy, Debug, PartialEq, Eq)]
pub enum Target {
    File(usize),
    Folder(usize),
}

// What a use resolves to, and how many of its last segments are left as module path.
#[derive(Clone, Copy, Debug, PartialEq, Eq)]
pub struct Found {
    pub target: Target,
    pub left: usize,
}

// The resolution call: a bundle, the importer's path, and a use's segments as a bundle has them, a count and as many names.
// Ruled out: an answer with a file of the library of `/r/pay` for an importer `/r/payroll/m.simf`; 24 where the lookup fails,
// which is 22.
pub fn resolve(s: &[u8], importer: &[u8], u: &[u8]) -> Result<Found, Refusal>
    ensures { told result ≡ call_resolve s.now importer.now u.now }
{
    let mut card = Card::empty();
    let b = reader::read(s, &mut card)?;
    uses::resolve_in(&b.mapped(), importer, u).map_err(|c| c.at(0))
}
