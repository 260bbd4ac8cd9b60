// The form of a bundle: any bytes pass, or are refused by a number from 1 to 6 and a place.
#![tactic(auto)]

mod fields;
mod items;
mod lists;

ghost use Rattle.std.specs.Prelude.{◌≡◌};
ghost use Rattle.bundle.specs.Told.{checked};
ghost use Rattle.bundle.specs.Read.{form as read_form};

pub use fields::{list_end, nothing_left};
use refusal::Refusal;

// 1 to 6. Ruled out: `Ok` for bytes that the header's length does not count.
pub fn check_form(s: &[u8]) -> Result<(), Refusal>
    ensures { checked result ≡ read_form s.now }
{
    lists::form(s)
}
