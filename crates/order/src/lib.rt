// From a bundle to the linked order of its units, or a report: steps 3 and 4.
#![tactic(auto)]

mod linked;
mod report;
mod steps;

ghost use Rattle.std.specs.Prelude.{◌≡◌};
ghost use Rattle.driver.specs.Complete.{Carries};
ghost use Rattle.discovery.specs.Places.{Fresh};
ghost use Rattle.order.specs.Call.{order_answer, order_report};
ghost use Rattle.order.specs.Told.{told};

use card::Card;
use discovery::Known;
pub use linked::{Linked, Ordered, UNITS};
use refusal::Refusal;
pub use report::{Numbered, Recorded, write_faults};

// The units of a bundle in linked order, or a refusal: 1 to 13 of the bundle, the report of discovery's faults or of a ring, or
// 14 where that exceeds the lent buffer, of which then not a byte is changed. Ruled out: the order of unit 0 alone where the
// entry imports another file; a ring told of a file that imports only itself.
pub fn order_known(s: &[u8], out: &mut [u8], known: &mut Known) -> Result<Ordered, Refusal>
    requires { Fresh known.old }
    ensures value { told result ≡ order_answer s.now out.old }
    ensures out_after { out.new ≡ order_report s.now out.old }
    ensures carries { Carries s.now known.new }
{
    let mut card = Card::empty();
    let b = reader::read(s, &mut card)?;
    steps::order_of(driver::discover(&b, known), out)
}

// The same, where nothing more is asked.
pub fn order(s: &[u8], out: &mut [u8]) -> Result<Ordered, Refusal>
    ensures value { told result ≡ order_answer s.now out.old }
    ensures out_after { out.new ≡ order_report s.now out.old }
{
    order_known(s, out, &mut Known::new())
}
