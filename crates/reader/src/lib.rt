// The reader: whether bytes are a bundle, 1 to 13, and the card of one that is.
#![tactic(auto)]

mod fill;
mod make;
mod maps;
mod paths;

ghost use Rattle.std.specs.Prelude.{◌≡◌, IfOk};
ghost use Rattle.bundle.specs.Read.{verdict};
ghost use Rattle.bundle.specs.Results as Checked;
ghost use Rattle.bundle.specs.Told.{checked};
ghost use Rattle.card.specs.Card.{CardIs};

use card::{Card, Carded};
use refusal::Refusal;

// Whether the bytes are a bundle; the lent card is then its card. Ruled out: `Ok` and a card of other bytes.
#[tactic(auto, unfolding(bundle::specs::Read::verdict))]
pub fn read_into(s: &[u8], card: &mut Card) -> Result<(), Refusal>
    ensures tells { checked result ≡ verdict s.now }
    ensures made { checked result ≡ Checked.Ok → CardIs s.now card.new }
{
    form::check_form(s)?;
    make::make(s, card)
}

// A bundle of these bytes with its card, which is made in a lent one; or why they are none.
pub fn read<'a>(s: &'a [u8], card: &'a mut Card) -> Result<Carded<'a>, Refusal>
    ensures tells { checked result ≡ verdict s.now }
    ensures same { IfOk result (λ b. b.bytes.now ≡ s.now) }
{
    read_into(s, card)?;
    Ok(Carded { bytes: s, card })
}

// Whether the bytes are a bundle. Ruled out: `Ok` for a bundle with a folder listed twice; a refusal 8 for a path that is
// also listed before, which is 7.
pub fn check(s: &[u8]) -> Result<(), Refusal>
    ensures { checked result ≡ verdict s.now }
{
    let mut card = Card::empty();
    read(s, &mut card)?;
    Ok(())
}
