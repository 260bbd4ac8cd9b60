// Ids in order.
ghost use Rattle.std.specs.Prelude.{◌≡◌, ℕ, ◌-◌, ◌<◌, ◌≤◌, [], ◌∷◌, ◌++◌, ◌==◌, length, take};
ghost use Rattle.std.specs.List.{position};
ghost use Rattle.graph.specs.Limits.{unit_limit};
ghost use Rattle.graph.specs.Padded.{padded};

use crate::UNITS;
use std::marker::Model;

// Up to UNITS ids; contracts see the list. An array and a count, not a Vec: the linker has no heap. The places behind
// are 0, as C gets them, so it is no FixedVec, which says nothing of these.
#[derive(Clone, Copy, Debug, PartialEq, Eq)]
pub struct Ids {
    ids: [u16; UNITS],
    count: usize,
}

impl Model for Ids {
    ghost use Rattle.std.specs.Prelude.{ℕ, List, length, take};
    ghost use Rattle.std.proofs.Common.{arith, length-take-le};
    ghost use Rattle.graph.specs.Padded.{padded, Kept, padded-kept};

    ghost Value = { List ℕ };

    ghost view = { λ a. take a.count a.ids };

    ghost invariant = { λ a. Kept a.ids a.count };

    ghost inverse = { λ l. record { ids = padded l; count = length l } };

    ghost inverse_ok = { λ a h i. record {
      ids = padded-kept a.ids a.count h i;
      count = length-take-le a.count a.ids (omega (arith, h.fits, h.long)) i;
    } };
}

impl Ids {
    // None.
    pub(crate) fn new() -> Ids
        ensures { result ≡ [] }
    {
        Ids {
            ids: [0; UNITS],
            count: 0,
        }
    }

    // Those of l.
    pub(crate) fn of(l: &[u16]) -> Ids
        requires { length l.now ≤ unit_limit }
        ensures { result ≡ l.now }
    {
        let mut ids = [0; UNITS];
        ids[..l.len()].copy_from_slice(l);
        Ids {
            ids,
            count: l.len(),
        }
    }

    pub fn as_slice(&self) -> &[u16]
        ensures value { result.now ≡ self.now }
        ensures fits { length result.now ≤ unit_limit }
    {
        &self.ids[..self.count]
    }

    // An array that has them at its start, and 0 behind.
    pub fn padded(&self) -> [u16; UNITS]
        ensures { result ≡ padded self.now }
    {
        self.ids
    }

    // The first place of u, or none.
    pub(crate) fn position(&self, u: u16) -> Option<usize>
        ensures { result ≡ position (λ v. v == u) self.now }
    {
        self.as_slice().iter().position(|v| *v == u)
    }

    pub(crate) fn push(&mut self, u: u16)
        requires { length self.old < unit_limit }
        ensures { self.new ≡ self.old ++ u ∷ [] }
    {
        self.ids[self.count] = u;
        self.count += 1;
    }

    // Takes the last off.
    #[tactic(auto, using(crate::specs::Padded::kept_pop, std::proofs::lemmas::Grind::common_steps))]
    pub(crate) fn pop(&mut self)
        requires { 0 < length self.old }
        ensures { self.new ≡ take (length self.old - 1) self.old }
    {
        self.count -= 1;
        self.ids[self.count] = 0;
    }
}
