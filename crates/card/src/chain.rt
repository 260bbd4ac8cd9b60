// The indices of a chain, one after the other.
ghost use Rattle.std.specs.Prelude.{◌≡◌};
ghost use Rattle.std.specs.Iterator.{YieldsFirst, item_count};
ghost use Rattle.card.specs.Chains.{down, Falls};

use crate::parts::Card;
use std::marker::Model;

// From the index `at` down, each by the link of the one ahead of it; 0 is none. A contract sees the indices that are left.
#[derive(Drop)]
pub struct Chain<'a> {
    card: &'a Card,
    at: usize,
}

impl<'a> Model for Chain<'a> {
    ghost use Rattle.std.specs.Prelude.{ℕ, List};
    ghost use Rattle.card.specs.Chains.{down, Falls};

    ghost Value = { List ℕ };

    ghost view = { λ l. down l.card.now l.at };

    ghost invariant = { λ l. Falls l.card.now l.at };
}

impl<'a> Chain<'a> {
    // Those from an index on.
    pub fn of(card: &'a Card, from: usize) -> Chain<'a>
        requires { Falls card.now from }
        ensures { result ≡ down card.now from }
    {
        Chain { card, at: from }
    }
}

impl<'a> Iterator for Chain<'a> {
    type Item = usize;

    ghost next_gives = { YieldsFirst (λ l. l) };

    ghost remaining = { item_count (λ l. l) };

    #[tactic(auto, using(crate::specs::Chains::one_index))]
    fn next(&mut self) -> Option<usize> {
        let i = self.at;
        if i == 0 {
            return None;
        }
        self.at = usize::from(self.card.links[i].next);
        Some(i)
    }
}
