// Items one after the other.
ghost use Rattle.std.specs.Prelude.{◌≡◌, ◌<◌, ◌^◌};
ghost use Rattle.std.specs.Iterator.{YieldsFirst, item_count};
ghost use Rattle.bundle.specs.Places.{places};

use crate::access::Range;
use crate::bytes::after_length;
use std::marker::Model;

// The items of a file or of a module, by their places; a contract sees the places that are left.
#[derive(Drop)]
pub struct Items<'a> {
    bytes: &'a [u8],
    at: usize,
    end: usize,
}

impl<'a> Model for Items<'a> {
    ghost use Rattle.std.specs.Prelude.{ℕ, List, ◌<◌, ◌^◌};
    ghost use Rattle.bundle.specs.Places.{places};

    ghost Value = { List ℕ };

    ghost view = { λ i. places i.bytes.now i.end i.at };

    ghost invariant = { λ i. i.end < 2 ^ 62 };
}

impl<'a> Items<'a> {
    // Those of a range.
    pub fn of(s: &'a [u8], range: Range) -> Items<'a>
        requires { range.end < 2 ^ 62 }
        ensures { result ≡ places s.now range.end range.at }
    {
        Items {
            bytes: s,
            at: range.at,
            end: range.end,
        }
    }
}

impl<'a> Iterator for Items<'a> {
    type Item = usize;

    ghost next_gives = { YieldsFirst (λ l. l) };

    ghost remaining = { item_count (λ l. l) };

    #[tactic(auto, using(crate::specs::Places::one_place))]
    fn next(&mut self) -> Option<usize> {
        if self.at >= self.end {
            return None;
        }
        let at = self.at;
        self.at = after_length(self.bytes, at);
        Some(at)
    }
}
