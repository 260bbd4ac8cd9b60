// A use's segments.
ghost use Rattle.std.specs.Prelude.{◌≡◌, ◌<◌, ◌^◌, ◌∷◌, [], length, MatchOption};
ghost use Rattle.std.specs.Iterator.{at_most};
ghost use Rattle.bundle.specs.Limits.{count_limit};
ghost use Rattle.bundle.specs.Form.{Every, IsName};
ghost use Rattle.bundle.specs.Scan.{text};
ghost use Rattle.bundle.specs.Decode.{each, after};
ghost use Rattle.bundle.specs.Told.{scanned};
ghost use Rattle.resolution.specs.Call.{scan_segments};
ghost use Rattle.resolution.specs.Told.{Given};

use bundle::limits::SEGMENTS;
use bundle::{Field, Listed, Width};
use refusal::{Cause, Refusal};
use std::marker::Model;

// Names that stand one after the other, as a bundle has a use's segments. A clause sees those that are left.
// encoder::Strings has these fields too, but its texts need not be names; one iterator for both would stand in bundle, the crate
// below both.
#[derive(Drop)]
pub struct Segments<'a> {
    bytes: &'a [u8],
    at: usize,
    count: usize,
}

impl<'a> Model for Segments<'a> {
    ghost use Rattle.std.specs.Prelude.{ℕ, List};

    ghost Value = { List (List ℕ) };

    ghost use Rattle.resolution.specs.Segments.{left_of, AreNames};

    ghost view = { left_of };

    ghost invariant = { AreNames };
}

// A count, as many names, and nothing after them.
#[tactic(auto, unfolding(crate::specs::Call::scan_segments))]
fn segments_end(u: &[u8]) -> Result<usize, Refusal>
    ensures { scanned result ≡ scan_segments u.now }
{
    let last = form::list_end(u, 0, u.len(), Width::Byte, Field::Name, SEGMENTS)?;
    form::nothing_left(last, u.len())
}

impl<'a> Segments<'a> {
    // Those of a list of names.
    pub fn of(s: &'a [u8], l: Listed) -> Segments<'a>
        requires { Every IsName (each (after s.now) (text s.now) l.count l.first) × ((l.first < 2 ^ 59) × (l.count < count_limit)) }
        ensures { result ≡ each (after s.now) (text s.now) l.count l.first }
    {
        Segments {
            bytes: s,
            at: l.first,
            count: l.count,
        }
    }

    // Those that are handed in as a bundle has them.
    pub fn given(u: &'a [u8]) -> Result<Segments<'a>, Cause>
        ensures { Given u.now result }
    {
        segments_end(u).map_err(|e| e.cause)?;
        let names = Listed {
            first: 1,
            count: bundle::byte_at(u, 0),
        };
        Ok(Segments::of(u, names))
    }

    // How many are left.
    pub fn len(&self) -> usize
        ensures { result ≡ length self.now }
    {
        self.count
    }
}

impl<'a> Iterator for Segments<'a> {
    type Item = &'a [u8];

    ghost next_gives = { λ s r t. MatchOption r ((s ≡ []) × (t ≡ [])) (λ x. (s ≡ x.now ∷ t) × IsName x.now) };

    ghost remaining = { λ s. at_most (length s) };

    fn next(&mut self) -> Option<&'a [u8]> {
        if self.count == 0 {
            return None;
        }
        let name = bundle::string(self.bytes, self.at);
        self.at = bundle::next_string(self.bytes, self.at);
        self.count -= 1;
        Some(name)
    }
}
