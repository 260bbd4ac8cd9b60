// A list of at most so many values, which lie in the value itself.
#![tactic(auto)]

ghost use Rattle.std.specs.Prelude.{◌≡◌, ◌<◌, ◌≤◌, [], ◌∷◌, ◌++◌, length};

use std::marker::Model;

// Up to N values, in order; a contract sees the list. An array and a count, not a Vec: the linker has no heap. Of the project's own,
// since arrayvec's asks that the values have a default, and a refusal has none.
#[derive(Clone, Drop)]
pub struct FixedVec<T, const N: usize> {
    places: [T; N],
    count: usize,
}

impl<T, const N: usize> Model for FixedVec<T, N> {
    ghost use Rattle.std.specs.Prelude.{List, take, length, ◌≤◌, ◌≡◌};
    ghost use Rattle.std.specs.Coded.{coded_list};

    ghost Value = { List T };

    ghost coded = { coded_list T.code };

    ghost view = { λ v. take v.count v.places };

    ghost invariant = { λ v. (v.count ≤ N) × (length v.places ≡ N) };
}

impl<T: Copy, const N: usize> FixedVec<T, N> {
    // No value; `blank` stands in the places until they are taken.
    pub fn new(blank: T) -> FixedVec<T, N>
        ensures { result ≡ [] }
    {
        FixedVec {
            places: [blank; N],
            count: 0,
        }
    }

    pub fn push(&mut self, value: T)
        requires { length self.old < N }
        ensures { self.new ≡ self.old ++ value ∷ [] }
    {
        self.places[self.count] = value;
        self.count += 1;
    }

    pub fn as_slice(&self) -> &[T]
        ensures value { result.now ≡ self.now }
        ensures fits { length result.now ≤ N }
    {
        &self.places[..self.count]
    }
}
