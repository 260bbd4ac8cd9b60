// The marks of a file's uses, in item order.
ghost use Rattle.std.specs.Prelude.{◌≡◌, ◌<◌, ◌≤◌, [], ◌∷◌, ◌++◌, length};
ghost use Rattle.bundle.specs.Limits.{use_limit};

use crate::IDS;
use std::marker::Model;

// Up to IDS marks; contracts see the list. An array and a count, not a Vec: the linker has no heap. The places behind are 0, so the
// list tells the whole value, as a copy asks; a FixedVec says nothing of them, and is no Copy.
#[derive(Clone, Copy)]
pub struct Uses {
    marks: [usize; IDS],
    count: usize,
}

impl Model for Uses {
    ghost use Rattle.std.specs.Prelude.{ℕ, List, ◌≡◌, ◌≤◌, ◌++◌, length, take, drop, replicate};
    ghost use Rattle.std.proofs.Common.{arith, take-append-drop, length-take-le};
    ghost use Rattle.bundle.specs.Limits.{use_limit};

    ghost Value = { List ℕ };

    ghost view = { λ u. take u.count u.marks };

    ghost invariant = { λ u. (u.count ≤ use_limit) × ((length u.marks ≡ use_limit) × (drop u.count u.marks ≡ drop u.count (replicate use_limit 0))) };

    ghost inverse = { λ l. record { marks = l ++ drop (length l) (replicate use_limit 0); count = length l } };

    ghost inverse_ok = { λ u h.
        let counted : length (take u.count u.marks) ≡ u.count = length-take-le u.count u.marks (omega (arith, h.0, h.1.0)) in
        let kept : take u.count u.marks ++ drop (length (take u.count u.marks)) (replicate use_limit 0) ≡ u.marks = rw (counted, ← h.1.1) (take-append-drop u.count u.marks) in
        λ i. record { marks = kept i; count = counted i } };
}

impl Uses {
    // None.
    pub fn new() -> Uses
        ensures { result ≡ [] }
    {
        Uses {
            marks: [0; IDS],
            count: 0,
        }
    }

    pub fn push(&mut self, mark: usize)
        requires { length self.old < use_limit }
        ensures { self.new ≡ self.old ++ mark ∷ [] }
    {
        self.marks[self.count] = mark;
        self.count += 1;
    }

    pub fn as_slice(&self) -> &[usize]
        ensures value { result.now ≡ self.now }
        ensures fits { length result.now ≤ use_limit }
    {
        &self.marks[..self.count]
    }
}
