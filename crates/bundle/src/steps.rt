// Steps over the values of a list.
ghost use Rattle.std.specs.Prelude.{◌≡◌, ℕ, List, ◌+◌, ◌*◌, ◌<◌, ◌≤◌, ◌^◌};
ghost use Rattle.std.proofs.Common.{rules};
ghost use Rattle.bundle.specs.Limits.{string_size, remapping_size, file_size};
ghost use Rattle.bundle.specs.Decode.{far, after, after_file, after_remapping};

use crate::access::{next_file, next_remapping, next_string};

// What a counted list holds: where the one after it starts, at most `size` bytes on.
pub trait Part {
    ghost after: { List ℕ → ℕ → ℕ };

    ghost size: { ℕ };

    fn next(s: &[u8], at: usize) -> usize
        requires { at < 2 ^ 61 }
        ensures { (result ≡ after s.now at) × (result ≤ at + size) };

    ghost small: { size ≤ 2 ^ 20 };
}

// Folders, or segments.
pub struct Texts;

pub struct Remappings;

pub struct Files;

impl Part for Texts {
    ghost after = { after };

    ghost size = { string_size };

    fn next(s: &[u8], at: usize) -> usize {
        next_string(s, at)
    }

    ghost small = { Prim.search rules };
}

impl Part for Remappings {
    ghost after = { after_remapping };

    ghost size = { remapping_size };

    fn next(s: &[u8], at: usize) -> usize {
        next_remapping(s, at)
    }

    ghost small = { Prim.search rules };
}

impl Part for Files {
    ghost after = { after_file };

    ghost size = { file_size };

    fn next(s: &[u8], at: usize) -> usize {
        next_file(s, at)
    }

    ghost small = { Prim.search rules };
}

// Past n of them.
pub fn past<P: Part>(s: &[u8], at: usize, n: usize) -> usize
    requires { (at < 2 ^ 60) × (n < 1024) }
    ensures { (result ≡ far (P.after s.now) n at) × (result ≤ at + n * P.size) }
{
    let mut a = at;
    for _ in 0..n {
        a = P::next(s, a);
    }
    a
}
