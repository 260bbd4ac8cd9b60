// Names as values.
ghost use Rattle.std.specs.Prelude.{◌≡◌, ◌≤◌};
ghost use Rattle.names.specs.Packed.{word, packed};

use crate::Name;

// Eight bytes from k on, zero past the end. Not `from_be_bytes`: it takes eight bytes, and of the last there may be fewer.
#[tactic(auto, unfolding(crate::specs::Packed::word, crate::specs::Packed::limit), using(crate::specs::Packed::limit_7))]
fn word_at(s: &[u8], k: usize) -> u64
    requires { k ≤ 24 }
    ensures { result ≡ word s.now k 8 }
{
    let mut w: u64 = 0;
    for i in 0..8 {
        w = w * 256 + s.get(k + i).map_or(0, |b| u64::from(*b));
    }
    w
}

// The name with these bytes, of which those past the 32nd are left off. Ruled out: one value for `a` and `b`; a value for
// `ab` that depends on what follows the slice.
#[tactic(auto, unfolding(crate::specs::Packed::packed))]
pub fn name_of(s: &[u8]) -> Name
    ensures { result ≡ packed s.now }
{
    Name {
        w0: word_at(s, 0),
        w1: word_at(s, 8),
        w2: word_at(s, 16),
        w3: word_at(s, 24),
    }
}
