// The hash of bytes that follow others.
ghost use Rattle.std.specs.Prelude.{◌≡◌};
ghost use Rattle.card.specs.Layout.{bucket_of};
ghost use Rattle.card.specs.Index.{hashed};
ghost use Rattle.card.specs.Card.{hash_of};

pub const SEED: u32 = 5381;

// The hash h, with the bytes t after it, by the multiplier m.
pub fn mix(m: u32, h: u32, t: &[u8]) -> u32
    ensures { result ≡ hashed m h t.now }
{
    let mut x = h;
    for b in t {
        x = x.wrapping_mul(m).wrapping_add(u32::from(*b));
    }
    x
}

// The hash of a path.
#[tactic(auto, unfolding(crate::specs::Card::hash_of))]
pub fn hash_of(m: u32, p: &[u8]) -> u32
    ensures { result ≡ hash_of m p.now }
{
    if p.len() == 1 {
        return SEED;
    }
    mix(m, SEED, p)
}

// The chain of a hash: its highest bits, since the lowest of a product come from the lowest of the multiplier alone.
pub fn chain_of(h: u32) -> usize
    ensures { result ≡ bucket_of h }
{
    (h >> 24) as usize
}
