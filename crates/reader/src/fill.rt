// The index of the listed paths.
ghost use Rattle.std.specs.Prelude.{◌≡◌, ◌<◌};
ghost use Rattle.card.specs.Layout.{key_limit};
ghost use Rattle.reader.specs.Build.{Fills, Filled};

use bundle::Part;
use card::hash::{chain_of, hash_of};
use card::{Card, Link, Node};

// Keys are odd and below twice this.
const KEYS: u64 = 268435456;

const SPREAD: u64 = 2654435769;

// The multiplier of the hash, from all bytes of the bundle: names that are made to share a chain share it under one multiplier, and
// the bundle with these names has another. Who searches for a bundle whose names share a chain under its own key gains little: a
// lookup is then one step for each listed path, and a step compares two numbers.
pub fn key_of(s: &[u8]) -> u32
    ensures { result < key_limit }
{
    let sum = s.iter().fold(0u32, |x, b| x.wrapping_add(u32::from(*b)));
    (u64::from(sum) * SPREAD / 16 % KEYS * 2 + 1) as u32
}

// The index with n paths more, those from first on, after the first k: each is the last of its chain.
pub fn fill<P: Part>(s: &[u8], card: &mut Card, first: usize, n: usize, k: usize)
    requires { Fills P.size first n k card.old }
    ensures { Filled s.now card.old card.new (P.after s.now) first n k }
{
    let key = card.key;
    let mut a = first;
    for i in 0..n {
        let hash = hash_of(key, bundle::string(s, a));
        let chain = chain_of(hash);
        card.nodes[k + i] = Node {
            start: a as u32,
            parent: 0,
            is_root: false,
        };
        card.links[k + i] = Link {
            hash,
            next: card.heads[chain],
        };
        card.heads[chain] = (k + i) as u16;
        a = P::next(s, a);
    }
}
