// Strings that stand one after the other in a bundle; contracts see them as the list of their texts.
ghost use Rattle.std.specs.Prelude.{◌≡◌, ◌+◌, ◌*◌, ◌<◌, ◌≤◌, ◌^◌, List, length, drop};
ghost use Rattle.std.specs.Iterator.{item_count};
ghost use Rattle.bundle.specs.Bundle.{Text};
ghost use Rattle.bundle.specs.Limits.{string_size};
ghost use Rattle.bundle.specs.Encode.{string, joined};
ghost use Rattle.encoder.specs.Started.{started};
ghost use Rattle.encoder.specs.Strings.{strings_at, GivesString};

use crate::bytes::put_string;
use std::marker::Model;

// As many as `count`, the first at `at`.
#[derive(Drop)]
pub struct Strings<'a> {
    bundle: &'a [u8],
    at: usize,
    count: usize,
}

impl<'a> Model for Strings<'a> {
    ghost Value = { List Text };

    ghost view = { λ l. strings_at l.bundle.now l.count l.at };

    ghost invariant = { λ l. (l.count < 1024) × (l.at + string_size * l.count < 2 ^ 61) };
}

impl<'a> Iterator for Strings<'a> {
    type Item = &'a [u8];

    ghost next_gives = { GivesString };

    ghost remaining = { item_count (λ l. l) };

    #[tactic(auto, using(crate::specs::Strings::one_string))]
    fn next(&mut self) -> Option<&'a [u8]> {
        if self.count == 0 {
            return None;
        }
        let t = bundle::string(self.bundle, self.at);
        self.at = bundle::next_string(self.bundle, self.at);
        self.count -= 1;
        Some(t)
    }
}

impl<'a> Strings<'a> {
    pub fn new(bundle: &'a [u8], at: usize, count: usize) -> Self
        requires { (at < 2 ^ 60) × (count < 1024) }
        ensures { result ≡ strings_at bundle.now count at }
    {
        Strings { bundle, at, count }
    }

    // Without the first n.
    pub fn rest(mut self, n: usize) -> Self
        ensures { result ≡ drop n self.entry }
    {
        for _ in 0..n {
            self.next();
        }
        self
    }

    // How many bytes they take: a length byte each, and what it counts.
    #[tactic(auto, using(crate::specs::Strings::sizes))]
    pub fn size(self) -> usize
        ensures { (result ≡ length (joined string self.entry)) × (result ≤ string_size * length self.entry) }
    {
        let mut n = self.count;
        for t in self {
            n += t.len();
        }
        n
    }

    // One after the other, as the image has them.
    pub fn put(self, out: &mut [u8]) -> usize
        requires { length (joined string self) ≤ length out.old }
        ensures { (result ≡ length (joined string self.entry)) × (out.new ≡ started (joined string self.entry) out.old) }
    {
        let mut n = 0;
        for t in self {
            n += put_string(&mut out[n..], t);
        }
        n
    }
}
