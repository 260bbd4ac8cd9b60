// Parts that are led by their length in 4 bytes, big-endian.
ghost use Rattle.std.specs.Prelude.{length, MatchOption};
ghost use Rattle.std.specs.Iterator.{at_most};
ghost use Rattle.lines.specs.Frames.{Leads, IsCut};

// The parts at the start of these bytes, up to the first that isn't all there. Ruled out: a part with bytes of the next one.
#[derive(Drop)]
pub struct Frames<'a>(pub &'a [u8]);

impl<'a> Iterator for Frames<'a> {
    type Item = &'a [u8];

    ghost next_gives = { λ s r t. MatchOption r (IsCut s.0.now) (λ part. Leads part.now t.0.now s.0.now) };

    ghost remaining = { λ s. at_most (length s.0.now) };

    fn next(&mut self) -> Option<&'a [u8]> {
        let (head, rest) = self.0.split_first_chunk::<4>()?;
        let (part, rest) = rest.split_at_checked(u32::from_be_bytes(*head) as usize)?;
        self.0 = rest;
        Some(part)
    }
}
