// Where text is written to: a lent buffer, which takes what it has room for, or a writer, whose first error is kept for the end.
ghost use Rattle.std.specs.Prelude.{◌≡◌, ◌++◌, List, [], ◌∷◌, ℕ, IsNone, OnOk};
ghost use Rattle.std.specs.Io.KnownBytes.{Appends};
ghost use Rattle.std.proofs.Common.{refl, ◌∙◌};
ghost use Rattle.std.proofs.KnownBytes.{Appends-nil, Appends-trans};
ghost use Rattle.text.specs.Writing.{Put, put-none, put_then};

use std::io;
use std::io::Write;

// Takes text, one piece after another; none of it fails, as a piece for std's `Write` can.
pub trait Sink {
    // From the one state to the other that text is written.
    ghost tells: { Self → List ℕ → Self → Type 0 };

    fn put(&mut self, bytes: &[u8])
        ensures { tells self.old bytes.now self.new };

    ghost tells_none: { (s : Self) → tells s [] s };

    ghost tells_more: { (s t u : Self) (a b : List ℕ) → tells s a t → tells t b u → tells s (a ++ b) u };
}

// A lent buffer and where the text ends in it; what there is no room for is left out.
#[derive(Drop)]
pub struct Buffer<'a> {
    pub bytes: &'a mut [u8],
    pub at: usize,
}

impl Buffer<'_> {
    // One byte more, where there is room.
    #[tactic(auto, using(crate::specs::Writing::one_byte))]
    fn add(&mut self, b: u8)
        ensures kept { self.new.bytes.ghost_name ≡ self.old.bytes.ghost_name }
        ensures put { Put (b ∷ []) self.old.bytes.now self.old.at self.new.bytes.now self.new.at }
    {
        if self.at < self.bytes.len() {
            self.bytes[self.at] = b;
            self.at += 1;
        }
    }
}

impl Sink for Buffer<'_> {
    ghost tells = { λ s w t. (t.bytes.ghost_name ≡ s.bytes.ghost_name) × Put w s.bytes.now s.at t.bytes.now t.at };

    ghost tells_none = { λ s. (refl, put-none _ _) };

    ghost tells_more = { λ s t u a b p q. (q.0 ∙ p.0, put_then p.1 q.1) };

    fn put(&mut self, bytes: &[u8]) {
        for b in bytes {
            self.add(*b);
        }
    }
}

// A writer, and its first error: what comes after that is left out.
#[derive(Drop)]
pub struct Writer<'a, W> {
    pub out: &'a mut W,
    pub error: Option<io::Error>,
}

impl<W> Writer<'_, W> {
    // The first error, if there was one.
    pub fn finish(self) -> io::Result<()>
        ensures error { OnOk result (IsNone self.entry.error) }
        ensures left { self.exit.0.now ≡ self.entry.out.now }
    {
        match self.error {
            Some(e) => Err(e),
            None => Ok(()),
        }
    }
}

impl<W: Write> Sink for Writer<'_, W> {
    ghost tells = { λ s w t. (t.out.ghost_name ≡ s.out.ghost_name) × (IsNone t.error → IsNone s.error × Appends (W.contents s.out.now) (W.contents t.out.now) w) };

    ghost tells_none = { λ s. (refl, λ h. (h, Appends-nil _)) };

    ghost tells_more = { λ s t u a b p q. (q.0 ∙ p.0, λ h. let x = q.1 h in let y = p.1 x.0 in (y.0, Appends-trans _ _ _ _ _ y.1 x.1)) };

    fn put(&mut self, bytes: &[u8]) {
        if self.error.is_none() {
            self.error = self.out.write_all(bytes).err();
        }
    }
}
