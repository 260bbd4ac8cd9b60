// Byte strings.
ghost use Rattle.std.specs.Prelude.{◌≡◌, drop};

// The bytes of s after the first n.
pub fn after(s: &[u8], n: usize) -> &[u8]
    ensures { result.now ≡ drop n s.now }
{
    s.get(n..).unwrap_or(&[])
}
