// Bytes, numbers and strings at a place.
ghost use Rattle.std.specs.Prelude.{◌≡◌, ◌+◌, ◌<◌, ◌≤◌, ◌^◌};
ghost use Rattle.bundle.specs.Limits.{capacity, string_size, length_size};
ghost use Rattle.bundle.specs.Scan.{byte, word, text, version_of, count};
ghost use Rattle.bundle.specs.Decode.{after, after_length};

use crate::Width;

// The byte at `at`, and 0 past the end.
pub fn byte_at(s: &[u8], at: usize) -> usize
    ensures { (result ≡ byte s.now at) × (result < capacity Width.Byte) }
{
    s.get(at).map_or(0, |b| usize::from(*b))
}

// The 2-byte number at `at`. Not `from_be_bytes`: either byte may be past the end.
pub fn word_at(s: &[u8], at: usize) -> usize
    requires { at + 1 < 2 ^ 64 }
    ensures { (result ≡ word s.now at) × (result < capacity Width.Word) }
{
    byte_at(s, at) * 256 + byte_at(s, at + 1)
}

// The version: byte 0.
pub fn version_of(s: &[u8]) -> usize
    ensures { result ≡ version_of s.now }
{
    byte_at(s, 0)
}

// The count at `at`, of a width.
pub fn count_at(s: &[u8], at: usize, width: Width) -> usize
    requires { at + 1 < 2 ^ 64 }
    ensures { (result ≡ count width s.now at) × (result < capacity width) }
{
    match width {
        Width::Byte => byte_at(s, at),
        Width::Word => word_at(s, at),
    }
}

// The bytes of the string at `at`, as far as there are any.
pub fn text_at(s: &[u8], at: usize) -> &[u8]
    requires { at < 2 ^ 63 }
    ensures { result.now ≡ text s.now at }
{
    if s.len() <= at {
        return &s[..0];
    }
    let n = usize::from(s[at]);
    let a = at + 1;
    if s.len() - a < n {
        return &s[a..];
    }
    let e = a + n;
    &s[a..e]
}

// Past the string at `at`.
pub fn after_string(s: &[u8], at: usize) -> usize
    requires { at < 2 ^ 63 }
    ensures { (result ≡ after s.now at) × (result ≤ at + string_size) }
{
    at + 1 + byte_at(s, at)
}

// Past what the 2-byte length at `at` counts.
pub fn after_length(s: &[u8], at: usize) -> usize
    requires { at < 2 ^ 63 }
    ensures { (result ≡ after_length s.now at) × (result ≤ at + length_size) }
{
    at + 2 + word_at(s, at)
}
