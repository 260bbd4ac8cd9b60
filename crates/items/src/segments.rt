// A use's segments that its path keeps.
ghost use Rattle.std.specs.Prelude.{◌≡◌, ◌-◌, ◌≤◌, ◌<◌, length, drop};
ghost use Rattle.bundle.specs.Limits.{count_limit};
ghost use Rattle.discovery.specs.Walk.{UseMark};
ghost use Rattle.assembly.specs.Walk.{segments_at};

use encoder::Strings;

// The last `left` segments of the use at `mark`.
pub fn last_segments(s: &[u8], mark: usize, left: usize) -> Strings<'_>
    requires { UseMark s.now mark × (left ≤ length (segments_at s.now mark)) }
    ensures last { result ≡ drop (length (segments_at s.now mark) - left) (segments_at s.now mark) }
    ensures few { length result < count_limit }
{
    let segments = bundle::use_segments(s, mark);
    Strings::new(s, segments.first, segments.count).rest(segments.count - left)
}
