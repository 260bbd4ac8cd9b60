// A line's parts: it splits at its first `=`, and the left half at its first `:`; without `:` the context is `/`.
ghost use Rattle.std.specs.Prelude.{◌≡◌, ◌+◌, ◌≤◌, true, false, length, MatchOption};
ghost use Rattle.remapping_lines.specs.Lines.{equals, has, before, behind, dropped, left, right, context_in, prefix_in, name_in, target_in, name_place, target_place};

const ROOT: &[u8] = b"/";

// What stands before the first byte c, and behind it where there is one.
fn split_once(t: &[u8], c: u8) -> (&[u8], Option<&[u8]>)
    ensures before { result.0.now ≡ before c t.now }
    ensures behind { MatchOption result.1 (has c t.now ≡ false) (λ r. (has c t.now ≡ true) × (r.now ≡ behind c t.now)) }
{
    match t.iter().position(|b| *b == c) {
        Some(i) => (&t[..i], Some(&t[i + 1..])),
        None => (t, None),
    }
}

// The two parts of a left half.
#[tactic(auto, unfolding(crate::specs::Lines::context_in, crate::specs::Lines::prefix_in), using(crate::specs::Splitting::prefix_place))]
fn context_and_prefix(left: &[u8]) -> (&[u8], &[u8])
    ensures context { result.0.now ≡ context_in left.now }
    ensures prefix { result.1.now ≡ prefix_in left.now }
    ensures place { name_place left.now + length result.1.now ≡ length left.now }
{
    let (context, behind) = split_once(left, b':');
    match behind {
        Some(prefix) => (context, prefix),
        None => (ROOT, left),
    }
}

// The bytes without one slash at the end.
#[tactic(auto, using(crate::specs::Splitting::dropped_some, crate::specs::Splitting::dropped_none))]
fn without_slash(t: &[u8]) -> &[u8]
    ensures { result.now ≡ dropped t.now }
{
    match t {
        [rest @ .., b'/'] => rest,
        _ => t,
    }
}

// The target without one slash at its end, unless it is `/`.
fn target_in(right: &[u8]) -> &[u8]
    ensures { result.now ≡ target_in right.now }
{
    if right == ROOT {
        return right;
    }
    without_slash(right)
}

#[derive(Clone, Copy)]
pub struct Line<'a> {
    pub context: &'a [u8],
    // Without one slash at its end, and where in the line it starts.
    pub name: &'a [u8],
    pub name_at: usize,
    // None where the line has no `=`.
    pub target: Option<&'a [u8]>,
    pub target_at: usize,
}

impl<'a> Line<'a> {
    #[tactic(auto, unfolding(crate::specs::Lines::name_in), using(crate::specs::Splitting::before_few))]
    pub fn of(t: &'a [u8]) -> Line<'a>
        ensures context { result.context.now ≡ context_in (left t.now) }
        ensures name { result.name.now ≡ name_in (left t.now) }
        ensures name_at { (result.name_at ≡ name_place (left t.now)) × (result.name_at ≤ length t.now) }
        ensures target { MatchOption result.target (has equals t.now ≡ false) (λ r. (has equals t.now ≡ true) × (r.now ≡ target_in (right t.now))) }
        ensures target_at { (result.target_at ≡ target_place t.now) × (result.target_at ≤ length t.now + 1) }
    {
        let (left, right) = split_once(t, b'=');
        let (context, prefix) = context_and_prefix(left);
        Line {
            context,
            name: without_slash(prefix),
            name_at: left.len() - prefix.len(),
            target: right.map(target_in),
            target_at: left.len() + 1,
        }
    }
}
