// Paths as bytes: the form, and the order by whole components.
ghost use Rattle.std.specs.Prelude.{◌≡◌, ◌++◌, ◌+◌, ◌≤◌, length};
ghost use Rattle.names.specs.Bytes.{all, same};
ghost use Rattle.names.specs.Path.{is_component, is_path, printable, root, well_formed};
ghost use Rattle.names.specs.Path.{split as path_split};
ghost use Rattle.names.specs.Prefix.{begins, child, child_file, directly_in, parent, starts_with, stem_of};
ghost use Rattle.names.specs.Pieces.{first_slash};

use crate::bytes::after;
use crate::identifier::NAME;

const SLASH: u8 = b'/';

const ROOT: &[u8] = b"/";

// Of no file and no folder.
const DOT: &[u8] = b".";

const DOTS: &[u8] = b"..";

// The longest path and the most components, as specs/Path.antt has them.
const PATH: usize = 255;

const COMPONENTS: usize = 16;

// Whether the bytes are `/`. Ruled out: `true` of `/r`.
#[tactic(auto, using(crate::specs::Bytes::equals))]
pub fn is_root(s: &[u8]) -> bool
    ensures { result ≡ same s.now root }
{
    s == ROOT
}

// Whether a byte may stand in a component.
fn is_printable(b: u8) -> bool
    ensures { result ≡ printable b }
{
    matches!(b, 0x21..=0x7e) && b != SLASH
}

// Whether every byte may stand in a component.
fn all_printable(c: &[u8]) -> bool
    ensures { result ≡ all printable c.now }
{
    c.iter().all(|b| is_printable(*b))
}

#[tactic(auto, unfolding(crate::specs::Path::is_component, crate::specs::Bytes::ascii), using(crate::specs::Bytes::equals))]
fn is_component(c: &[u8]) -> bool
    ensures { result ≡ is_component c.now }
{
    !c.is_empty() && c.len() <= NAME && all_printable(c) && c != DOT && c != DOTS
}

// Where the first slash is, or the length where there is none.
fn first_slash(s: &[u8]) -> usize
    ensures value { result ≡ first_slash s.now }
    ensures bound { result ≤ length s.now }
{
    s.iter().position(|b| *b == SLASH).unwrap_or(s.len())
}

// Whether the pieces of s between slashes are at most 16 components.
#[tactic(auto, using(crate::specs::PathSteps::piece_by_piece))]
fn are_components(s: &[u8]) -> bool
    ensures { result ≡ well_formed (path_split s.now) }
{
    let mut rest = s;
    for _ in 0..COMPONENTS {
        let (component, end) = rest.split_at(first_slash(rest));
        if !is_component(component) {
            return false;
        }
        let [_, more @ ..] = end else {
            return true;
        };
        rest = more;
    }
    false
}

// Whether the bytes are a path. Ruled out: `true` of `/a/`, of a component of 33 bytes or of 17 components; `false` of `/`.
#[tactic(auto, using(crate::specs::PathSteps::slash_and_rest))]
pub fn is_path(s: &[u8]) -> bool
    ensures { result ≡ is_path s.now }
{
    let [first, rest @ ..] = s else {
        return false;
    };
    *first == SLASH && s.len() <= PATH && (rest.is_empty() || are_components(rest))
}

// Whether the pieces of f between slashes begin with those of p.
#[tactic(auto, using(crate::specs::Pieces::bytes_then_slash))]
fn pieces_begin(f: &[u8], p: &[u8]) -> bool
    ensures { result ≡ begins (path_split f.now) (path_split p.now) }
{
    matches!(f.strip_prefix(p), Some([] | [SLASH, ..]))
}

// Whether the path f lies at or below the path p. Ruled out: `true` of `/r/payroll/m.simf` below `/r/pay`; `false` of a
// path below itself or below `/`.
#[tactic(auto, using(crate::specs::PathSteps::root_or_pieces))]
pub fn starts_with(f: &[u8], p: &[u8]) -> bool
    ensures { result ≡ starts_with f.now p.now }
{
    is_root(p) || !is_root(f) && pieces_begin(after(f, 1), after(p, 1))
}

// Whether the path f lies in the folder d and in no folder between. Ruled out: `true` of `/r/a/b` in `/r`; `false` of
// `/m.simf` in `/`.
#[tactic(auto, using(crate::specs::PathSteps::below_folder))]
pub fn is_directly_in(f: &[u8], d: &[u8]) -> bool
    ensures { result ≡ directly_in f.now d.now }
{
    if is_root(f) {
        return false;
    }
    let a = after(f, 1);
    let name = if is_root(d) {
        Some(a)
    } else {
        a.strip_prefix(after(d, 1))
            .and_then(|rest| rest.strip_prefix(b"/"))
    };
    name.is_some_and(|name| !name.contains(&SLASH))
}

// How many bytes the path of the folder has that a path lies in: of a path, as many of its own. Ruled out: 0 for `/a`;
// 3 for `/a/b` (it is 2).
#[tactic(auto, using(crate::specs::PathSteps::last_slash))]
pub fn parent_len(s: &[u8]) -> usize
    ensures { result ≡ length (parent s.now) }
{
    match s.iter().rposition(|b| *b == SLASH) {
        Some(i) if i > 0 => i,
        _ => 1,
    }
}

// The bytes of a folder's path that stand before the slash of what it holds.
#[tactic(auto, unfolding(crate::specs::Prefix::stem_of))]
fn stem(d: &[u8]) -> &[u8]
    ensures { result.now ≡ stem_of d.now }
{
    if is_root(d) { &[] } else { d }
}

// Whether p is the path of the name below the folder d, with the ending after it: from its end on, since paths of one folder begin
// alike.
#[tactic(auto, using(crate::specs::PathSteps::from_the_end, crate::specs::Bytes::equals))]
fn is_child_with(p: &[u8], d: &[u8], name: &[u8], ending: &[u8]) -> bool
    ensures { result ≡ same p.now (child d.now (name.now ++ ending.now)) }
{
    p.strip_suffix(ending)
        .and_then(|p| p.strip_suffix(name))
        .and_then(|p| p.strip_suffix(b"/"))
        .is_some_and(|p| p == stem(d))
}

// Whether p is the path of the name below the folder d. Ruled out: `true` of `//a` for `a` below `/`; `false` of `/r/a` for
// `a` below `/r`.
pub fn is_child(p: &[u8], d: &[u8], name: &[u8]) -> bool
    ensures { result ≡ same p.now (child d.now name.now) }
{
    is_child_with(p, d, name, b"")
}

// Whether p is the path of the file that the name below the folder d stands for. Ruled out: `true` of `/r/a`; `false` of
// `/r/a.simf` for `a` below `/r`.
#[tactic(auto, unfolding(crate::specs::Prefix::child_file, crate::specs::Bytes::ascii))]
pub fn is_child_file(p: &[u8], d: &[u8], name: &[u8]) -> bool
    ensures { result ≡ same p.now (child_file d.now name.now) }
{
    is_child_with(p, d, name, b".simf")
}
