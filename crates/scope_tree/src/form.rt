// The bytes of a use: segment count, segments, element count, each element a name and an alias, as in a bundle's item.
ghost use Rattle.std.specs.Prelude.{◌≡◌, min, ◌+◌, ◌*◌, ◌<◌, ◌≤◌, eqb, get_or};
ghost use Rattle.names.specs.Packed.{packed};
ghost use Rattle.scope_tree.specs.Step.{any_main};
ghost use Rattle.scope_tree.specs.Form.{string, after_string, after_strings, after_elements, local_name, elements_from, string_fault, names_fault, elements_fault, rest_fault, use_fault};
ghost use Rattle.scope_tree.specs.Forms.{fault, Checked};

use names::Name;
use refusal::Cause;

// The byte at `at`, 0 past the end. bundle reads its own by the width of a field; the tree stands on no bundle.
pub fn byte_at(s: &[u8], at: usize) -> usize
    ensures { (result ≡ get_or s.now at 0) × (result < 256) }
{
    s.get(at).map_or(0, |b| usize::from(*b))
}

// The place after the string at `at`.
pub fn next(s: &[u8], at: usize) -> usize
    requires { at < 65536 }
    ensures { (result ≡ after_string s.now at) × (result ≤ at + 256) }
{
    at + 1 + byte_at(s, at)
}

// The string at `at`.
pub fn string_at<'a>(s: &'a [u8], at: usize) -> &'a [u8]
    requires { at < 65536 }
    ensures { result.now ≡ string s.now at }
{
    let n = s.len();
    let a = n.min(at + 1);
    let e = n.min(next(s, at));
    &s[a..e]
}

pub fn name_at(s: &[u8], at: usize) -> Name
    requires { at < 65536 }
    ensures { result ≡ packed (string s.now at) }
{
    names::name_of(string_at(s, at))
}

// The name that the element at `at` gets: its alias, or its name where the alias is empty.
#[tactic(auto, unfolding(crate::specs::Form::local_name))]
pub fn local_at(s: &[u8], at: usize) -> Name
    requires { at < 65000 }
    ensures { result ≡ local_name s.now at }
{
    let alias = next(s, at);
    if byte_at(s, alias) == 0 {
        return name_at(s, at);
    }
    name_at(s, alias)
}

// The place after the string at `at`, which is an identifier or, where `optional`, may be empty.
#[tactic(auto, unfolding(crate::specs::Form::string_fault))]
fn string_form(s: &[u8], at: usize, optional: bool) -> Result<usize, Cause>
    requires { at < 65536 }
    ensures { Checked (string_fault optional s.now at) (after_string s.now at) (at + 256) result }
{
    let after = next(s, at);
    if s.len() < after {
        return Err(Cause::Cut);
    }
    if (optional && byte_at(s, at) == 0) || names::is_identifier(string_at(s, at)) {
        return Ok(after);
    }
    Err(Cause::BadName)
}

// The place after `count` segments.
#[tactic(auto, using(crate::specs::FormLaws::name_steps))]
fn segments_form(s: &[u8], at: usize, count: usize) -> Result<usize, Cause>
    requires { at + 256 * count < 65000 }
    ensures { Checked (names_fault s.now count at) (after_strings s.now count at) (at + 256 * count) result }
{
    let mut p = at;
    for _ in 0..count {
        p = string_form(s, p, false)?;
    }
    Ok(p)
}

// The place after `count` elements.
#[tactic(auto, using(crate::specs::FormLaws::element_steps))]
fn elements_form(s: &[u8], at: usize, count: usize) -> Result<usize, Cause>
    requires { at + 512 * count < 65000 }
    ensures { Checked (elements_fault s.now count at) (after_elements s.now count at) (at + 512 * count) result }
{
    let mut p = at;
    for _ in 0..count {
        let alias = string_form(s, p, false)?;
        p = string_form(s, alias, true)?;
    }
    Ok(p)
}

// From the element count on.
#[tactic(auto, unfolding(crate::specs::Form::rest_fault))]
fn rest_form(s: &[u8], at: usize) -> Result<(), Cause>
    requires { at < 16384 }
    ensures { fault result ≡ rest_fault s.now at }
{
    if s.len() <= at {
        return Err(Cause::Cut);
    }
    let elements = byte_at(s, at);
    if 32 < elements {
        return Err(Cause::TooMany);
    }
    if elements_form(s, at + 1, elements)? < s.len() {
        return Err(Cause::Cut);
    }
    Ok(())
}

// Whether the bytes have the form of a use; else the first fault.
#[tactic(auto, unfolding(crate::specs::Form::use_fault))]
pub fn use_form(s: &[u8]) -> Result<(), Cause>
    ensures { fault result ≡ use_fault s.now }
{
    if s.is_empty() {
        return Err(Cause::Cut);
    }
    let segments = byte_at(s, 0);
    if 17 < segments {
        return Err(Cause::TooMany);
    }
    rest_form(s, segments_form(s, 1, segments)?)
}

// Whether one of `count` elements from `at` on has the alias `main`.
#[tactic(auto, using(crate::specs::FormLaws::main_steps))]
pub fn any_main(s: &[u8], at: usize, count: usize) -> bool
    requires { at + 512 * count < 65000 }
    ensures { result ≡ any_main (elements_from s.now count at) }
{
    let mut p = at;
    for _ in 0..count {
        let alias = next(s, p);
        if names::is_main(string_at(s, alias)) {
            return true;
        }
        p = next(s, alias);
    }
    false
}
