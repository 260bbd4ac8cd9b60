// The steps one by one, for the differential run: numbers and byte slices alone, each with the contract of the operation that it calls.
// What is told stands in a lent array, as far as there is room, by the places named here. Also how the library tells numbers (`tell`).
#![tactic(auto)]

ghost use Rattle.std.specs.Prelude.{◌≡◌, ◌+◌, ◌<◌, ◌^◌, set, take, length};
ghost use Rattle.bundle.specs.Read.{number_of, verdict};
ghost use Rattle.steps_c.specs.Steps.{bit_of, GraphTold, assemble_told};
ghost use Rattle.assembly.specs.Call.{assemble_answer, assemble_report, assemble_image};
ghost use Rattle.std.proofs.lemmas.List.Edits.{sets};
ghost use Rattle.names.specs.Keywords.{is_keyword};
ghost use Rattle.names.specs.Prefix.{starts_with};

use card::Card;
use program::Assembled;

// The layout of `steps_assemble`'s answer, as specs/Steps.antt has it: three numbers, the units' files, the ids in linked order.
pub const ASSEMBLED_FILES: usize = 3;

pub const ASSEMBLED_IDS: usize = ASSEMBLED_FILES + bundle::limits::FILES;

// Of `steps_discover`'s: the number of units, their files, where their lists start, how long they are, the ids.
pub const GRAPH_FILES: usize = 1;

pub const GRAPH_STARTS: usize = GRAPH_FILES + bundle::limits::FILES;

pub const GRAPH_LENGTHS: usize = GRAPH_STARTS + bundle::limits::FILES;

pub const GRAPH_IDS: usize = GRAPH_LENGTHS + bundle::limits::FILES;

// 1 where the path f lies at or below the path p, else 0. Ruled out: 1 for `/r/payroll` below `/r/pay`; 0 for a path below
// itself.
#[tactic(auto, unfolding(crate::specs::Steps::bit_of))]
pub fn steps_starts_with(f: &[u8], p: &[u8]) -> u8
    ensures { result ≡ bit_of (starts_with f.now p.now) }
{
    u8::from(names::starts_with(f, p))
}

// 1 where the bytes are a reserved word, else 0. Ruled out: 1 for `pu`; 0 for `simc`.
#[tactic(auto, unfolding(crate::specs::Steps::bit_of))]
pub fn steps_is_keyword(s: &[u8]) -> u8
    ensures { result ≡ bit_of (is_keyword s.now) }
{
    u8::from(names::is_keyword(s))
}

// Stores a number at i, if there is such a place.
pub fn tell(out: &mut [usize], i: usize, v: usize)
    ensures { out.new ≡ set out.old i v }
{
    if i < out.len() {
        out[i] = v;
    }
}

pub fn tell_both(out: &mut [usize], a: usize, b: usize)
    ensures { out.new ≡ set (set out.old 0 a) 1 b }
{
    tell(out, 0, a);
    tell(out, 1, b);
}

// Stores the first n of l, as far as there are so many, from `at` on, as far as there are places.
pub fn tell_places(out: &mut [usize], at: usize, l: &[usize], n: usize)
    requires { at + length l.now < 2 ^ 60 }
    ensures { out.new ≡ sets out.old at (take n l.now) }
{
    for i in 0..n.min(l.len()) {
        tell(out, at + i, l[i]);
    }
}

// The same of ids. Two functions of one line: over a trait of numbers the clause would have to speak of each number's value.
pub fn tell_ids(out: &mut [usize], at: usize, l: &[u16], n: usize)
    requires { at + length l.now < 2 ^ 60 }
    ensures { out.new ≡ sets out.old at (take n l.now) }
{
    for i in 0..n.min(l.len()) {
        tell(out, at + i, usize::from(l[i]));
    }
}

// Steps 1 to 5 and the image: a number from 1 to 15, with its place in out[0]; or 0 with the report's length in out[0], the number
// of units in out[1], the image's length in out[2], the units' files' indices from ASSEMBLED_FILES on and the linked order from
// ASSEMBLED_IDS on. Ruled out: an image with a report; a byte of the image buffer changed where there is no image.
pub fn steps_assemble(s: &[u8], report: &mut [u8], image: &mut [u8], out: &mut [usize]) -> u8
    ensures value { result ≡ (assemble_answer s.now report.old image.old).number }
    ensures report_after { report.new ≡ assemble_report s.now report.old }
    ensures image_after { image.new ≡ assemble_image s.now image.old }
    ensures out_after { out.new ≡ assemble_told (assemble_answer s.now report.old image.old) out.old }
{
    match program::assemble(s, report, image) {
        Err(e) => {
            tell(out, 0, e.place);
            u8::from(e.cause)
        }
        Ok(Assembled::Report(n)) => {
            tell_both(out, n, 0);
            tell(out, 2, 0);
            0
        }
        Ok(Assembled::Image(linked, n)) => {
            tell_both(out, 0, linked.units);
            tell(out, 2, n);
            tell_places(out, ASSEMBLED_FILES, &linked.files, linked.units);
            tell_ids(out, ASSEMBLED_IDS, &linked.ids, linked.units);
            0
        }
    }
}

// The graph of a bundle: a number from 1 to 13, with its place in out[0]; or 0 with the number of units in out[0], their files'
// indices from GRAPH_FILES on, where their lists start among the ids from GRAPH_STARTS on, how long they are from GRAPH_LENGTHS on, and
// the ids from GRAPH_IDS on. Ruled out: a list with an id twice; a unit that nothing reached imports.
pub fn steps_discover(s: &[u8], out: &mut [usize]) -> u8
    ensures value { result ≡ number_of (verdict s.now) }
    ensures graph_told { GraphTold s.now out.old out.new }
{
    match reader::read(s, &mut Card::empty()) {
        Err(e) => {
            tell(out, 0, e.place);
            u8::from(e.cause)
        }
        Ok(b) => {
            let g = driver::discover_carded(&b);
            tell(out, 0, g.units);
            tell_places(out, GRAPH_FILES, &g.files, g.units);
            tell_ids(out, GRAPH_STARTS, &g.start, g.units);
            tell_ids(out, GRAPH_LENGTHS, &g.len, g.units);
            tell_ids(out, GRAPH_IDS, &g.ids, g.count);
            0
        }
    }
}
