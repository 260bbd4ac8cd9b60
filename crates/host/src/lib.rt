// Operations as functions for programs in other languages: numbers and byte slices alone, each with the contract of the
// operation that it calls.
#![tactic(auto)]

ghost use Rattle.std.specs.Prelude.{◌≡◌, length as list_n_length};
ghost use Rattle.bundle.specs.Read.{number_of, verdict};
ghost use Rattle.host.specs.ResolveTold.{place_told, kind_of, index_told, left_told, fault_told};
ghost use Rattle.host.specs.OrderTold.{order_number_told, order_report_told, order_told};
ghost use Rattle.host.specs.GraphTold.{graph_of, ordered_told, count_told};
ghost use Rattle.host.specs.LinkTold.{answer_of, number_told, report_told, image_told, answer_told, rows_told};
ghost use Rattle.graph.specs.Given.{linearize_given};
ghost use Rattle.order.specs.Told.{told as ordered_answer};
ghost use Rattle.program.specs.Told.{told as assembled_answer};
ghost use Rattle.resolution.specs.Call.{resolve};
ghost use Rattle.remapping_lines.specs.Lines.{lines_answer, lines_buffer};
ghost use Rattle.host.specs.RemappingsTold.{lines_number, lines_told};

use graph::{Graph, Unordered};
use order::Ordered;
use program::Assembled;
use refusal::{Cause, Refusal};
use resolution::Target;

mod tree;

// The most units, and the most entries of a tree.
pub const FILES: usize = bundle::limits::FILES;

pub const ENTRIES: usize = scopes::ENTRIES;

// The most units of a graph given directly, and the most ids in its lists.
pub const UNITS: usize = graph::UNITS;

pub const IDS: usize = graph::IDS;

// Places of a lent tree's two arrays that no entry has one of.
pub const TREE_OPENED: usize = scopes::OPENED;

pub const TREE_CELLS: usize = scopes::CELLS;

// The layout of `gontsamy_link`'s answer, as specs/LinkTold.antt has it: five numbers, the units' files, the ids in linked order.
pub const ANSWER_PLACE: usize = 0;

pub const ANSWER_REPORT: usize = 1;

pub const ANSWER_UNITS: usize = 2;

pub const ANSWER_IMAGE: usize = 3;

pub const ANSWER_ENTRIES: usize = 4;

pub const ANSWER_FILES: usize = 5;

pub const ANSWER_IDS: usize = ANSWER_FILES + FILES;

pub const ANSWER: usize = ANSWER_IDS + FILES;

// Of its rows: an entry's numbers, and all of them.
pub const ROW: usize = 11;

pub const ROWS: usize = ROW * ENTRIES;

// The kind of a resolution that leads to a folder, which can't be read as a file; no refusal's number.
pub const FOLDER: u8 = 255;

// Checks a bundle: 0, or a number from 1 to 13 with its place in `place`. Ruled out: 0 for a bundle that is refused; a place
// written where there is none.
#[unsafe(no_mangle)]
pub extern "C" fn gontsamy_check(s: &[u8], place: &mut usize) -> u8
    ensures value { result ≡ number_of (verdict s.now) }
    ensures place_after { place.new ≡ place_told (verdict s.now) place.old }
{
    match reader::check(s) {
        Ok(_) => 0,
        Err(e) => {
            *place = e.place;
            u8::from(e.cause)
        }
    }
}

// Reads a remapping list, `context:prefix=target` one to a line, into a version 1 remapping section at the start of `out`: 0, with the
// section's length in `told`; or 3, 4, 12, 14 or 52, with its place in the list in `told`, and `out` as it was. Ruled out: `/b` as target
// of `a=/b=c`; a byte of `out` changed where the number is not 0.
#[unsafe(no_mangle)]
pub extern "C" fn gontsamy_remappings(list: &[u8], out: &mut [u8], told: &mut usize) -> u8
    ensures value { result ≡ lines_number (lines_answer list.now (list_n_length out.old)) }
    ensures out_after { out.new ≡ lines_buffer list.now out.old }
    ensures told_after { told.new ≡ lines_told (lines_answer list.now (list_n_length out.old)) }
{
    match remapping_lines::read_lines(list, out) {
        Ok(n) => {
            *told = n;
            0
        }
        Err(refusal) => {
            *told = refusal.place;
            u8::from(refusal.cause)
        }
    }
}

// Resolves a use: 0 for a file and FOLDER for a folder, with its index in `index` and the number of segments left in `left`; or a
// number, with its place in `place`. What is not told is as it was. Ruled out: a file of pay's library for an importer in payroll; 24
// where the lookup fails.
#[unsafe(no_mangle)]
pub extern "C" fn gontsamy_resolve(
    s: &[u8],
    importer: &[u8],
    u: &[u8],
    index: &mut usize,
    left: &mut usize,
    place: &mut usize,
) -> u8
    ensures value { result ≡ kind_of (resolve s.now importer.now u.now) }
    ensures index_after { index.new ≡ index_told (resolve s.now importer.now u.now) index.old }
    ensures left_after { left.new ≡ left_told (resolve s.now importer.now u.now) left.old }
    ensures place_after { place.new ≡ fault_told (resolve s.now importer.now u.now) place.old }
{
    match resolution::resolve(s, importer, u) {
        Ok(found) => {
            *left = found.left;
            match found.target {
                Target::File(i) => {
                    *index = i;
                    0
                }
                Target::Folder(i) => {
                    *index = i;
                    FOLDER
                }
            }
        }
        Err(e) => {
            *place = e.place;
            u8::from(e.cause)
        }
    }
}

// The linked order of a bundle, steps 1 to 4. 14 and nothing written where `answer` is shorter than ANSWER; otherwise a number from 1
// to 14, or 0, and in `answer`, laid out as that of `gontsamy_link`, its place, the report's length, how many units there are, their
// files' indices and the linked order. Ruled out: unit 0 alone where the entry imports another file; a byte of the report buffer changed
// where the number is 14.
#[unsafe(no_mangle)]
pub extern "C" fn gontsamy_order(s: &[u8], report: &mut [u8], answer: &mut [usize]) -> u8
    ensures value { result ≡ order_number_told s.now report.old answer.old }
    ensures report_after { report.new ≡ order_report_told s.now report.old answer.old }
    ensures answer_after { answer.new ≡ order_told s.now report.old answer.old }
{
    if answer.len() < ANSWER {
        return u8::from(Cause::SmallBuffer);
    }
    tell_link(answer, without_image(order::order(s, report)), 0)
}

// The linked order of a graph given directly: unit u, below `units`, lists the ids from start[u] on, len[u] of them, among the first
// `count` of ids. 0 and the order, or 26 and a ring: the ids at the start of `ordered`, zeros behind them, and how many they are in
// `length`; or 3, 1 or 29, and both as they were. Ruled out: the ring `0` for a unit 0 that lists itself; the order `0` alone where unit
// 0 lists unit 1.
#[unsafe(no_mangle)]
pub extern "C" fn gontsamy_linearize(
    start: &[u16; UNITS],
    len: &[u16; UNITS],
    ids: &[u16; IDS],
    units: usize,
    count: usize,
    ordered: &mut [u16; UNITS],
    length: &mut usize,
) -> u8
    ensures value { result ≡ (linearize_given (graph_of start.now len.now ids.now units count)).number }
    ensures ordered_after { ordered.new ≡ ordered_told (linearize_given (graph_of start.now len.now ids.now units count)) ordered.old }
    ensures length_after { length.new ≡ count_told (linearize_given (graph_of start.now len.now ids.now units count)) length.old }
{
    let (number, told) = match graph::linearize_given(Graph {
        start: *start,
        len: *len,
        ids: *ids,
        units,
        count,
    }) {
        Ok(order) => (0, order),
        Err(unordered) => match unordered {
            Unordered::Ring(ring) => (u8::from(Cause::Ring), ring),
            Unordered::Refused(cause) => return u8::from(cause),
        },
    };
    *ordered = told.padded();
    *length = told.as_slice().len();
    number
}

// The answer of steps 3 and 4 in the form of that of all steps: with no image.
fn without_image(answer: Result<Ordered, Refusal>) -> Result<Assembled, Refusal>
    ensures { assembled_answer result ≡ ordered_answer answer }
{
    match answer {
        Err(e) => Err(e),
        Ok(Ordered::Report(n)) => Ok(Assembled::Report(n)),
        Ok(Ordered::Units(linked)) => Ok(Assembled::Image(linked, 0)),
    }
}

// What `gontsamy_link` tells of an answer and of how many entries the tree has.
fn tell_link(answer: &mut [usize], a: Result<Assembled, Refusal>, entries: usize) -> u8
    ensures number { result ≡ (assembled_answer a).number }
    ensures answer_after { answer.new ≡ answer_of (assembled_answer a) entries answer.old }
{
    match a {
        Err(e) => {
            steps_c::tell_places(answer, ANSWER_PLACE, &[e.place, 0, 0, 0, entries], 5);
            u8::from(e.cause)
        }
        Ok(told) => {
            match told {
                Assembled::Report(n) => {
                    steps_c::tell_places(answer, ANSWER_PLACE, &[0, n, 0, 0, entries], 5);
                }
                Assembled::Image(linked, n) => {
                    let units = linked.units;
                    steps_c::tell_places(answer, ANSWER_PLACE, &[0, 0, units, n, entries], 5);
                    steps_c::tell_places(answer, ANSWER_FILES, &linked.files, units);
                    steps_c::tell_ids(answer, ANSWER_IDS, &linked.ids, units);
                }
            }
            0
        }
    }
}

// A bundle linked, steps 1 to 6. 14 and nothing written where `answer` is shorter than ANSWER or `rows` than ROWS; otherwise a number
// from 1 to 15 or from 40 to 51, or 0, and in `answer` its place, the report's length, how many units there are, the image's length
// and how many entries the tree has, each 0 where there is none, the units' files' indices and the linked order; in `rows` the tree's
// entries where there is an image, ROW numbers each. Ruled out: an image where step 6 refuses a use; an answer or a row that is cut; a
// tree where there is no image.
#[unsafe(no_mangle)]
pub extern "C" fn gontsamy_link(
    s: &[u8],
    report: &mut [u8],
    image: &mut [u8],
    answer: &mut [usize],
    rows: &mut [u64],
) -> u8
    ensures value { result ≡ number_told s.now report.old image.old answer.old rows.old }
    ensures report_after { report.new ≡ report_told s.now report.old answer.old rows.old }
    ensures image_after { image.new ≡ image_told s.now image.old answer.old rows.old }
    ensures answer_after { answer.new ≡ answer_told s.now report.old image.old answer.old rows.old }
    ensures rows_after { rows.new ≡ rows_told s.now image.old answer.old rows.old }
{
    if answer.len() < ANSWER {
        return u8::from(Cause::SmallBuffer);
    }
    if rows.len() < ROWS {
        return u8::from(Cause::SmallBuffer);
    }
    let told = linker::link_rows(s, report, image, rows);
    tell_link(answer, told.answer, told.entries)
}
