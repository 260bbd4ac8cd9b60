// From a bundle to one linked program: steps 1 to 6 and the image as one operation.
#![tactic(auto)]

mod linked;
mod steps;

ghost use Rattle.std.specs.Prelude.{◌≡◌, ◌≤◌};
ghost use Rattle.scope_tree.specs.Trees.{cleared};
ghost use Rattle.rows.specs.TreeRows.{Listed};
ghost use Rattle.program.specs.Told.{told};
ghost use Rattle.linker.specs.Call.{link_answer, link_report, link_image, LinkTree, link_entries};
ghost use Rattle.linker.specs.Told.{has_image};

pub use linked::{Linked, Told};
use program::Assembled;
use refusal::Refusal;
use scopes::Tree;
use steps::link_into;

// Whether there is an image, and so a tree.
fn has_image(answer: &Result<Assembled, Refusal>) -> bool
    ensures { result ≡ has_image answer.now }
{
    matches!(answer, Ok(Assembled::Image(_, _)))
}

// A bundle linked, with no tree given: 1 to 13 of the bundle; the report of discovery's faults, of a ring or of step 5's faults, or 14
// where it exceeds the lent buffer; 40 to 51 with the mark of the item that step 6 ends at; 15, then 14 of the image; or the units, their
// order, the image and the tree. Where there is no image the tree is empty. Ruled out: an image written where step 6 refuses a use; a
// tree without what an imported file declares.
pub fn link_new(s: &[u8], report: &mut [u8], image: &mut [u8]) -> Linked
    ensures answer_value { told result.answer ≡ link_answer s.now report.old image.old }
    ensures report_after { report.new ≡ link_report s.now report.old }
    ensures image_after { image.new ≡ link_image s.now image.old }
    ensures link_tree { LinkTree s.now image.old cleared result.tree }
{
    let mut tree = scopes::empty();
    let answer = link_into(s, report, image, &mut tree);
    if !has_image(&answer) {
        let none = scopes::empty();
        return Linked { answer, tree: none };
    }
    Linked { answer, tree }
}

// The same, with the tree's entries as rows of numbers in `out`, as far as there is place: no tree is copied. Ruled out: an entry left
// out; a row where there is no image.
pub fn link_rows(s: &[u8], report: &mut [u8], image: &mut [u8], out: &mut [u64]) -> Told
    ensures answer_value { told result.answer ≡ link_answer s.now report.old image.old }
    ensures report_after { report.new ≡ link_report s.now report.old }
    ensures image_after { image.new ≡ link_image s.now image.old }
    ensures listed { Listed (link_entries s.now image.old) out.old result.entries out.new × (result.entries ≤ 1024) }
{
    let mut tree = scopes::empty();
    let answer = link_into(s, report, image, &mut tree);
    if !has_image(&answer) {
        return Told { answer, entries: 0 };
    }
    let entries = rows::put_rows(&tree.view(), out);
    Told { answer, entries }
}

// As `link_new`, with a tree given, which comes back where there is no image. Ruled out: an empty tree for the one that was given.
pub fn link(s: &[u8], report: &mut [u8], image: &mut [u8], tree: Tree) -> Linked
    ensures answer_value { told result.answer ≡ link_answer s.now report.old image.old }
    ensures report_after { report.new ≡ link_report s.now report.old }
    ensures image_after { image.new ≡ link_image s.now image.old }
    ensures link_tree { LinkTree s.now image.old tree result.tree }
{
    let Linked { answer, tree: made } = link_new(s, report, image);
    if has_image(&answer) {
        return Linked { answer, tree: made };
    }
    Linked { answer, tree }
}
