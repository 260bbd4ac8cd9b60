// Steps 1 to 6 and the image, one after the other.
ghost use Rattle.std.specs.Prelude.{◌≡◌};
ghost use Rattle.scope_tree.specs.Trees.{cleared};
ghost use Rattle.scope_tree.specs.declared.Tree.{Tree};
ghost use Rattle.discovery.specs.Places.{Fresh};
ghost use Rattle.order.specs.Told.{told as told_of_steps};
ghost use Rattle.program.specs.Told.{told};
ghost use Rattle.linker.specs.Call.{link_answer, link_report, link_image, LinkTree};
ghost use Rattle.linker.specs.Join.{ReportedAs};
ghost use Rattle.linker.specs.Told.{tree_with};

use assembly::Program;
use discovery::Known;
use order::Ordered;
use program::Assembled;
use refusal::Refusal;
use scopes::Tree;

// Steps 1 to 5: 1 to 13 of the bundle; the report of discovery's faults, of a ring or of step 5's faults, or 14 where it exceeds the
// lent buffer; or units, with what their uses resolve to in `known`. Ruled out: units where step 5 finds a fault.
fn reported(s: &[u8], report: &mut [u8], known: &mut Known) -> Result<Ordered, Refusal>
    requires { Fresh known.old }
    ensures { ReportedAs s.now report.old report.new known.new (told_of_steps result) }
{
    match order::order_known(s, report, &mut *known)? {
        Ordered::Report(n) => Ok(Ordered::Report(n)),
        Ordered::Units(linked) => {
            known.files = linked.files;
            let program = Program {
                bytes: s,
                known: &*known,
                ids: &linked.ids[..linked.units],
            };
            let faults = assembly::report_faults(&program, report)?;
            if faults > 0 {
                return Ok(Ordered::Report(faults));
            }
            Ok(Ordered::Units(linked))
        }
    }
}

// All of them: what is answered, and the tree, which was empty and is made here. Where there is no image it may be made in part. Ruled
// out: an image where a call was refused.
pub fn link_into(
    s: &[u8],
    report: &mut [u8],
    image: &mut [u8],
    tree: &mut Tree,
) -> Result<Assembled, Refusal>
    requires { tree.old ≡ cleared }
    ensures answer_value { told result ≡ link_answer s.now report.old image.old }
    ensures report_after { report.new ≡ link_report s.now report.old }
    ensures image_after { image.new ≡ link_image s.now image.old }
    ensures link_tree { (t : Tree) → LinkTree s.now image.old t (tree_with result tree.new t) }
{
    let mut known = Known::new();
    match reported(s, report, &mut known)? {
        Ordered::Report(n) => Ok(Assembled::Report(n)),
        Ordered::Units(linked) => {
            let program = Program {
                bytes: s,
                known: &known,
                ids: &linked.ids[..linked.units],
            };
            scope_walk::walk_tree(&program, tree)?;
            let n = program::write_image(&program, image)?;
            Ok(Assembled::Image(linked, n))
        }
    }
}
