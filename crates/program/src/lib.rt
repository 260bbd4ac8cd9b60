// The image of an assembled program; and from bytes to an image, steps 1 to 5 as one operation, without step 6.
#![tactic(auto)]

mod assembled;
mod image;

ghost use Rattle.std.specs.Prelude.{◌≡◌};
ghost use Rattle.assembly.specs.Call.{assemble_answer, assemble_report, assemble_image};
ghost use Rattle.program.specs.Told.{told};

pub use assembled::Assembled;
use assembly::Program;
use discovery::Known;
pub use image::write_image;
use order::Ordered;
use refusal::Refusal;

// From any bytes to an image: 1 to 13 of the bundle; the report of discovery's faults, of a ring, or of step 5's faults, or 14
// where that exceeds its buffer; or the units, their order and the image, or 15, 14. Ruled out: an image beside a report; an
// image with the path of a use as the bundle has it.
pub fn assemble(s: &[u8], report: &mut [u8], image: &mut [u8]) -> Result<Assembled, Refusal>
    ensures value { told result ≡ assemble_answer s.now report.old image.old }
    ensures report_after { report.new ≡ assemble_report s.now report.old }
    ensures image_after { image.new ≡ assemble_image s.now image.old }
{
    // The first steps as in linker's `reported`, whose contract speaks of what step 6 comes to: one function for both would need a third
    // contract, from which each of the two has to be proved.
    let mut known = Known::new();
    match order::order_known(s, report, &mut known)? {
        Ordered::Report(n) => Ok(Assembled::Report(n)),
        Ordered::Units(linked) => {
            known.files = linked.files;
            let program = Program {
                bytes: s,
                known: &known,
                ids: &linked.ids[..linked.units],
            };
            let faults = assembly::report_faults(&program, report)?;
            if faults > 0 {
                return Ok(Assembled::Report(faults));
            }
            let n = image::write_image(&program, image)?;
            Ok(Assembled::Image(linked, n))
        }
    }
}
