// Steps 3 and 4 one after the other.
ghost use Rattle.std.specs.Prelude.{◌≡◌, ◌<◌, ◌≤◌, length, take};
ghost use Rattle.bundle.specs.Limits.{file_limit};
ghost use Rattle.order.specs.Report.{lent_report, records_of};
ghost use Rattle.order.specs.Call.{linking};
ghost use Rattle.order.specs.Steps.{Found, outcome_of, answer_of};
ghost use Rattle.order.specs.Told.{told, units_told};

use crate::linked::{Linked, Ordered, UNITS};
use crate::report::{write_faults, write_ring};
use graph::Unordered;
use refusal::Refusal;

// The units, of which these are the files, and their order.
fn linked(files: &[usize], units: usize, ids: [u16; UNITS]) -> Linked
    requires { (0 < units) × (units ≤ file_limit) × (units ≤ length files.now) }
    ensures { units_told result 0 ≡ linking (take units files.now) ids }
{
    let mut found = [0usize; UNITS];
    for i in 0..units {
        found[i] = files[i];
    }
    Linked {
        units,
        files: found,
        ids,
    }
}

// What is answered after discovery left g: its faults as a report, a ring as one, or the linked order. Ruled out: a ring told
// where there is a fault; an order that stops before the last unit.
pub fn order_of(g: driver::Graph, out: &mut [u8]) -> Result<Ordered, Refusal>
    requires { Found g }
    ensures value { told result ≡ answer_of g (length out.old) }
    ensures out_after { out.new ≡ lent_report (records_of (outcome_of g)) out.old }
{
    if g.fault_count > 0 {
        let n = write_faults(&g.faults[..g.fault_count], out)?;
        return Ok(Ordered::Report(n));
    }
    let walked = graph::linearize_given(graph::Graph {
        start: g.start,
        len: g.len,
        ids: g.ids,
        units: g.units,
        count: g.count,
    });
    match walked {
        Ok(order) => Ok(Ordered::Units(linked(&g.files, g.units, order.padded()))),
        Err(unordered) => match unordered {
            Unordered::Ring(ring) => {
                let n = write_ring(ring.as_slice(), out)?;
                Ok(Ordered::Report(n))
            }

            // Discovery leaves no graph that is refused.
            Unordered::Refused(_) => unreachable!(),
        },
    }
}
