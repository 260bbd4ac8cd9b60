// The lines of a report.
ghost use Rattle.std.specs.Prelude.{◌∷◌};
ghost use Rattle.names.specs.Decimal.{decimal};
ghost use Rattle.text.specs.Words.{lines};
ghost use Rattle.printing.specs.Lines.{ring_lines};
ghost use Rattle.printing.specs.Reports.{fault_lines, report_lines};

use refusal::Cause;
use text::Sink;

// A line for each of the faults.
fn put_faults<S: Sink>(out: &mut S, report: &[u8])
    ensures { S.tells out.old (lines (fault_lines report.now)) out.new }
{
    let (records, _) = report.as_chunks::<3>();
    for [number, high, low] in records {
        text::put_no(
            out,
            u64::from(*number),
            u64::from(u16::from_be_bytes([*high, *low])),
        );
    }
}

// A blank and an id.
fn put_id<S: Sink>(out: &mut S, id: u8)
    ensures { S.tells out.old (32 ∷ decimal id) out.new }
{
    out.put(b" ");
    text::put_decimal(out, u64::from(id));
}

// The line `ring` and the ids, after `no 26 0`.
fn put_ring<S: Sink>(out: &mut S, ids: &[u8])
    ensures { S.tells out.old (lines (ring_lines ids.now)) out.new }
{
    text::put_no(out, u64::from(u8::from(Cause::Ring)), 0);
    out.put(b"ring");
    for id in ids {
        put_id(out, *id);
    }
    out.put(b"\n");
}

// A line for each record.
#[tactic(auto, unfolding(crate::specs::Reports::report_lines))]
pub fn put_report<S: Sink>(out: &mut S, report: &[u8])
    ensures { S.tells out.old (lines (report_lines report.now)) out.new }
{
    match report {
        [number, _, _, _, ids @ ..] if *number == u8::from(Cause::Ring) => put_ring(out, ids),
        _ => put_faults(out, report),
    }
}
