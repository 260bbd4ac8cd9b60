// The report in a lent buffer: it is written only where all of it fits.
ghost use Rattle.std.specs.Prelude.{◌≡◌, ◌+◌, ◌≤◌, ◌<◌, ◌^◌, length};
ghost use Rattle.bundle.specs.Limits.{file_limit};
ghost use Rattle.discovery.specs.Discovery.{Fault};
ghost use Rattle.driver.specs.Meaning.{fault_told};
ghost use Rattle.order.specs.Report.{lent_report, reporting};
ghost use Rattle.order.specs.Told.{report_told};
ghost use Rattle.order.specs.Writing.{records_told, ring_records, written3};

use refusal::{Cause, Refusal};

// What a report has a record of: a number, and a place.
pub trait Recorded {
    ghost told: { Self → Fault };

    fn number(&self) -> u8
        ensures { result ≡ (told self.now).number };

    fn place(&self) -> usize
        ensures { result ≡ (told self.now).place };
}

impl Recorded for Refusal {
    ghost told = { fault_told };

    fn number(&self) -> u8 {
        u8::from(self.cause)
    }

    fn place(&self) -> usize {
        self.place
    }
}

// Any number, be it that of a cause or not, and any place.
#[derive(Clone, Copy, Debug, PartialEq, Eq)]
pub struct Numbered {
    pub number: u8,
    pub place: usize,
}

impl Recorded for Numbered {
    ghost told = { λ n. record { number = n.number; place = n.place } };

    fn number(&self) -> u8 {
        self.number
    }

    fn place(&self) -> usize {
        self.place
    }
}

// A number, and a place in two bytes.
fn put_record(out: &mut [u8], at: usize, number: u8, place: usize)
    requires { at + 3 ≤ length out.old }
    ensures { out.new ≡ written3 out.old at number place }
{
    let [high, low] = ((place % 65536) as u16).to_be_bytes();
    out[at] = number;
    out[at + 1] = high;
    out[at + 2] = low;
}

// The report of faults. Ruled out: 14 where just as many bytes are lent as the report has; a byte of it written where it exceeds them.
pub fn write_faults<F: Recorded>(faults: &[F], out: &mut [u8]) -> Result<usize, Refusal>
    requires { length faults.now < 2 ^ 32 }
    ensures value { report_told result ≡ reporting (records_told F.told faults.now) (length out.old) }
    ensures out_after { out.new ≡ lent_report (records_told F.told faults.now) out.old }
{
    let length = 3 * faults.len();
    if length > out.len() {
        return Err(Cause::SmallBuffer.at(0));
    }
    for (i, fault) in faults.iter().enumerate() {
        put_record(out, 3 * i, fault.number(), fault.place());
    }
    Ok(length)
}

// The report of a ring of ids. Ruled out: a report with an id left out; one that ends in the ring's first id again.
pub fn write_ring(ids: &[u16], out: &mut [u8]) -> Result<usize, Refusal>
    requires { length ids.now ≤ file_limit }
    ensures value { report_told result ≡ reporting (ring_records ids.now) (length out.old) }
    ensures out_after { out.new ≡ lent_report (ring_records ids.now) out.old }
{
    let length = 4 + ids.len();
    if length > out.len() {
        return Err(Cause::SmallBuffer.at(0));
    }
    put_record(out, 0, u8::from(Cause::Ring), 0);
    out[3] = ids.len() as u8;
    for i in 0..ids.len() {
        let [_, low] = ids[i].to_be_bytes();
        out[4 + i] = low;
    }
    Ok(length)
}
