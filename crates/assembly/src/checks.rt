// The faults of step 5.
ghost use Rattle.std.specs.Prelude.{◌≡◌, ◌+◌, ◌-◌, ◌≤◌, ◌<◌, ◌++◌, length, take};
ghost use Rattle.bundle.specs.Decode.{decode};
ghost use Rattle.order.specs.Report.{lent_report, reporting};
ghost use Rattle.order.specs.Told.{report_told};
ghost use Rattle.assembly.specs.Call.{faults_told};
ghost use Rattle.assembly.specs.Faults.{enums_of};
ghost use Rattle.assembly.specs.FaultRoom.{fault_limit, main_told, Told};

use crate::enums::forbid_enum_dec;
use crate::{Faults, Program};
use refusal::{Cause, Refusal};

// 28 for the enums of all units but the last, which is unit 0.
fn forbid_enum_dec_in_deps(program: &Program<'_>, faults: &mut Faults)
    requires { length faults.old + length (enums_of (decode program.now.bytes.now) (take (length program.now.ids.now - 1) program.now.ids.now)) ≤ fault_limit }
    ensures { Told faults.old faults.new (enums_of (decode program.now.bytes.now) (take (length program.now.ids.now - 1) program.now.ids.now)) }
{
    for id in &program.ids[..program.ids.len() - 1] {
        forbid_enum_dec(&program.unit(usize::from(*id)), faults);
    }
}

// 27 where unit 0 has no main function.
fn require_main(program: &Program<'_>, faults: &mut Faults)
    requires { length faults.old < fault_limit }
    ensures { faults.new ≡ faults.old ++ main_told (decode program.now.bytes.now) }
{
    if !program.unit(0).has_main() {
        faults.push(Cause::NoMain.at(0));
    }
}

// The faults of a linked order, reported in the order of the pushes; no byte where there is none. Unit 0, which alone has a main, is
// linked last. Ruled out: 28 for an enum of unit 0; 27 before a 28; a nested enum of another unit untold.
pub fn report_faults(program: &Program<'_>, report: &mut [u8]) -> Result<usize, Refusal>
    ensures value { report_told result ≡ reporting (faults_told (decode program.now.bytes.now) program.now.ids.now) (length report.old) }
    ensures report_after { report.new ≡ lent_report (faults_told (decode program.now.bytes.now) program.now.ids.now) report.old }
{
    let mut faults = Faults::new(Cause::Cut.at(0));
    forbid_enum_dec_in_deps(program, &mut faults);
    require_main(program, &mut faults);
    order::write_faults(faults.as_slice(), report)
}
