// Step 5, `assemble_program`: its faults, and what the uses of a unit become. The functions have the names of resolve_order.rs. Crate
// items has the length and the bytes of what is written.
#![tactic(auto)]

mod checks;
mod enums;
mod targets;
mod units;

pub use checks::report_faults;
use fixed_vec::FixedVec;
use refusal::Refusal;
pub use targets::{Target, target_of};
pub use units::{Program, Unit, unit_items};

// The most faults of step 5: every item an enum, and no main.
const FAULTS: usize = bundle::limits::ITEMS + 1;

// The faults of step 5, in the order of their pushes.
type Faults = FixedVec<Refusal, FAULTS>;
