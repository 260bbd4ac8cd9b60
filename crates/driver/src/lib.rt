// The driver of discovery: which files an entry reaches, and what each of them imports. The functions have the names of driver/mod.rs.
#![tactic(auto)]

mod lookups;
mod readings;
mod record;
mod turns;

pub use readings::Reading;
pub use record::{Graph, Import};
pub use turns::{discover, discover_carded, discover_dependencies};
