// The import graph of the units and its linked order: the ported parts of driver/mod.rs and driver/linearization.rs.
#![tactic(auto)]

ghost use Rattle.std.specs.Prelude.{◌≡◌};
ghost use Rattle.graph.specs.declared.Unordered.TheVariants.{Refused};

use refusal::Cause;

mod ids;
mod linearization;

pub use ids::Ids;
pub use linearization::linearize_given;

// The most units of a graph, and the most ids in all of its lists (specs/Limits.antt has the same two numbers).
pub const UNITS: usize = 64;

pub const IDS: usize = 256;

// A graph: unit u, below `units`, lists the ids from start[u] on, len[u] of them, among the first `count` of ids. Arrays in a
// record by value, not lists: the linker has no heap, and document 01 has this form of a graph.
#[derive(Clone, Copy)]
pub struct Graph {
    pub start: [u16; UNITS],
    pub len: [u16; UNITS],
    pub ids: [u16; IDS],
    pub units: usize,
    pub count: usize,
}

// Why there is no linked order: a ring of units that list each other, or what the graph is refused for.
#[derive(Clone, Copy, Debug, PartialEq, Eq)]
pub enum Unordered {
    Ring(Ids),
    Refused(Cause),
}

impl From<Cause> for Unordered {
    ghost from_gives = { λ c u. u ≡ Refused c };

    fn from(c: Cause) -> Unordered {
        Unordered::Refused(c)
    }
}
