// linearization.rs: the order in which the units are linked, depth first from unit 0, a unit after its list.
ghost use Rattle.std.specs.Prelude.{◌≡◌, ◌+◌, ◌<◌, ◌≤◌, get_or, ltb};
ghost use Rattle.std.specs.List.{list_all};
ghost use Rattle.graph.specs.Given.{deps_of, refusal, linearize_given};
ghost use Rattle.graph.specs.Told.{number_told, told};
ghost use Rattle.graph.specs.Limits.{unit_limit, id_limit};
ghost use Rattle.graph.specs.State.{Ready, Visited};

use crate::{Graph, IDS, Ids, UNITS, Unordered};
use refusal::Cause;

// The state of the walk: the units that are being visited, oldest first; those that are done, in order; and which are done,
// unit by unit, so that it is one look and no search.
#[derive(Drop)]
struct Search {
    visiting: Ids,
    order: Ids,
    visited: [bool; UNITS],
}

impl Graph {
    // What unit u lists.
    fn list(&self, u: usize) -> &[u16]
        requires { (u < unit_limit) × (get_or self.now.start u 0 + get_or self.now.len u 0 ≤ id_limit) }
        ensures { result.now ≡ deps_of self.now u }
    {
        let first = usize::from(self.start[u]);
        &self.ids[first..first + usize::from(self.len[u])]
    }

    // Whether each id in the list of u is a unit.
    fn knows(&self, u: usize) -> bool
        requires { (u < unit_limit) × (get_or self.now.start u 0 + get_or self.now.len u 0 ≤ id_limit) }
        ensures { result ≡ list_all (λ d. ltb d self.now.units) (deps_of self.now u) }
    {
        self.list(u).iter().all(|d| usize::from(*d) < self.units)
    }
}

// The walk at u, which is not done: the ring where u is being visited, or else all that it lists and then u. What is done is
// tested before the call, so that it costs none.
fn dfs_linearize(g: Graph, x: &mut Search, u: u16) -> Result<(), Ids>
    requires { Ready g x.old u }
    ensures { Visited g x.old u result x.new }
{
    if let Some(p) = x.visiting.position(u) {
        return Err(Ids::of(&x.visiting.as_slice()[p..]));
    }
    x.visiting.push(u);
    for d in g.list(usize::from(u)) {
        // A unit that lists itself is no ring.
        if *d != u && !x.visited[usize::from(*d)] {
            dfs_linearize(g, x, *d)?;
        }
    }
    x.visiting.pop();
    x.visited[usize::from(u)] = true;
    x.order.push(u);
    Ok(())
}

// What refuses a graph given directly: too much, a list that passes the end of the ids, or an id in a list that is no unit.
#[tactic(auto, unfolding(crate::specs::Given::refusal, crate::specs::Given::counted), using(crate::specs::GivenFacts::checks))]
fn check(g: Graph) -> Result<(), Cause>
    ensures { number_told result ≡ refusal g }
{
    if g.units == 0 || g.units > UNITS || g.count > IDS {
        return Err(Cause::TooMany);
    }
    for u in 0..g.units {
        if usize::from(g.start[u]) + usize::from(g.len[u]) > g.count {
            return Err(Cause::Cut);
        }
    }
    for u in 0..g.units {
        if !g.knows(u) {
            return Err(Cause::UnknownUnit);
        }
    }
    Ok(())
}

// The linked order of a graph given directly, a ring, or what refuses it. The contract rules out, among others, the ring `0`
// for a unit 0 that lists itself, and the order `0` alone where unit 0 lists unit 1.
pub fn linearize_given(g: Graph) -> Result<Ids, Unordered>
    ensures { told result ≡ linearize_given g }
{
    check(g)?;
    let mut x = Search {
        visiting: Ids::new(),
        order: Ids::new(),
        visited: [false; UNITS],
    };
    match dfs_linearize(g, &mut x, 0) {
        Ok(()) => Ok(x.order),
        Err(ring) => Err(Unordered::Ring(ring)),
    }
}
