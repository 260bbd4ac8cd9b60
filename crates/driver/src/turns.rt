// The driver of discovery: units are handled in the order of their ids, until none is left.
ghost use Rattle.std.specs.Prelude.{◌≡◌, ◌+◌, ◌<◌};
ghost use Rattle.bundle.specs.Decode.{decode};
ghost use Rattle.bundle.specs.Read.{verdict};
ghost use Rattle.bundle.specs.Results as Checked;
ghost use Rattle.discovery.specs.Places.{Fresh, Places};
ghost use Rattle.driver.specs.Complete.{Table, Complete};
ghost use Rattle.driver.specs.Turns.{Invariant, Discovers};

use crate::Graph;
use crate::lookups::resolve_imports;
use crate::readings::load_and_parse_dependencies;
use card::{Card, Carded};
use discovery::{Known, uses_of};

// All lookups of a unit, then all its readings.
fn turn(b: &Carded<'_>, g: &mut Graph, unit: usize, known: &mut Known)
    requires graph { Invariant (decode b.now.bytes.now) unit g.old × (unit < g.old.units) }
    requires table { Table (decode b.now.bytes.now) unit g.old known.old × Places b.now.bytes.now known.old }
    ensures graph { Invariant (decode b.now.bytes.now) (unit + 1) g.new }
    ensures table { Table (decode b.now.bytes.now) (unit + 1) g.new known.new × Places b.now.bytes.now known.new }
{
    let index = g.files[unit];
    let uses = uses_of(b.bytes, known.place_of(index));
    let first = known.begin(index, uses.as_slice().len());
    resolve_imports(b, b.card.folders + 1 + index, &uses, g, known, first);
    load_and_parse_dependencies(g, unit);
}

// The graph of a checked bundle; what every use of a reached file resolves to is kept. Ruled out: a graph of unit 0 alone where it
// imports another file; a list with an id twice; a use of a reached file without its entry.
pub fn discover(b: &Carded<'_>, known: &mut Known) -> Graph
    requires { Fresh known.old }
    ensures discovers { Discovers (decode b.now.bytes.now) result }
    ensures complete { Complete (decode b.now.bytes.now) known.new × Places b.now.bytes.now known.new }
{
    known.put_places(b.card);
    let mut g = Graph::entry_alone();
    let mut unit = 0;
    // A `while`, since each turn can add units: the bound grows in the loop.
    while unit < g.units {
        turn(b, &mut g, unit, known);
        unit += 1;
    }
    g
}

// The graph alone, of a bundle whose card is there.
pub fn discover_carded(b: &Carded<'_>) -> Graph
    ensures { Discovers (decode b.now.bytes.now) result }
{
    discover(b, &mut Known::new())
}

// The graph alone, of the bytes of a bundle.
pub fn discover_dependencies(s: &[u8]) -> Graph
    requires { verdict s.now ≡ Checked.Ok }
    ensures { Discovers (decode s.now) result }
{
    match reader::read(s, &mut Card::empty()) {
        Ok(b) => discover_carded(&b),
        Err(_) => unreachable!(),
    }
}
