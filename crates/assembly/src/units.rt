// A program: the units of a linked order.
ghost use Rattle.std.specs.Prelude.{◌≡◌, ◌≤◌, ◌<◌, ◌^◌, length};
ghost use Rattle.bundle.specs.Limits.{depth_limit};
ghost use Rattle.bundle.specs.Stand.{Bytes};
ghost use Rattle.bundle.specs.Decode.{decode, items_at};
ghost use Rattle.assembly.specs.Assemble.{items_of, has_main};
ghost use Rattle.assembly.specs.Codes.{given-prop, placed-prop};
ghost use Rattle.assembly.specs.Given.{PlacedUnit, OrderGiven};
ghost use Rattle.assembly.specs.Targets.{UnitOf};
ghost use Rattle.assembly.specs.Walk.{main_at};

use bundle::limits::FUNCTION;
use bundle::{Items, Kind, Range};
use discovery::Known;

// A checked bundle, what discovery keeps of it, and the ids of its units in linked order.
#[derive(Clone, Copy)]
pub struct Program<'a> {
    pub bytes: &'a [u8],
    pub known: &'a Known,
    pub ids: &'a [u16],
    ghost fit: { Bytes bytes.now },
    ghost given: { OrderGiven bytes.now known.now ids.now (length ids.now) } by { given-prop bytes.now known.now ids.now (length ids.now) },
}

// The unit `id` of it, of so many.
#[derive(Clone, Copy)]
pub struct Unit<'a> {
    pub bytes: &'a [u8],
    pub known: &'a Known,
    pub units: usize,
    pub id: usize,
    ghost fit: { Bytes bytes.now },
    ghost placed: { PlacedUnit bytes.now known.now id } by { placed-prop bytes.now known.now id },
    ghost among: { UnitOf bytes.now known.now units id },
}

impl<'a> Program<'a> {
    // The unit of an id.
    pub fn unit(&self, id: usize) -> Unit<'a>
        requires { id < length self.now.ids.now }
        ensures { (result.bytes.now ≡ self.now.bytes.now) × (result.id ≡ id) }
    {
        Unit {
            bytes: self.bytes,
            known: self.known,
            units: self.ids.len(),
            id,
        }
    }
}

// Where the items of the unit `id` stand, of which nothing more is asked than its file and where the files stand. Ruled out: those of the
// file whose index is the id.
pub fn unit_items(s: &[u8], known: &Known, id: usize) -> Range
    requires { PlacedUnit s.now known.now id }
    ensures { (items_at depth_limit s.now result.end result.at ≡ items_of (decode s.now) id) × (result.end ≤ 2 ^ 27) }
{
    bundle::file_items(s, known.place_of(known.files[id]))
}

impl<'a> Unit<'a> {
    // Where its items stand.
    pub fn items(&self) -> Range
        ensures { (items_at depth_limit self.now.bytes.now result.end result.at ≡ items_of (decode self.now.bytes.now) self.now.id) × (result.end ≤ 2 ^ 27) }
    {
        unit_items(self.bytes, self.known, self.id)
    }

    // Whether it has a main function: one at its top, and not inside its modules.
    pub fn has_main(&self) -> bool
        ensures { result ≡ has_main (items_of (decode self.now.bytes.now) self.now.id) }
    {
        for at in Items::of(self.bytes, self.items()) {
            if is_main_function(self.bytes, at) {
                return true;
            }
        }
        false
    }
}

// Whether the item is a function named `main`.
fn is_main_function(s: &[u8], at: usize) -> bool
    requires { at < 2 ^ 58 }
    ensures { result ≡ main_at s.now at }
{
    match bundle::kind(s, at) {
        Kind::Named(kind) => kind == FUNCTION && names::is_main(bundle::item_name(s, at)),
        Kind::Use | Kind::Module | Kind::Ignored => false,
    }
}
