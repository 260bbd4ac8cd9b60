// The tree calls of items and of units.
ghost use Rattle.std.specs.Prelude.{◌≡◌, ◌+◌, ◌<◌, ◌^◌, [], ◌∷◌};
ghost use Rattle.bundle.specs.Scan.{byte, text};
ghost use Rattle.bundle.specs.Decode.{decode};
ghost use Rattle.discovery.specs.Walk.{UseMark};
ghost use Rattle.assembly.specs.Assemble.{file_of};
ghost use Rattle.assembly.specs.Targets.{InFile};
ghost use Rattle.assembly.specs.Walk.{use_bytes, HasName, NamedAt};
ghost use Rattle.scope_tree.specs.Form.{resolves_use};
ghost use Rattle.commit.specs.Lending.{lent_in, Kept};
ghost use Rattle.scopes.specs.Meets.{request_of, declares};
ghost use Rattle.scope_walk.specs.Scopes.{asked, is_public};
ghost use Rattle.scope_walk.specs.Steps.{Walks, stop_of, Fitting};

use assembly::Unit;
use bundle::limits::{ENUM, FUNCTION};
use refusal::Refusal;
use scopes::lent::Lent;
use scopes::{Call, Item};

// The most bytes of a use with its path rewritten.
const USE_SIZE: usize = 2681;

// A call; where it is refused, it is at this place.
pub fn ask(tree: &mut Lent, call: Call, place: usize) -> Result<(), Refusal>
    ensures kept { Kept tree.old tree.new }
    ensures walked { Walks (lent_in tree.old) (asked place (request_of call.entry) ∷ []) (stop_of result) (lent_in tree.new) }
{
    match scopes::lent::call(tree, call) {
        Ok(_) => Ok(()),
        Err(cause) => Err(cause.at(place)),
    }
}

fn is_public(s: &[u8], at: usize) -> bool
    requires { at < 2 ^ 58 }
    ensures { result ≡ is_public (byte s.now (at + 3)) }
{
    bundle::item_visibility(s, at) == 1
}

// What an item with a name is called by.
pub fn item_at(s: &[u8], at: usize) -> Item<'_>
    requires { (at < 65536) × HasName s.now at }
    ensures { (result.name.now ≡ text s.now (at + 4)) × ((result.public ≡ is_public (byte s.now (at + 3))) × (result.mark ≡ at)) }
{
    Item {
        name: bundle::item_name(s, at),
        public: is_public(s, at),
        mark: at as u16,
    }
}

// The declaration of an item of this kind: a type alias has any that is no function's and no enum's.
fn declaration(kind: u8, item: Item<'_>) -> Call<'_>
    ensures { request_of result ≡ declares kind item.entry.name.now item.entry.public item.entry.mark }
{
    match kind {
        FUNCTION => Call::Function(item),
        ENUM => Call::Enum(item),
        _ => Call::Alias(item),
    }
}

// An item that is a name alone.
pub fn ask_named(s: &[u8], at: usize, kind: u8, tree: &mut Lent) -> Result<(), Refusal>
    requires { (at < 65536) × NamedAt s.now at kind }
    ensures kept { Kept tree.old tree.new }
    ensures walked { Walks (lent_in tree.old) (asked at (declares kind (text s.now (at + 4)) (is_public (byte s.now (at + 3))) at) ∷ []) (stop_of result) (lent_in tree.new) }
{
    ask(tree, declaration(kind, item_at(s, at)), at)
}

// A use, its path rewritten.
pub fn ask_use(unit: &Unit<'_>, at: usize, tree: &mut Lent) -> Result<(), Refusal>
    requires { (UseMark unit.now.bytes.now at × InFile unit.now.bytes.now (file_of (decode unit.now.bytes.now) unit.now.id) at) × Fitting unit.now.bytes.now at }
    ensures kept { Kept tree.old tree.new }
    ensures walked { Walks (lent_in tree.old) (asked at (resolves_use (use_bytes unit.now.bytes.now (file_of (decode unit.now.bytes.now) unit.now.id) at) (is_public (byte unit.now.bytes.now (at + 3)))) ∷ []) (stop_of result) (lent_in tree.new) }
{
    let mut decl = [0u8; USE_SIZE];
    let n = items::rewrite_use(unit.bytes, unit.known, unit.units, unit.id, at, &mut decl);
    ask(tree, Call::Use(&decl[..n], is_public(unit.bytes, at)), at)
}
