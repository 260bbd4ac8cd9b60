// The tree calls over arrays that the caller lends, the nine of a `Tree`: for a walk that keeps them and copies no record. Where a call
// is refused, all that was lent is as it was.
ghost use Rattle.std.specs.Prelude.{◌≡◌};
ghost use Rattle.scope_tree.specs.Form.{resolves_use};
ghost use Rattle.scope_tree.specs.Kinds.{kind_number, twice_number, deepest_for, opens_for};
ghost use Rattle.scope_tree.specs.Told.{done_told, call_told};
ghost use Rattle.commit.specs.Lending.{lent_in, Kept};
ghost use Rattle.scopes.specs.Meets.{Meets, request, request_of, left, Leaves};
ghost use Rattle.scopes.specs.Declares.{Declares};

use crate::call::{Call, Item};
use commit::Entry;
pub use commit::Lent;
use decision::batch::Staged;
use decision::decide;
use refusal::Cause;
use scope_tree::{DEPTH, Kind, OPENED};

// A declaration of a kind, a module opened: planned, then added.
fn declare(tree: &mut Lent, kind: Kind, item: Item) -> Result<(), Cause>
    ensures kept { Kept tree.old tree.new }
    ensures declared { Declares (lent_in tree.old) item.entry.name.now (kind_number kind) (twice_number kind) (deepest_for kind) item.entry.public item.entry.mark (opens_for kind) (done_told result) (lent_in tree.new) }
{
    let view = tree.view();
    let plan = decide::planned(&view, item.name, kind)?;
    let at = view.count();
    let staged = Staged {
        kind,
        name: plan.name,
        mark: item.mark,
        origin: 0,
        target: 0,
        moment: 0,
    };
    tree.add(
        at,
        Entry {
            staged,
            public: item.public,
            scope: plan.scope,
            opens: kind.opens(),
        },
    );
    Ok(())
}

// The innermost open module is left.
#[tactic(auto, using(crate::specs::Declares::exit_steps))]
pub fn exit(opened: &mut [u16; OPENED]) -> Result<(), Cause>
    ensures { Leaves opened.old (done_told result) opened.new }
{
    let depth = opened[DEPTH];
    if depth == 0 {
        return Err(Cause::NotInside);
    }
    opened[DEPTH] = depth - 1;
    Ok(())
}

// A use: its entries are decided, then committed.
fn resolve_use(tree: &mut Lent, decl: &[u8], public: bool) -> Result<(), Cause>
    ensures kept { Kept tree.old tree.new }
    ensures met { Meets (lent_in tree.old) (resolves_use decl.now public) (left (done_told result) (lent_in tree.new)) }
{
    let view = tree.view();
    let batch = decide::uses(&view, decl)?;
    let here = view.current();
    tree.commit(&batch, here, public);
    Ok(())
}

// Any tree call over arrays that the caller lends. A get tells a mark.
pub fn call(tree: &mut Lent, call: Call) -> Result<Option<u16>, Cause>
    ensures kept { Kept tree.old tree.new }
    ensures met { Meets (lent_in tree.old) (request_of call.entry) (left (call_told result) (lent_in tree.new)) }
{
    match call {
        Call::Enter(item) => declare(tree, Kind::Module, item)?,
        Call::Exit => exit(&mut *tree.opened)?,
        Call::Alias(item) => declare(tree, Kind::Type, item)?,
        Call::Enum(item) => declare(tree, Kind::Type, item)?,
        Call::Function(item) => declare(tree, Kind::Function, item)?,
        Call::Use(decl, public) => resolve_use(tree, decl, public)?,
        Call::GetAlias(name) => return Ok(Some(decide::get(&tree.view(), name, Kind::Type)?)),
        Call::GetFunction(name) => {
            return Ok(Some(decide::get(&tree.view(), name, Kind::Function)?));
        }
    }
    Ok(None)
}

// The same by the call's code. Ruled out: another call for a code.
pub fn call_of_code(
    tree: &mut Lent,
    code: u8,
    bytes: &[u8],
    public: bool,
    mark: u16,
) -> Result<Option<u16>, Cause>
    ensures kept { Kept tree.old tree.new }
    ensures met { Meets (lent_in tree.old) (request code bytes.now public mark) (left (call_told result) (lent_in tree.new)) }
{
    call(tree, Call::of_code(code, bytes, public, mark))
}
