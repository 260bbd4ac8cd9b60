// Declarations, gets and uses: what each comes to.
ghost use Rattle.std.specs.Prelude.{◌≡◌};
ghost use Rattle.scope_tree.specs.Kinds.{kind_number, twice_number, deepest_for};
ghost use Rattle.scope_tree.specs.Told.{mark_told};
ghost use Rattle.scope_tree.specs.Trees.{tree_in, view};
ghost use Rattle.scope_tree.specs.Views.{got_of};
ghost use Rattle.decision.specs.Plan.{plan_told, planned_of};
ghost use Rattle.decision.specs.Decided.{Decided};
ghost use Rattle.decision.specs.Batches.{batch_told};

use crate::batch::{Batch, Import};
use names::Name;
use refusal::Cause;
use scope_tree::look::View;
use scope_tree::{ENTRIES, Kind, form};

// What a declaration comes to: the scope and the name of the entry.
#[derive(Clone, Copy, Debug, PartialEq, Eq)]
pub struct Plan {
    pub scope: u16,
    pub name: Name,
}

// A declaration: its name is free in its kind, and there is place for an entry more, and for a module more to be open where it opens.
#[tactic(auto, unfolding(crate::specs::Plan::planned_of, crate::specs::Plan::plan_of, scope_tree::specs::Views::current_spot))]
pub fn planned(tree: &View, name: &[u8], kind: Kind) -> Result<Plan, Cause>
    ensures { plan_told result ≡ planned_of (tree_in tree.now) name.now (kind_number kind) (twice_number kind) (deepest_for kind) }
{
    if !names::is_identifier(name) {
        return Err(Cause::BadName);
    }
    let here = tree.here()?;
    let name = names::name_of(name);
    if tree.find(here, kind, name).is_some() {
        return Err(kind.twice());
    }
    if ENTRIES <= here.time || kind.deepest() < tree.depth() {
        return Err(Cause::TreeFull);
    }
    Ok(Plan {
        scope: here.scope,
        name,
    })
}

// The mark of the entry of a kind and a name in the current module.
#[tactic(auto, unfolding(scope_tree::specs::Views::got_of, scope_tree::specs::Views::current_spot))]
pub fn get(tree: &View, name: &[u8], kind: Kind) -> Result<u16, Cause>
    ensures { mark_told result ≡ got_of (view (tree_in tree.now)) name.now (kind_number kind) }
{
    if !names::is_identifier(name) {
        return Err(Cause::BadName);
    }
    let here = tree.here()?;
    let Some(i) = tree.find(here, kind, names::name_of(name)) else {
        return Err(Cause::NoItem);
    };
    Ok(tree.marks[i])
}

// The entries that a use adds, all of one visibility. Its form is tested first, then the record, `crate`, the path, `as main`, and the
// elements.
pub fn uses(tree: &View, decl: &[u8]) -> Result<Batch, Cause>
    ensures { Decided (view (tree_in tree.now)) decl.now (batch_told result) }
{
    form::use_form(decl)?;
    let here = tree.here()?;
    let segments = form::byte_at(decl, 0);
    if segments == 0 || !names::is_crate(form::string_at(decl, 1)) {
        return Err(Cause::NoCrateWord);
    }
    let way = tree.navigate(decl, form::next(decl, 1), segments - 1)?;
    let elements = form::byte_at(decl, way.next);
    let first = way.next + 1;
    if form::any_main(decl, first, elements) {
        return Err(Cause::AliasMain);
    }
    let import = Import {
        tree,
        here,
        from: way.to,
    };
    let batch = import.stage(decl, first, elements)?;
    if ENTRIES < here.time + batch.count {
        return Err(Cause::TreeFull);
    }
    Ok(batch)
}
