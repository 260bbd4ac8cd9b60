// A use's entries before they are committed: each is found, public and free, or the use is refused.
ghost use Rattle.std.specs.Prelude.{◌≡◌, ◌+◌, ◌<◌, ◌≤◌, IfOk, take, ℕ};
ghost use Rattle.std.specs.List.{list_any};
ghost use Rattle.scope_tree.specs.Kinds.{kind_number};
ghost use Rattle.scope_tree.specs.Forms.{fault};
ghost use Rattle.scope_tree.specs.Staging.{refusal, numbered, stored, verdict_so_far, choice_of, staged_item, staged_element, staged_all};
ghost use Rattle.decision.specs.Batches.{Fresh, has_name, is_named, staged_of, choice_told, Stages, of_import};

use crate::batch::{Batch, Import, STAGED, Staged};
use names::Name;
use refusal::Cause;
use scope_tree::Kind;
use scope_tree::form::{local_at, name_at, next};

impl Staged {
    #[tactic(auto, unfolding(names::specs::Packed::same_name))]
    fn has_name(&self, name: Name) -> bool
        ensures { result ≡ has_name name self.now }
    {
        self.name == name
    }

    fn is(&self, kind: Kind, name: Name) -> bool
        ensures { result ≡ is_named (kind_number kind) name self.now }
    {
        self.kind == kind && self.has_name(name)
    }
}

impl Batch {
    #[tactic(auto, unfolding(crate::specs::Batches::column))]
    fn new() -> Batch
        ensures { staged_of result ≡ refusal 0 }
    {
        let none = Staged {
            kind: Kind::Type,
            name: Name {
                w0: 0,
                w1: 0,
                w2: 0,
                w3: 0,
            },
            mark: 0,
            origin: 0,
            target: 0,
            moment: 0,
        };
        Batch {
            count: 0,
            entries: [none; STAGED],
        }
    }

    // The first entry of this name, or how many there are: where the next search begins.
    fn first_named(&self, name: Name) -> usize
        ensures { Fresh name result self.now }
    {
        let entries = &self.entries[..self.count];
        entries
            .iter()
            .position(|e| e.has_name(name))
            .unwrap_or(self.count)
    }

    // Whether an entry has this kind and name, whatever module they are to stand in; none before `first` has the name.
    fn holds(&self, first: usize, kind: Kind, name: Name) -> bool
        requires { Fresh name first self.now }
        ensures { result ≡ list_any (is_named (kind_number kind) name) (take self.now.count self.now.entries) }
    {
        self.entries[first..self.count]
            .iter()
            .any(|e| e.is(kind, name))
    }

    #[tactic(auto, using(crate::specs::BatchLaws::batch_put, crate::specs::BatchLaws::fresh_put))]
    fn push(&mut self, entry: Staged)
        requires { self.old.count < 96 }
        ensures stored { staged_of self.new ≡ stored (staged_of self.old) (kind_number entry.kind) entry.mark entry.name entry.origin entry.target entry.moment }
        ensures fresh { (n : Name) (i : ℕ) → Fresh n i self.old → Fresh n i self.new }
    {
        self.entries[self.count] = entry;
        self.count += 1;
    }

    // One kind of one element; no entry before `first` has its local name.
    #[tactic(auto, unfolding(scope_tree::specs::Staging::with_choice))]
    fn stage_kind(
        &mut self,
        import: &Import,
        kind: Kind,
        name: Name,
        local: Name,
        first: usize,
    ) -> Result<(), Cause>
        requires small { self.old.count < 96 }
        requires fresh { Fresh local first self.old }
        ensures fresh { Fresh local first self.new }
        ensures told { fault result ≡ (of_import staged_item import.now (staged_of self.old) (kind_number kind) name local).number }
        ensures left { staged_of self.new ≡ numbered 0 (of_import staged_item import.now (staged_of self.old) (kind_number kind) name local) }
    {
        let entry = import.choose(kind, name, local)?;
        if self.holds(first, kind, local) {
            return Err(Cause::Clash);
        }
        self.push(entry);
        Ok(())
    }

    // One element: what there is of its name, type, function or module. One success is enough.
    #[tactic(auto, using(scope_tree::specs::Staging::kinding_steps))]
    fn stage_element(&mut self, import: &Import, name: Name, local: Name) -> Result<(), Cause>
        requires { self.old.count + 3 ≤ 96 }
        ensures told { fault result ≡ (of_import staged_element import.now (staged_of self.old) name local).number }
        ensures left { staged_of self.new ≡ numbered 0 (of_import staged_element import.now (staged_of self.old) name local) }
    {
        let first = self.first_named(local);
        let mut told = Err(Cause::NoItem);
        for kind in [Kind::Type, Kind::Function, Kind::Module] {
            let staged = self.stage_kind(import, kind, name, local, first);
            told = verdict(told, staged);
        }
        told
    }
}

// What of an element is told: one success is enough, else the first refusal that isn't `NoItem`.
#[tactic(auto, unfolding(scope_tree::specs::Staging::verdict_so_far))]
fn verdict(told: Result<(), Cause>, next: Result<(), Cause>) -> Result<(), Cause>
    ensures { fault result ≡ verdict_so_far (fault told) (fault next) }
{
    match (told, next) {
        (Ok(()), _) | (_, Ok(())) => Ok(()),
        (Err(Cause::NoItem), later) => later,
        (first, _) => first,
    }
}

impl Import<'_> {
    // The entry of a kind and a name in the module `from`, under its local name.
    #[tactic(auto, unfolding(scope_tree::specs::Staging::choice_of, scope_tree::specs::Staging::sought, scope_tree::specs::Staging::chosen, scope_tree::specs::Staging::occupied))]
    fn choose(&self, kind: Kind, name: Name, local: Name) -> Result<Staged, Cause>
        ensures told { choice_told result ≡ of_import choice_of self.now (kind_number kind) name local }
        ensures shown { IfOk result (λ e. (e.kind ≡ kind) × (e.name ≡ local)) }
    {
        let tree = self.tree;
        let Some(i) = tree.find(self.from, kind, name) else {
            return Err(Cause::NoItem);
        };
        if tree.visible[i] != 1 {
            return Err(Cause::PrivateItem);
        }
        if tree.find(self.here, kind, local).is_some() {
            return Err(Cause::Clash);
        }
        let inside = tree.inside(i, self.from.time);
        Ok(Staged {
            kind,
            name: local,
            mark: tree.marks[i],
            origin: (i + 1) as u16,
            target: inside.scope,
            moment: inside.time as u16,
        })
    }

    // `count` elements that stand at `at`.
    #[tactic(auto, using(scope_tree::specs::Staging::staging_steps))]
    pub fn stage(&self, decl: &[u8], at: usize, count: usize) -> Result<Batch, Cause>
        requires { (count ≤ 32) × (at < 32768) }
        ensures { Stages result (of_import staged_all self.now decl.now count at (refusal 0)) }
    {
        let mut batch = Batch::new();
        let mut p = at;
        for _ in 0..count {
            batch.stage_element(self, name_at(decl, p), local_at(decl, p))?;
            p = next(decl, next(decl, p));
        }
        Ok(batch)
    }
}
