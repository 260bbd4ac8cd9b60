// The readings of a unit.
ghost use Rattle.std.specs.Prelude.{◌≡◌};
ghost use Rattle.driver.specs.Record.{reading_of, ReadRoom, read_all, ReadsRoom};

use crate::Graph;
use refusal::Cause;
use resolution::Target;

// What a reading comes to: nothing new, a known unit for the list, a file that is a new unit, or a folder to be told.
#[derive(Clone, Copy, Debug, PartialEq, Eq)]
pub enum Reading {
    Nothing,
    Listed(u16),
    New(usize),
    Told(usize),
}

// What the reading of a target comes to, for a unit whose list starts at first: a folder is told once, a known file listed
// once, and any other file is a new unit.
fn load(g: &Graph, first: usize, target: Target) -> Reading
    requires { ReadRoom g.now first target }
    ensures { result ≡ reading_of g.now first target }
{
    match target {
        Target::File(file) => match g.unit_of(file) {
            Some(id) if g.lists(first, id as u16) => Reading::Nothing,
            Some(id) => Reading::Listed(id as u16),
            None => Reading::New(file),
        },
        Target::Folder(folder) if g.is_unread(folder) => Reading::Nothing,
        Target::Folder(folder) => Reading::Told(folder),
    }
}

// All readings of a unit, whose imports were gathered, and its list.
pub fn load_and_parse_dependencies(g: &mut Graph, unit: usize)
    requires { ReadsRoom g.old unit }
    ensures { g.new ≡ read_all g.old unit }
{
    let first = g.count;
    // A copy, which no push changes.
    let imports = g.imports;
    for i in 0..g.import_count {
        let import = imports[i];
        match load(g, first, import.target) {
            Reading::Nothing => {}
            Reading::Listed(id) => g.push_id(id),
            Reading::New(file) => {
                let id = g.units as u16;
                g.push_unit(file);
                g.push_id(id);
            }
            Reading::Told(folder) => {
                g.push_unread(folder);
                g.push_fault(Cause::NoFile.at(import.mark));
            }
        }
    }
    g.start[unit] = first as u16;
    g.len[unit] = (g.count - first) as u16;
}
