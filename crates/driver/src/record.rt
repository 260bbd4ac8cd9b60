// The record of the graph.
ghost use Rattle.std.specs.Prelude.{◌≡◌, ◌<◌, ◌≤◌, ◌-◌, ◌==◌, take, drop};
ghost use Rattle.std.specs.List.{position, list_any};
ghost use Rattle.bundle.specs.Limits.{file_limit, folder_limit, use_limit};
ghost use Rattle.driver.specs.Record.{entry_alone, pushed_fault, pushed_import, pushed_unit, pushed_id, pushed_unread};

use discovery::{FOLDERS, IDS, UNITS};
use refusal::{Cause, Refusal};
use resolution::Target;

// What a use of the unit that is handled imports, and the mark of the use.
#[derive(Clone, Copy, Debug, PartialEq, Eq)]
pub struct Import {
    pub target: Target,
    pub mark: usize,
}

// The graph: unit u, below `units`, is the file files[u] of the bundle and lists the ids from start[u] on, len[u] of them, among
// the first `count` of ids. The faults stand in the order of their pushes. The first `unread` of folders are those that could
// not be read. The imports are those of the unit that is handled. Arrays in a record by value, and no FixedVec,
// which is no Copy: document 01, "Form by location", has a graph as a struct by value that holds arrays, start and length per unit.
#[derive(Clone, Copy)]
pub struct Graph {
    pub files: [usize; UNITS],
    pub start: [u16; UNITS],
    pub len: [u16; UNITS],
    pub units: usize,
    pub ids: [u16; IDS],
    pub count: usize,
    pub faults: [Refusal; IDS],
    pub fault_count: usize,
    pub folders: [usize; FOLDERS],
    pub unread: usize,
    pub imports: [Import; IDS],
    pub import_count: usize,
}

impl Graph {
    // Unit 0, file 0, which is the entry, with no list.
    pub(crate) fn entry_alone() -> Graph
        ensures { result ≡ entry_alone }
    {
        Graph {
            files: [0; UNITS],
            start: [0; UNITS],
            len: [0; UNITS],
            units: 1,
            ids: [0; IDS],
            count: 0,
            faults: [Refusal {
                cause: Cause::Cut,
                place: 0,
            }; IDS],
            fault_count: 0,
            folders: [0; FOLDERS],
            unread: 0,
            imports: [Import {
                target: Target::File(0),
                mark: 0,
            }; IDS],
            import_count: 0,
        }
    }

    // Which unit a file is.
    pub(crate) fn unit_of(&self, file: usize) -> Option<usize>
        requires { self.now.units ≤ file_limit }
        ensures { result ≡ position (λ f. f == file) (take self.now.units self.now.files) }
    {
        self.files[..self.units].iter().position(|f| *f == file)
    }

    // Whether the list of the unit that is handled, which starts at first, has an id.
    pub(crate) fn lists(&self, first: usize, id: u16) -> bool
        requires { (first ≤ self.now.count) × (self.now.count ≤ use_limit) }
        ensures { result ≡ list_any (λ i. i == id) (take (self.now.count - first) (drop first self.now.ids)) }
    {
        self.ids[first..self.count].contains(&id)
    }

    // Whether a folder could not be read.
    pub(crate) fn is_unread(&self, folder: usize) -> bool
        requires { self.now.unread ≤ folder_limit }
        ensures { result ≡ list_any (λ f. f == folder) (take self.now.unread self.now.folders) }
    {
        self.folders[..self.unread].contains(&folder)
    }

    pub(crate) fn push_fault(&mut self, fault: Refusal)
        requires { self.old.fault_count < use_limit }
        ensures { self.new ≡ pushed_fault self.old fault }
    {
        self.faults[self.fault_count] = fault;
        self.fault_count += 1;
    }

    pub(crate) fn push_import(&mut self, import: Import)
        requires { self.old.import_count < use_limit }
        ensures { self.new ≡ pushed_import self.old import }
    {
        self.imports[self.import_count] = import;
        self.import_count += 1;
    }

    // One more unit.
    pub(crate) fn push_unit(&mut self, file: usize)
        requires { self.old.units < file_limit }
        ensures { self.new ≡ pushed_unit self.old file }
    {
        self.files[self.units] = file;
        self.units += 1;
    }

    // One more id in the list of the unit that is handled.
    pub(crate) fn push_id(&mut self, id: u16)
        requires { self.old.count < use_limit }
        ensures { self.new ≡ pushed_id self.old id }
    {
        self.ids[self.count] = id;
        self.count += 1;
    }

    pub(crate) fn push_unread(&mut self, folder: usize)
        requires { self.old.unread < folder_limit }
        ensures { self.new ≡ pushed_unread self.old folder }
    {
        self.folders[self.unread] = folder;
        self.unread += 1;
    }
}
