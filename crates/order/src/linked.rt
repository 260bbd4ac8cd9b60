// What steps 3 and 4 come to.
ghost use Rattle.std.specs.Prelude.{◌<◌, ◌≤◌};
ghost use Rattle.bundle.specs.Limits.{file_limit};

// The most units of a bundle: the limit of the reader.
pub const UNITS: usize = bundle::limits::FILES;

// The units of a bundle: unit u, below `units`, is the file files[u] of the bundle, and the first `units` of ids are the linked order.
// Behind them both have 0, as C gets them, which a FixedVec says nothing of. Arrays and a count, not Vecs: the linker has no heap.
#[derive(Clone, Copy)]
pub struct Linked {
    pub units: usize,
    pub files: [usize; UNITS],
    pub ids: [u16; UNITS],
    ghost some: { (0 < units) × (units ≤ file_limit) },
}

#[derive(Clone, Copy)]
pub enum Ordered {
    // How many bytes at the start of the lent buffer are the report.
    Report(usize),
    Units(Linked),
}
