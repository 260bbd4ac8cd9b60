// What is known of the units: their files; of each file of the bundle where it stands and where its entries are; and an entry for each
// use of the reached files, file by file: what it resolved to.
ghost use Rattle.std.specs.Prelude.{◌≡◌, ℕ, ◌+◌, ◌<◌, ◌≤◌, ◌^◌, List, length, get_or};
ghost use Rattle.bundle.specs.Bundle.{File};
ghost use Rattle.bundle.specs.Decode.{decode, file_at};
ghost use Rattle.bundle.specs.Limits.{folder_limit, file_limit, use_limit};
ghost use Rattle.discovery.specs.Known.{begun, with_entry, Held, Finds};
ghost use Rattle.discovery.specs.Places.{Fresh, Places, StartsPut};

use crate::{IDS, UNITS};
use card::Card;
use resolution::Found;

// Of a file: where its entries begin and end, and where it stands in the bundle.
#[derive(Clone, Copy, Debug, PartialEq, Eq)]
pub struct FileRow {
    pub from: usize,
    pub to: usize,
    pub place: usize,
}

// The mark of a use, and what it resolved to.
#[derive(Clone, Copy, Debug, PartialEq, Eq)]
pub struct Entry {
    pub mark: usize,
    pub found: Option<Found>,
}

// Unit u is the file files[u] of the bundle; the first `next` entries are there, and a row says which of them
// are a file's, so that no FixedVec holds them. Arrays, not Vecs: the linker has no heap.
#[derive(Clone, Copy)]
pub struct Known {
    pub files: [usize; UNITS],
    pub rows: [FileRow; UNITS],
    pub next: usize,
    pub entries: [Entry; IDS],
}

impl Known {
    pub fn new() -> Known
        ensures { Fresh result }
    {
        Known {
            files: [0; UNITS],
            rows: [FileRow {
                from: 0,
                to: 0,
                place: 0,
            }; UNITS],
            next: 0,
            entries: [Entry {
                mark: 0,
                found: None,
            }; IDS],
        }
    }

    // The position of each file of the bundle is put in its place: the start of its path.
    pub fn put_places(&mut self, card: &Card)
        requires { (card.now.folders ≤ folder_limit) × (card.now.files ≤ file_limit) }
        ensures { StartsPut card.now self.old self.new }
    {
        for i in 0..card.files {
            self.rows[i].place = card.nodes[card.folders + 1 + i].start as usize;
        }
    }

    // The position of the file of this index. Ruled out: that of another file.
    pub fn place_of(&self, i: usize) -> usize
        requires { i < file_limit }
        ensures { (s : List ℕ) → Places s self.now → ((d : File) → i < length (decode s).files → get_or (decode s).files i d ≡ file_at s result) × (result < 2 ^ 26) }
    {
        self.rows[i].place
    }

    // Room for so many entries of the file of this index: where they begin.
    pub fn begin(&mut self, index: usize, count: usize) -> usize
        requires { (index < file_limit) × (self.old.next + count ≤ use_limit) }
        ensures { (result ≡ self.old.next) × (self.new ≡ begun self.old index count) }
    {
        let from = self.next;
        let row = &mut self.rows[index];
        row.from = from;
        row.to = from + count;
        self.next = from + count;
        from
    }

    // Entry i: what the use at `mark` resolved to.
    pub fn keep(&mut self, i: usize, mark: usize, found: Option<Found>)
        requires { i < use_limit }
        ensures { self.new ≡ with_entry self.old i mark found }
    {
        self.entries[i] = Entry { mark, found };
    }

    // What the use at `mark` in the file of this index resolved to; it has an entry. Ruled out: what another use resolved to.
    pub fn find_use(&self, index: usize, mark: usize) -> Option<Found>
        requires { Held self.now index mark }
        ensures { Finds self.now index mark result }
    {
        let row = self.rows[index];
        let entries = &self.entries[row.from..row.to];
        entries[entries.partition_point(|e| e.mark < mark)].found
    }
}
