// The eight tree calls on a tree that the caller lends as nine arrays (scopes::Tree has what each holds; nine parameters, since these are
// C's functions): zeros are a tree with no entry,
// and no call copies it. On any arrays a call returns, and a refusal leaves them as they were; on a tree that calls from zeros
// left, number and tree are the definition's (specs/TreeTold.antt). A visibility of 1 is public, any other private.
ghost use Rattle.host.specs.TreeTold.{TreeTold, FoundTold, number_in, mark_in, rows_number, tree_rows, rows_count};
ghost use Rattle.scope_tree.specs.Form.{enters, exits, inserts_alias, inserts_enum, inserts_function, resolves_use, gets_alias, gets_function};
ghost use Rattle.scope_tree.specs.Trees.{packed_in};
ghost use Rattle.scope_tree.specs.Told.{mark_told};
ghost use Rattle.commit.specs.Lending.{lent_in, Kept};
ghost use Rattle.scopes.specs.Meets.{request_of};
ghost use Rattle.std.specs.Prelude.{eqb, ◌≡◌};

use crate::{ENTRIES, ROWS, TREE_CELLS, TREE_OPENED};
use decision::decide;
use refusal::Cause;
use scope_tree::Kind;
use scope_tree::look::View;
use scopes::lent::Lent;
use scopes::{Call, Item, lent};

// A call on the lent arrays, and its number.
fn tell_made(tree: &mut Lent, call: Call) -> u8
    ensures kept { Kept tree.old tree.new }
    ensures told { TreeTold (lent_in tree.old) (request_of call.entry) result (lent_in tree.new) }
{
    scopes::number_of(lent::call(tree, call))
}

// An answer's number, and its mark where it has one.
fn tell_found(answer: Result<u16, Cause>, mark: &mut usize) -> u8
    ensures { (result ≡ number_in (mark_told answer)) × (mark.new ≡ mark_in (mark_told answer) mark.old) }
{
    match answer {
        Ok(m) => {
            *mark = usize::from(m);
            0
        }
        Err(cause) => u8::from(cause),
    }
}

// A module more in the innermost open one, opened. Ruled out: a tenth open module below the root; the entry made and the module left
// shut.
#[unsafe(no_mangle)]
pub extern "C" fn gontsamy_enter(
    opened: &mut [u16; TREE_OPENED],
    cells: &mut [u16; TREE_CELLS],
    visible: &mut [u8; ENTRIES],
    scopes: &mut [u16; ENTRIES],
    marks: &mut [u16; ENTRIES],
    n0: &mut [u64; ENTRIES],
    n1: &mut [u64; ENTRIES],
    n2: &mut [u64; ENTRIES],
    n3: &mut [u64; ENTRIES],
    name: &[u8],
    public: u8,
    mark: u16,
) -> u8
    ensures { TreeTold (packed_in opened.old cells.old visible.old scopes.old marks.old n0.old n1.old n2.old n3.old) (enters name.now (eqb public 1) mark) result (packed_in opened.new cells.new visible.new scopes.new marks.new n0.new n1.new n2.new n3.new) }
{
    let mut tree = Lent {
        opened,
        cells,
        visible,
        scopes,
        marks,
        n0,
        n1,
        n2,
        n3,
    };
    tell_made(
        &mut tree,
        Call::Enter(Item {
            name,
            public: public == 1,
            mark,
        }),
    )
}

// The innermost open module is left. Ruled out: 0 at the root; an entry lost on leaving.
#[unsafe(no_mangle)]
pub extern "C" fn gontsamy_exit(
    opened: &mut [u16; TREE_OPENED],
    cells: &mut [u16; TREE_CELLS],
    visible: &mut [u8; ENTRIES],
    scopes: &mut [u16; ENTRIES],
    marks: &mut [u16; ENTRIES],
    n0: &mut [u64; ENTRIES],
    n1: &mut [u64; ENTRIES],
    n2: &mut [u64; ENTRIES],
    n3: &mut [u64; ENTRIES],
) -> u8
    ensures { TreeTold (packed_in opened.old cells.old visible.old scopes.old marks.old n0.old n1.old n2.old n3.old) exits result (packed_in opened.new cells.new visible.new scopes.new marks.new n0.new n1.new n2.new n3.new) }
{
    let mut tree = Lent {
        opened,
        cells,
        visible,
        scopes,
        marks,
        n0,
        n1,
        n2,
        n3,
    };
    tell_made(&mut tree, Call::Exit)
}

// A type alias. Ruled out: 0 where the current module holds a type of that name; 51 with a place left.
#[unsafe(no_mangle)]
pub extern "C" fn gontsamy_insert_alias(
    opened: &mut [u16; TREE_OPENED],
    cells: &mut [u16; TREE_CELLS],
    visible: &mut [u8; ENTRIES],
    scopes: &mut [u16; ENTRIES],
    marks: &mut [u16; ENTRIES],
    n0: &mut [u64; ENTRIES],
    n1: &mut [u64; ENTRIES],
    n2: &mut [u64; ENTRIES],
    n3: &mut [u64; ENTRIES],
    name: &[u8],
    public: u8,
    mark: u16,
) -> u8
    ensures { TreeTold (packed_in opened.old cells.old visible.old scopes.old marks.old n0.old n1.old n2.old n3.old) (inserts_alias name.now (eqb public 1) mark) result (packed_in opened.new cells.new visible.new scopes.new marks.new n0.new n1.new n2.new n3.new) }
{
    let mut tree = Lent {
        opened,
        cells,
        visible,
        scopes,
        marks,
        n0,
        n1,
        n2,
        n3,
    };
    tell_made(
        &mut tree,
        Call::Alias(Item {
            name,
            public: public == 1,
            mark,
        }),
    )
}

// An enum, a type. Ruled out: 49 in the place of 48; arrays that differ after a refusal.
#[unsafe(no_mangle)]
pub extern "C" fn gontsamy_insert_enum(
    opened: &mut [u16; TREE_OPENED],
    cells: &mut [u16; TREE_CELLS],
    visible: &mut [u8; ENTRIES],
    scopes: &mut [u16; ENTRIES],
    marks: &mut [u16; ENTRIES],
    n0: &mut [u64; ENTRIES],
    n1: &mut [u64; ENTRIES],
    n2: &mut [u64; ENTRIES],
    n3: &mut [u64; ENTRIES],
    name: &[u8],
    public: u8,
    mark: u16,
) -> u8
    ensures { TreeTold (packed_in opened.old cells.old visible.old scopes.old marks.old n0.old n1.old n2.old n3.old) (inserts_enum name.now (eqb public 1) mark) result (packed_in opened.new cells.new visible.new scopes.new marks.new n0.new n1.new n2.new n3.new) }
{
    let mut tree = Lent {
        opened,
        cells,
        visible,
        scopes,
        marks,
        n0,
        n1,
        n2,
        n3,
    };
    tell_made(
        &mut tree,
        Call::Enum(Item {
            name,
            public: public == 1,
            mark,
        }),
    )
}

// A function. Ruled out: a refusal because a type or a module has the name; an entry in the root and not in the open module.
#[unsafe(no_mangle)]
pub extern "C" fn gontsamy_insert_function(
    opened: &mut [u16; TREE_OPENED],
    cells: &mut [u16; TREE_CELLS],
    visible: &mut [u8; ENTRIES],
    scopes: &mut [u16; ENTRIES],
    marks: &mut [u16; ENTRIES],
    n0: &mut [u64; ENTRIES],
    n1: &mut [u64; ENTRIES],
    n2: &mut [u64; ENTRIES],
    n3: &mut [u64; ENTRIES],
    name: &[u8],
    public: u8,
    mark: u16,
) -> u8
    ensures { TreeTold (packed_in opened.old cells.old visible.old scopes.old marks.old n0.old n1.old n2.old n3.old) (inserts_function name.now (eqb public 1) mark) result (packed_in opened.new cells.new visible.new scopes.new marks.new n0.new n1.new n2.new n3.new) }
{
    let mut tree = Lent {
        opened,
        cells,
        visible,
        scopes,
        marks,
        n0,
        n1,
        n2,
        n3,
    };
    tell_made(
        &mut tree,
        Call::Function(Item {
            name,
            public: public == 1,
            mark,
        }),
    )
}

// A use in the bundle's form: segment count, segments, element count, each element a name and an alias. Ruled out: 0 with nothing
// imported; an imported module that shows entries made after the use.
#[unsafe(no_mangle)]
pub extern "C" fn gontsamy_resolve_use(
    opened: &mut [u16; TREE_OPENED],
    cells: &mut [u16; TREE_CELLS],
    visible: &mut [u8; ENTRIES],
    scopes: &mut [u16; ENTRIES],
    marks: &mut [u16; ENTRIES],
    n0: &mut [u64; ENTRIES],
    n1: &mut [u64; ENTRIES],
    n2: &mut [u64; ENTRIES],
    n3: &mut [u64; ENTRIES],
    decl: &[u8],
    public: u8,
) -> u8
    ensures { TreeTold (packed_in opened.old cells.old visible.old scopes.old marks.old n0.old n1.old n2.old n3.old) (resolves_use decl.now (eqb public 1)) result (packed_in opened.new cells.new visible.new scopes.new marks.new n0.new n1.new n2.new n3.new) }
{
    let mut tree = Lent {
        opened,
        cells,
        visible,
        scopes,
        marks,
        n0,
        n1,
        n2,
        n3,
    };
    tell_made(&mut tree, Call::Use(decl, public == 1))
}

// The mark of the type of that name in the current module. Ruled out: the mark of one in an outer module; 43 where a use imported it.
#[unsafe(no_mangle)]
pub extern "C" fn gontsamy_get_alias<'a>(
    opened: &'a [u16; TREE_OPENED],
    cells: &'a [u16; TREE_CELLS],
    visible: &'a [u8; ENTRIES],
    scopes: &'a [u16; ENTRIES],
    marks: &'a [u16; ENTRIES],
    n0: &'a [u64; ENTRIES],
    n1: &'a [u64; ENTRIES],
    n2: &'a [u64; ENTRIES],
    n3: &'a [u64; ENTRIES],
    name: &'a [u8],
    mark: &mut usize,
) -> u8
    ensures { FoundTold (packed_in opened.now cells.now visible.now scopes.now marks.now n0.now n1.now n2.now n3.now) (gets_alias name.now) mark.old result mark.new }
{
    let tree = View {
        opened,
        cells,
        visible,
        scopes,
        marks,
        n0,
        n1,
        n2,
        n3,
    };
    tell_found(decide::get(&tree, name, Kind::Type), mark)
}

// The mark of the function of that name in the current module. Ruled out: the mark of a type of that name.
#[unsafe(no_mangle)]
pub extern "C" fn gontsamy_get_function<'a>(
    opened: &'a [u16; TREE_OPENED],
    cells: &'a [u16; TREE_CELLS],
    visible: &'a [u8; ENTRIES],
    scopes: &'a [u16; ENTRIES],
    marks: &'a [u16; ENTRIES],
    n0: &'a [u64; ENTRIES],
    n1: &'a [u64; ENTRIES],
    n2: &'a [u64; ENTRIES],
    n3: &'a [u64; ENTRIES],
    name: &'a [u8],
    mark: &mut usize,
) -> u8
    ensures { FoundTold (packed_in opened.now cells.now visible.now scopes.now marks.now n0.now n1.now n2.now n3.now) (gets_function name.now) mark.old result mark.new }
{
    let tree = View {
        opened,
        cells,
        visible,
        scopes,
        marks,
        n0,
        n1,
        n2,
        n3,
    };
    tell_found(decide::get(&tree, name, Kind::Function), mark)
}

// A tree's entries in `rows`, ROW numbers each, and how many they are in `count`. 14 where `rows` is shorter than ROWS, and 51 where the
// arrays count more than ENTRIES: both as they were. Ruled out: an entry left out; a row that is cut.
#[unsafe(no_mangle)]
pub extern "C" fn gontsamy_rows<'a>(
    opened: &'a [u16; TREE_OPENED],
    cells: &'a [u16; TREE_CELLS],
    visible: &'a [u8; ENTRIES],
    scopes: &'a [u16; ENTRIES],
    marks: &'a [u16; ENTRIES],
    n0: &'a [u64; ENTRIES],
    n1: &'a [u64; ENTRIES],
    n2: &'a [u64; ENTRIES],
    n3: &'a [u64; ENTRIES],
    rows: &mut [u64],
    count: &mut usize,
) -> u8
    ensures value { result ≡ rows_number (packed_in opened.now cells.now visible.now scopes.now marks.now n0.now n1.now n2.now n3.now) rows.old }
    ensures rows_after { rows.new ≡ tree_rows (packed_in opened.now cells.now visible.now scopes.now marks.now n0.now n1.now n2.now n3.now) rows.old }
    ensures count_after { count.new ≡ rows_count (packed_in opened.now cells.now visible.now scopes.now marks.now n0.now n1.now n2.now n3.now) rows.old count.old }
{
    if rows.len() < ROWS {
        return u8::from(Cause::SmallBuffer);
    }
    let tree = View {
        opened,
        cells,
        visible,
        scopes,
        marks,
        n0,
        n1,
        n2,
        n3,
    };
    if ENTRIES < tree.count() {
        return u8::from(Cause::TreeFull);
    }
    *count = rows::put_rows(&tree, rows);
    0
}
