// Lists of tree calls as bytes, for programs in other languages. A call is one byte: 1 enter, 2 exit, 3 type alias, 4 enum, 5 function,
// 6 use, 7 get_alias, 8 get_function, any other an empty tree; after a name's length and bytes come (but for 7, 8) its visibility and
// a 2-byte mark; after 6 a 2-byte length, the use's bytes and its visibility. What is missing counts as 0.
#![tactic(auto)]

ghost use Rattle.std.specs.Prelude.{◌≡◌, ◌+◌, ◌*◌, ◌<◌, ◌≤◌, length, get_or};
ghost use Rattle.scope_tree.specs.Views.{told};
ghost use Rattle.scope_tree.specs.Told.{call_told};
ghost use Rattle.scope_tree.specs.Trees.{cleared};
ghost use Rattle.commit.specs.Lending.{lent_in, Kept};
ghost use Rattle.scopes_c.specs.Lists.{pair_at, part_of, name_in, IsItem, IsCoded, order_at, order_told, after_order, shown, Turned, Called, left_tree, Walked, Replayed};
ghost use Rattle.rows.specs.Written.{put_at};
ghost use Rattle.rows.specs.TreeRows.{Listed};

use refusal::Cause;
use scopes::lent::Lent;
use scopes::{CELLS, Call, Item, OPENED, Tree, lent};

// The most calls that are made.
const CALLS: usize = 16000000;

// No call is made that starts here or further on.
const END: usize = 16777216;

fn byte(s: &[u8], at: usize) -> u8
    ensures { result ≡ get_or s.now at 0 }
{
    s.get(at).map_or(0, |b| *b)
}

fn pair(s: &[u8], at: usize) -> u16
    requires { at < 33554432 }
    ensures { result ≡ pair_at s.now at }
{
    u16::from_be_bytes([byte(s, at), byte(s, at + 1)])
}

// The n bytes from `at` on that are there.
fn part<'a>(s: &'a [u8], at: usize, n: usize) -> &'a [u8]
    requires { (at < 33554432) × (n < 65536) }
    ensures { result.now ≡ part_of s.now at n }
{
    let len = s.len();
    &s[len.min(at)..len.min(at + n)]
}

// The name of the call at p.
fn name_at<'a>(s: &'a [u8], p: usize) -> &'a [u8]
    requires { p < 16777216 }
    ensures { result.now ≡ name_in s.now p }
{
    part(s, p + 2, usize::from(byte(s, p + 1)))
}

// What the call at p declares.
fn item_at<'a>(s: &'a [u8], p: usize) -> Item<'a>
    requires { p < 16777216 }
    ensures { IsItem s.now p result }
{
    let end = p + 2 + usize::from(byte(s, p + 1));
    Item {
        name: name_at(s, p),
        public: byte(s, end) == 1,
        mark: pair(s, end + 1),
    }
}

// The call at p, none for an empty tree; and the place after it.
fn next_call<'a>(s: &'a [u8], p: usize) -> (Option<Call<'a>>, usize)
    requires { p < 16777216 }
    ensures call { order_told result.0 ≡ order_at s.now p }
    ensures code { IsCoded (get_or s.now p 0) result.0 }
    ensures next { (result.1 ≡ after_order s.now p) × (result.1 ≤ p + 65539) }
{
    let name = usize::from(byte(s, p + 1));
    match byte(s, p) {
        1 => (Some(Call::Enter(item_at(s, p))), p + 5 + name),
        2 => (Some(Call::Exit), p + 1),
        3 => (Some(Call::Alias(item_at(s, p))), p + 5 + name),
        4 => (Some(Call::Enum(item_at(s, p))), p + 5 + name),
        5 => (Some(Call::Function(item_at(s, p))), p + 5 + name),
        6 => {
            let n = usize::from(pair(s, p + 1));
            let public = byte(s, p + 3 + n) == 1;
            (Some(Call::Use(part(s, p + 3, n), public)), p + 4 + n)
        }
        7 => (Some(Call::GetAlias(name_at(s, p))), p + 2 + name),
        8 => (Some(Call::GetFunction(name_at(s, p))), p + 2 + name),
        _ => (None, p + 1),
    }
}

// An answer, the tree, and the place of the next call.
#[derive(Clone, Copy)]
pub struct Step {
    pub answer: Result<Option<u16>, Cause>,
    pub tree: Tree,
    pub next: usize,
}

// The call at p.
pub fn call_at(t: Tree, s: &[u8], p: usize) -> Step
    requires { p < 16777216 }
    ensures { Called t s.now p result }
{
    let (call, next) = next_call(s, p);
    let Some(call) = call else {
        return Step {
            answer: Ok(None),
            tree: scopes::empty(),
            next,
        };
    };
    let made = scopes::make(t, call);
    Step {
        answer: made.answer,
        tree: made.tree,
        next,
    }
}

// A call, or an empty tree, on lent arrays.
fn call_in(tree: &mut Lent, call: Option<Call>) -> Result<Option<u16>, Cause>
    ensures kept { Kept tree.old tree.new }
    ensures turned { Turned (lent_in tree.old) (order_told call.entry) (shown (told (call_told result))) (lent_in tree.new) }
{
    let Some(call) = call else {
        *tree.opened = [0; OPENED];
        *tree.cells = [0; CELLS];
        return Ok(None);
    };
    lent::call(tree, call)
}

// An answer as a number, as C reads it: a code times 65,536 plus a value. Code 0 done, 1 with a mark, 2 with a refusal's number.
fn shown(answer: Result<Option<u16>, Cause>) -> u32
    ensures { result ≡ shown (told (call_told answer)) }
{
    match answer {
        Ok(None) => 0,
        Ok(Some(mark)) => 65536 + u32::from(mark),
        Err(cause) => 2 * 65536 + u32::from(u8::from(cause)),
    }
}

fn put(out: &mut [u32], at: usize, v: u32)
    ensures { (out.new ≡ put_at out.old at v) × (length out.new ≡ length out.old) }
{
    if at < out.len() {
        out[at] = v;
    }
}

// How many calls there were, and the tree that they left.
#[derive(Clone, Copy)]
struct Replay {
    count: usize,
    tree: Tree,
}

fn replayed(s: &[u8], out: &mut [u32]) -> Replay
    ensures { Replayed s.now out.old result.count out.new result.tree }
{
    let mut tree = scopes::empty();
    let mut p: usize = 0;
    for i in 0..CALLS {
        if s.len().min(END) <= p {
            return Replay { count: i, tree };
        }
        let step = call_at(tree, s, p);
        put(out, i, shown(step.answer));
        tree = step.tree;
        p = step.next;
    }
    Replay { count: CALLS, tree }
}

// Replays the calls by value: for each its answer, code times 65,536 plus value, in `out`, as far as there is place. Gives how many
// there were. Ruled out: an answer of a tree that a refused call changed; a count that leaves the last call out.
pub fn scopes_replay(s: &[u8], out: &mut [u32]) -> usize
    ensures { Walked s.now out.old result out.new }
{
    replayed(s, out).count
}

// The calls of a list on lent arrays, and how many there were.
fn walked(tree: &mut Lent, s: &[u8], out: &mut [u32]) -> usize
    requires { lent_in tree.old ≡ cleared }
    ensures kept { Kept tree.old tree.new }
    ensures walked { Walked s.now out.old result out.new }
{
    let mut p: usize = 0;
    for i in 0..CALLS {
        if s.len().min(END) <= p {
            return i;
        }
        let (call, next) = next_call(s, p);
        put(out, i, shown(call_in(tree, call)));
        p = next;
    }
    CALLS
}

// As `scopes_replay`, over arrays that are lent from call to call: no record is copied. Ruled out: an answer that a refused call's
// leavings changed; a count that leaves the last call out.
pub fn scopes_walk(s: &[u8], out: &mut [u32]) -> usize
    ensures { Walked s.now out.old result out.new }
{
    let mut tree = scopes::empty();
    // Written out: of a struct of nine loans that a function hands out, no clause says what the tree then ends as (tried).
    let mut arrays = Lent {
        opened: &mut tree.opened,
        cells: &mut tree.cells,
        visible: &mut tree.visible,
        scopes: &mut tree.scopes,
        marks: &mut tree.marks,
        n0: &mut tree.n0,
        n1: &mut tree.n1,
        n2: &mut tree.n2,
        n3: &mut tree.n3,
    };
    walked(&mut arrays, s, out)
}

// The tree that the calls leave, as `put_rows` writes it. Ruled out: an entry of a refused call.
pub fn scopes_rows(s: &[u8], out: &mut [u64]) -> usize
    ensures { Listed (left_tree s.now).entries out.old result out.new }
{
    let replay = replayed(s, &mut [0; 1]);
    rows::put_rows(&replay.tree.view(), out)
}
