// Items, and modules of items: two functions that call each other. Siblings are a loop; only a module is entered.
ghost use Rattle.std.specs.Prelude.{◌≡◌, ◌+◌, ◌≤◌, ◌<◌, ◌^◌};
ghost use Rattle.bundle.specs.Told.{scanned, walked};
ghost use Rattle.bundle.specs.Limits.{item_limit, use_limit};
ghost use Rattle.bundle.specs.Scan.{uses_after, scan_head, scan_body, scan_item, scan_items, and_then, scan_end};

use crate::fields::{Container, nothing_left};
use bundle::limits::{ITEMS, most_uses};
use bundle::{Kind, Passed, version_of};
use refusal::{Cause, Refusal};

// How many uses there are after the item at `at`.
fn uses_after(s: &[u8], at: usize, uses: usize) -> usize
    requires { (at < 2 ^ 63) × (uses ≤ use_limit) }
    ensures { result ≡ uses_after s.now at uses }
{
    match bundle::kind(s, at) {
        Kind::Use => uses + 1,
        Kind::Named(_) | Kind::Module | Kind::Ignored => uses,
    }
}

// An item's length, kind, visibility, and the limits on items and uses.
#[tactic(auto, unfolding(bundle::specs::Scan::scan_head))]
fn head_end(container: &Container<'_>, w: Passed) -> Result<usize, Refusal>
    requires { (w.at ≤ container.now.end) × (w.uses ≤ use_limit) }
    ensures { scanned result ≡ scan_head container.now.bytes.now container.now.end w.at w.items w.uses }
{
    let s = container.bytes;
    let end = container.length_end(w.at)?;
    let item = Container { bytes: s, end };
    let visibility = item.mark_end(w.at + 2, 1, 6)?;
    item.mark_end(visibility, 0, 1)?;
    if w.items >= ITEMS || uses_after(s, w.at, w.uses) > most_uses(version_of(s)) {
        return Err(Cause::TooMany.at(w.at));
    }
    Ok(end)
}

// What follows the visibility of an item that is no module, to the item's end.
#[tactic(auto, unfolding(bundle::specs::Scan::scan_body))]
fn body_end(item: &Container<'_>, at: usize) -> Result<usize, Refusal>
    requires { at + 4 ≤ item.now.end }
    ensures { scanned result ≡ scan_body item.now.bytes.now item.now.end at }
{
    match bundle::kind(item.bytes, at) {
        Kind::Ignored => Ok(at + 4),
        Kind::Use => item.use_end(at + 4),
        Kind::Named(_) | Kind::Module => item.name_end(at + 4),
    }
}

fn leaf_end(item: &Container<'_>, at: usize) -> Result<usize, Refusal>
    requires { at + 4 ≤ item.now.end }
    ensures { scanned result ≡ and_then (scan_body item.now.bytes.now item.now.end at) (scan_end item.now.end) }
{
    let past = body_end(item, at)?;
    nothing_left(past, item.end)
}

// The item at `w.at`; modules may nest `depth` deep.
#[cycle(item_items)]
pub fn item(container: &Container<'_>, depth: usize, w: Passed) -> Result<Passed, Refusal>
    requires { (w.at ≤ container.now.end) × ((w.items ≤ item_limit) × (w.uses ≤ use_limit)) }
    ensures { walked result ≡ scan_item depth container.now.bytes.now container.now.end w.at w.items w.uses }
{
    let s = container.bytes;
    let end = head_end(container, w)?;
    let item = Container { bytes: s, end };
    match bundle::kind(s, w.at) {
        Kind::Module => {
            if depth == 0 {
                return Err(Cause::TooMany.at(w.at));
            }
            let inner = item.name_end(w.at + 4)?;
            items(
                &item,
                depth - 1,
                Passed {
                    at: inner,
                    items: w.items + 1,
                    uses: w.uses,
                },
            )
        }
        Kind::Named(_) | Kind::Use | Kind::Ignored => {
            let past = leaf_end(&item, w.at)?;
            Ok(Passed {
                at: past,
                items: w.items + 1,
                uses: uses_after(s, w.at, w.uses),
            })
        }
    }
}

// The items from `w.at` to the container's end.
#[cycle(item_items)]
pub fn items(container: &Container<'_>, depth: usize, w: Passed) -> Result<Passed, Refusal>
    requires { (w.at ≤ container.now.end) × ((w.items ≤ item_limit) × (w.uses ≤ use_limit)) }
    ensures { walked result ≡ scan_items depth container.now.bytes.now container.now.end w.at w.items w.uses }
{
    // A `while`: each item says where the next one starts, once its form is told.
    let mut x = w;
    while x.at < container.end {
        x = item(container, depth, x)?;
    }
    Ok(x)
}
