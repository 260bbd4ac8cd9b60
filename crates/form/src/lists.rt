// The refusals 1 to 6.
ghost use Rattle.std.specs.Prelude.{◌≡◌, ◌≤◌};
ghost use Rattle.bundle.specs.Told.{checked, scanned, walked};
ghost use Rattle.bundle.specs.Limits.{item_limit, use_limit};
ghost use Rattle.bundle.specs.Scan.{scan_file, scan_files, scan_header};
ghost use Rattle.bundle.specs.Read.{form as read_form, files as read_files, lists as read_lists};

use crate::fields::{Container, nothing_left};
use crate::items::items;
use bundle::limits::{
    DEPTH, HEADER, REMAPPINGS, file_width, folder_width, is_defined, most_files, most_folders,
};
use bundle::{Field, Passed, Width, count_at, version_of, word_at};
use refusal::{Cause, Refusal};

#[tactic(auto, unfolding(bundle::specs::Scan::scan_file))]
fn file_end(bundle: &Container<'_>, w: Passed) -> Result<Passed, Refusal>
    requires { (w.items ≤ item_limit) × (w.uses ≤ use_limit) }
    ensures { walked result ≡ scan_file bundle.now.bytes.now bundle.now.end w.at w.items w.uses }
{
    let s = bundle.bytes;
    let size = bundle.path_end(w.at)?;
    let end = bundle.length_end(size)?;
    let file = Container { bytes: s, end };
    items(
        &file,
        DEPTH,
        Passed {
            at: size + 2,
            items: w.items,
            uses: w.uses,
        },
    )
}

fn files_end(bundle: &Container<'_>, at: usize, n: usize) -> Result<Passed, Refusal>
    ensures { walked result ≡ scan_files n bundle.now.bytes.now bundle.now.end at 0 0 }
{
    let mut w = Passed {
        at: at,
        items: 0,
        uses: 0,
    };
    for _ in 0..n {
        w = file_end(bundle, w)?;
    }
    Ok(w)
}

// Under 3 bytes; the version; the length.
#[tactic(auto, unfolding(bundle::specs::Scan::scan_header))]
fn header_end(s: &[u8]) -> Result<usize, Refusal>
    ensures { scanned result ≡ scan_header s.now }
{
    if s.len() < HEADER {
        return Err(Cause::Cut.at(0));
    }
    if !is_defined(version_of(s)) {
        return Err(Cause::Version.at(0));
    }
    let declared = word_at(s, 1);
    let left = s.len() - HEADER;
    if left < declared {
        return Err(Cause::Cut.at(1));
    }
    if declared < left {
        return Err(Cause::Cut.at(HEADER + declared));
    }
    Ok(HEADER)
}

// The files' count, the files, and no bytes left over.
#[tactic(auto, unfolding(bundle::specs::Read::files))]
fn files_form(s: &[u8], at: usize) -> Result<(), Refusal>
    ensures { checked result ≡ read_files s.now at }
{
    let end = s.len();
    let bundle = Container { bytes: s, end };
    let version = version_of(s);
    let width = file_width(version);
    let first = bundle.count_end(at, width, 1, most_files(version))?;
    let all = files_end(&bundle, first, count_at(s, at, width))?;
    nothing_left(all.at, end)?;
    Ok(())
}

// The folders, the remappings and the files.
#[tactic(auto, unfolding(bundle::specs::Read::lists))]
fn lists_form(s: &[u8], at: usize) -> Result<(), Refusal>
    ensures { checked result ≡ read_lists s.now at }
{
    let end = s.len();
    let bundle = Container { bytes: s, end };
    let version = version_of(s);
    let width = folder_width(version);
    let remappings = bundle.list_end(at, width, Field::Path, most_folders(version))?;
    let files = bundle.list_end(remappings, Width::Byte, Field::Remapping, REMAPPINGS)?;
    files_form(s, files)
}

#[tactic(auto, unfolding(bundle::specs::Read::form))]
pub fn form(s: &[u8]) -> Result<(), Refusal>
    ensures { checked result ≡ read_form s.now }
{
    let end = s.len();
    let bundle = Container { bytes: s, end };
    let root = header_end(s)?;
    let folders = bundle.path_end(root)?;
    lists_form(s, folders)
}
