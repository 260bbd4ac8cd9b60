// The versions, the limits, the widths and the kinds, as specs/Limits.antt has them.
ghost use Rattle.std.specs.Prelude.{◌≡◌, ◌≤◌};
ghost use Rattle.bundle.specs.Limits.{defined as limits_defined, width as limits_width, folder_width, file_width, most_folders, most_files, most_uses};

use crate::Width;

// The first version; byte 0 of an image.
pub const VERSION: usize = 1;

// The newest version that is defined.
pub const NEWEST: usize = VERSION;

pub const HEADER: usize = 3;

pub const FOLDERS: usize = 64;

pub const REMAPPINGS: usize = 32;

pub const FILES: usize = 64;

pub const ITEMS: usize = 1024;

pub const USES: usize = 256;

pub const SEGMENTS: usize = 16;

pub const ELEMENTS: usize = 32;

pub const DEPTH: usize = 8;

// Kinds as the format's bytes: for what is written, and of an item that is a name alone; what is read is `Kind`.
pub const FUNCTION: u8 = 2;

pub const ENUM: u8 = 4;

pub const USE: usize = 3;

pub const MODULE: usize = 5;

// Whether a version is defined.
pub fn is_defined(version: usize) -> bool
    ensures { result ≡ limits_defined version }
{
    if version < 1 {
        return false;
    }
    version <= NEWEST
}

// The bytes that a count takes.
pub fn width_bytes(width: Width) -> usize
    ensures { (result ≡ limits_width width) × ((1 ≤ result) × (result ≤ 2)) }
{
    match width {
        Width::Byte => 1,
        Width::Word => 2,
    }
}

// WHAT A VERSION SETS: the widths of its counts of folders and files, and the most folders, files and uses.
pub fn folder_width(version: usize) -> Width
    ensures { result ≡ folder_width version }
{
    Width::Byte
}

pub fn file_width(version: usize) -> Width
    ensures { result ≡ file_width version }
{
    Width::Byte
}

pub fn most_folders(version: usize) -> usize
    ensures { result ≡ most_folders version }
{
    FOLDERS
}

pub fn most_files(version: usize) -> usize
    ensures { result ≡ most_files version }
{
    FILES
}

pub fn most_uses(version: usize) -> usize
    ensures { result ≡ most_uses version }
{
    USES
}
