// A unit's name.
ghost use Rattle.std.specs.Prelude.{◌≡◌, ◌+◌, ◌<◌, ◌≤◌, length};
ghost use Rattle.names.specs.Decimal.{unit_name, width};

use std::marker::Model;

// Five letters and at most twenty digits.
const ROOM: usize = 25;

// A unit's name: its bytes, and zeros after them. An array and a length, not a String: the linker has no heap. Filled from
// its end, so no FixedVec.
#[derive(Clone, Copy)]
pub struct UnitName {
    bytes: [u8; ROOM],
    len: usize,
}

// In a contract it is its bytes.
impl Model for UnitName {
    ghost use Rattle.std.specs.Prelude.{ℕ, List};

    ghost Value = { List ℕ };

    ghost use Rattle.names.specs.UnitName.{shown, Kept, room_of, shown_back};

    ghost view = { shown };

    ghost invariant = { Kept };

    ghost inverse = { room_of };

    ghost inverse_ok = { shown_back };
}

impl UnitName {
    pub fn as_slice(&self) -> &[u8]
        ensures value { result.now ≡ self.now }
        ensures bound { length result.now ≤ 25 }
    {
        &self.bytes[..self.len]
    }
}

// How many digits n has.
#[tactic(auto, using(crate::specs::Decimal::digits_counted))]
fn width_of(n: u64) -> usize
    ensures value { result ≡ width n }
    ensures bound { result ≤ 20 }
{
    n.checked_ilog10().map_or(1, |k| k as usize + 1)
}

// `unit_` and the id in decimal. Ruled out: `unit_07` for 7; one name for 1 and 10.
pub fn unit_name(id: u64) -> UnitName
    ensures { result ≡ unit_name id }
{
    let mut bytes = [0; ROOM];
    bytes[..5].copy_from_slice(b"unit_");
    let len = 5 + width_of(id);
    let mut rest = id;
    for i in (5..len).rev() {
        bytes[i] = b'0' + (rest % 10) as u8;
        rest /= 10;
    }
    UnitName { bytes, len }
}
