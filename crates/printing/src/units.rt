// The line `ok` and the units in linked order: id and path.
ghost use Rattle.std.specs.Prelude.{◌∷◌, [], map, length, EachIndex, slice_index};
ghost use Rattle.names.specs.Bytes.{ascii};
ghost use Rattle.names.specs.Decimal.{decimal};
ghost use Rattle.text.specs.Words.{line, lines};
ghost use Rattle.bundle.specs.Decode.{decode};
ghost use Rattle.order.specs.Run.{units_of};
ghost use Rattle.assembly.specs.Given.{OneUnit};
ghost use Rattle.printing.specs.Lines.{unit_line};

use text::Sink;

// The line of a unit.
#[tactic(auto, using(crate::specs::Units::units))]
fn put_unit<S: Sink>(out: &mut S, s: &[u8], files: &[usize], unit: u16)
    requires { OneUnit s.now files.now unit }
    ensures { S.tells out.old (line (unit_line (units_of (decode s.now)) unit)) out.new }
{
    out.put(b"unit ");
    text::put_decimal(out, u64::from(unit));
    out.put(b" ");
    let file = bundle::file_at(s, files[usize::from(unit)]);
    out.put(bundle::file_path(s, file));
    out.put(b"\n");
}

pub fn put_units<S: Sink>(out: &mut S, s: &[u8], files: &[usize], units: &[u16])
    requires { EachIndex units.now (λ i. OneUnit s.now files.now (slice_index units.now i)) }
    ensures { S.tells out.old
        (lines ((ascii "ok" ∷ decimal (length units.now) ∷ []) ∷ map (unit_line (units_of (decode s.now))) units.now)) out.new }
{
    out.put(b"ok ");
    text::put_decimal(out, units.len() as u64);
    out.put(b"\n");
    for unit in units {
        put_unit(out, s, files, *unit);
    }
}
