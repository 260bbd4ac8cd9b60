// The exports of steps_c, for the differential run: each calls the library's function of the same name and states its clauses.
#![tactic(auto)]

ghost use Rattle.std.specs.Prelude.{◌≡◌};
ghost use Rattle.bundle.specs.Read.{number_of, verdict};
ghost use Rattle.steps_c.specs.Steps.{bit_of, GraphTold, assemble_told};
ghost use Rattle.assembly.specs.Call.{assemble_answer, assemble_report, assemble_image};
ghost use Rattle.names.specs.Keywords.{is_keyword};
ghost use Rattle.names.specs.Prefix.{starts_with};

#[unsafe(no_mangle)]
pub extern "C" fn steps_starts_with(f: &[u8], p: &[u8]) -> u8
    ensures { result ≡ bit_of (starts_with f.now p.now) }
{
    steps_c::steps_starts_with(f, p)
}

#[unsafe(no_mangle)]
pub extern "C" fn steps_is_keyword(s: &[u8]) -> u8
    ensures { result ≡ bit_of (is_keyword s.now) }
{
    steps_c::steps_is_keyword(s)
}

#[unsafe(no_mangle)]
pub extern "C" fn steps_assemble(
    s: &[u8],
    report: &mut [u8],
    image: &mut [u8],
    out: &mut [usize],
) -> u8
    ensures value { result ≡ (assemble_answer s.now report.old image.old).number }
    ensures report_after { report.new ≡ assemble_report s.now report.old }
    ensures image_after { image.new ≡ assemble_image s.now image.old }
    ensures out_after { out.new ≡ assemble_told (assemble_answer s.now report.old image.old) out.old }
{
    steps_c::steps_assemble(s, report, image, out)
}

#[unsafe(no_mangle)]
pub extern "C" fn steps_discover(s: &[u8], out: &mut [usize]) -> u8
    ensures value { result ≡ number_of (verdict s.now) }
    ensures graph_told { GraphTold s.now out.old out.new }
{
    steps_c::steps_discover(s, out)
}
