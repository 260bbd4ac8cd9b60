// The image in a lent buffer: it is written only where all of it fits.
ghost use Rattle.std.specs.Prelude.{◌≡◌, length};
ghost use Rattle.bundle.specs.Decode.{decode};
ghost use Rattle.assembly.specs.Assemble.{assembled};
ghost use Rattle.assembly.specs.Image.{imaging, lent_image};
ghost use Rattle.assembly.specs.Told.{image_told};

use assembly::Program;
use bundle::limits::{HEADER, VERSION};
use encoder::put_two;
use items::{LIMIT, program_length, write_program};
use refusal::{Cause, Refusal};

// The image of the program of a linked order: version, 2-byte length, and the units. Ruled out: 14 where it is 15, however
// small the buffer; a byte changed where either is answered; an ignored item in the image.
pub fn write_image(program: &Program<'_>, out: &mut [u8]) -> Result<usize, Refusal>
    ensures value { image_told result ≡ imaging (assembled (decode program.now.bytes.now) program.now.ids.now) (length out.old) }
    ensures out_after { out.new ≡ lent_image (assembled (decode program.now.bytes.now) program.now.ids.now) out.old }
{
    let length = program_length(program);
    if length == LIMIT {
        return Err(Cause::LongImage.at(0));
    }
    if HEADER + length > out.len() {
        return Err(Cause::SmallBuffer.at(0));
    }
    let n = write_program(program, &mut out[HEADER..]);
    out[0] = VERSION as u8;
    put_two(out, 1, n);
    Ok(HEADER + n)
}
