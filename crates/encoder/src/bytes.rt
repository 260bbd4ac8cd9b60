// Bytes at the start of a lent part. Each function answers how many it wrote; what follows them is as it was.
// A part is lent on, not a buffer with a place beside: document 01, "Form by location", names this form of the image's writer.
ghost use Rattle.std.specs.Prelude.{◌≡◌, ◌+◌, ◌/◌, ◌%◌, ◌<◌, ◌≤◌, ◌++◌, length, set, drop};
ghost use Rattle.bundle.specs.Limits.{capacity};
ghost use Rattle.bundle.specs.declared.Width.TheVariants.{Byte, Word};
ghost use Rattle.bundle.specs.Encode.{string};
ghost use Rattle.encoder.specs.Started.{started};
ghost use Rattle.encoder.specs.Parts.{head_bytes};

// A number in two bytes.
pub fn put_two(out: &mut [u8], at: usize, v: usize)
    requires { (at + 2 ≤ length out.old) × (v < capacity Word) }
    ensures { out.new ≡ set (set out.old at (v / 256)) (at + 1) (v % 256) }
{
    let [high, low] = (v as u16).to_be_bytes();
    out[at] = high;
    out[at + 1] = low;
}

// An item's head: the 2-byte length of what follows, the kind and the visibility.
// Kind and visibility are the format's bytes, no enums: what is written is what bundle read, whatever kind it is.
pub fn put_head(out: &mut [u8], n: usize, kind: usize, visibility: usize)
    requires { (4 ≤ length out.old) × ((n < capacity Word) × ((kind < 256) × (visibility < 256))) }
    ensures { out.new ≡ head_bytes n kind visibility ++ drop 4 out.old }
{
    put_two(out, 0, n);
    out[2] = kind as u8;
    out[3] = visibility as u8;
}

// Bytes. A loop and not `copy_from_slice`, which the back end makes a memmove: the archive's hosts need none.
#[tactic(auto, using(crate::specs::Started::byte_by_byte))]
fn put_bytes(out: &mut [u8], t: &[u8])
    requires { length t.now ≤ length out.old }
    ensures { out.new ≡ started t.now out.old }
{
    for (i, b) in t.iter().enumerate() {
        out[i] = *b;
    }
}

// A string: its length byte, then its bytes.
#[tactic(auto, unfolding(bundle::specs::Encode::string))]
pub fn put_string(out: &mut [u8], t: &[u8]) -> usize
    requires { (length t.now < capacity Byte) × (1 + length t.now ≤ length out.old) }
    ensures { (result ≡ length (string t.now)) × (out.new ≡ started (string t.now) out.old) }
{
    out[0] = t.len() as u8;
    put_bytes(&mut out[1..], t);
    1 + t.len()
}
