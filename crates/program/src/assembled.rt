// What steps 1 to 5 and the image come to.
use order::Linked;

#[derive(Clone, Copy)]
pub enum Assembled {
    // How many bytes at the start of the lent report buffer are the report.
    Report(usize),
    // The units in linked order, and how many bytes at the start of the lent image buffer are the image.
    Image(Linked, usize),
}
