// The identifier form.
ghost use Rattle.std.specs.Prelude.{◌≡◌};
ghost use Rattle.names.specs.Identifier.{class, is_identifier};

// A byte's class: 1 for a letter or `_`, 2 for a digit, 0 for any other. Numbers, not an enum: document 01, "Form by location",
// has a table of 256 byte classes.
#[tactic(auto, unfolding(crate::specs::Identifier::class, crate::specs::Identifier::letter, crate::specs::Identifier::digit))]
fn class_of(b: u8) -> u8
    ensures { result ≡ class b }
{
    if b.is_ascii_alphabetic() || b == b'_' {
        1
    } else if b.is_ascii_digit() {
        2
    } else {
        0
    }
}

// The longest name, as specs/Identifier.antt has it.
pub const NAME: usize = 32;

// Whether the bytes are an identifier. Ruled out: `true` of `9a`, of 33 letters or of no byte; `false` of `_`.
#[tactic(auto, using(crate::specs::Identifier::first_and_rest))]
pub fn is_identifier(s: &[u8]) -> bool
    ensures { result ≡ is_identifier s.now }
{
    let [first, rest @ ..] = s else {
        return false;
    };
    s.len() <= NAME && class_of(*first) == 1 && rest.iter().all(|b| class_of(*b) != 0)
}
