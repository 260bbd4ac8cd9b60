// An item's kind.
ghost use Rattle.std.specs.Prelude.{◌≡◌};
ghost use Rattle.bundle.specs.Told.{kind_from, kind_number};

// What a kind says of an item's body: a use, a module, an ignored item, or a name alone. Named are a type alias, a function and
// an enum, and of bytes that are no bundle any other number: the byte, not three variants, since what is written is the byte that was
// read, and a function and an enum are told apart at the ends of three walks alone (main, 28, a declaration).
#[derive(Clone, Copy, Debug, PartialEq, Eq)]
pub enum Kind {
    Named(u8),
    Use,
    Module,
    Ignored,
}

impl From<u8> for Kind {
    ghost from_gives = { λ n k. k ≡ kind_from n };

    fn from(n: u8) -> Kind {
        match n {
            3 => Kind::Use,
            5 => Kind::Module,
            6 => Kind::Ignored,
            _ => Kind::Named(n),
        }
    }
}

impl From<Kind> for u8 {
    ghost from_gives = { λ k n. n ≡ kind_number k };

    fn from(k: Kind) -> u8 {
        match k {
            Kind::Named(n) => n,
            Kind::Use => 3,
            Kind::Module => 5,
            Kind::Ignored => 6,
        }
    }
}
