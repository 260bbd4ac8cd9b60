// Refusals: why something is turned back, and where. A cause has the word of docs/NUMBERS.md; specs/Numbers.antt has the
// number of each, by which reports, programs in other languages and the screen tell it.
#![tactic(auto)]

ghost use Rattle.std.specs.Prelude.{◌≡◌};
ghost use Rattle.refusal.specs.Numbers.{number_of, refusal};

use std::fmt;

#[derive(Clone, Copy, Debug, PartialEq, Eq)]
pub enum Cause {
    Cut,
    Version,
    TooMany,
    BadPath,
    BadName,
    BadKind,
    Twice,
    Orphan,
    Nowhere,
    NoFolder,
    Reserved,
    OddName,
    SameRemapping,
    SmallBuffer,
    LongImage,
    EmptyUse,
    UnknownLibrary,
    NoLibraryFile,
    NoFile,
    OwnFile,
    NoRoot,
    Ring,
    NoMain,
    ForeignEnum,
    UnknownUnit,
    NoCrateWord,
    NoModule,
    PrivateModule,
    NoItem,
    PrivateItem,
    Clash,
    AliasMain,
    ModuleTwice,
    TypeTwice,
    FunctionTwice,
    NotInside,
    TreeFull,
    BadLine,
}

// A cause and the place, as docs/NUMBERS.md has it for each cause.
#[derive(Clone, Copy, Debug, PartialEq, Eq)]
pub struct Refusal {
    pub cause: Cause,
    pub place: usize,
}

impl Cause {
    pub fn at(self, place: usize) -> Refusal
        ensures { result ≡ refusal self place }
    {
        Refusal { cause: self, place }
    }
}

// The number of a cause. Ruled out: one number for two causes.
impl From<Cause> for u8 {
    ghost from_gives = { λ c n. n ≡ number_of c };

    fn from(c: Cause) -> u8 {
        match c {
            Cause::Cut => 1,
            Cause::Version => 2,
            Cause::TooMany => 3,
            Cause::BadPath => 4,
            Cause::BadName => 5,
            Cause::BadKind => 6,
            Cause::Twice => 7,
            Cause::Orphan => 8,
            Cause::Nowhere => 9,
            Cause::NoFolder => 10,
            Cause::Reserved => 11,
            Cause::OddName => 12,
            Cause::SameRemapping => 13,
            Cause::SmallBuffer => 14,
            Cause::LongImage => 15,
            Cause::EmptyUse => 20,
            Cause::UnknownLibrary => 21,
            Cause::NoLibraryFile => 22,
            Cause::NoFile => 23,
            Cause::OwnFile => 24,
            Cause::NoRoot => 25,
            Cause::Ring => 26,
            Cause::NoMain => 27,
            Cause::ForeignEnum => 28,
            Cause::UnknownUnit => 29,
            Cause::NoCrateWord => 40,
            Cause::NoModule => 41,
            Cause::PrivateModule => 42,
            Cause::NoItem => 43,
            Cause::PrivateItem => 44,
            Cause::Clash => 45,
            Cause::AliasMain => 46,
            Cause::ModuleTwice => 47,
            Cause::TypeTwice => 48,
            Cause::FunctionTwice => 49,
            Cause::NotInside => 50,
            Cause::TreeFull => 51,
            Cause::BadLine => 52,
        }
    }
}

// The line `no`, a number and a place, without its end.
impl fmt::Display for Refusal {
    fn fmt<W: fmt::Write>(&self, f: &mut fmt::Formatter<W>) -> fmt::Result {
        write!(f, "no {} {}", u8::from(self.cause), self.place)
    }
}
