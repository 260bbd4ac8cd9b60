// The reserved words of lexer.rs.
ghost use Rattle.std.specs.Prelude.{◌≡◌};
ghost use Rattle.names.specs.Keywords.{is_crate, is_keyword, is_main};

const KEYWORDS: [&[u8]; 14] = [
    b"pub", b"use", b"as", b"fn", b"let", b"type", b"mod", b"const", b"match", b"enum", b"crate",
    b"simc", b"true", b"false",
];

const CRATE: &[u8] = b"crate";

const MAIN: &[u8] = b"main";

// Whether the bytes are a reserved word. Ruled out: `true` of `pu` or `public`; `false` of `simc`.
pub fn is_keyword(s: &[u8]) -> bool
    ensures { result ≡ is_keyword s.now }
{
    KEYWORDS.iter().any(|word| s == *word)
}

// Whether the bytes are `crate`. Ruled out: `true` of `crates`; `false` of `crate`.
#[tactic(auto, unfolding(crate::specs::Keywords::is_crate, crate::specs::Bytes::ascii), using(crate::specs::Bytes::equals))]
pub fn is_crate(s: &[u8]) -> bool
    ensures { result ≡ is_crate s.now }
{
    s == CRATE
}

// Whether the bytes are `main`. Ruled out: `true` of `Main`; `false` of `main`.
#[tactic(auto, unfolding(crate::specs::Keywords::is_main, crate::specs::Bytes::ascii), using(crate::specs::Bytes::equals))]
pub fn is_main(s: &[u8]) -> bool
    ensures { result ≡ is_main s.now }
{
    s == MAIN
}
