//! Keywords (JLS 3.9) and the literals that are words.

ghost use Rattle.std.specs.Prelude.{◌≡◌};
ghost use Rattle.std.specs.List.{list_any};
ghost use Rattle.std.specs.Str.{bytes_eq};
ghost use Rattle.java_lexer.specs.Bytes as bytes;
ghost use Rattle.java_lexer.specs.Scan as spec;

use crate::bytes::head;

const A_WORDS: [&[u8]; 2] = [b"abstract", b"assert"];

const B_WORDS: [&[u8]; 3] = [b"boolean", b"break", b"byte"];

const C_WORDS: [&[u8]; 6] = [b"case", b"catch", b"char", b"class", b"const", b"continue"];

const D_WORDS: [&[u8]; 3] = [b"default", b"do", b"double"];

const E_WORDS: [&[u8]; 3] = [b"else", b"enum", b"extends"];

const F_WORDS: [&[u8]; 5] = [b"final", b"finally", b"float", b"for", b"false"];

const G_WORDS: [&[u8]; 1] = [b"goto"];

const I_WORDS: [&[u8]; 6] = [
    b"if",
    b"implements",
    b"import",
    b"instanceof",
    b"int",
    b"interface",
];

const L_WORDS: [&[u8]; 1] = [b"long"];

const N_WORDS: [&[u8]; 3] = [b"native", b"new", b"null"];

const P_WORDS: [&[u8]; 4] = [b"package", b"private", b"protected", b"public"];

const R_WORDS: [&[u8]; 1] = [b"return"];

const S_WORDS: [&[u8]; 6] = [
    b"short",
    b"static",
    b"strictfp",
    b"super",
    b"switch",
    b"synchronized",
];

const T_WORDS: [&[u8]; 6] = [b"this", b"throw", b"throws", b"transient", b"try", b"true"];

const V_WORDS: [&[u8]; 2] = [b"void", b"volatile"];

const W_WORDS: [&[u8]; 1] = [b"while"];

/// Whether a word is one of the keywords that begin with a letter.
fn is_among(word: &[u8], letter: u8) -> bool
    ensures { result ≡ list_any (bytes_eq word.now) (spec.with_head letter bytes.keywords) }
{
    match letter {
        b'a' => A_WORDS.contains(&word),
        b'b' => B_WORDS.contains(&word),
        b'c' => C_WORDS.contains(&word),
        b'd' => D_WORDS.contains(&word),
        b'e' => E_WORDS.contains(&word),
        b'f' => F_WORDS.contains(&word),
        b'g' => G_WORDS.contains(&word),
        b'i' => I_WORDS.contains(&word),
        b'l' => L_WORDS.contains(&word),
        b'n' => N_WORDS.contains(&word),
        b'p' => P_WORDS.contains(&word),
        b'r' => R_WORDS.contains(&word),
        b's' => S_WORDS.contains(&word),
        b't' => T_WORDS.contains(&word),
        b'v' => V_WORDS.contains(&word),
        b'w' => W_WORDS.contains(&word),
        _ => false,
    }
}

/// Whether a word is a keyword, `true`, `false` or `null`.
pub fn is_keyword(word: &[u8]) -> bool
    ensures { result ≡ bytes.is_keyword word.now }
{
    is_among(word, head(word))
}
