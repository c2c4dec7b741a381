//! The tokens of a text, as the grammar sees them.

ghost use Rattle.std.specs.Prelude.{◌≡◌, ◌≤◌, ◌<◌, ◌+◌, ◌-◌, ◌^◌, length, IfOk};
ghost use Rattle.std.specs.Str.{IsUtf8};
ghost use Rattle.java_tree.specs.Names.{IsFront, AreDistinct};
ghost use Rattle.java_lexer.specs.Lexing.{Lexes};
ghost use Rattle.java_grammar.specs.Sorts.{bytes_in, HasName, IsTok, AreToks};
ghost use Rattle.java_grammar.specs.Interned.{with_word, interned};

use crate::sorts::sort_of;
use crate::token::Tok;
use java_tree::tree::{Kind, Span, Token};
use java_tree::{Items, Names, NoMemory};
use std::alloc::Global;

/// The text of a token.
fn text_of(text: &[u8], span: Span) -> &str
    requires within { (span.from ≤ span.to) × (span.to ≤ length text.now) }
    requires utf8 { IsUtf8 (bytes_in text.now span) }
    ensures { result.now ≡ bytes_in text.now span }
{
    match str::from_utf8(&text[span.from as usize..span.to as usize]) {
        Ok(text) => text,
        Err(_) => unreachable!(),
    }
}

/// The number of an identifier, and 0 for another token.
fn name_of(names: &mut Names, kind: Kind, word: &str) -> Result<u32, NoMemory>
    requires { length names.old < 2 ^ 32 - 1 }
    ensures name { IfOk result (λ n. HasName names.new kind word.now n) }
    ensures table { IfOk result (λ n. names.new ≡ with_word kind word.now names.old) }
    ensures kept { IsFront names.old names.new }
    ensures distinct { AreDistinct names.old → AreDistinct names.new }
    ensures grown { length names.new ≤ length names.old + 1 }
{
    match kind {
        Kind::Word => {
            let name = names.intern(word)?;
            Ok(name.0)
        }
        _ => Ok(0),
    }
}

fn tok_of(text: &[u8], token: Token, names: &mut Names) -> Result<Tok, NoMemory>
    requires within { (token.span.from ≤ token.span.to) × (token.span.to ≤ length text.now) }
    requires utf8 { IsUtf8 (bytes_in text.now token.span) }
    requires room { length names.old < 2 ^ 32 - 1 }
    ensures tok { IfOk result (λ t. IsTok text.now names.new token t) }
    ensures table { IfOk result (λ t. names.new ≡ with_word token.kind (bytes_in text.now token.span) names.old) }
    ensures kept { IsFront names.old names.new }
    ensures distinct { AreDistinct names.old → AreDistinct names.new }
    ensures grown { length names.new ≤ length names.old + 1 }
{
    let Token { kind, span } = token;
    let word = text_of(text, span);
    let sort = sort_of(kind, word);
    let name = name_of(names, kind, word)?;
    Ok(Tok { sort, name, span })
}

/// The tokens of a text, as the grammar sees them. Identifiers are put into the table of names, in order of first sight.
pub fn toks_of(
    alloc: Global,
    text: &[u8],
    tokens: &[Token],
    names: &mut Names,
) -> Result<Items<Tok>, NoMemory>
    requires lexed { Lexes text.now tokens.now }
    requires room { length names.old + length tokens.now < 2 ^ 32 - 1 }
    ensures toks { IfOk result (λ ts. AreToks text.now names.new tokens.now ts) }
    ensures table { IfOk result (λ ts. names.new ≡ interned text.now tokens.now names.old) }
    ensures kept { IsFront names.old names.new }
    ensures distinct { AreDistinct names.old → AreDistinct names.new }
    ensures grown { length names.new ≤ length names.old + length tokens.now }
{
    let mut toks = Items::new(alloc);
    for token in tokens {
        let tok = tok_of(text, *token, names)?;
        toks.push(tok)?;
    }
    Ok(toks)
}
