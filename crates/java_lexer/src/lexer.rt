//! The whole text.

ghost use Rattle.std.specs.Prelude.{◌≡◌, ◌≤◌, ◌<◌, ◌^◌, ℕ, List, length, OnOk, IfOk};
ghost use Rattle.std.specs.List.{list_any};
ghost use Rattle.java_lexer.specs.Bytes as bytes;
ghost use Rattle.java_lexer.specs.Encoding.{IsPlain};
ghost use Rattle.java_lexer.specs.Faults.{Told};
ghost use Rattle.java_lexer.specs.Lexing as spec;
ghost use Rattle.java_lexer.specs.Lexing.{Answers, IsLexed, IsRefused, Lexes, Fails};
ghost use Rattle.java_lexer.specs.Scan as scan;
ghost use Rattle.java_tree.specs.declared.tree.Token.{Token};

use crate::LexFault;
use crate::encoding::first_odd;
use crate::first::first;
use crate::keyword::is_keyword;
use crate::piece::{Class, Piece, Rule};
use java_tree::Items;
use java_tree::tree::{Kind, Span, Token};
use std::alloc::{AllocError, Global};

fn has_long(text: &[u8]) -> bool
    ensures { result ≡ list_any bytes.is_long text.now }
{
    text.iter().any(|b| matches!(*b, b'l' | b'L'))
}

/// The kind of token that a piece is, by its text.
fn kind(class: Class, text: &[u8]) -> Option<Kind>
    ensures { result ≡ spec.kind class text.now }
{
    match class {
        Class::Blank | Class::LineComment | Class::BlockComment => None,
        Class::Word => Some(if is_keyword(text) {
            Kind::Keyword
        } else {
            Kind::Word
        }),
        Class::Integer => Some(if has_long(text) {
            Kind::Long
        } else {
            Kind::Int
        }),
        Class::Floating => Some(Kind::Float),
        Class::Character => Some(Kind::Char),
        Class::Text => Some(Kind::Text),
        Class::Operator => Some(Kind::Op),
    }
}

fn add(tokens: &mut Items<Token>, kind: Option<Kind>, from: u32, to: u32) -> Result<(), AllocError>
    ensures { OnOk result (tokens.new ≡ scan.added tokens.old kind from to) }
{
    if let Some(kind) = kind {
        let span = Span { from, to };
        tokens.push(Token { kind, span })?;
    }
    Ok(())
}

/// The first piece, or what is broken there.
fn first_piece(text: &[u8]) -> Result<Piece, Rule>
    ensures told { Told text.now result }
    ensures within { IfOk result (λ p. (0 < p.len) × (p.len ≤ length text.now)) }
{
    first(text)
}

fn pieces(alloc: Global, text: &[u8]) -> Result<Items<Token>, LexFault>
    requires size { length text.now < 2 ^ 27 }
    requires plain { IsPlain text.now }
    ensures { Answers text.now result }
{
    let mut tokens = Items::new(alloc);
    let mut rest = text;
    let mut at: u32 = 0;
    while !rest.is_empty() {
        match first_piece(rest) {
            Err(rule) => {
                return Err(LexFault::Bad {
                    rule: rule.number(),
                    at,
                });
            }
            Ok(piece) => {
                let (token, later) = rest.split_at(piece.len);
                let to = at + piece.len as u32;
                add(&mut tokens, kind(piece.class, token), at, to)?;
                rest = later;
                at = to;
            }
        }
    }
    Ok(tokens)
}

fn scanned(alloc: Global, text: &[u8]) -> Result<Items<Token>, LexFault>
    requires { length text.now < 2 ^ 27 }
    ensures { Answers text.now result }
{
    match first_odd(text) {
        Some(at) => Err(LexFault::Bad {
            rule: 6,
            at: at as u32,
        }),
        None => pieces(alloc, text),
    }
}

/// The tokens of a text of less than 2^27 bytes (JLS 3), with their places in bytes from its start. Where the text has none, the fault
/// says which of the rules X1 to X6 is broken first, and where: X6 in the whole text, then the others from the start on.
pub fn lex(alloc: Global, text: &[u8]) -> Result<Items<Token>, LexFault>
    requires { length text.now < 2 ^ 27 }

    // What is answered is so.
    ensures right { Answers text.now result }

    // What is so is answered, unless memory runs out.
    ensures only_tokens { (ts : List Token) → Lexes text.now ts → IsLexed result ts }
    ensures only_fault { (rule at : ℕ) → Fails text.now rule at → IsRefused result rule at }
{
    scanned(alloc, text)
}
