//! The first piece of a text.

ghost use Rattle.std.specs.Prelude.{◌≡◌, ◌≤◌, ◌<◌, ◌+◌, ◌∷◌, length, IfSome, IfOk, Ok, Err};
ghost use Rattle.java_lexer.specs.Faults.{Told};
ghost use Rattle.java_lexer.specs.Pieces as pieces;
ghost use Rattle.java_lexer.specs.Scan as spec;

use crate::bytes::{Set, is_pair, is_triple};
use crate::literal::{character, quoted};
use crate::number::{fraction, number};
use crate::piece::{Class, Piece, Rule};

fn piece(class: Class, len: usize) -> Result<Piece, Rule>
    ensures { result ≡ spec.piece class len }
{
    Ok(Piece { class, len })
}

/// The literal whose opening quote has the rest behind it, if it has a length.
fn literal(class: Class, len: Option<usize>, rule: Rule, rest: &[u8]) -> Result<Piece, Rule>
    requires { IfSome len (λ n. n ≤ length rest.now) }
    ensures value { result ≡ spec.piece_or class (spec.more 1 len) (Err rule) }
    ensures within { IfOk result (λ p. (0 < p.len) × (p.len ≤ length rest.now + 1)) }
{
    match len {
        Some(len) => piece(class, len + 1),
        None => Err(rule),
    }
}

fn operator_len(text: &[u8]) -> usize
    ensures value { result ≡ spec.operator_len text.now }
    ensures within { result ≤ length text.now }
{
    match text {
        [b, c, d, ..] if is_triple(*b, *c, *d) => 3,
        [b, c, ..] if is_pair(*b, *c) => 2,
        [b, ..] if Set::Operator.has(*b) => 1,
        _ => 0,
    }
}

fn operator(text: &[u8]) -> Result<Piece, Rule>
    ensures value { result ≡ spec.operator text.now }
    ensures within { IfOk result (λ p. (0 < p.len) × (p.len ≤ length text.now)) }
{
    let len = operator_len(text);
    if len == 0 {
        return Err(Rule::Stray);
    }
    piece(Class::Operator, len)
}

fn closes_here(b: u8, rest: &[u8]) -> bool
    ensures { result ≡ pieces.closes_here b rest.now }
{
    Set::Star.has(b) && Set::Slash.first(rest)
}

/// How many bytes there are up to the end of a comment.
#[tactic(auto, using(crate::proofs::Lengths::more_more))]
fn closing(text: &[u8]) -> Option<usize>
    ensures value { result ≡ spec.closing text.now }
    ensures within { IfSome result (λ n. n ≤ length text.now) }
{
    let mut rest = text;
    let mut at = 0;
    while let [b, later @ ..] = rest {
        if closes_here(*b, later) {
            return Some(at + 2);
        }
        rest = later;
        at += 1;
    }
    None
}

fn block_comment(body: &[u8]) -> Result<Piece, Rule>
    ensures value { result ≡ spec.piece_or Class.BlockComment (spec.more 2 (spec.closing body.now)) (Err Rule.Comment) }
    ensures within { IfOk result (λ p. (0 < p.len) × (p.len ≤ length body.now + 2)) }
{
    match closing(body) {
        Some(len) => piece(Class::BlockComment, len + 2),
        None => Err(Rule::Comment),
    }
}

/// A comment, or an operator that begins with a slash.
fn slash(text: &[u8]) -> Result<Piece, Rule>
    ensures value { result ≡ spec.slash text.now }
    ensures within { IfOk result (λ p. (0 < p.len) × (p.len ≤ length text.now)) }
{
    match text {
        [_, b'/', line @ ..] => piece(Class::LineComment, Set::InLine.run(line) + 2),
        [_, b'*', body @ ..] => block_comment(body),
        _ => operator(text),
    }
}

/// A floating literal or an operator that begins with a point.
fn point(text: &[u8]) -> Result<Piece, Rule>
    ensures value { result ≡ spec.point text.now }
    ensures within { IfOk result (λ p. (0 < p.len) × (p.len ≤ length text.now)) }
{
    match text {
        [_, rest @ ..] if Set::Digit.first(rest) => piece(Class::Floating, fraction(rest) + 1),
        _ => operator(text),
    }
}

fn other(b: u8, rest: &[u8], text: &[u8]) -> Result<Piece, Rule>
    requires { text.now ≡ b ∷ rest.now }
    ensures value { result ≡ spec.other b rest.now }
    ensures within { IfOk result (λ p. (0 < p.len) × (p.len ≤ length text.now)) }
{
    match b {
        b'"' => literal(Class::Text, quoted(rest), Rule::Text, rest),
        b'\'' => literal(Class::Character, character(rest), Rule::Character, rest),
        b'/' => slash(text),
        b'.' => point(text),
        _ => operator(text),
    }
}

/// The first piece, or what is broken there.
pub fn first(text: &[u8]) -> Result<Piece, Rule>
    ensures value { result ≡ spec.first text.now }
    ensures within { IfOk result (λ p. (0 < p.len) × (p.len ≤ length text.now)) }
{
    let [b, rest @ ..] = text else {
        return Err(Rule::Stray);
    };
    if Set::Blank.has(*b) {
        piece(Class::Blank, 1)
    } else if Set::Start.has(*b) {
        piece(Class::Word, Set::Part.run(rest) + 1)
    } else if Set::Digit.has(*b) {
        number(*b, rest)
    } else {
        other(*b, rest, text)
    }
}
