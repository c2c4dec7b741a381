//! Files from the tokens of a text.

ghost use Rattle.std.specs.Prelude.{◌≡◌, ◌↔◌, ◌+◌, ◌-◌, ◌≤◌, ◌<◌, ◌^◌, ℕ, List, length, IfOk};
ghost use Rattle.java_tree.specs.Names.{AreDistinct, IsFront};
ghost use Rattle.java_tree.specs.Plain as t;
ghost use Rattle.java_tree.specs.View.{unit_plain};
ghost use Rattle.java_lexer.specs.Lexing.{Lexes};
ghost use Rattle.java_grammar.specs.Interned.{interned};
ghost use Rattle.java_grammar.specs.Sorts.{AreToks};
ghost use Rattle.java_grammar.specs.declared.token.Tok.{Tok};
ghost use Rattle.java_parse_term.specs.Ready.{Readable};
ghost use Rattle.unit_grammar.specs.Declarations.{SpellsUnit};
ghost use Rattle.unit_grammar.specs.Depths.{unit_depth};
ghost use Rattle.unit_grammar.specs.Numbers as numbers;
ghost use Rattle.unit_grammar.specs.Sizes as size;
ghost use Rattle.java_parse_decl.specs.Found.{IsUnit, IsAnswer, IfBad, IfFault, IsNoMemory, UnlessNoMemory};

use crate::units::unit;
use java_grammar::{Tok, toks_of};
use java_parse_expr::steps::Source;
use java_parse_term::SyntaxFault;
use java_tree::tree::{SourceUnit, Token};
use java_tree::{Boxed, Items, Names, NoMemory};
use std::alloc::Global;
use unit_grammar::number_unit;

/// The greatest depth of a file, where its own node has 0.
const DEPTH: u32 = 256;

/// The tokens as the grammar sees them.
fn toks(
    alloc: Global,
    text: &[u8],
    tokens: &[Token],
    names: &mut Names,
) -> Result<Items<Tok>, NoMemory>
    requires lexed { Lexes text.now tokens.now }
    requires room { length names.old + length tokens.now < 2 ^ 32 - 1 }
    ensures toks { IfOk result (λ ts. AreToks text.now names.new tokens.now ts) }
    ensures one { IfOk result (λ ts. (us : List Tok) → AreToks text.now names.new tokens.now us → us ≡ ts) }
    ensures ready { IfOk result (λ ts. Readable text.now ts) }
    ensures count { IfOk result (λ ts. length ts ≡ length tokens.now) }
    ensures table { IfOk result (λ ts. names.new ≡ interned text.now tokens.now names.old) }
    ensures kept { IsFront names.old names.new }
    ensures distinct { AreDistinct names.old → AreDistinct names.new }
    ensures grown { length names.new ≤ length names.old + length tokens.now }
{
    let toks = toks_of(alloc, text, tokens, names)?;
    // The table says that no text has two numbers.
    let _many = names.len();
    Ok(toks)
}

/// The file, not numbered.
fn unit_of(alloc: Global, text: &[u8], toks: &[Tok]) -> Result<Boxed<SourceUnit>, SyntaxFault>
    requires { Readable text.now toks.now }
    ensures found { IfOk result (λ u. SpellsUnit text.now toks.now (unit_plain u) × (unit_depth (unit_plain u) ≤ 256)) }
    ensures few { IfOk result (λ u. size.unit (unit_plain u) ≤ length toks.now + 1) }
    ensures only { (x : t.SourceUnit) → SpellsUnit text.now toks.now x → unit_depth x ≤ 256 → IsAnswer result x }
{
    let source = Source { alloc, text, toks };
    unit(&source, DEPTH)
}

fn numbered(tree: Boxed<SourceUnit>, first: u32) -> SourceUnit
    requires { first + size.unit (unit_plain tree) < 2 ^ 32 }
    ensures { unit_plain result ≡ (numbers.unit (unit_plain tree) first).0 }
{
    let mut tree = tree.into_inner();
    number_unit(&mut tree, first);
    tree
}

/// The fault, with no token behind the end.
fn within(fault: SyntaxFault, tokens: &[Token]) -> SyntaxFault
    requires { length tokens.now < 2 ^ 32 }
    ensures token { IfBad result (λ token. token ≤ length tokens.now) }
    ensures memory { IsNoMemory result ↔ IsNoMemory fault }
{
    match fault {
        SyntaxFault::Bad { token } => SyntaxFault::Bad {
            token: token.min(tokens.len() as u32),
        },
        SyntaxFault::NoMemory => SyntaxFault::NoMemory,
    }
}

/// A file's tree (JLS 7.3, 18), of depth at most 256, where its own node has 0. Nodes are numbered in preorder from `first`. Identifiers are put
/// into the table of names, in order of first sight, and stay there after a fault, which names a token or the end.
pub fn parse_unit(
    alloc: Global,
    text: &[u8],
    tokens: &[Token],
    first: u32,
    names: &mut Names,
) -> Result<SourceUnit, SyntaxFault>
    requires lexed { Lexes text.now tokens.now }
    requires room { length names.old + length tokens.now < 2 ^ 32 - 1 }
    requires numbers { first + length tokens.now + 1 < 2 ^ 32 }
    ensures found { IfOk result (λ u. IsUnit text.now names.new tokens.now first (unit_plain u)) }
    ensures only { (x : t.SourceUnit) → IsUnit text.now names.new tokens.now first x → IsAnswer result x }
    ensures token { IfFault result (λ token. token ≤ length tokens.now) }
    ensures table { UnlessNoMemory result (names.new ≡ interned text.now tokens.now names.old) }
    ensures kept { IsFront names.old names.new }
    ensures distinct { AreDistinct names.old → AreDistinct names.new }
    ensures grown { length names.new ≤ length names.old + length tokens.now }
{
    let toks = toks(alloc, text, tokens, names)?;
    match unit_of(alloc, text, toks.as_slice()) {
        Ok(tree) => Ok(numbered(tree, first)),
        Err(fault) => Err(within(fault, tokens)),
    }
}
