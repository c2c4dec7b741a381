//! The trees of texts.

ghost use Rattle.std.specs.Prelude.{◌≡◌, ◌≤◌, ◌<◌, ◌+◌, ◌-◌, ◌^◌, ℕ, length, OnOk, IfOk};
ghost use Rattle.java_tree.specs.Names.{IsTable, IsFront, AreDistinct};
ghost use Rattle.java_lexer.specs.Lexing.{Lexes};
ghost use Rattle.java_grammar.specs.Interned.{interned};
ghost use Rattle.source_files.specs.Held.{AreSmall, most_of_one};
ghost use Rattle.source_files.specs.Trees.{AreAllowed, most_tokens};
ghost use Rattle.source_files.specs.Answers.{HasParsed};
ghost use Rattle.source_files.specs.Steps.{place_at, HasTokens, HasTree};

use java_lexer::{LexFault, lex};
use java_parse_decl::parse_unit;
use java_parse_term::SyntaxFault;
use java_tree::tree::{SourceUnit, Token};
use java_tree::{Items, Names};
use left_out::first_left_out;
use std::alloc::{AllocError, Global};
use unit_grammar::number_unit;

/// The most tokens of all files.
const MOST_TOKENS: u32 = 1_048_576;

/// The files of a program, one after the other, with one table of names. Nodes are numbered from 0 through all files.
#[derive(Drop)]
pub struct Parsed {
    pub names: Names,
    pub units: Items<SourceUnit>,
}

/// The first rule that a text breaks. `file` is its number, from 0, and `at` an offset in bytes.
#[derive(Clone, Copy, Debug, PartialEq, Eq)]
pub enum TreeStop {
    /// X1 to X6.
    Lexical { rule: u8, file: usize, at: u32 },
    /// L4: the files so far have more than 1,048,576 tokens.
    Tokens,
    /// S1 to S9.
    LeftOut { rule: u8, file: usize, at: u32 },
    /// G1: the file has no tree of depth at most 256, where the unit has 0. The place is one of its tokens or its end.
    NoTree { file: usize, at: u32 },
    NoMemory,
}

impl From<AllocError> for TreeStop {
    ghost use Rattle.std.specs.Prelude.{◌≡◌};
    ghost use Rattle.source_files.specs.declared.trees.TreeStop.TheVariants.{NoMemory};

    ghost from_gives = { λ _ e. e ≡ NoMemory };

    fn from(_: AllocError) -> TreeStop {
        TreeStop::NoMemory
    }
}

impl From<java_tree::NoMemory> for TreeStop {
    ghost use Rattle.std.specs.Prelude.{◌≡◌};
    ghost use Rattle.source_files.specs.declared.trees.TreeStop.TheVariants.{NoMemory};

    ghost from_gives = { λ _ e. e ≡ NoMemory };

    fn from(_: java_tree::NoMemory) -> TreeStop {
        TreeStop::NoMemory
    }
}

/// The tokens of the text with a number, behind `count` tokens of the texts before it.
#[tactic(auto, using(crate::proofs::Parsing::left_is))]
fn tokens_of(alloc: Global, text: &[u8], file: usize, count: u32) -> Result<Items<Token>, TreeStop>
    requires small { length text.now ≤ most_of_one }
    requires few { count ≤ most_tokens }
    ensures { HasTokens count text.now file result }
{
    let tokens = match lex(alloc, text) {
        Ok(tokens) => tokens,
        Err(LexFault::Bad { rule, at }) => return Err(TreeStop::Lexical { rule, file, at }),
        Err(LexFault::NoMemory) => return Err(TreeStop::NoMemory),
    };
    if count + tokens.len() as u32 > MOST_TOKENS {
        return Err(TreeStop::Tokens);
    }
    match first_left_out(text, tokens.as_slice()) {
        None => Ok(tokens),
        Some(left_out) => Err(TreeStop::LeftOut {
            rule: left_out.rule,
            file,
            at: place_of(text, tokens.as_slice(), left_out.token),
        }),
    }
}

/// Where a token begins, or the end of the text.
fn place_of(text: &[u8], tokens: &[Token], token: usize) -> u32
    requires { length text.now ≤ most_of_one }
    ensures { result ≡ place_at text.now tokens.now token }
{
    match tokens.get(token) {
        Some(token) => token.span.from,
        None => text.len() as u32,
    }
}

/// The tree of the text with a number, with nodes numbered from `first`, and the number behind them.
fn tree_of(
    alloc: Global,
    text: &[u8],
    tokens: &[Token],
    file: usize,
    first: u32,
    names: &mut Names,
) -> Result<(SourceUnit, u32), TreeStop>
    requires lexed { Lexes text.now tokens.now }
    requires few { length tokens.now ≤ most_tokens }
    requires small { length text.now ≤ most_of_one }
    requires room { length names.old < 2 ^ 31 }
    requires numbers { first < 2 ^ 31 }
    ensures read { (count : ℕ) → AreAllowed count text.now tokens.now → HasTree names.old first count text.now tokens.now file result }
    ensures table { OnOk result (names.new ≡ interned text.now tokens.now names.old) }
    ensures kept { IsFront names.old names.new }
    ensures distinct { AreDistinct names.old → AreDistinct names.new }
    ensures grown { length names.new ≤ length names.old + length tokens.now }
{
    match parse_unit(alloc, text, tokens, first, names) {
        Ok(mut unit) => {
            // The nodes have these numbers already: this counts them.
            let next = number_unit(&mut unit, first);
            Ok((unit, next))
        }
        Err(SyntaxFault::Bad { token }) => Err(TreeStop::NoTree {
            file,
            at: place_of(text, tokens, token as usize),
        }),
        Err(SyntaxFault::NoMemory) => Err(TreeStop::NoMemory),
    }
}

/// The trees of texts (JLS 3 and 18), or the first rule that one breaks: text by text X, then L4, then S1 to S9, then G1.
pub fn parse_files(alloc: Global, texts: &[Items<u8>]) -> Result<Parsed, TreeStop>
    requires few { length texts.now ≤ 256 }
    requires small { AreSmall texts.now }
    ensures { HasParsed texts.now result }
{
    let mut names = Names::new(alloc)?;
    let mut units = Items::new(alloc);
    let mut first = 0;
    let mut count = 0;
    for (file, text) in texts.iter().enumerate() {
        let text = text.as_slice();
        let tokens = tokens_of(alloc, text, file, count)?;
        let (unit, next) = tree_of(alloc, text, tokens.as_slice(), file, first, &mut names)?;
        units.push(unit)?;
        first = next;
        count += tokens.len() as u32;
    }
    Ok(Parsed { names, units })
}
