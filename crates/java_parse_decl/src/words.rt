//! Modifiers, names, and what stands between declarations.

ghost use Rattle.std.specs.Prelude.{◌≡◌, ◌<◌, [], ◌∷◌, ◌++◌, length, IfOk, IfSome};
ghost use Rattle.java_grammar.specs.Reads as reads;
ghost use Rattle.java_parse_term.specs.Seen.{Reads, same};
ghost use Rattle.java_parse_expr.specs.Seen.{seen};
ghost use Rattle.java_parse_decl.specs.Parse as spec;

use java_grammar::{Keyword, Mark, Sort, sort_at};
use java_parse_expr::got::Got;
use java_parse_expr::steps::Source;
use java_parse_term::SyntaxFault;
use java_parse_term::marks::{after_infix, after_mark, after_word, is_mark, is_word};
use java_parse_term::parsed::{need, token_number};
use java_tree::Items;
use java_tree::tree::{BinOp, Mod, Name};
use std::alloc::AllocError;

fn mod_of(sort: Sort) -> Option<Mod>
    ensures { result ≡ spec.mod_of sort }
{
    match sort {
        Sort::Keyword(Keyword::Public) => Some(Mod::Public),
        Sort::Keyword(Keyword::Protected) => Some(Mod::Protected),
        Sort::Keyword(Keyword::Private) => Some(Mod::Private),
        Sort::Keyword(Keyword::Static) => Some(Mod::Static),
        Sort::Keyword(Keyword::Abstract) => Some(Mod::Abstract),
        Sort::Keyword(Keyword::Final) => Some(Mod::Final),
        _ => None,
    }
}

#[tactic(auto, using(java_parse_term::proofs::TokLemmas::nothing_past))]
fn mod_at(source: &Source<'_>, at: usize) -> Option<Mod>
    ensures value { result ≡ spec.mod_of (reads.sort_at source.now.toks.now at) }
    ensures within { IfSome result (λ word. at < length source.now.toks.now) }
{
    if at >= source.toks.len() {
        return None;
    }
    mod_of(sort_at(source.toks, at))
}

/// As many modifiers as stand there.
#[tactic(auto, unfolding(crate::specs::Parse::mods_at))]
pub fn mods(source: &Source<'_>, at: usize) -> Result<Got<Items<Mod>>, AllocError>
    ensures { IfOk result (λ g. seen same g ≡ spec.mods_from source.now.text.now source.now.toks.now at) }
{
    let mut done = Got::none(source.alloc, at);
    for _turn in 0..source.toks.len() {
        match mod_at(source, done.next) {
            Some(word) => {
                done.tree.push(word)?;
                done.next += 1;
            }
            None => break,
        }
    }
    Ok(done)
}

/// The place behind all `;` that stand there.
#[tactic(auto, unfolding(crate::specs::Parse::past))]
pub fn past_semicolons(source: &Source<'_>, at: usize) -> usize
    ensures { result ≡ spec.past_from source.now.text.now source.now.toks.now at }
{
    let mut next = at;
    for _turn in 0..source.toks.len() {
        match after_mark(source.toks, Mark::Semicolon, next) {
            Some(behind) => next = behind,
            None => break,
        }
    }
    next
}

// The place of the identifier behind a separator.
#[tactic(auto, unfolding(crate::specs::Parse::separated))]
fn separated(source: &Source<'_>, mark: Mark, at: usize) -> Option<usize>
    ensures { result ≡ spec.separated source.now.text.now source.now.toks.now mark at }
{
    let next = after_mark(source.toks, mark, at)?;
    if is_word(source.toks, next) {
        Some(next)
    } else {
        None
    }
}

/// One or more identifiers with separators between them.
#[tactic(auto, unfolding(crate::specs::Parse::ids))]
pub fn ids(source: &Source<'_>, mark: Mark, at: usize) -> Result<Got<Items<Name>>, SyntaxFault>
    ensures { Reads (seen same) (spec.ids_from source.now.text.now source.now.toks.now mark at) result }
{
    let mut tree = Items::new(source.alloc);
    let mut here = at;
    for _turn in 0..source.toks.len() {
        let next = need(after_word(source.toks, here), here)?;
        tree.push(source.id_at(here))?;
        match separated(source, mark, next) {
            Some(name) => here = name,
            None => return Ok(Got { tree, next }),
        }
    }
    Err(SyntaxFault::Bad {
        token: token_number(here),
    })
}

/// Type parameters (JLS 8.1.2), if any.
#[tactic(auto, unfolding(crate::specs::Parse::type_params))]
pub fn type_params(source: &Source<'_>, at: usize) -> Result<Got<Items<Name>>, SyntaxFault>
    ensures { Reads (seen same) (spec.type_params source.now.text.now source.now.toks.now at) result }
{
    match after_infix(source.toks, BinOp::Less, at) {
        Some(first) => {
            let Got { tree, next } = ids(source, Mark::Comma, first)?;
            let next = need(after_infix(source.toks, BinOp::Greater, next), next)?;
            Ok(Got { tree, next })
        }
        None => Ok(Got::none(source.alloc, at)),
    }
}

/// Whether a name with `(` behind it stands there.
#[tactic(auto, unfolding(crate::specs::Parse::is_called))]
pub fn is_called(source: &Source<'_>, at: usize) -> bool
    ensures { result ≡ spec.is_called source.now.text.now source.now.toks.now at }
{
    is_word(source.toks, at) && is_mark(source.toks, Mark::Open, at + 1)
}
