//! Classes and interfaces (JLS 8.1, 9.1).

ghost use Rattle.std.specs.Prelude.{◌≡◌, ◌∷◌, [], map};
ghost use Rattle.java_tree.specs.View.{type_plain, member_plain, decl_plain};
ghost use Rattle.java_parse_term.specs.Ready.{Readable};
ghost use Rattle.java_parse_term.specs.Seen.{Reads, same};
ghost use Rattle.java_parse_expr.specs.Seen.{seen};
ghost use Rattle.java_parse_decl.specs.Parse as spec;

use crate::members::{behind, class_under, member};
use crate::words::{mods, past_semicolons, type_params};
use java_grammar::{Keyword, Mark, to_at};
use java_parse_expr::got::Got;
use java_parse_expr::steps::Source;
use java_parse_term::SyntaxFault;
use java_parse_term::marks::{after_keyword, after_mark, after_word, is_mark};
use java_parse_term::parsed::{need, token_number};
use java_tree::tree::{Member, Mod, TypeDecl, TypeExpr};
use java_tree::{Boxed, Items};

#[tactic(auto, unfolding(crate::specs::Parse::members_end))]
fn members_end(source: &Source<'_>, at: usize) -> bool
    ensures { result ≡ spec.members_end source.now.text.now source.now.toks.now at }
{
    is_mark(source.toks, Mark::RightBrace, past_semicolons(source, at))
}

#[tactic(auto, unfolding(crate::specs::Parse::next_member))]
fn next_member(
    source: &Source<'_>,
    limit: u32,
    at: usize,
) -> Result<Got<Boxed<Member>>, SyntaxFault>
    requires { Readable source.now.text.now source.now.toks.now }
    ensures { Reads (seen member_plain) (spec.next_member source.now.text.now source.now.toks.now limit at) result }
{
    member(source, limit, past_semicolons(source, at))
}

// Members of at most the depth `limit`.
#[tactic(auto, unfolding(crate::specs::Parse::members, java_parse_expr::specs::Parse::many))]
fn members(source: &Source<'_>, limit: u32, at: usize) -> Result<Got<Items<Member>>, SyntaxFault>
    requires { Readable source.now.text.now source.now.toks.now }
    ensures { Reads (seen (map member_plain)) (spec.members source.now.text.now source.now.toks.now limit at) result }
{
    let mut done = Got::none(source.alloc, at);
    for _turn in 0..source.toks.len() + 1 {
        if members_end(source, done.next) {
            return Ok(done);
        }
        let one = next_member(source, limit, done.next)?;
        done.add(one)?;
    }
    Err(SyntaxFault::Bad {
        token: token_number(done.next),
    })
}

// Members in braces.
#[tactic(auto, unfolding(crate::specs::Parse::members_in))]
fn members_in(source: &Source<'_>, limit: u32, at: usize) -> Result<Got<Items<Member>>, SyntaxFault>
    requires { Readable source.now.text.now source.now.toks.now }
    ensures { Reads (seen (map member_plain)) (spec.members_in source.now.text.now source.now.toks.now limit at) result }
{
    let first = need(after_mark(source.toks, Mark::LeftBrace, at), at)?;
    let Got { tree, next } = members(source, limit, first)?;
    let end = past_semicolons(source, next);
    let next = need(after_mark(source.toks, Mark::RightBrace, end), end)?;
    Ok(Got { tree, next })
}

// Whether an interface is declared, and the place behind the word.
#[tactic(auto, unfolding(crate::specs::Parse::kind))]
fn kind(source: &Source<'_>, at: usize) -> Result<Got<bool>, SyntaxFault>
    ensures { Reads (seen same) (spec.kind source.now.text.now source.now.toks.now at) result }
{
    if let Some(next) = after_keyword(source.toks, Keyword::Interface, at) {
        return Ok(Got { tree: true, next });
    }
    let next = need(after_keyword(source.toks, Keyword::Class, at), at)?;
    Ok(Got { tree: false, next })
}

// The class above a class, if one is named.
#[tactic(auto, unfolding(crate::specs::Parse::parent))]
fn parent(source: &Source<'_>, limit: u32, at: usize) -> Result<Got<Items<TypeExpr>>, SyntaxFault>
    requires { Readable source.now.text.now source.now.toks.now }
    ensures { Reads (seen (map type_plain)) (spec.parent source.now.text.now source.now.toks.now limit at) result }
{
    match after_keyword(source.toks, Keyword::Extends, at) {
        Some(next) => {
            let found = class_under(source, limit, next)?;
            Ok(Got::one(source.alloc, found)?)
        }
        None => Ok(Got::none(source.alloc, at)),
    }
}

// The types that an interface extends, or the class.
#[tactic(auto, unfolding(crate::specs::Parse::extends))]
fn extends(
    source: &Source<'_>,
    interface: bool,
    limit: u32,
    at: usize,
) -> Result<Got<Items<TypeExpr>>, SyntaxFault>
    requires { Readable source.now.text.now source.now.toks.now }
    ensures { Reads (seen (map type_plain)) (spec.extends source.now.text.now source.now.toks.now interface limit at) result }
{
    if interface {
        behind(source, Keyword::Extends, limit, at)
    } else {
        parent(source, limit, at)
    }
}

// The interfaces that a class implements.
#[tactic(auto, unfolding(crate::specs::Parse::implements))]
fn implements(
    source: &Source<'_>,
    interface: bool,
    limit: u32,
    at: usize,
) -> Result<Got<Items<TypeExpr>>, SyntaxFault>
    requires { Readable source.now.text.now source.now.toks.now }
    ensures { Reads (seen (map type_plain)) (spec.implements source.now.text.now source.now.toks.now interface limit at) result }
{
    if interface {
        Ok(Got::none(source.alloc, at))
    } else {
        behind(source, Keyword::Implements, limit, at)
    }
}

// A type from its name on, behind its word.
#[tactic(auto, unfolding(crate::specs::Parse::decl_behind))]
fn decl_behind(
    source: &Source<'_>,
    limit: u32,
    at: usize,
    mods: Items<Mod>,
    kind: Got<bool>,
) -> Result<Got<Boxed<TypeDecl>>, SyntaxFault>
    requires { Readable source.now.text.now source.now.toks.now }
    ensures { Reads (seen decl_plain) (spec.decl_behind source.now.text.now source.now.toks.now limit at mods (seen same kind)) result }
{
    let Got {
        tree: interface,
        next: name,
    } = kind;
    let first = need(after_word(source.toks, name), name)?;
    let params = type_params(source, first)?;
    let extends = extends(source, interface, limit, params.next)?;
    let implements = implements(source, interface, limit, extends.next)?;
    let members = members_in(source, limit.saturating_sub(1), implements.next)?;
    let Got { tree: params, .. } = params;
    let Got { tree: extends, .. } = extends;
    let Got {
        tree: implements,
        ..
    } = implements;
    let Got {
        tree: members,
        next,
    } = members;
    let decl = TypeDecl {
        node: source.node(at, next),
        mods,
        interface,
        name: source.id_at(name),
        name_end: to_at(source.toks, name),
        params,
        extends,
        implements,
        members,
    };
    Ok(Got {
        tree: Boxed::new(source.alloc, decl)?,
        next,
    })
}

/// A class or interface of at most the depth `limit`.
#[tactic(auto, unfolding(crate::specs::Parse::decl))]
pub fn decl(source: &Source<'_>, limit: u32, at: usize) -> Result<Got<Boxed<TypeDecl>>, SyntaxFault>
    requires { Readable source.now.text.now source.now.toks.now }
    ensures { Reads (seen decl_plain) (spec.decl source.now.text.now source.now.toks.now limit at) result }
{
    let Got { tree: mods, next } = mods(source, at)?;
    let kind = kind(source, next)?;
    decl_behind(source, limit, at, mods, kind)
}
