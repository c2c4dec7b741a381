//! Fields, methods and constructors (JLS 8.3, 8.4, 8.8, 9.3, 9.4).

ghost use Rattle.std.specs.Prelude.{◌≡◌, ◌∷◌, [], Some, length, map};
ghost use Rattle.std.specs.Option.{option_map};
ghost use Rattle.java_tree.specs.View.{type_plain, var_plain, param_plain, stmt_plain, member_plain};
ghost use Rattle.java_parse_term.specs.Ready.{Readable};
ghost use Rattle.java_parse_term.specs.Seen.{Reads, same};
ghost use Rattle.java_parse_expr.specs.Parse.{more};
ghost use Rattle.java_parse_expr.specs.Parse as stmts;
ghost use Rattle.java_parse_expr.specs.Seen.{seen};
ghost use Rattle.java_parse_decl.specs.Parse as spec;

use crate::calls::calls_in_place;
use crate::words::{is_called, mods};
use java_grammar::{Keyword, Mark};
use java_parse_expr::got::{Got, unboxed};
use java_parse_expr::steps::Source;
use java_parse_expr::stmt::under;
use java_parse_term::SyntaxFault;
use java_parse_term::marks::{after_keyword, after_mark, after_word, is_mark};
use java_parse_term::parsed::{need, token_number};
use java_parse_term::types::names_class;
use java_tree::tree::{Member, Mod, Param, Stmt, TypeExpr};
use java_tree::{Boxed, Items};

/// A class or interface of depth less than `limit`, perhaps with arguments.
#[tactic(auto, unfolding(crate::specs::Parse::class_under))]
pub fn class_under(
    source: &Source<'_>,
    limit: u32,
    at: usize,
) -> Result<Got<Boxed<TypeExpr>>, SyntaxFault>
    requires { Readable source.now.text.now source.now.toks.now }
    ensures { Reads (seen type_plain) (spec.class_under source.now.text.now source.now.toks.now limit at) result }
{
    let found = source.type_under(limit, at)?;
    if names_class(found.tree.get()) {
        Ok(found)
    } else {
        Err(SyntaxFault::Bad {
            token: token_number(at),
        })
    }
}

// The same behind the first one.
#[tactic(auto, unfolding(java_parse_expr::specs::Parse::more))]
fn more_classes(
    source: &Source<'_>,
    limit: u32,
    first: Got<Boxed<TypeExpr>>,
) -> Result<Got<Items<TypeExpr>>, SyntaxFault>
    requires { Readable source.now.text.now source.now.toks.now }
    ensures { Reads (seen (map type_plain)) (more source.now.text.now source.now.toks.now (spec.class_under source.now.text.now source.now.toks.now limit) (length source.now.toks.now) (type_plain first.tree ∷ []) first.next) result }
{
    let mut done = Got::one(source.alloc, first)?;
    for _turn in 0..source.toks.len() {
        match after_mark(source.toks, Mark::Comma, done.next) {
            Some(next) => {
                let one = class_under(source, limit, next)?;
                done.add(one)?;
            }
            None => return Ok(done),
        }
    }
    Err(SyntaxFault::Bad {
        token: token_number(done.next),
    })
}

/// A word with classes or interfaces behind it, or nothing.
#[tactic(auto, unfolding(crate::specs::Parse::behind, crate::specs::Parse::classes, java_parse_expr::specs::Parse::list_of))]
pub fn behind(
    source: &Source<'_>,
    word: Keyword,
    limit: u32,
    at: usize,
) -> Result<Got<Items<TypeExpr>>, SyntaxFault>
    requires { Readable source.now.text.now source.now.toks.now }
    ensures { Reads (seen (map type_plain)) (spec.behind source.now.text.now source.now.toks.now word limit at) result }
{
    match after_keyword(source.toks, word, at) {
        Some(next) => {
            let first = class_under(source, limit, next)?;
            more_classes(source, limit, first)
        }
        None => Ok(Got::none(source.alloc, at)),
    }
}

// Parameters behind the first one.
#[tactic(auto, unfolding(java_parse_expr::specs::Parse::more))]
fn more_params(
    source: &Source<'_>,
    limit: u32,
    first: Got<Boxed<Param>>,
) -> Result<Got<Items<Param>>, SyntaxFault>
    requires { Readable source.now.text.now source.now.toks.now }
    ensures { Reads (seen (map param_plain)) (more source.now.text.now source.now.toks.now (stmts.param source.now.text.now source.now.toks.now limit) (length source.now.toks.now) (param_plain first.tree ∷ []) first.next) result }
{
    let mut done = Got::one(source.alloc, first)?;
    for _turn in 0..source.toks.len() {
        match after_mark(source.toks, Mark::Comma, done.next) {
            Some(next) => {
                let one = source.param(limit, next)?;
                done.add(one)?;
            }
            None => return Ok(done),
        }
    }
    Err(SyntaxFault::Bad {
        token: token_number(done.next),
    })
}

// Parameters behind `(`, up to and with `)`.
#[tactic(auto, unfolding(crate::specs::Parse::params, java_parse_expr::specs::Parse::list_of))]
fn params(source: &Source<'_>, limit: u32, at: usize) -> Result<Got<Items<Param>>, SyntaxFault>
    requires { Readable source.now.text.now source.now.toks.now }
    ensures { Reads (seen (map param_plain)) (spec.params source.now.text.now source.now.toks.now limit at) result }
{
    if let Some(next) = after_mark(source.toks, Mark::Close, at) {
        return Ok(Got::none(source.alloc, next));
    }
    let first = source.param(limit, at)?;
    let found = more_params(source, limit, first)?;
    let next = need(after_mark(source.toks, Mark::Close, found.next), found.next)?;
    let Got { tree, .. } = found;
    Ok(Got { tree, next })
}

// A block with this(..) and super(..) in their place.
#[tactic(auto, unfolding(crate::specs::Parse::block))]
fn block(
    source: &Source<'_>,
    constructor: bool,
    limit: u32,
    at: usize,
) -> Result<Got<Option<Boxed<Stmt>>>, SyntaxFault>
    requires { Readable source.now.text.now source.now.toks.now }
    ensures { Reads (seen (option_map stmt_plain)) (spec.block source.now.text.now source.now.toks.now constructor limit at) result }
{
    if !is_mark(source.toks, Mark::LeftBrace, at) {
        return Err(SyntaxFault::Bad {
            token: token_number(at),
        });
    }
    let Got { tree, next } = under(
        source.alloc,
        source.text,
        source.toks,
        limit,
        false,
        false,
        at,
    )?;
    if calls_in_place(constructor, tree.get()) {
        Ok(Got {
            tree: Some(tree),
            next,
        })
    } else {
        Err(SyntaxFault::Bad {
            token: token_number(at),
        })
    }
}

// A block, or `;` where it is no constructor.
#[tactic(auto, unfolding(crate::specs::Parse::body))]
fn body(
    source: &Source<'_>,
    constructor: bool,
    limit: u32,
    at: usize,
) -> Result<Got<Option<Boxed<Stmt>>>, SyntaxFault>
    requires { Readable source.now.text.now source.now.toks.now }
    ensures { Reads (seen (option_map stmt_plain)) (spec.body source.now.text.now source.now.toks.now constructor limit at) result }
{
    match after_mark(source.toks, Mark::Semicolon, at) {
        Some(next) => {
            if constructor {
                return Err(SyntaxFault::Bad {
                    token: token_number(at),
                });
            }
            Ok(Got { tree: None, next })
        }
        None => block(source, constructor, limit, at),
    }
}

/// What stands before the name of a method: modifiers, and a type unless it is `void` or a constructor.
#[derive(Drop)]
struct Front {
    at: usize,
    mods: Items<Mod>,
    constructor: bool,
    result: Option<Boxed<TypeExpr>>,
}

// From the name on.
#[tactic(auto, unfolding(crate::specs::Parse::method))]
fn method(
    source: &Source<'_>,
    limit: u32,
    front: Front,
    name: usize,
) -> Result<Got<Boxed<Member>>, SyntaxFault>
    requires { Readable source.now.text.now source.now.toks.now }
    ensures { Reads (seen member_plain) (spec.method source.now.text.now source.now.toks.now limit front.at front.mods front.constructor (record { tree = option_map type_plain front.result; next = name })) result }
{
    let open = need(after_word(source.toks, name), name)?;
    let first = need(after_mark(source.toks, Mark::Open, open), open)?;
    let params = params(source, limit.saturating_sub(1), first)?;
    let throws = behind(source, Keyword::Throws, limit, params.next)?;
    let body = body(source, front.constructor, limit, throws.next)?;
    let Got { tree: params, .. } = params;
    let Got { tree: throws, .. } = throws;
    let Got { tree: body, next } = body;
    let Front {
        at,
        mods,
        constructor,
        result,
    } = front;
    let method = Member::Method {
        node: source.node(at, next),
        mods,
        result: unboxed(result),
        constructor,
        name: source.id_at(name),
        params,
        throws,
        body: unboxed(body),
    };
    Ok(Got {
        tree: Boxed::new(source.alloc, method)?,
        next,
    })
}

// From the first variable on.
#[tactic(auto, unfolding(crate::specs::Parse::field))]
fn field(
    source: &Source<'_>,
    limit: u32,
    at: usize,
    mods: Items<Mod>,
    ty: Got<Boxed<TypeExpr>>,
) -> Result<Got<Boxed<Member>>, SyntaxFault>
    requires { Readable source.now.text.now source.now.toks.now }
    ensures { Reads (seen member_plain) (spec.field source.now.text.now source.now.toks.now limit at mods (seen type_plain ty)) result }
{
    let vars = source.vars(limit, ty.next)?;
    let next = need(
        after_mark(source.toks, Mark::Semicolon, vars.next),
        vars.next,
    )?;
    let Got { tree: ty, .. } = ty;
    let Got { tree: vars, .. } = vars;
    let field = Member::Field {
        node: source.node(at, next),
        mods,
        ty: ty.into_inner(),
        vars,
    };
    Ok(Got {
        tree: Boxed::new(source.alloc, field)?,
        next,
    })
}

// A field, or a method with a type, behind its modifiers.
#[tactic(auto, unfolding(crate::specs::Parse::typed))]
fn typed(
    source: &Source<'_>,
    limit: u32,
    at: usize,
    found: Got<Items<Mod>>,
) -> Result<Got<Boxed<Member>>, SyntaxFault>
    requires { Readable source.now.text.now source.now.toks.now }
    ensures { Reads (seen member_plain) (spec.typed source.now.text.now source.now.toks.now limit at (seen same found)) result }
{
    let Got { tree: mods, next } = found;
    let ty = source.type_under(limit, next)?;
    if !is_called(source, ty.next) {
        return field(source, limit, at, mods, ty);
    }
    let Got { tree: ty, next } = ty;
    let front = Front {
        at,
        mods,
        constructor: false,
        result: Some(ty),
    };
    method(source, limit, front, next)
}

// A member behind its modifiers.
#[tactic(auto, unfolding(crate::specs::Parse::member_behind))]
fn member_behind(
    source: &Source<'_>,
    limit: u32,
    at: usize,
    found: Got<Items<Mod>>,
) -> Result<Got<Boxed<Member>>, SyntaxFault>
    requires { Readable source.now.text.now source.now.toks.now }
    ensures { Reads (seen member_plain) (spec.member_behind source.now.text.now source.now.toks.now limit at (seen same found)) result }
{
    let constructor = is_called(source, found.next);
    if constructor {
        let Got { tree: mods, next } = found;
        let front = Front {
            at,
            mods,
            constructor,
            result: None,
        };
        return method(source, limit, front, next);
    }
    match after_keyword(source.toks, Keyword::Void, found.next) {
        Some(name) => {
            let Got { tree: mods, .. } = found;
            let front = Front {
                at,
                mods,
                constructor,
                result: None,
            };
            method(source, limit, front, name)
        }
        None => typed(source, limit, at, found),
    }
}

/// A member of at most the depth `limit`.
#[tactic(auto, unfolding(crate::specs::Parse::member))]
pub fn member(source: &Source<'_>, limit: u32, at: usize) -> Result<Got<Boxed<Member>>, SyntaxFault>
    requires { Readable source.now.text.now source.now.toks.now }
    ensures { Reads (seen member_plain) (spec.member source.now.text.now source.now.toks.now limit at) result }
{
    let found = mods(source, at)?;
    member_behind(source, limit, at, found)
}
