//! Files (JLS 7.3).

ghost use Rattle.std.specs.Prelude.{◌≡◌, map};
ghost use Rattle.java_tree.specs.View.{decl_plain, unit_plain};
ghost use Rattle.java_parse_term.specs.Ready.{Readable};
ghost use Rattle.java_parse_term.specs.Seen.{Reads, same};
ghost use Rattle.java_parse_expr.specs.Seen.{seen};
ghost use Rattle.java_parse_decl.specs.Parse as spec;

use crate::decls::decl;
use crate::words::{ids, past_semicolons};
use java_grammar::{Keyword, Mark};
use java_parse_expr::got::Got;
use java_parse_expr::steps::Source;
use java_parse_term::SyntaxFault;
use java_parse_term::marks::{after_keyword, after_mark, is_infix, is_keyword, is_mark};
use java_parse_term::parsed::{need, token_number};
use java_tree::tree::{BinOp, Import, Name, SourceUnit, TypeDecl};
use java_tree::{Boxed, Items};

#[tactic(auto, unfolding(crate::specs::Parse::decls_end))]
fn decls_end(source: &Source<'_>, at: usize) -> bool
    ensures { result ≡ spec.decls_end source.now.text.now source.now.toks.now at }
{
    past_semicolons(source, at) == source.toks.len()
}

#[tactic(auto, unfolding(crate::specs::Parse::next_decl))]
fn next_decl(
    source: &Source<'_>,
    limit: u32,
    at: usize,
) -> Result<Got<Boxed<TypeDecl>>, SyntaxFault>
    requires { Readable source.now.text.now source.now.toks.now }
    ensures { Reads (seen decl_plain) (spec.next_decl source.now.text.now source.now.toks.now limit at) result }
{
    decl(source, limit, past_semicolons(source, at))
}

// Types of at most the depth `limit`, up to the end.
#[tactic(auto, unfolding(crate::specs::Parse::decls, java_parse_expr::specs::Parse::many))]
fn decls(source: &Source<'_>, limit: u32, at: usize) -> Result<Got<Items<TypeDecl>>, SyntaxFault>
    requires { Readable source.now.text.now source.now.toks.now }
    ensures { Reads (seen (map decl_plain)) (spec.decls source.now.text.now source.now.toks.now limit at) result }
{
    let mut done = Got::none(source.alloc, at);
    for _turn in 0..source.toks.len() + 1 {
        if decls_end(source, done.next) {
            return Ok(done);
        }
        let one = next_decl(source, limit, done.next)?;
        done.add(one)?;
    }
    Err(SyntaxFault::Bad {
        token: token_number(done.next),
    })
}

// Whether `.*` stands there, and the place behind it.
#[tactic(auto, unfolding(crate::specs::Parse::all_at))]
fn all_at(source: &Source<'_>, at: usize) -> Got<bool>
    ensures { seen same result ≡ spec.all_at source.now.text.now source.now.toks.now at }
{
    if is_mark(source.toks, Mark::Dot, at) && is_infix(source.toks, BinOp::Mul, at + 1) {
        Got {
            tree: true,
            next: at + 2,
        }
    } else {
        Got {
            tree: false,
            next: at,
        }
    }
}

#[tactic(auto, unfolding(crate::specs::Parse::one_import))]
fn one_import(source: &Source<'_>, at: usize) -> Result<Got<Boxed<Import>>, SyntaxFault>
    ensures { Reads (seen same) (spec.one_import source.now.text.now source.now.toks.now at) result }
{
    let first = need(after_keyword(source.toks, Keyword::Import, at), at)?;
    let path = ids(source, Mark::Dot, first)?;
    let all = all_at(source, path.next);
    let next = need(after_mark(source.toks, Mark::Semicolon, all.next), all.next)?;
    let Got { tree: path, .. } = path;
    let import = Import {
        node: source.node(at, next),
        path,
        all: all.tree,
    };
    Ok(Got {
        tree: Boxed::new(source.alloc, import)?,
        next,
    })
}

#[tactic(auto, unfolding(crate::specs::Parse::imports, crate::specs::Parse::imports_end, java_parse_expr::specs::Parse::many))]
fn imports(source: &Source<'_>, at: usize) -> Result<Got<Items<Import>>, SyntaxFault>
    ensures { Reads (seen same) (spec.imports source.now.text.now source.now.toks.now at) result }
{
    let mut done = Got::none(source.alloc, at);
    for _turn in 0..source.toks.len() + 1 {
        if !is_keyword(source.toks, Keyword::Import, done.next) {
            return Ok(done);
        }
        let one = one_import(source, done.next)?;
        done.add(one)?;
    }
    Err(SyntaxFault::Bad {
        token: token_number(done.next),
    })
}

// The name of the package, if one is written.
#[tactic(auto, unfolding(crate::specs::Parse::package_name))]
fn package_name(source: &Source<'_>, at: usize) -> Result<Got<Items<Name>>, SyntaxFault>
    ensures { Reads (seen same) (spec.package_name source.now.text.now source.now.toks.now at) result }
{
    match after_keyword(source.toks, Keyword::Package, at) {
        Some(first) => {
            let Got { tree, next } = ids(source, Mark::Dot, first)?;
            let next = need(after_mark(source.toks, Mark::Semicolon, next), next)?;
            Ok(Got { tree, next })
        }
        None => Ok(Got::none(source.alloc, at)),
    }
}

/// The file of at most the depth `limit` that the tokens are.
#[tactic(auto, unfolding(crate::specs::Parse::unit))]
pub fn unit(source: &Source<'_>, limit: u32) -> Result<Boxed<SourceUnit>, SyntaxFault>
    requires { Readable source.now.text.now source.now.toks.now }
    ensures { Reads unit_plain (spec.unit source.now.text.now source.now.toks.now limit) result }
{
    let package = package_name(source, 0)?;
    let imports = imports(source, package.next)?;
    let types = decls(source, limit.saturating_sub(1), imports.next)?;
    let Got { tree: package, .. } = package;
    let Got { tree: imports, .. } = imports;
    let Got { tree: types, .. } = types;
    let unit = SourceUnit {
        node: source.node(0, source.toks.len()),
        package,
        imports,
        types,
    };
    Ok(Boxed::new(source.alloc, unit)?)
}
