//! The walk over the written types of a file (S12, S13, S17).

ghost use Rattle.std.specs.Prelude.{◌≡◌, Bool, map};
ghost use Rattle.std.specs.Option.{option_map};
ghost use Rattle.java_tree.specs.View.{stmt_plain, member_plain, decl_plain};
ghost use Rattle.java_tree.specs.declared.tree.Name.{Name};
ghost use Rattle.decl_rules.specs.Generic.{Told};
ghost use Rattle.decl_rules.specs.Walk as spec;

use crate::generics::{GenericNames, Generics};
use crate::stmts::walk_stmt;
use crate::types::{walk_maybe_type, walk_types};
use crate::vars::{walk_declared, walk_params};
use java_tree::Items;
use java_tree::tree::{Member, Stmt, TypeDecl};
use rule_order::Breach;

// The body of a method, if it has one.
fn walk_body<G: GenericNames>(
    generics: &Generics<'_, G>,
    x: &Option<Stmt>,
    first: Option<Breach>,
) -> Option<Breach>
    ensures { (generic : Name → Bool) → Told (G.answers generics.now.names.now) generic → result ≡ spec.body (spec.is_nested generic generics.now.vars.now) (option_map stmt_plain x.now) first }
{
    match x {
        None => first,
        Some(x) => walk_stmt(generics, x, first),
    }
}

fn walk_member<G: GenericNames>(
    generics: &Generics<'_, G>,
    m: &Member,
    first: Option<Breach>,
) -> Option<Breach>
    ensures { (generic : Name → Bool) → Told (G.answers generics.now.names.now) generic → result ≡ spec.member (spec.is_nested generic generics.now.vars.now) (member_plain m.now) first }
{
    match m {
        Member::Field { ty, vars, .. } => walk_declared(generics, ty, vars, first),
        Member::Method {
            result: ty,
            params,
            throws,
            body,
            ..
        } => {
            let first = walk_maybe_type(generics, ty, first);
            let first = walk_params(generics, params, first);
            let first = walk_types(generics, throws, first);
            walk_body(generics, body, first)
        }
    }
}

fn walk_members<G: GenericNames>(
    generics: &Generics<'_, G>,
    members: &Items<Member>,
    mut first: Option<Breach>,
) -> Option<Breach>
    ensures { (generic : Name → Bool) → Told (G.answers generics.now.names.now) generic → result ≡ spec.members (spec.is_nested generic generics.now.vars.now) (map member_plain members.now) first }
{
    for m in members.as_slice() {
        first = walk_member(generics, m, first);
    }
    first
}

fn walk_decl<G: GenericNames>(names: &G, d: &TypeDecl, first: Option<Breach>) -> Option<Breach>
    ensures { (generic : Name → Bool) → Told (G.answers names.now) generic → result ≡ spec.decl generic (decl_plain d.now) first }
{
    let vars = d.params.as_slice();
    let generics = &Generics { names, vars };
    let first = walk_types(generics, &d.extends, first);
    let first = walk_types(generics, &d.implements, first);
    walk_members(generics, &d.members, first)
}

/// The types that a file declares, each with all that is in it.
pub(crate) fn walk_decls<G: GenericNames>(
    names: &G,
    types: &Items<TypeDecl>,
    mut first: Option<Breach>,
) -> Option<Breach>
    ensures { (generic : Name → Bool) → Told (G.answers names.now) generic → result ≡ spec.decls generic (map decl_plain types.now) first }
{
    for d in types.as_slice() {
        first = walk_decl(names, d, first);
    }
    first
}
