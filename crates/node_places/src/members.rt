//! Nodes of declarations and files.

ghost use Rattle.std.specs.Prelude.{map};
ghost use Rattle.std.specs.Option.{option_map};
ghost use Rattle.java_tree.specs.View.{type_plain, stmt_plain, member_plain, decl_plain, unit_plain};
ghost use Rattle.node_places.specs.Seek as seek;
ghost use Rattle.node_places.specs.Tells.{Tells};

use crate::place::{Found, here};
use crate::stmts::in_stmt;
use crate::types::{in_type, in_types};
use crate::vars::{in_params, in_vars};
use java_tree::Items;
use java_tree::tree::{Import, Member, SourceUnit, Stmt, TypeDecl, TypeExpr};
use std::ops::ControlFlow;

fn in_result(x: &Option<TypeExpr>, number: u32) -> Found
    ensures { Tells (seek.result number (option_map type_plain x.now)) result }
{
    match x {
        None => ControlFlow::Continue(()),
        Some(x) => in_type(x, number),
    }
}

fn in_body(x: &Option<Stmt>, number: u32) -> Found
    ensures { Tells (seek.body number (option_map stmt_plain x.now)) result }
{
    match x {
        None => ControlFlow::Continue(()),
        Some(x) => in_stmt(x, number),
    }
}

fn in_member(m: &Member, number: u32) -> Found
    ensures { Tells (seek.member number (member_plain m.now)) result }
{
    match m {
        Member::Field { node, ty, vars, .. } => {
            here(*node, number)?;
            in_type(ty, number)?;
            in_vars(vars, number)
        }
        Member::Method {
            node,
            result: ty,
            params,
            throws,
            body,
            ..
        } => {
            here(*node, number)?;
            in_result(ty, number)?;
            in_params(params, number)?;
            in_types(throws, number)?;
            in_body(body, number)
        }
    }
}

fn in_members(ms: &Items<Member>, number: u32) -> Found
    ensures { Tells (seek.members number (map member_plain ms.now)) result }
{
    for m in ms.as_slice() {
        in_member(m, number)?;
    }
    ControlFlow::Continue(())
}

fn in_decl(d: &TypeDecl, number: u32) -> Found
    ensures { Tells (seek.decl number (decl_plain d.now)) result }
{
    here(d.node, number)?;
    in_types(&d.extends, number)?;
    in_types(&d.implements, number)?;
    in_members(&d.members, number)
}

fn in_decls(ds: &Items<TypeDecl>, number: u32) -> Found
    ensures { Tells (seek.decls number (map decl_plain ds.now)) result }
{
    for d in ds.as_slice() {
        in_decl(d, number)?;
    }
    ControlFlow::Continue(())
}

fn in_imports(xs: &Items<Import>, number: u32) -> Found
    ensures { Tells (seek.imports number xs.now) result }
{
    for x in xs.as_slice() {
        here(x.node, number)?;
    }
    ControlFlow::Continue(())
}

/// A file.
pub(crate) fn in_unit(u: &SourceUnit, number: u32) -> Found
    ensures { Tells (seek.unit number (unit_plain u.now)) result }
{
    here(u.node, number)?;
    in_imports(&u.imports, number)?;
    in_decls(&u.types, number)
}
