//! Nodes of declarations and files.

ghost use Rattle.std.specs.Prelude.{◌≡◌, map, IfOk};
ghost use Rattle.std.specs.Option.{option_map};
ghost use Rattle.java_tree.specs.View.{type_plain, stmt_plain, member_plain, decl_plain, unit_plain};
ghost use Rattle.node_lists.specs.Nodes as spec;

use crate::here;
use crate::stmts::in_stmt;
use crate::types::{in_type, in_types};
use crate::vars::{in_params, in_vars};
use java_tree::tree::{Import, Member, Node, SourceUnit, Stmt, TypeDecl, TypeExpr};
use java_tree::{Items, NoMemory};

fn in_result(x: &Option<TypeExpr>, nodes: Items<Node>) -> Result<Items<Node>, NoMemory>
    ensures { IfOk result (λ ns. ns ≡ spec.result (option_map type_plain x.now) nodes) }
{
    match x {
        None => Ok(nodes),
        Some(x) => in_type(x, nodes),
    }
}

fn in_body(x: &Option<Stmt>, nodes: Items<Node>) -> Result<Items<Node>, NoMemory>
    ensures { IfOk result (λ ns. ns ≡ spec.body (option_map stmt_plain x.now) nodes) }
{
    match x {
        None => Ok(nodes),
        Some(x) => in_stmt(x, nodes),
    }
}

fn in_member(m: &Member, nodes: Items<Node>) -> Result<Items<Node>, NoMemory>
    ensures { IfOk result (λ ns. ns ≡ spec.member (member_plain m.now) nodes) }
{
    match m {
        Member::Field { node, ty, vars, .. } => {
            let nodes = here(*node, nodes)?;
            let nodes = in_type(ty, nodes)?;
            in_vars(vars, nodes)
        }
        Member::Method {
            node,
            result: ty,
            params,
            throws,
            body,
            ..
        } => {
            let nodes = here(*node, nodes)?;
            let nodes = in_result(ty, nodes)?;
            let nodes = in_params(params, nodes)?;
            let nodes = in_types(throws, nodes)?;
            in_body(body, nodes)
        }
    }
}

fn in_members(ms: &Items<Member>, mut nodes: Items<Node>) -> Result<Items<Node>, NoMemory>
    ensures { IfOk result (λ ns. ns ≡ spec.members (map member_plain ms.now) nodes) }
{
    for m in ms.as_slice() {
        nodes = in_member(m, nodes)?;
    }
    Ok(nodes)
}

fn in_decl(d: &TypeDecl, nodes: Items<Node>) -> Result<Items<Node>, NoMemory>
    ensures { IfOk result (λ ns. ns ≡ spec.decl (decl_plain d.now) nodes) }
{
    let nodes = here(d.node, nodes)?;
    let nodes = in_types(&d.extends, nodes)?;
    let nodes = in_types(&d.implements, nodes)?;
    in_members(&d.members, nodes)
}

fn in_decls(ds: &Items<TypeDecl>, mut nodes: Items<Node>) -> Result<Items<Node>, NoMemory>
    ensures { IfOk result (λ ns. ns ≡ spec.decls (map decl_plain ds.now) nodes) }
{
    for d in ds.as_slice() {
        nodes = in_decl(d, nodes)?;
    }
    Ok(nodes)
}

fn in_imports(xs: &Items<Import>, mut nodes: Items<Node>) -> Result<Items<Node>, NoMemory>
    ensures { IfOk result (λ ns. ns ≡ spec.imports xs.now nodes) }
{
    for x in xs.as_slice() {
        nodes = here(x.node, nodes)?;
    }
    Ok(nodes)
}

/// A file.
pub(crate) fn in_unit(u: &SourceUnit, nodes: Items<Node>) -> Result<Items<Node>, NoMemory>
    ensures { IfOk result (λ ns. ns ≡ spec.unit (unit_plain u.now) nodes) }
{
    let nodes = here(u.node, nodes)?;
    let nodes = in_imports(&u.imports, nodes)?;
    in_decls(&u.types, nodes)
}
