//! Nodes of variables, parameters and labels.

ghost use Rattle.std.specs.Prelude.{◌≡◌, map, IfOk};
ghost use Rattle.std.specs.Option.{option_map};
ghost use Rattle.java_tree.specs.View.{plain, var_plain, param_plain};
ghost use Rattle.node_lists.specs.Nodes as spec;

use crate::exprs::in_expr;
use crate::here;
use crate::types::in_type;
use java_tree::tree::{Expr, Node, Param, Var};
use java_tree::{Items, NoMemory};

/// An expression, if there is one.
pub(crate) fn in_init(e: &Option<Expr>, nodes: Items<Node>) -> Result<Items<Node>, NoMemory>
    ensures { IfOk result (λ ns. ns ≡ spec.init (option_map plain e.now) nodes) }
{
    match e {
        None => Ok(nodes),
        Some(e) => in_expr(e, nodes),
    }
}

/// The labels of a group.
pub(crate) fn in_labels(
    es: &Items<Option<Expr>>,
    mut nodes: Items<Node>,
) -> Result<Items<Node>, NoMemory>
    ensures { IfOk result (λ ns. ns ≡ spec.labels (map (option_map plain) es.now) nodes) }
{
    for e in es.as_slice() {
        nodes = in_init(e, nodes)?;
    }
    Ok(nodes)
}

fn in_var(v: &Var, nodes: Items<Node>) -> Result<Items<Node>, NoMemory>
    ensures { IfOk result (λ ns. ns ≡ spec.var (var_plain v.now) nodes) }
{
    let nodes = here(v.node, nodes)?;
    in_init(&v.init, nodes)
}

/// Each variable of a declaration.
pub(crate) fn in_vars(vs: &Items<Var>, mut nodes: Items<Node>) -> Result<Items<Node>, NoMemory>
    ensures { IfOk result (λ ns. ns ≡ spec.vars (map var_plain vs.now) nodes) }
{
    for v in vs.as_slice() {
        nodes = in_var(v, nodes)?;
    }
    Ok(nodes)
}

/// A parameter.
pub(crate) fn in_param(p: &Param, nodes: Items<Node>) -> Result<Items<Node>, NoMemory>
    ensures { IfOk result (λ ns. ns ≡ spec.param (param_plain p.now) nodes) }
{
    let nodes = here(p.node, nodes)?;
    in_type(&p.ty, nodes)
}

/// Each parameter of a method.
pub(crate) fn in_params(ps: &Items<Param>, mut nodes: Items<Node>) -> Result<Items<Node>, NoMemory>
    ensures { IfOk result (λ ns. ns ≡ spec.params (map param_plain ps.now) nodes) }
{
    for p in ps.as_slice() {
        nodes = in_param(p, nodes)?;
    }
    Ok(nodes)
}
