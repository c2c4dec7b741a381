//! Nodes of variables, parameters and labels.

ghost use Rattle.std.specs.Prelude.{map};
ghost use Rattle.std.specs.Option.{option_map};
ghost use Rattle.java_tree.specs.View.{plain, var_plain, param_plain};
ghost use Rattle.node_places.specs.Seek as seek;
ghost use Rattle.node_places.specs.Tells.{Tells};

use crate::exprs::in_expr;
use crate::place::{Found, here};
use crate::types::in_type;
use java_tree::Items;
use java_tree::tree::{Expr, Param, Var};
use std::ops::ControlFlow;

/// An expression, if there is one.
pub(crate) fn in_init(e: &Option<Expr>, number: u32) -> Found
    ensures { Tells (seek.init number (option_map plain e.now)) result }
{
    match e {
        None => ControlFlow::Continue(()),
        Some(e) => in_expr(e, number),
    }
}

/// The labels of a group.
pub(crate) fn in_labels(es: &Items<Option<Expr>>, number: u32) -> Found
    ensures { Tells (seek.labels number (map (option_map plain) es.now)) result }
{
    for e in es.as_slice() {
        in_init(e, number)?;
    }
    ControlFlow::Continue(())
}

fn in_var(v: &Var, number: u32) -> Found
    ensures { Tells (seek.var number (var_plain v.now)) result }
{
    here(v.node, number)?;
    in_init(&v.init, number)
}

/// Each variable of a declaration.
pub(crate) fn in_vars(vs: &Items<Var>, number: u32) -> Found
    ensures { Tells (seek.vars number (map var_plain vs.now)) result }
{
    for v in vs.as_slice() {
        in_var(v, number)?;
    }
    ControlFlow::Continue(())
}

/// A parameter.
pub(crate) fn in_param(p: &Param, number: u32) -> Found
    ensures { Tells (seek.param number (param_plain p.now)) result }
{
    here(p.node, number)?;
    in_type(&p.ty, number)
}

/// Each parameter of a method.
pub(crate) fn in_params(ps: &Items<Param>, number: u32) -> Found
    ensures { Tells (seek.params number (map param_plain ps.now)) result }
{
    for p in ps.as_slice() {
        in_param(p, number)?;
    }
    ControlFlow::Continue(())
}
