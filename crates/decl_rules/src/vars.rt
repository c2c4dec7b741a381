//! The walk over the written types of variables and parameters (S12, S13, S17).

ghost use Rattle.std.specs.Prelude.{◌≡◌, Bool, map};
ghost use Rattle.std.specs.Option.{option_map};
ghost use Rattle.java_tree.specs.View.{plain, type_plain, var_plain, param_plain};
ghost use Rattle.java_tree.specs.declared.tree.Name.{Name};
ghost use Rattle.decl_rules.specs.Generic.{Told};
ghost use Rattle.decl_rules.specs.Walk as spec;

use crate::exprs::walk_expr;
use crate::generics::{GenericNames, Generics};
use crate::types::{has_brackets, walk_element, walk_type};
use java_tree::Items;
use java_tree::tree::{Expr, Param, TypeExpr, Var};
use rule_order::Breach;

/// An expression, if there is one.
pub(crate) fn walk_init<G: GenericNames>(
    generics: &Generics<'_, G>,
    e: &Option<Expr>,
    first: Option<Breach>,
) -> Option<Breach>
    ensures { (generic : Name → Bool) → Told (G.answers generics.now.names.now) generic → result ≡ spec.init (spec.is_nested generic generics.now.vars.now) (option_map plain e.now) first }
{
    match e {
        None => first,
        Some(e) => walk_expr(generics, e, first),
    }
}

/// Each label of a group.
pub(crate) fn walk_labels<G: GenericNames>(
    generics: &Generics<'_, G>,
    es: &Items<Option<Expr>>,
    mut first: Option<Breach>,
) -> Option<Breach>
    ensures { (generic : Name → Bool) → Told (G.answers generics.now.names.now) generic → result ≡ spec.labels (spec.is_nested generic generics.now.vars.now) (map (option_map plain) es.now) first }
{
    for e in es.as_slice() {
        first = walk_init(generics, e, first);
    }
    first
}

// The initialisers of variables.
fn walk_vars<G: GenericNames>(
    generics: &Generics<'_, G>,
    vars: &Items<Var>,
    mut first: Option<Breach>,
) -> Option<Breach>
    ensures { (generic : Name → Bool) → Told (G.answers generics.now.names.now) generic → result ≡ spec.vars (spec.is_nested generic generics.now.vars.now) (map var_plain vars.now) first }
{
    for v in vars.as_slice() {
        first = walk_init(generics, &v.init, first);
    }
    first
}

/// A type and the variables that are declared with it.
pub(crate) fn walk_declared<G: GenericNames>(
    generics: &Generics<'_, G>,
    ty: &TypeExpr,
    vars: &Items<Var>,
    first: Option<Breach>,
) -> Option<Breach>
    ensures { (generic : Name → Bool) → Told (G.answers generics.now.names.now) generic → result ≡ spec.declared (spec.is_nested generic generics.now.vars.now) (type_plain ty.now) (map var_plain vars.now) first }
{
    let first = walk_element(has_brackets(vars), ty, first);
    let first = walk_type(generics, ty, first);
    walk_vars(generics, vars, first)
}

/// A parameter.
pub(crate) fn walk_param<G: GenericNames>(
    generics: &Generics<'_, G>,
    p: &Param,
    first: Option<Breach>,
) -> Option<Breach>
    ensures { (generic : Name → Bool) → Told (G.answers generics.now.names.now) generic → result ≡ spec.param (spec.is_nested generic generics.now.vars.now) (param_plain p.now) first }
{
    let first = walk_element(p.dims > 0, &p.ty, first);
    walk_type(generics, &p.ty, first)
}

/// Each parameter of a method.
pub(crate) fn walk_params<G: GenericNames>(
    generics: &Generics<'_, G>,
    params: &Items<Param>,
    mut first: Option<Breach>,
) -> Option<Breach>
    ensures { (generic : Name → Bool) → Told (G.answers generics.now.names.now) generic → result ≡ spec.params (spec.is_nested generic generics.now.vars.now) (map param_plain params.now) first }
{
    for p in params.as_slice() {
        first = walk_param(generics, p, first);
    }
    first
}
