//! The walk over the written types in expressions (S12, S13, S17).

ghost use Rattle.std.specs.Prelude.{◌≡◌, Bool};
ghost use Rattle.std.specs.Option.{option_map};
ghost use Rattle.java_tree.specs.View.{plain, plains, maybe};
ghost use Rattle.java_tree.specs.declared.tree.Name.{Name};
ghost use Rattle.decl_rules.specs.Generic.{Told};
ghost use Rattle.decl_rules.specs.Walk as spec;

use crate::generics::{GenericNames, Generics};
use crate::types::{walk_element, walk_type};
use java_tree::tree::{Expr, ExprForm};
use java_tree::{Boxed, Items};
use rule_order::Breach;

/// An expression and all that is in it.
#[cycle(exprs)]
#[tactic(auto, using(tree_numbers::proofs::Forms::plain_call))]
pub(crate) fn walk_expr<G: GenericNames>(
    generics: &Generics<'_, G>,
    e: &Expr,
    first: Option<Breach>,
) -> Option<Breach>
    ensures { (generic : Name → Bool) → Told (G.answers generics.now.names.now) generic → result ≡ spec.expr (spec.is_nested generic generics.now.vars.now) (plain e.now) first }
{
    match &e.form {
        ExprForm::Number { .. }
        | ExprForm::Char(_)
        | ExprForm::Text(_)
        | ExprForm::Bool(_)
        | ExprForm::Null
        | ExprForm::This
        | ExprForm::Name(_)
        | ExprForm::SuperField(_) => first,
        ExprForm::Field { of, .. } => walk_expr(generics, of.get(), first),
        ExprForm::Index { of, at } => {
            let first = walk_expr(generics, of.get(), first);
            walk_expr(generics, at.get(), first)
        }
        ExprForm::Call { of, args, .. } => {
            let first = walk_maybe(generics, of, first);
            walk_exprs(generics, args, first)
        }
        ExprForm::SuperMethod { args, .. } => walk_exprs(generics, args, first),
        ExprForm::New { ty, args } => {
            let first = walk_type(generics, ty, first);
            walk_exprs(generics, args, first)
        }
        ExprForm::NewArray { ty, sizes, .. } => {
            let first = walk_element(true, ty, first);
            let first = walk_type(generics, ty, first);
            walk_exprs(generics, sizes, first)
        }
        ExprForm::NewFilled { ty, items } => {
            let first = walk_type(generics, ty, first);
            walk_expr(generics, items.get(), first)
        }
        ExprForm::Items(items) => walk_exprs(generics, items, first),
        ExprForm::Paren(of) => walk_expr(generics, of.get(), first),
        ExprForm::Unary { of, .. } => walk_expr(generics, of.get(), first),
        ExprForm::Step { of, .. } => walk_expr(generics, of.get(), first),
        ExprForm::Cast { ty, of, .. } => {
            let first = walk_type(generics, ty, first);
            walk_expr(generics, of.get(), first)
        }
        ExprForm::Binary { left, right, .. } => {
            let first = walk_expr(generics, left.get(), first);
            walk_expr(generics, right.get(), first)
        }
        ExprForm::InstanceOf { of, ty } => {
            let first = walk_expr(generics, of.get(), first);
            walk_type(generics, ty, first)
        }
        ExprForm::Cond { test, yes, no } => {
            let first = walk_expr(generics, test.get(), first);
            let first = walk_expr(generics, yes.get(), first);
            walk_expr(generics, no.get(), first)
        }
        ExprForm::Assign { to, from, .. } => {
            let first = walk_expr(generics, to.get(), first);
            walk_expr(generics, from.get(), first)
        }
    }
}

/// The target of a call, if it has one.
#[cycle(exprs)]
fn walk_maybe<G: GenericNames>(
    generics: &Generics<'_, G>,
    e: &Option<Boxed<Expr>>,
    first: Option<Breach>,
) -> Option<Breach>
    ensures { (generic : Name → Bool) → Told (G.answers generics.now.names.now) generic → result ≡ spec.maybe (spec.is_nested generic generics.now.vars.now) (maybe (option_map plain e.now)) first }
{
    match e {
        None => first,
        Some(e) => walk_expr(generics, e.get(), first),
    }
}

/// Each of a list.
#[cycle(exprs)]
pub(crate) fn walk_exprs<G: GenericNames>(
    generics: &Generics<'_, G>,
    es: &Items<Expr>,
    mut first: Option<Breach>,
) -> Option<Breach>
    ensures { (generic : Name → Bool) → Told (G.answers generics.now.names.now) generic → result ≡ spec.exprs (spec.is_nested generic generics.now.vars.now) (plains es.now) first }
{
    for e in es.as_slice() {
        first = walk_expr(generics, e, first);
    }
    first
}
