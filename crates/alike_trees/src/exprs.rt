//! Expressions compared, from left to right.

ghost use Rattle.std.specs.Prelude.{◌≡◌, ◌↔◌};
ghost use Rattle.std.specs.Option.{option_map};
ghost use Rattle.java_core.specs.View.{maybe, plain, plains};
ghost use Rattle.program_maps.specs.Pairs.{CallAlike};
ghost use Rattle.program_maps.specs.Trees.{ExprAlike, ExprsAlike, MaybeExprAlike, OptExprAlike};
ghost use Rattle.alike_trees.specs.Compared.{IsReady, pair};

use crate::calls::{
    Call, StaticCall, in_call, in_filled, in_new, in_new_array, in_static_call, in_static_field,
    in_super_call,
};
use crate::leaves::{
    char_alike, int_alike, local_alike, long_alike, null_alike, super_field_alike, text_alike,
    this_alike, truth_alike,
};
use crate::ones::{
    in_cast, in_field, in_implied_cast, in_instance_of, in_length, in_new_filled, in_paren,
    in_step, in_unary, in_widening,
};
use crate::pairs::{Cond, Two, in_assign, in_binary, in_compound, in_cond, in_index, in_logic};
use crate::sides::{Sides, Unlike, check};
use crate::types::method_alike;
use java_core::{CoreExpr, CoreForm};
use java_tree::tree::Node;
use java_tree::{Boxed, Items};

/// Whether an expression of the old program and one of the new are alike: else the first difference.
#[cycle(expr_alike)]
pub fn expr_alike(sides: &Sides<'_>, old: &CoreExpr, new: &CoreExpr) -> Result<(), Unlike>
    requires { IsReady sides.now }
    ensures { (result ≡ Ok tt) ↔ ExprAlike (pair sides.now) (plain old.now) (plain new.now) }
{
    let node = old.node;
    match &old.form {
        CoreForm::Int(x) => int_alike(node, x, new),
        CoreForm::Long(x) => long_alike(node, x, new),
        CoreForm::Char(x) => char_alike(node, *x, new),
        CoreForm::Text(units) => text_alike(node, units, new),
        CoreForm::Truth(x) => truth_alike(node, *x, new),
        CoreForm::Null => null_alike(node, new),
        CoreForm::This => this_alike(node, new),
        CoreForm::Local(slot) => local_alike(node, *slot, new),
        CoreForm::SuperField(field) => super_field_alike(sides, node, *field, new),
        CoreForm::Paren(x) => expr_alike(sides, x.get(), in_paren(node, new)?),
        CoreForm::Widen(x) => expr_alike(sides, x.get(), in_widening(node, &old.ty, new)?),
        CoreForm::Implied(x) => {
            expr_alike(sides, x.get(), in_implied_cast(sides, node, &old.ty, new)?)
        }
        CoreForm::Field { of, field, .. } => {
            expr_alike(sides, of.get(), in_field(sides, node, *field, new)?)
        }
        CoreForm::Length(x) => expr_alike(sides, x.get(), in_length(node, new)?),
        CoreForm::NewFilled { items, .. } => {
            expr_alike(sides, items.get(), in_new_filled(node, new)?)
        }
        CoreForm::Unary { op, of } => expr_alike(sides, of.get(), in_unary(node, *op, new)?),
        CoreForm::Step { up, before, of } => {
            expr_alike(sides, of.get(), in_step(node, *up, *before, new)?)
        }
        CoreForm::Cast { written, of, .. } => {
            expr_alike(sides, of.get(), in_cast(sides, node, written, new)?)
        }
        CoreForm::InstanceOf { of, written } => {
            expr_alike(sides, of.get(), in_instance_of(sides, node, written, new)?)
        }
        CoreForm::Index { of, at } => two_alike(sides, of, at, in_index(node, new)?),
        CoreForm::Binary {
            op,
            kind,
            left,
            right,
        } => two_alike(sides, left, right, in_binary(node, *op, *kind, new)?),
        CoreForm::Logic { both, left, right } => {
            two_alike(sides, left, right, in_logic(node, *both, new)?)
        }
        CoreForm::Assign { to, from } => two_alike(sides, to, from, in_assign(node, new)?),
        CoreForm::Compound { op, kind, to, from } => {
            let inside = in_compound(node, &old.ty, *op, *kind, new)?;
            two_alike(sides, to, from, inside)
        }
        CoreForm::Cond { test, yes, no } => {
            cond_alike(sides, test, yes, no, in_cond(node, new)?)
        }
        CoreForm::StaticField { of, field, .. } => {
            maybe_alike(sides, node, of, in_static_field(sides, node, *field, new)?)
        }
        CoreForm::StaticCall {
            of,
            method,
            args,
            ..
        } => {
            let inside = in_static_call(sides, node, *method, new)?;
            static_call_alike(sides, node, of, args, inside)
        }
        CoreForm::Call {
            of,
            method,
            args,
            ..
        } => call_alike(sides, node, of, *method, args, in_call(node, *method, new)?),
        CoreForm::SuperCall { method, args } => {
            exprs_alike(sides, node, args, in_super_call(sides, node, *method, new)?)
        }
        CoreForm::New {
            written,
            constructor,
            args,
        } => {
            let inside = in_new(sides, node, written, *constructor, new)?;
            exprs_alike(sides, node, args, inside)
        }
        CoreForm::NewArray { sizes, .. } => {
            exprs_alike(sides, node, sizes, in_new_array(sides, node, &old.ty, new)?)
        }
        CoreForm::Filled(items) => {
            exprs_alike(sides, node, items, in_filled(sides, node, &old.ty, new)?)
        }
    }
}

#[cycle(expr_alike)]
fn two_alike(
    sides: &Sides<'_>,
    first: &Boxed<CoreExpr>,
    second: &Boxed<CoreExpr>,
    new: Two<'_>,
) -> Result<(), Unlike>
    requires { IsReady sides.now }
    ensures { (result ≡ Ok tt) ↔ (ExprAlike (pair sides.now) (plain first.now) (plain new.entry.first.now) × ExprAlike (pair sides.now) (plain second.now) (plain new.entry.second.now)) }
{
    expr_alike(sides, first.get(), new.first)?;
    expr_alike(sides, second.get(), new.second)
}

#[cycle(expr_alike)]
fn cond_alike(
    sides: &Sides<'_>,
    test: &Boxed<CoreExpr>,
    yes: &Boxed<CoreExpr>,
    no: &Boxed<CoreExpr>,
    new: Cond<'_>,
) -> Result<(), Unlike>
    requires { IsReady sides.now }
    ensures { (result ≡ Ok tt) ↔ (ExprAlike (pair sides.now) (plain test.now) (plain new.entry.test.now) × ExprAlike (pair sides.now) (plain yes.now) (plain new.entry.yes.now) × ExprAlike (pair sides.now) (plain no.now) (plain new.entry.no.now)) }
{
    expr_alike(sides, test.get(), new.test)?;
    expr_alike(sides, yes.get(), new.yes)?;
    expr_alike(sides, no.get(), new.no)
}

/// The method comes last, so that it alone differs where it is told.
#[cycle(expr_alike)]
fn call_alike(
    sides: &Sides<'_>,
    node: Node,
    of: &Boxed<CoreExpr>,
    method: u32,
    args: &Items<CoreExpr>,
    new: Call<'_>,
) -> Result<(), Unlike>
    requires { IsReady sides.now }
    ensures { (result ≡ Ok tt) ↔ (CallAlike (pair sides.now) method new.entry.method × ExprAlike (pair sides.now) (plain of.now) (plain new.entry.of.now) × ExprsAlike (pair sides.now) (plains args.now) (plains new.entry.args.now)) }
{
    expr_alike(sides, of.get(), new.of)?;
    exprs_alike(sides, node, args, new.args)?;
    method_alike(sides, node, method, new.method)
}

#[cycle(expr_alike)]
fn static_call_alike(
    sides: &Sides<'_>,
    node: Node,
    of: &Option<Boxed<CoreExpr>>,
    args: &Items<CoreExpr>,
    new: StaticCall<'_>,
) -> Result<(), Unlike>
    requires { IsReady sides.now }
    ensures { (result ≡ Ok tt) ↔ (MaybeExprAlike (pair sides.now) (maybe (option_map plain of.now)) (maybe (option_map plain new.entry.of.now)) × ExprsAlike (pair sides.now) (plains args.now) (plains new.entry.args.now)) }
{
    maybe_alike(sides, node, of, new.of)?;
    exprs_alike(sides, node, args, new.args)
}

#[cycle(expr_alike)]
fn maybe_alike(
    sides: &Sides<'_>,
    node: Node,
    old: &Option<Boxed<CoreExpr>>,
    new: &Option<Boxed<CoreExpr>>,
) -> Result<(), Unlike>
    requires { IsReady sides.now }
    ensures { (result ≡ Ok tt) ↔ MaybeExprAlike (pair sides.now) (maybe (option_map plain old.now)) (maybe (option_map plain new.now)) }
{
    match old {
        None => match new {
            None => Ok(()),
            Some(_x) => Err(Unlike::Node(node)),
        },
        Some(x) => match new {
            None => Err(Unlike::Node(node)),
            Some(y) => expr_alike(sides, x.get(), y.get()),
        },
    }
}

/// The same of expressions, one by one.
#[cycle(expr_alike)]
pub(crate) fn exprs_alike(
    sides: &Sides<'_>,
    node: Node,
    old: &Items<CoreExpr>,
    new: &Items<CoreExpr>,
) -> Result<(), Unlike>
    requires { IsReady sides.now }
    ensures { (result ≡ Ok tt) ↔ ExprsAlike (pair sides.now) (plains old.now) (plains new.now) }
{
    for (at, x) in old.as_slice().iter().enumerate() {
        let Some(y) = new.get(at) else {
            return Err(Unlike::Node(node));
        };
        expr_alike(sides, x, y)?;
    }
    check(node, new.len() == old.len())
}

/// The same of an expression that may be missing.
pub(crate) fn optional_alike(
    sides: &Sides<'_>,
    node: Node,
    old: &Option<CoreExpr>,
    new: &Option<CoreExpr>,
) -> Result<(), Unlike>
    requires { IsReady sides.now }
    ensures { (result ≡ Ok tt) ↔ OptExprAlike (pair sides.now) (option_map plain old.now) (option_map plain new.now) }
{
    match old {
        None => match new {
            None => Ok(()),
            Some(_x) => Err(Unlike::Node(node)),
        },
        Some(x) => match new {
            None => Err(Unlike::Node(node)),
            Some(y) => expr_alike(sides, x, y),
        },
    }
}
