//! Places in expressions (JLS 15.8 to 15.26).

ghost use Rattle.std.specs.Prelude.{◌≡◌, IfOk, map};
ghost use Rattle.std.specs.Option.{option_map};
ghost use Rattle.java_core.specs.View.{maybe, plain, plains, var_plain};
ghost use Rattle.class_places.specs.Places as spec;

use crate::places::ClassPlace;
use crate::types::in_args;
use java_core::{CoreExpr, CoreForm, CoreVar};
use java_tree::{Boxed, Items, NoMemory};

/// In an expression, its parts in the order of the file.
#[cycle(value)]
pub(crate) fn value(
    class: u32,
    e: &CoreExpr,
    places: Items<ClassPlace>,
) -> Result<Items<ClassPlace>, NoMemory>
    ensures { IfOk result (λ r. r ≡ spec.value class (plain e.now) places) }
{
    match &e.form {
        CoreForm::Paren(of) => value(class, of.get(), places),
        CoreForm::Widen(of) => value(class, of.get(), places),
        CoreForm::Implied(of) => value(class, of.get(), places),
        CoreForm::Field { of, .. } => value(class, of.get(), places),
        CoreForm::Length(of) => value(class, of.get(), places),
        CoreForm::Unary { of, .. } => value(class, of.get(), places),
        CoreForm::Step { of, .. } => value(class, of.get(), places),
        CoreForm::StaticField { of, .. } => maybe_value(class, of, places),
        CoreForm::Index { of, at } => both(class, of.get(), at.get(), places),
        CoreForm::Binary { left, right, .. } => both(class, left.get(), right.get(), places),
        CoreForm::Logic { left, right, .. } => both(class, left.get(), right.get(), places),
        CoreForm::Assign { to, from } => both(class, to.get(), from.get(), places),
        CoreForm::Compound { to, from, .. } => both(class, to.get(), from.get(), places),
        CoreForm::Cond { test, yes, no } => {
            let places = value(class, test.get(), places)?;
            both(class, yes.get(), no.get(), places)
        }
        CoreForm::Call { of, args, .. } => {
            let places = value(class, of.get(), places)?;
            values(class, args.as_slice(), places)
        }
        CoreForm::StaticCall { of, args, .. } => {
            let places = maybe_value(class, of, places)?;
            values(class, args.as_slice(), places)
        }
        CoreForm::SuperCall { args, .. } => values(class, args.as_slice(), places),
        CoreForm::Filled(items) => values(class, items.as_slice(), places),
        CoreForm::New { written, args, .. } => {
            let places = in_args(class, written, places)?;
            values(class, args.as_slice(), places)
        }
        CoreForm::NewArray { written, sizes } => {
            let places = in_args(class, written, places)?;
            values(class, sizes.as_slice(), places)
        }
        CoreForm::NewFilled { written, items } => {
            let places = in_args(class, written, places)?;
            value(class, items.get(), places)
        }
        CoreForm::Cast { written, of, .. } => {
            let places = in_args(class, written, places)?;
            value(class, of.get(), places)
        }
        CoreForm::InstanceOf { of, written } => {
            let places = value(class, of.get(), places)?;
            in_args(class, written, places)
        }
        CoreForm::Int(_)
        | CoreForm::Long(_)
        | CoreForm::Char(_)
        | CoreForm::Text(_)
        | CoreForm::Truth(_)
        | CoreForm::Null
        | CoreForm::This
        | CoreForm::Local(_)
        | CoreForm::SuperField(_) => Ok(places),
    }
}

#[cycle(value)]
fn both(
    class: u32,
    left: &CoreExpr,
    right: &CoreExpr,
    places: Items<ClassPlace>,
) -> Result<Items<ClassPlace>, NoMemory>
    ensures { IfOk result (λ r. r ≡ spec.value class (plain right.now) (spec.value class (plain left.now) places)) }
{
    let places = value(class, left, places)?;
    value(class, right, places)
}

#[cycle(value)]
fn maybe_value(
    class: u32,
    x: &Option<Boxed<CoreExpr>>,
    places: Items<ClassPlace>,
) -> Result<Items<ClassPlace>, NoMemory>
    ensures { IfOk result (λ r. r ≡ spec.maybe_value class (maybe (option_map plain x.now)) places) }
{
    match x {
        None => Ok(places),
        Some(x) => value(class, x.get(), places),
    }
}

#[cycle(value)]
pub(crate) fn values(
    class: u32,
    xs: &[CoreExpr],
    mut places: Items<ClassPlace>,
) -> Result<Items<ClassPlace>, NoMemory>
    ensures { IfOk result (λ r. r ≡ spec.values class (plains xs.now) places) }
{
    for x in xs {
        places = value(class, x, places)?;
    }
    Ok(places)
}

/// In an expression that may be missing.
pub(crate) fn optional(
    class: u32,
    x: &Option<CoreExpr>,
    places: Items<ClassPlace>,
) -> Result<Items<ClassPlace>, NoMemory>
    ensures { IfOk result (λ r. r ≡ spec.optional class (option_map plain x.now) places) }
{
    match x {
        None => Ok(places),
        Some(x) => value(class, x, places),
    }
}

/// In the values of declared locals.
pub(crate) fn inits(
    class: u32,
    vars: &[CoreVar],
    mut places: Items<ClassPlace>,
) -> Result<Items<ClassPlace>, NoMemory>
    ensures { IfOk result (λ r. r ≡ spec.inits class (map var_plain vars.now) places) }
{
    for var in vars {
        places = optional(class, &var.init, places)?;
    }
    Ok(places)
}
