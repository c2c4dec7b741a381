//! Definite assignment in expressions (JLS 15 and 16.1).

ghost use Rattle.std.specs.Prelude.{◌≡◌, OnOk};
ghost use Rattle.std.specs.Option.{option_map};
ghost use Rattle.java_core.specs.View.{maybe, plain, plains};
ghost use Rattle.definite_assignment.specs.Assigned as spec;

use crate::fields::{assign, use_field, use_local, use_static};
use crate::forks::{
    also_no, also_yes, both_ways, enter_false, enter_true, go_to_test, merge, negate, tell,
    tell_alike,
};
use crate::state::{State, go_to, join};
use class_world::World;
use java_core::{Before, CoreExpr, CoreForm};
use java_tree::tree::{Node, UnOp};
use java_tree::{Boxed, NoMemory};
use std::alloc::Global;

/// The value of an expression; `home` is the field whose value it is a part of, where it is in that of one.
#[cycle(value)]
#[tactic(auto, using(java_core::proofs::Views::plain_at))]
pub(crate) fn value(
    alloc: Global,
    w: &World,
    home: Option<u32>,
    e: &CoreExpr,
    s: &mut State,
) -> Result<(), NoMemory>
    ensures { OnOk result (s.new ≡ spec.value w.now home (plain e.now) s.old) }
{
    match &e.form {
        CoreForm::Local(slot) => {
            use_local(e.node, *slot, s);
            Ok(())
        }
        CoreForm::Field { of, simple, field } => {
            if *simple {
                use_field(w, home, e.node, *field, s);
                return Ok(());
            }
            value(alloc, w, home, of.get(), s)
        }
        CoreForm::StaticField { before, of, field } => {
            static_value(alloc, w, home, e.node, *before, of, *field, s)
        }
        CoreForm::Paren(of) => value(alloc, w, home, of.get(), s),
        CoreForm::Widen(of) => value(alloc, w, home, of.get(), s),
        CoreForm::Implied(of) => value(alloc, w, home, of.get(), s),
        CoreForm::Length(of) => value(alloc, w, home, of.get(), s),
        CoreForm::NewFilled { items: of, .. } => value(alloc, w, home, of.get(), s),
        CoreForm::Unary { of, .. } => value(alloc, w, home, of.get(), s),
        CoreForm::Step { of, .. } => value(alloc, w, home, of.get(), s),
        CoreForm::Cast { of, .. } => value(alloc, w, home, of.get(), s),
        CoreForm::InstanceOf { of, .. } => value(alloc, w, home, of.get(), s),
        CoreForm::Index { of, at } => {
            value(alloc, w, home, of.get(), s)?;
            value(alloc, w, home, at.get(), s)
        }
        CoreForm::Binary { left, right, .. } => {
            value(alloc, w, home, left.get(), s)?;
            value(alloc, w, home, right.get(), s)
        }
        CoreForm::Call { of, args, .. } => {
            value(alloc, w, home, of.get(), s)?;
            values(alloc, w, home, args.as_slice(), s)
        }
        CoreForm::StaticCall { of, args, .. } => {
            maybe_value(alloc, w, home, of, s)?;
            values(alloc, w, home, args.as_slice(), s)
        }
        CoreForm::SuperCall { args, .. } => values(alloc, w, home, args.as_slice(), s),
        CoreForm::New { args, .. } => values(alloc, w, home, args.as_slice(), s),
        CoreForm::NewArray { sizes, .. } => values(alloc, w, home, sizes.as_slice(), s),
        CoreForm::Filled(items) => values(alloc, w, home, items.as_slice(), s),
        CoreForm::Logic { both, left, right } => {
            test(alloc, w, home, left.get(), s)?;
            logic(alloc, w, home, *both, right.get(), s)?;
            merge(alloc, s)
        }
        CoreForm::Cond { test: of, yes, no } => {
            test(alloc, w, home, of.get(), s)?;
            arms(alloc, w, home, yes.get(), no.get(), s)
        }
        CoreForm::Assign { to, from } => {
            target(alloc, w, home, to.get(), s)?;
            value(alloc, w, home, from.get(), s)?;
            assign(alloc, to.get(), s)
        }
        CoreForm::Compound { to, from, .. } => {
            value(alloc, w, home, to.get(), s)?;
            value(alloc, w, home, from.get(), s)?;
            assign(alloc, to.get(), s)
        }
        CoreForm::Int(_)
        | CoreForm::Long(_)
        | CoreForm::Char(_)
        | CoreForm::Text(_)
        | CoreForm::Truth(_)
        | CoreForm::Null
        | CoreForm::This
        | CoreForm::SuperField(_) => Ok(()),
    }
}

#[cycle(value)]
pub(crate) fn values(
    alloc: Global,
    w: &World,
    home: Option<u32>,
    xs: &[CoreExpr],
    s: &mut State,
) -> Result<(), NoMemory>
    ensures { OnOk result (s.new ≡ spec.values w.now home (plains xs.now) s.old) }
{
    for x in xs {
        value(alloc, w, home, x, s)?;
    }
    Ok(())
}

#[cycle(value)]
fn maybe_value(
    alloc: Global,
    w: &World,
    home: Option<u32>,
    of: &Option<Boxed<CoreExpr>>,
    s: &mut State,
) -> Result<(), NoMemory>
    ensures { OnOk result (s.new ≡ spec.maybe_value w.now home (maybe (option_map plain of.now)) s.old) }
{
    match of {
        None => Ok(()),
        Some(of) => value(alloc, w, home, of.get(), s),
    }
}

#[cycle(value)]
fn static_value(
    alloc: Global,
    w: &World,
    home: Option<u32>,
    node: Node,
    before: Before,
    of: &Option<Boxed<CoreExpr>>,
    field: u32,
    s: &mut State,
) -> Result<(), NoMemory>
    ensures { OnOk result (s.new ≡ spec.static_value w.now home node before (maybe (option_map plain of.now)) field s.old) }
{
    match of {
        None => {
            use_static(w, home, node, before, field, s);
            Ok(())
        }
        Some(of) => value(alloc, w, home, of.get(), s),
    }
}

/// The arms of a conditional, behind its test.
#[cycle(value)]
fn arms(
    alloc: Global,
    w: &World,
    home: Option<u32>,
    yes: &CoreExpr,
    no: &CoreExpr,
    s: &mut State,
) -> Result<(), NoMemory>
    ensures { OnOk result (s.new ≡ spec.arms (spec.value w.now home (plain yes.now)) (spec.value w.now home (plain no.now)) s.old) }
{
    let when_false = enter_true(alloc, s);
    value(alloc, w, home, yes, s)?;
    let ended = go_to(when_false, s);
    value(alloc, w, home, no, s)?;
    join(ended.as_slice(), s)
}

/// The parts of what is assigned: a variable itself is not used.
#[cycle(value)]
#[tactic(auto, using(java_core::proofs::Views::plain_at))]
fn target(
    alloc: Global,
    w: &World,
    home: Option<u32>,
    e: &CoreExpr,
    s: &mut State,
) -> Result<(), NoMemory>
    ensures { OnOk result (s.new ≡ spec.target w.now home (plain e.now) s.old) }
{
    match &e.form {
        CoreForm::Local(_) => Ok(()),
        CoreForm::Paren(of) => target(alloc, w, home, of.get(), s),
        CoreForm::Field { of, simple, .. } => {
            if *simple {
                return Ok(());
            }
            value(alloc, w, home, of.get(), s)
        }
        CoreForm::StaticField { of, .. } => maybe_value(alloc, w, home, of, s),
        _ => value(alloc, w, home, e, s),
    }
}

/// An expression as a test.
#[cycle(value)]
#[tactic(auto, using(java_core::proofs::Views::plain_at))]
pub(crate) fn test(
    alloc: Global,
    w: &World,
    home: Option<u32>,
    e: &CoreExpr,
    s: &mut State,
) -> Result<(), NoMemory>
    ensures { OnOk result (s.new ≡ spec.test w.now home (plain e.now) s.old) }
{
    match &e.form {
        CoreForm::Truth(truth) => {
            tell(alloc, *truth, s);
            Ok(())
        }
        CoreForm::Paren(of) => test(alloc, w, home, of.get(), s),
        CoreForm::Unary { op, of } => unary_test(alloc, w, home, *op, of.get(), s),
        CoreForm::Logic { both, left, right } => {
            test(alloc, w, home, left.get(), s)?;
            logic(alloc, w, home, *both, right.get(), s)
        }
        CoreForm::Cond { test: of, yes, no } => {
            test(alloc, w, home, of.get(), s)?;
            test_arms(alloc, w, home, yes.get(), no.get(), s)
        }
        _ => {
            value(alloc, w, home, e, s)?;
            tell_alike(alloc, s)
        }
    }
}

/// A test under an operator: `!` turns it around, and the others are of numbers.
#[cycle(value)]
fn unary_test(
    alloc: Global,
    w: &World,
    home: Option<u32>,
    op: UnOp,
    of: &CoreExpr,
    s: &mut State,
) -> Result<(), NoMemory>
    ensures { OnOk result (s.new ≡ spec.unary_test op (spec.test w.now home (plain of.now)) (spec.value w.now home (plain of.now)) s.old) }
{
    match op {
        UnOp::Not => {
            test(alloc, w, home, of, s)?;
            negate(alloc, s);
            Ok(())
        }
        _ => {
            value(alloc, w, home, of, s)?;
            tell_alike(alloc, s)
        }
    }
}

/// The right side of `&&`, where `both` holds, or of `||`, behind its left side.
#[cycle(value)]
fn logic(
    alloc: Global,
    w: &World,
    home: Option<u32>,
    both: bool,
    right: &CoreExpr,
    s: &mut State,
) -> Result<(), NoMemory>
    ensures { OnOk result (s.new ≡ spec.logic both (spec.test w.now home (plain right.now)) s.old) }
{
    if both {
        let no = enter_true(alloc, s);
        test(alloc, w, home, right, s)?;
        return also_no(no, s);
    }
    let yes = enter_false(alloc, s);
    test(alloc, w, home, right, s)?;
    also_yes(yes, s)
}

/// The arms of a conditional that is a test, behind its own test.
#[cycle(value)]
fn test_arms(
    alloc: Global,
    w: &World,
    home: Option<u32>,
    yes: &CoreExpr,
    no: &CoreExpr,
    s: &mut State,
) -> Result<(), NoMemory>
    ensures { OnOk result (s.new ≡ spec.test_arms (spec.test w.now home (plain yes.now)) (spec.test w.now home (plain no.now)) s.old) }
{
    let when_false = enter_true(alloc, s);
    test(alloc, w, home, yes, s)?;
    let told = go_to_test(alloc, when_false, s);
    test(alloc, w, home, no, s)?;
    both_ways(told, s)
}
