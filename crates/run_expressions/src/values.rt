//! The values of expressions: what is done at once, and what then waits.

ghost use Rattle.std.specs.Prelude.{◌≡◌, Ok};
ghost use Rattle.java_core.specs.Plain as e;
ghost use Rattle.java_core.specs.View.{plain, plains};
ghost use Rattle.core_meaning.specs.declared.values.Variable.TheVariants as var;
ghost use Rattle.core_meaning.specs.Outcome.{and_then};
ghost use Rattle.core_meaning.specs.Variables.{read};
ghost use Rattle.core_meaning.specs.Expressions.{called_static, dropped, value, values};
ghost use Rattle.run_frames.specs.declared.focus.Answer.TheVariants as answer;
ghost use Rattle.run_frames.specs.declared.focus.Focus.TheVariants as focus;
ghost use Rattle.run_frames.specs.Frames.{and_nothing, nothing, on_nothing, valued};
ghost use Rattle.run_frames.specs.Runs.{Leads};
ghost use Rattle.running_code.specs.Running.{IsReady};
ghost use Rattle.run_values.specs.Does.{Does};
ghost use Rattle.run_expressions.specs.Parts.{behind, of_operands};

use core_meaning::{Value, Variable};
use java_core::{CoreExpr, CoreForm, Kind};
use java_tree::tree::BinOp;
use java_tree::{Boxed, Items, NoMemory};
use run_calls::create;
use run_frames::run::{evaluate, evaluate_all, find_variable};
use run_frames::{Answer, Focus, ForNothing, ForValue, ForValues, ForVariable, Run, Waits};
use run_values::{fill_array, make_literal, read};
use running_code::{Running, joined_literal};
use std::alloc::Global;
use type_kinds::kinds::class_number;

/// An expression is evaluated: its first part, behind what is to be done with it (JLS 15.7).
pub fn value<'a>(
    alloc: Global,
    g: &'a Running<'a>,
    run: &mut Run<'a>,
    x: &'a CoreExpr,
) -> Result<Focus<'a>, NoMemory>
    requires { IsReady g.now }
    ensures { Does g.now run.old result run.new (λ p s. valued (value p (plain x.now) s)) }
{
    match &x.form {
        CoreForm::Int(n) => gives(Value::Int(*n)),
        CoreForm::Long(n) => gives(Value::Long(*n)),
        CoreForm::Char(c) => gives(Value::Char(*c)),
        CoreForm::Text(units) => make_literal(alloc, run, units.as_slice()),
        CoreForm::Truth(b) => gives(Value::Truth(*b)),
        CoreForm::Null => gives(Value::Null),
        CoreForm::This => gives(run.state.frame.this),
        CoreForm::Local(slot) => read(alloc, g, run, Variable::Local(*slot)),
        CoreForm::Paren(of) => Ok(Focus::Value(of.get())),
        CoreForm::Widen(of) => evaluate(run, of.get(), ForValue::Widen(&x.ty)),
        CoreForm::Implied(of) => evaluate(run, of.get(), ForValue::Implied(&x.ty)),
        CoreForm::Field { of, field, .. } => evaluate(run, of.get(), ForValue::Field(*field)),
        CoreForm::SuperField(field) => {
            let of = run.state.frame.this;
            read(alloc, g, run, Variable::Field { of, field: *field })
        }
        CoreForm::StaticField { of, field, .. } => static_field(alloc, g, run, of, *field),
        CoreForm::Length(of) => evaluate(run, of.get(), ForValue::Length),
        CoreForm::Index { of, at } => evaluate(run, of.get(), ForValue::IndexOf(at)),
        CoreForm::Call {
            of,
            method,
            args,
            ..
        } => evaluate(
            run,
            of.get(),
            ForValue::CallOf {
                method: *method,
                args,
            },
        ),
        CoreForm::SuperCall { method, args } => {
            evaluate_all(alloc, run, args, ForValues::SuperCall(*method))
        }
        CoreForm::StaticCall {
            of,
            method,
            args,
            ..
        } => static_call(alloc, run, of, *method, args),
        CoreForm::New {
            written,
            constructor,
            args,
        } => create(alloc, g, run, class_number(&written.ty), *constructor, args),
        CoreForm::NewArray { sizes, .. } => {
            evaluate_all(alloc, run, sizes, ForValues::Sizes(&x.ty))
        }
        CoreForm::NewFilled { items, .. } => Ok(Focus::Value(items.get())),
        CoreForm::Filled(items) => fill_array(alloc, g, run, &x.ty, items),
        CoreForm::Unary { op, of } => evaluate(run, of.get(), ForValue::Unary(*op)),
        CoreForm::Step { up, before, of } => find_variable(
            run,
            of.get(),
            ForVariable::Step {
                up: *up,
                before: *before,
                of,
            },
        ),
        CoreForm::Cast { written, of, .. } => evaluate(run, of.get(), ForValue::Cast(&written.ty)),
        CoreForm::Binary {
            op,
            kind,
            left,
            right,
        } => binary(alloc, run, *op, *kind, left, right),
        CoreForm::Logic { both, left, right } => {
            evaluate(run, left.get(), ForValue::Logic { both: *both, right })
        }
        CoreForm::InstanceOf { of, written } => {
            evaluate(run, of.get(), ForValue::InstanceOf(&written.ty))
        }
        CoreForm::Cond { test, yes, no } => evaluate(run, test.get(), ForValue::Cond { yes, no }),
        CoreForm::Assign { to, from } => find_variable(run, to.get(), ForVariable::Assign(from)),
        CoreForm::Compound { op, kind, to, from } => find_variable(
            run,
            to.get(),
            ForVariable::Compound {
                op: *op,
                kind: *kind,
                ty: &x.ty,
                of: to,
                right: from,
            },
        ),
    }
}

/// This value.
pub(crate) fn gives<'a>(value: Value) -> Result<Focus<'a>, NoMemory>
    ensures { result ≡ Ok (focus.Gives (answer.Value value)) }
{
    Ok(Focus::Gives(Answer::Value(value)))
}

/// What stands before the dot of a static use is evaluated, and its value dropped (JLS 15.11.1, 15.12.4.1).
pub(crate) fn drop_before<'a>(
    run: &mut Run<'a>,
    x: &'a Boxed<CoreExpr>,
    waits: ForNothing<'a>,
) -> Result<Focus<'a>, NoMemory>
    ensures { Leads run.old result run.new (λ p s. and_nothing (nothing (dropped p (e.AnExpr (plain x.now)) s)) (on_nothing p waits.entry)) }
{
    run.stack.push(Waits::Nothing(waits))?;
    evaluate(run, x.get(), ForValue::Drop)
}

/// What a static field holds.
fn static_field<'a>(
    alloc: Global,
    g: &'a Running<'a>,
    run: &mut Run<'a>,
    before: &'a Option<Boxed<CoreExpr>>,
    field: u32,
) -> Result<Focus<'a>, NoMemory>
    requires { IsReady g.now }
    ensures { Does g.now run.old result run.new (λ p s. valued (behind p before.now (read p (var.Static field)) s)) }
{
    match before {
        None => read(alloc, g, run, Variable::Static(field)),
        Some(x) => drop_before(run, x, ForNothing::StaticField(field)),
    }
}

/// A call of a static method.
fn static_call<'a>(
    alloc: Global,
    run: &mut Run<'a>,
    before: &'a Option<Boxed<CoreExpr>>,
    method: u32,
    args: &'a Items<CoreExpr>,
) -> Result<Focus<'a>, NoMemory>
    ensures { Leads run.old result run.new (λ p s. valued (behind p before.now (λ s. and_then (values p (plains args.now) s) (called_static p method)) s)) }
{
    match before {
        None => evaluate_all(alloc, run, args, ForValues::StaticCall(method)),
        Some(x) => drop_before(run, x, ForNothing::StaticArgs { method, args }),
    }
}

/// A binary operator; a concatenation of literals is one literal (JLS 15.28).
fn binary<'a>(
    alloc: Global,
    run: &mut Run<'a>,
    op: BinOp,
    kind: Kind,
    left: &'a Boxed<CoreExpr>,
    right: &'a Boxed<CoreExpr>,
) -> Result<Focus<'a>, NoMemory>
    ensures { Leads run.old result run.new (λ p s. valued (of_operands p op kind (plain left.now) (plain right.now) s)) }
{
    match joined_literal(alloc, op, kind, left.get(), right.get())? {
        Some(units) => make_literal(alloc, run, units.as_slice()),
        None => evaluate(run, left.get(), ForValue::Left { op, kind, right }),
    }
}
