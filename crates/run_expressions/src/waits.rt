//! What waits in an expression goes on with what it waited for.

ghost use Rattle.run_frames.specs.declared.waits.ForNothing.TheVariants as for_nothing;
ghost use Rattle.run_frames.specs.declared.waits.ForValue.TheVariants as for_value;
ghost use Rattle.run_frames.specs.declared.waits.ForVariable.TheVariants as for_variable;
ghost use Rattle.run_frames.specs.Frames.{on_nothing, on_value, on_variable};
ghost use Rattle.running_code.specs.Running.{IsReady};
ghost use Rattle.run_values.specs.Does.{Does};

use crate::values::gives;
use class_world::JavaType;
use core_meaning::{Value, Variable};
use java_core::{CoreExpr, Kind};
use java_tree::tree::BinOp;
use java_tree::{Boxed, Items, NoMemory};
use run_frames::run::{evaluate, evaluate_all, evaluate_current, evaluate_from};
use run_frames::{Focus, ForValue, ForValues, Run};
use run_values::misfit;
use running_code::Running;
use std::alloc::Global;

/// The right operand of `&&` or `||` is evaluated where the left one does not say all (JLS 15.23, 15.24).
pub fn logic<'a>(
    alloc: Global,
    g: &'a Running<'a>,
    run: &mut Run<'a>,
    both: bool,
    right: &'a Boxed<CoreExpr>,
    value: Value,
) -> Result<Focus<'a>, NoMemory>
    requires { IsReady g.now }
    ensures { Does g.now run.old result run.new (λ p s. on_value p (for_value.Logic both right.entry) value s) }
{
    match (both, value) {
        (true, Value::Truth(true)) | (false, Value::Truth(false)) => Ok(Focus::Value(right.get())),
        (true, Value::Truth(false)) | (false, Value::Truth(true)) => gives(value),
        _ => misfit(alloc, run),
    }
}

/// One of the two operands behind the test is evaluated (JLS 15.25).
pub fn cond<'a>(
    alloc: Global,
    g: &'a Running<'a>,
    run: &mut Run<'a>,
    yes: &'a Boxed<CoreExpr>,
    no: &'a Boxed<CoreExpr>,
    value: Value,
) -> Result<Focus<'a>, NoMemory>
    requires { IsReady g.now }
    ensures { Does g.now run.old result run.new (λ p s. on_value p (for_value.Cond yes.entry no.entry) value s) }
{
    match value {
        Value::Truth(true) => Ok(Focus::Value(yes.get())),
        Value::Truth(false) => Ok(Focus::Value(no.get())),
        _ => misfit(alloc, run),
    }
}

/// The index behind an array (JLS 15.13.1).
pub fn index_of<'a>(
    alloc: Global,
    g: &'a Running<'a>,
    run: &mut Run<'a>,
    at: &'a Boxed<CoreExpr>,
    value: Value,
) -> Result<Focus<'a>, NoMemory>
    requires { IsReady g.now }
    ensures { Does g.now run.old result run.new (λ p s. on_value p (for_value.IndexOf at.entry) value s) }
{
    evaluate(run, at.get(), ForValue::IndexAt(value))
}

/// The arguments behind the object that a method is called on (JLS 15.12.4).
pub fn call_of<'a>(
    alloc: Global,
    g: &'a Running<'a>,
    run: &mut Run<'a>,
    method: u32,
    args: &'a Items<CoreExpr>,
    value: Value,
) -> Result<Focus<'a>, NoMemory>
    requires { IsReady g.now }
    ensures { Does g.now run.old result run.new (λ p s. on_value p (for_value.CallOf method args.entry) value s) }
{
    evaluate_all(alloc, run, args, ForValues::Call { of: value, method })
}

/// The right operand behind the left one (JLS 15.7.1).
pub fn left<'a>(
    alloc: Global,
    g: &'a Running<'a>,
    run: &mut Run<'a>,
    op: BinOp,
    kind: Kind,
    right: &'a Boxed<CoreExpr>,
    value: Value,
) -> Result<Focus<'a>, NoMemory>
    requires { IsReady g.now }
    ensures { Does g.now run.old result run.new (λ p s. on_value p (for_value.Left op kind right.entry) value s) }
{
    evaluate(
        run,
        right.get(),
        ForValue::Right {
            op,
            kind,
            left: value,
        },
    )
}

/// The right operand of a compound assignment, behind what the variable holds (JLS 15.26.2).
pub fn compound_value<'a>(
    alloc: Global,
    g: &'a Running<'a>,
    run: &mut Run<'a>,
    op: BinOp,
    kind: Kind,
    ty: &'a JavaType,
    right: &'a Boxed<CoreExpr>,
    to: Variable,
    value: Value,
) -> Result<Focus<'a>, NoMemory>
    requires { IsReady g.now }
    ensures { Does g.now run.old result run.new (λ p s. on_value p (for_value.Compound op kind ty.entry right.entry to) value s) }
{
    evaluate(
        run,
        right.get(),
        ForValue::CompoundRight {
            op,
            kind,
            ty,
            left: value,
            to,
        },
    )
}

/// The index behind an array whose item is a variable.
pub fn variable_index<'a>(
    alloc: Global,
    g: &'a Running<'a>,
    run: &mut Run<'a>,
    at: &'a Boxed<CoreExpr>,
    value: Value,
) -> Result<Focus<'a>, NoMemory>
    requires { IsReady g.now }
    ensures { Does g.now run.old result run.new (λ p s. on_value p (for_value.VariableIndexOf at.entry) value s) }
{
    evaluate(run, at.get(), ForValue::VariableIndexAt(value))
}

/// The next argument, behind the value of the one before.
pub fn next_argument<'a>(
    alloc: Global,
    g: &'a Running<'a>,
    run: &mut Run<'a>,
    mut done: Items<Value>,
    args: &'a Items<CoreExpr>,
    at: usize,
    value: Value,
) -> Result<Focus<'a>, NoMemory>
    requires { IsReady g.now }
    ensures { Does g.now run.old result run.new (λ p s. on_value p (for_value.Argument done args.entry at) value s) }
{
    done.push(value)?;
    evaluate_from(run, done, args, at)
}

/// The arguments of a static call, behind what stands before its dot.
pub fn static_args<'a>(
    alloc: Global,
    g: &'a Running<'a>,
    run: &mut Run<'a>,
    method: u32,
    args: &'a Items<CoreExpr>,
) -> Result<Focus<'a>, NoMemory>
    requires { IsReady g.now }
    ensures { Does g.now run.old result run.new (λ p s. on_nothing p (for_nothing.StaticArgs method args.entry) s) }
{
    evaluate_all(alloc, run, args, ForValues::StaticCall(method))
}

/// What a variable takes, behind the variable (JLS 15.26.1).
pub fn assign<'a>(
    alloc: Global,
    g: &'a Running<'a>,
    run: &mut Run<'a>,
    from: &'a Boxed<CoreExpr>,
    to: Variable,
) -> Result<Focus<'a>, NoMemory>
    requires { IsReady g.now }
    ensures { Does g.now run.old result run.new (λ p s. on_variable p (for_variable.Assign from.entry) to s) }
{
    evaluate(run, from.get(), ForValue::Store(to))
}

/// What the variable of `++` or `--` holds (JLS 15.14.2, 15.15.1).
pub fn step<'a>(
    alloc: Global,
    g: &'a Running<'a>,
    run: &mut Run<'a>,
    up: bool,
    before: bool,
    of: &'a Boxed<CoreExpr>,
    to: Variable,
) -> Result<Focus<'a>, NoMemory>
    requires { IsReady g.now }
    ensures { Does g.now run.old result run.new (λ p s. on_variable p (for_variable.Step up before of.entry) to s) }
{
    evaluate_current(run, of.get(), to, ForValue::Step { up, before, to })
}

/// What the variable of a compound assignment holds (JLS 15.26.2).
pub fn compound<'a>(
    alloc: Global,
    g: &'a Running<'a>,
    run: &mut Run<'a>,
    op: BinOp,
    kind: Kind,
    ty: &'a JavaType,
    of: &'a Boxed<CoreExpr>,
    right: &'a Boxed<CoreExpr>,
    to: Variable,
) -> Result<Focus<'a>, NoMemory>
    requires { IsReady g.now }
    ensures { Does g.now run.old result run.new (λ p s. on_variable p (for_variable.Compound op kind ty.entry of.entry right.entry) to s) }
{
    evaluate_current(
        run,
        of.get(),
        to,
        ForValue::Compound {
            op,
            kind,
            ty,
            right,
            to,
        },
    )
}
