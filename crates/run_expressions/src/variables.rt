//! The variables that expressions name, and what those hold.

ghost use Rattle.java_core.specs.View.{plain};
ghost use Rattle.core_meaning.specs.declared.values.Variable.TheVariants as var;
ghost use Rattle.core_meaning.specs.Outcome.{Gives};
ghost use Rattle.core_meaning.specs.Expressions.{current, variable};
ghost use Rattle.run_frames.specs.Frames.{a_variable, valued};
ghost use Rattle.run_frames.specs.Runs.{Leads};
ghost use Rattle.running_code.specs.Running.{IsReady};
ghost use Rattle.run_values.specs.Does.{Does};
ghost use Rattle.run_expressions.specs.Parts.{behind};

use crate::values::drop_before;
use core_meaning::Variable;
use java_core::{CoreExpr, CoreForm};
use java_tree::{Boxed, NoMemory};
use run_frames::run::{evaluate, evaluate_current};
use run_frames::{Answer, Focus, ForNothing, ForValue, Run};
use run_values::{misfit, read};
use running_code::Running;
use std::alloc::Global;

/// The variable that an assignment or a step is for: what stands before it is evaluated (JLS 15.26.1).
pub fn variable<'a>(
    alloc: Global,
    g: &'a Running<'a>,
    run: &mut Run<'a>,
    x: &'a CoreExpr,
) -> Result<Focus<'a>, NoMemory>
    requires { IsReady g.now }
    ensures { Does g.now run.old result run.new (λ p s. a_variable (variable p (plain x.now) s)) }
{
    match &x.form {
        CoreForm::Local(slot) => Ok(Focus::Gives(Answer::Variable(Variable::Local(*slot)))),
        CoreForm::Field { of, field, .. } => {
            evaluate(run, of.get(), ForValue::VariableField(*field))
        }
        CoreForm::SuperField(field) => Ok(Focus::Gives(Answer::Variable(Variable::Field {
            of: run.state.frame.this,
            field: *field,
        }))),
        CoreForm::StaticField { of, field, .. } => static_variable(run, of, *field),
        CoreForm::Index { of, at } => evaluate(run, of.get(), ForValue::VariableIndexOf(at)),
        CoreForm::Paren(of) => Ok(Focus::Variable(of.get())),
        CoreForm::Implied(of) => Ok(Focus::Variable(of.get())),
        _ => misfit(alloc, run),
    }
}

/// A static field, behind what stands before its dot.
fn static_variable<'a>(
    run: &mut Run<'a>,
    before: &'a Option<Boxed<CoreExpr>>,
    field: u32,
) -> Result<Focus<'a>, NoMemory>
    ensures { Leads run.old result run.new (λ p s. a_variable (behind p before.now (λ s. Gives (var.Static field) s) s)) }
{
    match before {
        None => Ok(Focus::Gives(Answer::Variable(Variable::Static(field)))),
        Some(x) => drop_before(run, x, ForNothing::StaticVariable(field)),
    }
}

/// What a variable holds that an expression names, with the casts that are implied there.
pub fn current<'a>(
    alloc: Global,
    g: &'a Running<'a>,
    run: &mut Run<'a>,
    x: &'a CoreExpr,
    of: Variable,
) -> Result<Focus<'a>, NoMemory>
    requires { IsReady g.now }
    ensures { Does g.now run.old result run.new (λ p s. valued (current p (plain x.now) of s)) }
{
    match &x.form {
        CoreForm::Paren(inner) => Ok(Focus::Current(inner.get(), of)),
        CoreForm::Implied(inner) => {
            evaluate_current(run, inner.get(), of, ForValue::Implied(&x.ty))
        }
        _ => read(alloc, g, run, of),
    }
}
