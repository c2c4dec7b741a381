//! A run on its way, and pieces that are done for what waits.

ghost use Rattle.std.specs.Prelude.{◌++◌, drop};
ghost use Rattle.core_meaning.specs.declared.values.State.{State as RunState};
ghost use Rattle.core_meaning.specs.Variables.{Place};
ghost use Rattle.core_meaning.specs.Outcome.{Gives, and_then};
ghost use Rattle.core_meaning.specs.Expressions.{current, value, values, variable};
ghost use Rattle.core_meaning.specs.Statements.{stmt, stmts};
ghost use Rattle.java_core.specs.View.{plain, plains, stmt_plain, stmts_plain};
ghost use Rattle.run_frames.specs.Frames.{a_variable, all_valued, and_ending, and_nothing, and_value, and_values, and_variable, ended, nothing, on_ending, on_nothing, on_value, on_values, on_variable, valued};
ghost use Rattle.run_frames.specs.Runs.{Leads};

use crate::focus::{Answer, Focus};
use crate::stack::Stack;
use crate::waits::{ForEnding, ForNothing, ForValue, ForValues, ForVariable, Waits};
use core_meaning::{Ending, State, Value, Variable};
use java_core::{CoreExpr, CoreStmt};
use java_tree::{Items, NoMemory};
use std::alloc::Global;

/// `depth` is how many calls and initialisations may still be open, `class` the number of the type whose member runs.
#[derive(Drop)]
pub struct Run<'a> {
    pub state: State,
    pub stack: Stack<Waits<'a>>,
    pub depth: u64,
    pub class: u32,
}

/// An expression is evaluated for what waits.
pub fn evaluate<'a>(
    run: &mut Run<'a>,
    x: &'a CoreExpr,
    waits: ForValue<'a>,
) -> Result<Focus<'a>, NoMemory>
    ensures { Leads run.old result run.new (λ p s. and_value (valued (value p (plain x.now) s)) (on_value p waits.entry)) }
{
    run.stack.push(Waits::Value(waits))?;
    Ok(Focus::Value(x))
}

/// What a variable holds is read for what waits, with the casts that are implied in the expression that names it.
pub fn evaluate_current<'a>(
    run: &mut Run<'a>,
    x: &'a CoreExpr,
    of: Variable,
    waits: ForValue<'a>,
) -> Result<Focus<'a>, NoMemory>
    ensures { Leads run.old result run.new (λ p s. and_value (valued (current p (plain x.now) of s)) (on_value p waits.entry)) }
{
    run.stack.push(Waits::Value(waits))?;
    Ok(Focus::Current(x, of))
}

/// The variable that an expression names is found for what waits.
pub fn find_variable<'a>(
    run: &mut Run<'a>,
    x: &'a CoreExpr,
    waits: ForVariable<'a>,
) -> Result<Focus<'a>, NoMemory>
    ensures { Leads run.old result run.new (λ p s. and_variable (a_variable (variable p (plain x.now) s)) (on_variable p waits.entry)) }
{
    run.stack.push(Waits::Variable(waits))?;
    Ok(Focus::Variable(x))
}

/// Arguments are evaluated from a place on, behind those that are done.
#[tactic(auto, using(crate::proofs::Pieces::next_argument, crate::proofs::Pieces::no_argument))]
pub fn evaluate_from<'a>(
    run: &mut Run<'a>,
    done: Items<Value>,
    args: &'a Items<CoreExpr>,
    at: usize,
) -> Result<Focus<'a>, NoMemory>
    ensures { Leads run.old result run.new (λ p s. all_valued (and_then (values p (plains (drop at args.now)) s) (λ xs s. Gives (done ++ xs) s))) }
{
    match args.as_slice().get(at) {
        None => Ok(Focus::Gives(Answer::Values(done))),
        Some(x) => evaluate(
            run,
            x,
            ForValue::Argument {
                done,
                args,
                at: at + 1,
            },
        ),
    }
}

/// Arguments are evaluated for what waits.
pub fn evaluate_all<'a>(
    alloc: Global,
    run: &mut Run<'a>,
    args: &'a Items<CoreExpr>,
    waits: ForValues<'a>,
) -> Result<Focus<'a>, NoMemory>
    ensures { Leads run.old result run.new (λ p s. and_values (all_valued (values p (plains args.now) s)) (on_values p waits.entry)) }
{
    run.stack.push(Waits::Values(waits))?;
    evaluate_from(run, Items::new(alloc), args, 0)
}

/// A type is initialised for what waits.
pub fn initialise_for<'a>(
    run: &mut Run<'a>,
    class: u32,
    waits: ForNothing<'a>,
) -> Result<Focus<'a>, NoMemory>
    ensures { Leads run.old result run.new (λ p s. and_nothing (nothing (p.initialise class s)) (on_nothing p waits.entry)) }
{
    run.stack.push(Waits::Nothing(waits))?;
    Ok(Focus::Initialise(class))
}

/// A statement is executed for what waits.
pub fn execute<'a>(
    run: &mut Run<'a>,
    x: &'a CoreStmt,
    waits: ForEnding<'a>,
) -> Result<Focus<'a>, NoMemory>
    ensures { Leads run.old result run.new (λ p s. and_ending (ended (stmt p (stmt_plain x.now) s)) (on_ending p waits.entry)) }
{
    run.stack.push(Waits::Ending(waits))?;
    Ok(Focus::Statement(x))
}

/// Statements are executed from a place on.
#[tactic(auto, using(crate::proofs::Pieces::next_stmt, crate::proofs::Pieces::no_stmt))]
pub fn execute_from<'a>(
    run: &mut Run<'a>,
    xs: &'a Items<CoreStmt>,
    at: usize,
) -> Result<Focus<'a>, NoMemory>
    ensures { Leads run.old result run.new (λ p s. ended (stmts p (stmts_plain (drop at xs.now)) s)) }
{
    match xs.as_slice().get(at) {
        None => Ok(Focus::Gives(Answer::Ending(Ending::Goes))),
        Some(x) => execute(
            run,
            x,
            ForEnding::Then {
                stmts: xs,
                at: at + 1,
            },
        ),
    }
}
