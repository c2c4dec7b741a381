//! Calls (JLS 15.12.4), and new objects (15.9.4).

ghost use Rattle.java_core.specs.View.{plains, stmt_plain};
ghost use Rattle.core_meaning.specs.declared.values.Value.TheVariants as v;
ghost use Rattle.core_meaning.specs.Outcome.{Gives, and_then};
ghost use Rattle.core_meaning.specs.Members.{called, found_on, invoked};
ghost use Rattle.core_meaning.specs.Expressions.{called_static, created, values};
ghost use Rattle.core_meaning.specs.Statements.{stmt};
ghost use Rattle.core_meaning.specs.Calls.{answered, ran};
ghost use Rattle.run_frames.specs.declared.waits.ForNothing.TheVariants as for_nothing;
ghost use Rattle.run_frames.specs.Frames.{on_nothing, valued};
ghost use Rattle.run_frames.specs.Runs.{Leads};
ghost use Rattle.running_code.specs.Running.{IsReady};
ghost use Rattle.run_values.specs.Does.{Does};

use crate::bodies::{enter_in, slots_of};
use crate::members::perform;
use crate::table::{NULL_POINTER_EXCEPTION, built_in};
use core_meaning::{Ending, Frame, Value};
use java_core::{CoreExpr, CoreStmt};
use java_tree::{Items, NoMemory};
use run_frames::run::{evaluate_all, execute, initialise_for};
use run_frames::{Answer, Focus, ForEnding, ForNothing, ForValue, ForValues, Run, Waits};
use run_state::heap::add_thing;
use run_state::reads::class_of;
use run_values::{misfit, throw_plain};
use running_code::{Running, found, method_owner, new_object};
use std::alloc::Global;

/// A method or constructor of a file is entered, where a step is left.
#[tactic(auto, using(crate::proofs::Frames::enter_from))]
pub fn enter<'a>(
    alloc: Global,
    g: &'a Running<'a>,
    run: &mut Run<'a>,
    method: u32,
    this: Value,
    args: Items<Value>,
) -> Result<Focus<'a>, NoMemory>
    requires { IsReady g.now }
    ensures { Does g.now run.old result run.new (λ p s. valued (p.call method this args s)) }
{
    match method_owner(g, method) {
        None => misfit(alloc, run),
        Some(owner) => {
            let slots = slots_of(alloc, args.as_slice())?;
            enter_in(alloc, g, run, owner, method, Frame { this, slots })
        }
    }
}

/// A method or constructor runs on an object (null where it is static).
pub fn invoke<'a>(
    alloc: Global,
    g: &'a Running<'a>,
    run: &mut Run<'a>,
    method: u32,
    this: Value,
    args: Items<Value>,
) -> Result<Focus<'a>, NoMemory>
    requires { IsReady g.now }
    ensures { Does g.now run.old result run.new (λ p s. valued (invoked p method this args s)) }
{
    match built_in(method) {
        None => enter(alloc, g, run, method, this, args),
        Some(member) => perform(alloc, g, run, member, this, args),
    }
}

/// The method that runs for a method on an object, array or string is invoked (JLS 15.12.4.4).
fn call_found<'a>(
    alloc: Global,
    g: &'a Running<'a>,
    run: &mut Run<'a>,
    method: u32,
    of: Value,
    args: Items<Value>,
) -> Result<Focus<'a>, NoMemory>
    requires { IsReady g.now }
    ensures { Does g.now run.old result run.new (λ p s. valued (found_on p method of s (λ k. invoked p k of args s))) }
{
    match class_of(&run.state, of) {
        None => misfit(alloc, run),
        Some(class) => match found(g, method, class) {
            None => misfit(alloc, run),
            Some(method) => invoke(alloc, g, run, method, of, args),
        },
    }
}

/// An instance method is called: null is tested behind the arguments, and then the class of the object tells which one runs.
pub fn call<'a>(
    alloc: Global,
    g: &'a Running<'a>,
    run: &mut Run<'a>,
    method: u32,
    of: Value,
    args: Items<Value>,
) -> Result<Focus<'a>, NoMemory>
    requires { IsReady g.now }
    ensures { Does g.now run.old result run.new (λ p s. valued (called p method of args s)) }
{
    match of {
        Value::Null => throw_plain(alloc, run, NULL_POINTER_EXCEPTION),
        _ => call_found(alloc, g, run, method, of, args),
    }
}

/// A static method is called: the type that declares it is initialised first.
pub fn call_static<'a>(
    alloc: Global,
    g: &'a Running<'a>,
    run: &mut Run<'a>,
    method: u32,
    args: Items<Value>,
) -> Result<Focus<'a>, NoMemory>
    requires { IsReady g.now }
    ensures { Does g.now run.old result run.new (λ p s. valued (called_static p method args s)) }
{
    match method_owner(g, method) {
        None => misfit(alloc, run),
        Some(owner) => initialise_for(run, owner, ForNothing::StaticCall { method, args }),
    }
}

/// A new object: its class is initialised, it has its number, and the arguments are evaluated before the constructor runs.
pub fn create<'a>(
    alloc: Global,
    g: &'a Running<'a>,
    run: &mut Run<'a>,
    class: Option<u32>,
    constructor: u32,
    args: &'a Items<CoreExpr>,
) -> Result<Focus<'a>, NoMemory>
    requires { IsReady g.now }
    ensures { Does g.now run.old result run.new (λ p s. valued (created p class constructor (values p (plains args.now)) s)) }
{
    match class {
        None => misfit(alloc, run),
        Some(class) => initialise_for(
            run,
            class,
            ForNothing::New {
                class,
                constructor,
                args,
            },
        ),
    }
}

/// The same, where the class is initialised.
pub fn create_ready<'a>(
    alloc: Global,
    g: &'a Running<'a>,
    run: &mut Run<'a>,
    class: u32,
    constructor: u32,
    args: &'a Items<CoreExpr>,
) -> Result<Focus<'a>, NoMemory>
    requires { IsReady g.now }
    ensures { Does g.now run.old result run.new (λ p s. on_nothing p (for_nothing.New class constructor args.entry) s) }
{
    let thing = new_object(alloc, g, class)?;
    let object = add_thing(&mut run.state, thing)?;
    evaluate_all(
        alloc,
        run,
        args,
        ForValues::New {
            object,
            constructor,
        },
    )
}

/// The constructor of a new object runs.
#[tactic(auto, using(run_frames::proofs::Outcomes::then_then))]
pub fn construct<'a>(
    alloc: Global,
    g: &'a Running<'a>,
    run: &mut Run<'a>,
    object: u64,
    constructor: u32,
    args: Items<Value>,
) -> Result<Focus<'a>, NoMemory>
    requires { IsReady g.now }
    ensures { Does g.now run.old result run.new (λ p s. valued (and_then (invoked p constructor (v.Ref object) args s) (λ a s. Gives (v.Ref object) s))) }
{
    let this = Value::Ref(object);
    run.stack.push(Waits::Value(ForValue::Replace(this)))?;
    invoke(alloc, g, run, constructor, this, args)
}

/// What a body answers.
pub fn answer<'a>(alloc: Global, run: &mut Run<'a>, ending: Ending) -> Result<Focus<'a>, NoMemory>
    ensures { Leads run.old result run.new (λ p s. valued (answered ending s)) }
{
    match ending {
        Ending::Goes => Ok(Focus::Gives(Answer::Value(Value::Null))),
        Ending::Breaks | Ending::Continues => misfit(alloc, run),
        Ending::Returns(None) => Ok(Focus::Gives(Answer::Value(Value::Null))),
        Ending::Returns(Some(value)) => Ok(Focus::Gives(Answer::Value(value))),
    }
}

/// A body runs, behind the constructor of the superclass if there is one.
pub fn run_body<'a>(
    alloc: Global,
    run: &mut Run<'a>,
    body: &'a CoreStmt,
) -> Result<Focus<'a>, NoMemory>
    ensures { Leads run.old result run.new (λ p s. valued (ran (stmt p (stmt_plain body.now) s))) }
{
    execute(run, body, ForEnding::Answered)
}
