//! How constructors begin (JLS 8.8.7, 12.5), and the initialisation of types (12.4.2).

ghost use Rattle.std.specs.Prelude.{drop};
ghost use Rattle.core_meaning.specs.declared.values.Variable.TheVariants as var;
ghost use Rattle.core_meaning.specs.Outcome.{Gives, Threw};
ghost use Rattle.java_core.specs.View.{field_plain};
ghost use Rattle.core_meaning.specs.Code as code;
ghost use Rattle.core_meaning.specs.Code.{class_at, class_fields};
ghost use Rattle.core_meaning.specs.Variables.{store};
ghost use Rattle.core_meaning.specs.Statements.{all_filled, begun, done};
ghost use Rattle.core_meaning.specs.Calls.{all_given, failed, initialised, place_at, settled};
ghost use Rattle.run_frames.specs.Frames.{ended, nothing};
ghost use Rattle.run_frames.specs.Runs.{Leads};
ghost use Rattle.running_code.specs.Running.{IsReady};
ghost use Rattle.run_values.specs.Does.{Does};
ghost use Rattle.run_calls.specs.Opened.{filled_one, given_behind, given_one, started_from};

use crate::bodies::open_frame;
use crate::calls::invoke;
use crate::table::{ERROR, EXCEPTION_IN_INITIALIZER_ERROR, NO_CLASS_DEF_FOUND_ERROR};
use class_world::JavaType;
use core_meaning::{Ending, Frame, Progress, Value, Variable};
use java_core::CoreField;
use java_tree::{Items, NoMemory};
use run_frames::run::{evaluate, initialise_for};
use run_frames::{Answer, Focus, ForEnding, ForNothing, ForValue, Run, Waits};
use run_state::changes::set_progress;
use run_state::reads::{progress_of, thing_at};
use run_values::{misfit, store, throw_plain};
use running_code::{
    Running, fields_of, has_initialiser, is_instance_field, superclass, thing_is_below,
};
use std::alloc::Global;

/// The constructor of the superclass runs, and behind it the initialisers of the class.
#[tactic(auto, using(run_frames::proofs::Outcomes::then_then))]
pub fn begin<'a>(
    alloc: Global,
    g: &'a Running<'a>,
    run: &mut Run<'a>,
    constructor: u32,
    args: Items<Value>,
) -> Result<Focus<'a>, NoMemory>
    requires { IsReady g.now }
    ensures { Does g.now run.old result run.new (λ p s. ended (begun p constructor args s)) }
{
    run.stack.push(Waits::Value(ForValue::Fill))?;
    let this = run.state.frame.this;
    invoke(alloc, g, run, constructor, this, args)
}

/// An instance field is filled, if it has an initialiser.
fn fill_one<'a>(
    g: &'a Running<'a>,
    run: &mut Run<'a>,
    field: &'a CoreField,
) -> Result<Focus<'a>, NoMemory>
    requires { IsReady g.now }
    ensures { Does g.now run.old result run.new (λ p s. ended (filled_one p (field_plain field.now) s)) }
{
    if !is_instance_field(g, field.field) {
        return Ok(Focus::Gives(Answer::Ending(Ending::Goes)));
    }
    match &field.init {
        None => Ok(Focus::Gives(Answer::Ending(Ending::Goes))),
        Some(x) => evaluate(run, x, ForValue::Filled(field.field)),
    }
}

/// The initialisers of the instance fields of the class whose constructor runs.
pub fn fill<'a>(alloc: Global, g: &'a Running<'a>, run: &mut Run<'a>) -> Result<Focus<'a>, NoMemory>
    requires { IsReady g.now }
    ensures { Does g.now run.old result run.new (λ p s. ended (all_filled p (class_fields (class_at p.code p.class)) s)) }
{
    let class = run.class;
    fill_from(alloc, g, run, class, 0)
}

/// The same of a class, from a place on.
#[tactic(auto, using(crate::proofs::Fields::none_filled))]
pub fn fill_from<'a>(
    alloc: Global,
    g: &'a Running<'a>,
    run: &mut Run<'a>,
    class: u32,
    at: usize,
) -> Result<Focus<'a>, NoMemory>
    requires { IsReady g.now }
    ensures { Does g.now run.old result run.new (λ p s. ended (all_filled p (drop at (class_fields (class_at p.code class))) s)) }
{
    match fields_of(g, class).get(at) {
        None => Ok(Focus::Gives(Answer::Ending(Ending::Goes))),
        Some(field) => {
            run.stack
                .push(Waits::Ending(ForEnding::Fill { class, at: at + 1 }))?;
            fill_one(g, run, field)
        }
    }
}

/// An instance field takes the value of its initialiser.
#[tactic(auto, using(run_frames::proofs::Outcomes::then_then))]
pub fn fill_field<'a>(
    alloc: Global,
    g: &'a Running<'a>,
    run: &mut Run<'a>,
    field: u32,
    value: Value,
) -> Result<Focus<'a>, NoMemory>
    requires { IsReady g.now }
    ensures { Does g.now run.old result run.new (λ p s. ended (done (store p (var.Field s.frame.this field) value s))) }
{
    run.stack.push(Waits::Value(ForValue::Done))?;
    let of = run.state.frame.this;
    store(alloc, g, run, Variable::Field { of, field }, value)
}

/// A static field takes the value of its initialiser, if it has one and is no constant field.
fn give_one<'a>(
    g: &'a Running<'a>,
    run: &mut Run<'a>,
    field: &'a CoreField,
) -> Result<Focus<'a>, NoMemory>
    requires { IsReady g.now }
    ensures { Does g.now run.old result run.new (λ p s. nothing (given_one p (field_plain field.now) s)) }
{
    if !has_initialiser(g, field.field) {
        return Ok(Focus::Gives(Answer::Nothing));
    }
    match &field.init {
        None => Ok(Focus::Gives(Answer::Nothing)),
        Some(x) => evaluate(run, x, ForValue::Given(field.field)),
    }
}

/// The initialisers of the static fields of a type, from a place on.
#[tactic(auto, using(crate::proofs::Fields::none_given))]
pub fn give_from<'a>(
    alloc: Global,
    g: &'a Running<'a>,
    run: &mut Run<'a>,
    class: u32,
    at: usize,
) -> Result<Focus<'a>, NoMemory>
    requires { IsReady g.now }
    ensures { Does g.now run.old result run.new (λ p s. nothing (all_given p (drop at (class_fields (class_at p.code class))) s)) }
{
    match fields_of(g, class).get(at) {
        None => Ok(Focus::Gives(Answer::Nothing)),
        Some(field) => {
            run.stack
                .push(Waits::Nothing(ForNothing::AllGiven { class, at: at + 1 }))?;
            give_one(g, run, field)
        }
    }
}

/// The superclass is initialised, and then the type's own initialisers run.
fn initialise_above<'a>(
    alloc: Global,
    g: &'a Running<'a>,
    run: &mut Run<'a>,
    class: u32,
) -> Result<Focus<'a>, NoMemory>
    requires { IsReady g.now }
    ensures { Does g.now run.old result run.new (λ p s. nothing (given_behind p (code.superclass p.code.world class) class s)) }
{
    match superclass(g, class) {
        None => give_from(alloc, g, run, class, 0),
        Some(above) => initialise_for(run, above, ForNothing::AllGiven { class, at: 0 }),
    }
}

/// The initialisers of a type run in a frame of their own.
fn start_deeper<'a>(
    alloc: Global,
    g: &'a Running<'a>,
    run: &mut Run<'a>,
    depth: u64,
    class: u32,
) -> Result<Focus<'a>, NoMemory>
    requires { IsReady g.now }
    ensures { Does g.now run.old result run.new (λ p s. nothing (initialised (place_at p.code depth class) class s)) }
{
    set_progress(&mut run.state, class, Progress::Running);
    run.stack.push(Waits::Settle(class))?;
    let slots = Items::new(alloc);
    let this = Value::Null;
    open_frame(run, depth, Frame { this, slots }, class)?;
    initialise_above(alloc, g, run, class)
}

/// The same, where one more initialisation may be open.
#[tactic(auto, using(crate::proofs::Frames::started_less))]
fn start<'a>(
    alloc: Global,
    g: &'a Running<'a>,
    run: &mut Run<'a>,
    class: u32,
) -> Result<Focus<'a>, NoMemory>
    requires { IsReady g.now }
    ensures { Does g.now run.old result run.new (λ p s. nothing (started_from p.code run.old.depth class s)) }
{
    if run.depth == 0 {
        return Ok(Focus::AtBound);
    }
    start_deeper(alloc, g, run, run.depth - 1, class)
}

/// A type is initialised, where it is untouched.
#[tactic(auto, using(crate::proofs::Frames::initialise_from))]
pub fn initialise<'a>(
    alloc: Global,
    g: &'a Running<'a>,
    run: &mut Run<'a>,
    class: u32,
) -> Result<Focus<'a>, NoMemory>
    requires { IsReady g.now }
    ensures { Does g.now run.old result run.new (λ p s. nothing (p.initialise class s)) }
{
    match progress_of(&run.state, class) {
        None => misfit(alloc, run),
        Some(Progress::Untouched) => start(alloc, g, run, class),
        Some(Progress::Running) => Ok(Focus::Gives(Answer::Nothing)),
        Some(Progress::Done) => Ok(Focus::Gives(Answer::Nothing)),
        Some(Progress::Failed) => throw_plain(alloc, run, NO_CLASS_DEF_FOUND_ERROR),
    }
}

/// The initialisation of a type has ended.
pub fn settle<'a>(alloc: Global, run: &mut Run<'a>, class: u32) -> Result<Focus<'a>, NoMemory>
    ensures { Leads run.old result run.new (λ p s. nothing (settled p class (Gives tt s))) }
{
    set_progress(&mut run.state, class, Progress::Done);
    Ok(Focus::Gives(Answer::Nothing))
}

/// What an initialiser has thrown is thrown on where it is below Error, and else replaced.
fn throw_on<'a>(
    alloc: Global,
    g: &'a Running<'a>,
    run: &mut Run<'a>,
    thrown: u64,
) -> Result<Focus<'a>, NoMemory>
    requires { IsReady g.now }
    ensures { Does g.now run.old result run.new (λ p s. nothing (failed p thrown s)) }
{
    match thing_at(&run.state, thrown) {
        None => misfit(alloc, run),
        Some(thing) => {
            let error = JavaType::Class(ERROR, Items::new(alloc));
            if thing_is_below(alloc, g, thing, &error)? {
                Ok(Focus::Threw(thrown))
            } else {
                throw_plain(alloc, run, EXCEPTION_IN_INITIALIZER_ERROR)
            }
        }
    }
}

/// The initialisation of a type has thrown.
pub fn fail<'a>(
    alloc: Global,
    g: &'a Running<'a>,
    run: &mut Run<'a>,
    class: u32,
    thrown: u64,
) -> Result<Focus<'a>, NoMemory>
    requires { IsReady g.now }
    ensures { Does g.now run.old result run.new (λ p s. nothing (settled p class (Threw thrown s))) }
{
    set_progress(&mut run.state, class, Progress::Failed);
    throw_on(alloc, g, run, thrown)
}
