//! What each thing that waits does with its answer.

ghost use Rattle.core_meaning.specs.Members.{invoked};
ghost use Rattle.core_meaning.specs.Statements.{done};
ghost use Rattle.run_frames.specs.Frames.{ended, on_ending, on_nothing, on_truth, on_units, on_value, on_values, on_variable};
ghost use Rattle.running_code.specs.Running.{IsReady};
ghost use Rattle.run_values.specs.Does.{Does};

use core_meaning::{Ending, Value, Variable};
use java_tree::{Items, NoMemory};
use run_calls as calls;
use run_expressions as exprs;
use run_frames::{
    Answer, Focus, ForEnding, ForNothing, ForTruth, ForUnits, ForValue, ForValues, ForVariable,
    Run, Waits,
};
use run_statements as stmts;
use run_values as values;
use running_code::Running;
use std::alloc::Global;

/// What waits for a value gets it.
pub(crate) fn give_value<'a>(
    alloc: Global,
    g: &'a Running<'a>,
    run: &mut Run<'a>,
    waits: ForValue<'a>,
    value: Value,
) -> Result<Focus<'a>, NoMemory>
    requires { IsReady g.now }
    ensures { Does g.now run.old result run.new (λ p s. on_value p waits.entry value s) }
{
    match waits {
        ForValue::Widen(ty) => values::fit(alloc, run, ty, value),
        ForValue::Implied(ty) => values::imply(alloc, g, run, ty, value),
        ForValue::Field(field) => values::read(alloc, g, run, Variable::Field { of: value, field }),
        ForValue::Length => values::array_length(alloc, run, value),
        ForValue::IndexOf(at) => exprs::index_of(alloc, g, run, at, value),
        ForValue::IndexAt(of) => values::read(alloc, g, run, Variable::Item { of, at: value }),
        ForValue::CallOf { method, args } => exprs::call_of(alloc, g, run, method, args, value),
        ForValue::Unary(op) => values::apply(alloc, run, op, value),
        ForValue::Cast(ty) => values::cast(alloc, g, run, ty, value),
        ForValue::InstanceOf(ty) => values::test_instance(alloc, g, run, ty, value),
        ForValue::Left { op, kind, right } => exprs::left(alloc, g, run, op, kind, right, value),
        ForValue::Right { op, kind, left } => calls::binary(alloc, g, run, op, kind, left, value),
        ForValue::Logic { both, right } => exprs::logic(alloc, g, run, both, right, value),
        ForValue::Cond { yes, no } => exprs::cond(alloc, g, run, yes, no, value),
        ForValue::Store(to) => values::store(alloc, g, run, to, value),
        ForValue::Step { up, before, to } => {
            values::step_variable(alloc, g, run, up, before, to, value)
        }
        ForValue::Compound {
            op,
            kind,
            ty,
            right,
            to,
        } => exprs::compound_value(alloc, g, run, op, kind, ty, right, to, value),
        ForValue::CompoundRight {
            op,
            kind,
            ty,
            left,
            to,
        } => calls::compound(alloc, g, run, op, kind, ty, left, value, to),
        ForValue::Replace(other) => Ok(Focus::Gives(Answer::Value(other))),
        ForValue::VariableField(field) => {
            Ok(Focus::Gives(Answer::Variable(Variable::Field { of: value, field })))
        }
        ForValue::VariableIndexOf(at) => exprs::variable_index(alloc, g, run, at, value),
        ForValue::VariableIndexAt(of) => {
            Ok(Focus::Gives(Answer::Variable(Variable::Item { of, at: value })))
        }
        ForValue::Drop => Ok(Focus::Gives(Answer::Nothing)),
        ForValue::Argument { done, args, at } => {
            exprs::next_argument(alloc, g, run, done, args, at, value)
        }
        ForValue::Told => calls::told(alloc, run, value),
        ForValue::Hash(name) => calls::say_hash(alloc, run, name, value),
        ForValue::Message(name) => calls::say_message(alloc, run, name, value),
        ForValue::Local(slot) => stmts::local(run, slot, value),
        ForValue::Done => Ok(Focus::Gives(Answer::Ending(Ending::Goes))),
        ForValue::If { yes, no } => stmts::if_else(alloc, run, yes, no, value),
        ForValue::Test => stmts::test(alloc, run, value),
        ForValue::Each {
            slot,
            ty,
            over,
            item,
            implied,
            body,
        } => stmts::each(alloc, g, run, slot, ty, over, item, implied, body, value),
        ForValue::Iterator {
            walk,
            slot,
            ty,
            item,
            implied,
            body,
        } => stmts::iterate(alloc, g, run, walk, slot, ty, item, implied, body, value),
        ForValue::HasNext {
            walk,
            slot,
            ty,
            item,
            implied,
            iterator,
        } => stmts::has_next(
            alloc, g, run, walk, slot, ty, item, implied, iterator, value,
        ),
        ForValue::Next {
            slot,
            ty,
            item,
            implied,
        } => values::take(alloc, g, run, slot, ty, item, implied, value),
        ForValue::Switch(groups) => stmts::switch(alloc, run, groups, value),
        ForValue::Return => Ok(Focus::Gives(Answer::Ending(Ending::Returns(Some(value))))),
        ForValue::Throw => values::throw_value(alloc, run, value),
        ForValue::Filled(field) => calls::fill_field(alloc, g, run, field, value),
        ForValue::Fill => calls::fill(alloc, g, run),
        ForValue::Given(field) => values::give_static(alloc, run, field, value),
    }
}

/// What waits for what gives nothing goes on.
pub(crate) fn give_nothing<'a>(
    alloc: Global,
    g: &'a Running<'a>,
    run: &mut Run<'a>,
    waits: ForNothing<'a>,
) -> Result<Focus<'a>, NoMemory>
    requires { IsReady g.now }
    ensures { Does g.now run.old result run.new (λ p s. on_nothing p waits.entry s) }
{
    match waits {
        ForNothing::StaticField(field) => values::read(alloc, g, run, Variable::Static(field)),
        ForNothing::StaticVariable(field) => {
            Ok(Focus::Gives(Answer::Variable(Variable::Static(field))))
        }
        ForNothing::StaticArgs { method, args } => exprs::static_args(alloc, g, run, method, args),
        ForNothing::ReadStatic(field) => values::read_static(alloc, run, field),
        ForNothing::StoreStatic { field, value } => values::store_static(alloc, run, field, value),
        ForNothing::StaticCall { method, args } => {
            calls::invoke(alloc, g, run, method, Value::Null, args)
        }
        ForNothing::New {
            class,
            constructor,
            args,
        } => calls::create_ready(alloc, g, run, class, constructor, args),
        ForNothing::AllGiven { class, at } => calls::give_from(alloc, g, run, class, at),
    }
}

// Another constructor of the class runs on the object.
fn construct_this<'a>(
    alloc: Global,
    g: &'a Running<'a>,
    run: &mut Run<'a>,
    constructor: u32,
    args: Items<Value>,
) -> Result<Focus<'a>, NoMemory>
    requires { IsReady g.now }
    ensures { Does g.now run.old result run.new (λ p s. ended (done (invoked p constructor s.frame.this args s))) }
{
    let this = run.state.frame.this;
    run.stack.push(Waits::Value(ForValue::Done))?;
    calls::invoke(alloc, g, run, constructor, this, args)
}

/// What waits for arguments gets them.
pub(crate) fn give_values<'a>(
    alloc: Global,
    g: &'a Running<'a>,
    run: &mut Run<'a>,
    waits: ForValues<'a>,
    args: Items<Value>,
) -> Result<Focus<'a>, NoMemory>
    requires { IsReady g.now }
    ensures { Does g.now run.old result run.new (λ p s. on_values p waits.entry args s) }
{
    match waits {
        ForValues::Call { of, method } => calls::call(alloc, g, run, method, of, args),
        ForValues::SuperCall(method) => {
            let this = run.state.frame.this;
            calls::invoke(alloc, g, run, method, this, args)
        }
        ForValues::StaticCall(method) => calls::call_static(alloc, g, run, method, args),
        ForValues::New {
            object,
            constructor,
        } => calls::construct(alloc, g, run, object, constructor, args),
        ForValues::Sizes(ty) => values::make_arrays(alloc, run, ty, args),
        ForValues::Filled { array, element } => values::end_array(alloc, run, array, element, args),
        ForValues::Done => Ok(Focus::Gives(Answer::Ending(Ending::Goes))),
        ForValues::ThisCall(constructor) => construct_this(alloc, g, run, constructor, args),
        ForValues::SuperFirst(constructor) => calls::begin(alloc, g, run, constructor, args),
    }
}

/// What waits for a variable gets it.
pub(crate) fn give_variable<'a>(
    alloc: Global,
    g: &'a Running<'a>,
    run: &mut Run<'a>,
    waits: ForVariable<'a>,
    to: Variable,
) -> Result<Focus<'a>, NoMemory>
    requires { IsReady g.now }
    ensures { Does g.now run.old result run.new (λ p s. on_variable p waits.entry to s) }
{
    match waits {
        ForVariable::Assign(from) => exprs::assign(alloc, g, run, from, to),
        ForVariable::Step { up, before, of } => exprs::step(alloc, g, run, up, before, of, to),
        ForVariable::Compound {
            op,
            kind,
            ty,
            of,
            right,
        } => exprs::compound(alloc, g, run, op, kind, ty, of, right, to),
    }
}

/// What waits for the string of a value gets it.
pub(crate) fn give_units<'a>(
    alloc: Global,
    g: &'a Running<'a>,
    run: &mut Run<'a>,
    waits: ForUnits,
    units: Items<u16>,
) -> Result<Focus<'a>, NoMemory>
    requires { IsReady g.now }
    ensures { Does g.now run.old result run.new (λ p s. on_units p waits units s) }
{
    match waits {
        ForUnits::Left(right) => calls::join_right(alloc, g, run, units, right),
        ForUnits::Right(left) => calls::join_units(alloc, run, left, units),
        ForUnits::Print { line } => calls::print_units(alloc, run, line, units),
    }
}

/// What waits for a test gets what it says.
pub(crate) fn give_truth<'a>(
    alloc: Global,
    g: &'a Running<'a>,
    run: &mut Run<'a>,
    waits: ForTruth<'a>,
    holds: bool,
) -> Result<Focus<'a>, NoMemory>
    requires { IsReady g.now }
    ensures { Does g.now run.old result run.new (λ p s. on_truth p waits.entry holds s) }
{
    match waits {
        ForTruth::Loop { turns, turn, of } => stmts::loop_body(run, turns, turn, of, holds),
        ForTruth::Do { turns, body, test } => stmts::do_again(run, turns, body, test, holds),
    }
}

/// What waits for the end of a statement gets it.
pub(crate) fn give_ending<'a>(
    alloc: Global,
    g: &'a Running<'a>,
    run: &mut Run<'a>,
    waits: ForEnding<'a>,
    ending: Ending,
) -> Result<Focus<'a>, NoMemory>
    requires { IsReady g.now }
    ensures { Does g.now run.old result run.new (λ p s. on_ending p waits.entry ending s) }
{
    match waits {
        ForEnding::Then { stmts, at } => stmts::stmts_after(run, stmts, at, ending),
        ForEnding::Locals { vars, at } => stmts::locals_from(run, vars, at),
        ForEnding::Loop { turns, turn, of } => {
            stmts::after_body(alloc, g, run, turns, turn, of, ending)
        }
        ForEnding::Do { turns, body, test } => stmts::after_do(run, turns, body, test, ending),
        ForEnding::Updates(step) => stmts::updates(alloc, run, step, ending),
        ForEnding::Initial(of) => stmts::begin_loop(alloc, g, run, of),
        ForEnding::Switch => stmts::switch_after(run, ending),
        ForEnding::Groups { groups, at } => stmts::groups_after(run, groups, at, ending),
        ForEnding::Fill { class, at } => calls::fill_from(alloc, g, run, class, at),
        ForEnding::Body(body) => calls::run_body(alloc, run, body),
        ForEnding::Answered => calls::answer(alloc, run, ending),
        ForEnding::After(saved) => stmts::after_finally(run, saved, ending),
    }
}
