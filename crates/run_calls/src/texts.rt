//! Strings of values (JLS 15.18.1.1), and what is printed.

ghost use Rattle.std.specs.Prelude.{◌≡◌, ◌++◌, codes, IfOk};
ghost use Rattle.core_meaning.specs.Code as code;
ghost use Rattle.core_meaning.specs.Texts.{hex_units};
ghost use Rattle.core_meaning.specs.Outcome.{and_then, with_int};
ghost use Rattle.core_meaning.specs.Variables.{store};
ghost use Rattle.core_meaning.specs.Members as members;
ghost use Rattle.core_meaning.specs.Members.{new_text, printed, text_of, told};
ghost use Rattle.core_meaning.specs.Expressions.{binary, compounded, joined};
ghost use Rattle.core_meaning.specs.Calls.{answered};
ghost use Rattle.run_frames.specs.Frames.{a_text, valued};
ghost use Rattle.run_frames.specs.Runs.{Leads};
ghost use Rattle.running_code.specs.Running.{IsReady};
ghost use Rattle.run_values.specs.Does.{Does};

use crate::asks::ask_speaking;
use crate::strings::{object_in, refuse};
use crate::table::TO_STRING;
use class_world::JavaType;
use core_meaning::{Value, Variable};
use java_core::Kind;
use java_strings::{
    add_ascii, add_hex, add_printed, add_units, null_units, number_units, truth_units,
};
use java_tree::tree::BinOp;
use java_tree::{Items, NoMemory};
use primitive_operators::as_kind;
use run_frames::{Answer, Focus, ForUnits, ForValue, Run, Waits};
use run_state::reads::units_of;
use run_state::texts::chars_at;
use run_values::{make_text, misfit, operate};
use running_code::Running;
use std::alloc::Global;

/// The string of any value; an object is asked by toString().
#[tactic(auto, using(run_frames::proofs::Outcomes::then_then))]
pub fn text_of<'a>(
    alloc: Global,
    g: &'a Running<'a>,
    run: &mut Run<'a>,
    value: Value,
) -> Result<Focus<'a>, NoMemory>
    requires { IsReady g.now }
    ensures { Does g.now run.old result run.new (λ p s. a_text (text_of p value s)) }
{
    match value {
        Value::Int(z) => Ok(Focus::Gives(Answer::Units(number_units(alloc, i64::from(z))?))),
        Value::Long(z) => Ok(Focus::Gives(Answer::Units(number_units(alloc, z)?))),
        Value::Char(c) => Ok(Focus::Gives(Answer::Units(Items::one(alloc, c)?))),
        Value::Truth(b) => Ok(Focus::Gives(Answer::Units(truth_units(alloc, b)?))),
        Value::Null => told(alloc, run, value),
        Value::Text(_) => told(alloc, run, value),
        Value::Ref(_) => {
            run.stack.push(Waits::Value(ForValue::Told))?;
            ask_speaking(alloc, g, run, TO_STRING, value)
        }
    }
}

/// What toString() answered, as a string.
pub fn told<'a>(alloc: Global, run: &mut Run<'a>, value: Value) -> Result<Focus<'a>, NoMemory>
    ensures { Leads run.old result run.new (λ p s. a_text (told value s)) }
{
    match value {
        Value::Null => Ok(Focus::Gives(Answer::Units(null_units(alloc)?))),
        Value::Text(text) => match units_of(&run.state, text) {
            None => misfit(alloc, run),
            Some(units) => Ok(Focus::Gives(Answer::Units(Items::from_slice(alloc, units)?))),
        },
        _ => misfit(alloc, run),
    }
}

/// The name of a class, `@` and a hash code in hexadecimal.
fn hash_text(name: Items<u16>, hash: i32) -> Result<Items<u16>, NoMemory>
    ensures { IfOk result (λ r. r ≡ name ++ codes "@" ++ hex_units hash) }
{
    let mut units = name;
    units.push(u16::from(b'@'))?;
    add_hex(hash, &mut units)?;
    Ok(units)
}

/// The text of an object whose hashCode() answered this.
pub fn say_hash<'a>(
    alloc: Global,
    run: &mut Run<'a>,
    name: Items<u16>,
    value: Value,
) -> Result<Focus<'a>, NoMemory>
    ensures { Leads run.old result run.new (λ p s. valued (with_int value s (λ z. new_text (name ++ codes "@" ++ hex_units z) s))) }
{
    match value {
        Value::Int(hash) => {
            let units = hash_text(name, hash)?;
            make_text(alloc, run, units)
        }
        _ => misfit(alloc, run),
    }
}

/// The name of a class, and a message behind `: `.
fn message_text(alloc: Global, name: Items<u16>, message: &[u16]) -> Result<Items<u16>, NoMemory>
    ensures { IfOk result (λ r. r ≡ name ++ codes ": " ++ message.now) }
{
    let mut units = name;
    add_ascii(b": ", &mut units)?;
    add_units(alloc, message, &mut units)?;
    Ok(units)
}

/// The text of a throwable whose getMessage() answered this.
pub fn say_message<'a>(
    alloc: Global,
    run: &mut Run<'a>,
    name: Items<u16>,
    value: Value,
) -> Result<Focus<'a>, NoMemory>
    ensures { Leads run.old result run.new (λ p s. valued (members.said name value s)) }
{
    match value {
        Value::Null => make_text(alloc, run, name),
        Value::Text(text) => match units_of(&run.state, text) {
            None => misfit(alloc, run),
            Some(units) => {
                let all = message_text(alloc, name, units)?;
                make_text(alloc, run, all)
            }
        },
        _ => misfit(alloc, run),
    }
}

/// A string is printed.
pub fn print_units<'a>(
    alloc: Global,
    run: &mut Run<'a>,
    line: bool,
    units: Items<u16>,
) -> Result<Focus<'a>, NoMemory>
    ensures { Leads run.old result run.new (λ p s. valued (printed line units s)) }
{
    add_printed(units.as_slice(), &mut run.state.printed)?;
    if line {
        run.state.printed.push(b'\n')?;
    }
    Ok(Focus::Gives(Answer::Value(Value::Null)))
}

/// The characters of an array are printed.
#[tactic(auto, using(crate::proofs::Units::with_reference_by))]
pub(crate) fn print_chars<'a>(
    alloc: Global,
    run: &mut Run<'a>,
    line: bool,
    of: Value,
) -> Result<Focus<'a>, NoMemory>
    ensures { Leads run.old result run.new (λ p s. valued (members.print_chars line of s)) }
{
    match object_in(of) {
        None => refuse(alloc, run, of),
        Some(array) => match chars_at(alloc, &run.state, array)? {
            None => misfit(alloc, run),
            Some(units) => print_units(alloc, run, line, units),
        },
    }
}

/// The string of a value is printed.
#[tactic(auto, using(run_frames::proofs::Outcomes::then_then))]
pub(crate) fn print<'a>(
    alloc: Global,
    g: &'a Running<'a>,
    run: &mut Run<'a>,
    line: bool,
    value: Value,
) -> Result<Focus<'a>, NoMemory>
    requires { IsReady g.now }
    ensures { Does g.now run.old result run.new (λ p s. valued (members.print p line value s)) }
{
    run.stack.push(Waits::Units(ForUnits::Print { line }))?;
    text_of(alloc, g, run, value)
}

/// The two operands of a concatenation, converted from left to right (JLS 15.18.1).
#[tactic(auto, using(run_frames::proofs::Outcomes::then_then))]
pub fn join<'a>(
    alloc: Global,
    g: &'a Running<'a>,
    run: &mut Run<'a>,
    left: Value,
    right: Value,
) -> Result<Focus<'a>, NoMemory>
    requires { IsReady g.now }
    ensures { Does g.now run.old result run.new (λ p s. valued (joined p left right s)) }
{
    run.stack.push(Waits::Units(ForUnits::Left(right)))?;
    text_of(alloc, g, run, left)
}

/// The right operand of a concatenation, whose left one is converted.
#[tactic(auto, using(run_frames::proofs::Outcomes::then_then))]
pub fn join_right<'a>(
    alloc: Global,
    g: &'a Running<'a>,
    run: &mut Run<'a>,
    left: Items<u16>,
    right: Value,
) -> Result<Focus<'a>, NoMemory>
    requires { IsReady g.now }
    ensures { Does g.now run.old result run.new (λ p s. valued (and_then (text_of p right s) (λ ys s. new_text (left ++ ys) s))) }
{
    run.stack.push(Waits::Units(ForUnits::Right(left)))?;
    text_of(alloc, g, run, right)
}

/// The string of both.
pub fn join_units<'a>(
    alloc: Global,
    run: &mut Run<'a>,
    left: Items<u16>,
    right: Items<u16>,
) -> Result<Focus<'a>, NoMemory>
    ensures { Leads run.old result run.new (λ p s. valued (new_text (left ++ right) s)) }
{
    let mut units = left;
    add_units(alloc, right.as_slice(), &mut units)?;
    make_text(alloc, run, units)
}

/// Whether an operator joins strings.
fn is_join_of(op: BinOp, kind: Kind) -> bool
    ensures { result ≡ code.is_join_of op kind }
{
    match op {
        BinOp::Add => matches!(kind, Kind::Text),
        _ => false,
    }
}

/// A binary operator.
pub fn binary<'a>(
    alloc: Global,
    g: &'a Running<'a>,
    run: &mut Run<'a>,
    op: BinOp,
    kind: Kind,
    left: Value,
    right: Value,
) -> Result<Focus<'a>, NoMemory>
    requires { IsReady g.now }
    ensures { Does g.now run.old result run.new (λ p s. valued (binary p op kind left right s)) }
{
    if is_join_of(op, kind) {
        join(alloc, g, run, left, right)
    } else {
        operate(alloc, run, op, left, right)
    }
}

/// A compound assignment, whose operands are evaluated (JLS 15.26.2).
pub fn compound<'a>(
    alloc: Global,
    g: &'a Running<'a>,
    run: &mut Run<'a>,
    op: BinOp,
    kind: Kind,
    ty: &'a JavaType,
    left: Value,
    right: Value,
    to: Variable,
) -> Result<Focus<'a>, NoMemory>
    requires { IsReady g.now }
    ensures { Does g.now run.old result run.new (λ p s. valued (and_then (compounded p op kind ty.now left right s) (λ c s. store p to c s))) }
{
    match as_kind(kind, left) {
        None => misfit(alloc, run),
        Some(left) => {
            run.stack.push(Waits::Value(ForValue::Store(to)))?;
            run.stack.push(Waits::Value(ForValue::Widen(ty)))?;
            binary(alloc, g, run, op, kind, left, right)
        }
    }
}
