//! What operators make, and new strings and arrays.

ghost use Rattle.std.specs.Prelude.{◌≡◌, codes, int_lt, length, map, pos, unsigned_abs, IfOk, OnOk};
ghost use Rattle.std.specs.List.{find};
ghost use Rattle.type_kinds.specs.Kinds.{element};
ghost use Rattle.java_core.specs.View.{plains};
ghost use Rattle.core_meaning.specs.declared.values.Value.TheVariants as v;
ghost use Rattle.core_meaning.specs.State.{with_array};
ghost use Rattle.core_meaning.specs.Numbers.{operated, prefixed};
ghost use Rattle.core_meaning.specs.Outcome.{Gives, with_made, with_some};
ghost use Rattle.core_meaning.specs.Members.{literal, new_text};
ghost use Rattle.core_meaning.specs.Expressions.{array_with, arrays_of, count, ints_of as ints_among, sized, values};
ghost use Rattle.run_frames.specs.declared.focus.Answer.TheVariants as an;
ghost use Rattle.run_frames.specs.Frames.{valued};
ghost use Rattle.run_frames.specs.Runs.{Leads};
ghost use Rattle.running_code.specs.Running.{IsReady};
ghost use Rattle.run_values.specs.Arrays.{filled, made_of, with_firsts};
ghost use Rattle.run_values.specs.Does.{Does};

use crate::throws::{ARITHMETIC, NEGATIVE_ARRAY_SIZE, give, misfit, throw_number, throw_saying};
use class_world::{JavaType, copied};
use core_meaning::{Made, Thing, Value};
use java_core::CoreExpr;
use java_strings::add_ascii;
use java_tree::tree::{BinOp, UnOp};
use java_tree::{Items, NoMemory};
use primitive_operators::{operated, prefixed};
use run_frames::run::evaluate_all;
use run_frames::{Answer, Focus, ForValues, Run};
use run_state::arrays::{self, default_value};
use run_state::changes::set_array;
use run_state::heap::{add_text, add_thing};
use run_state::{Stop, texts};
use running_code::Running;
use std::alloc::Global;
use type_kinds::kinds::element;

/// A prefix operator (JLS 15.15.3 to 15.15.6).
pub fn apply<'a>(
    alloc: Global,
    run: &mut Run<'a>,
    op: UnOp,
    value: Value,
) -> Result<Focus<'a>, NoMemory>
    ensures { Leads run.old result run.new (λ p s. valued (with_some (prefixed op value) s (λ b. Gives b s))) }
{
    give(alloc, run, prefixed(op, value))
}

fn by_zero(alloc: Global) -> Result<Items<u16>, NoMemory>
    ensures { IfOk result (λ r. r ≡ codes "/ by zero") }
{
    let mut units = Items::new(alloc);
    add_ascii(b"/ by zero", &mut units)?;
    Ok(units)
}

/// A binary operator on two values that are no strings to be joined.
pub fn operate<'a>(
    alloc: Global,
    run: &mut Run<'a>,
    op: BinOp,
    left: Value,
    right: Value,
) -> Result<Focus<'a>, NoMemory>
    ensures { Leads run.old result run.new (λ p s. valued (with_made (operated op left right) s (λ c. Gives c s))) }
{
    match operated(op, left, right) {
        Made::Makes(value) => Ok(Focus::Gives(Answer::Value(value))),
        Made::ByZero => {
            let units = by_zero(alloc)?;
            throw_saying(alloc, run, ARITHMETIC, units)
        }
        Made::NoRule => misfit(alloc, run),
    }
}

/// A new string.
pub fn make_text<'a>(
    alloc: Global,
    run: &mut Run<'a>,
    units: Items<u16>,
) -> Result<Focus<'a>, NoMemory>
    ensures { Leads run.old result run.new (λ p s. valued (new_text units s)) }
{
    let text = add_text(&mut run.state, units)?;
    Ok(Focus::Gives(Answer::Value(Value::Text(text))))
}

/// The string of a literal (JLS 3.10.5).
pub fn make_literal<'a>(
    alloc: Global,
    run: &mut Run<'a>,
    units: &[u16],
) -> Result<Focus<'a>, NoMemory>
    ensures { Leads run.old result run.new (λ p s. valued (literal units.now s)) }
{
    let text = texts::literal(alloc, &mut run.state, units)?;
    Ok(Focus::Gives(Answer::Value(Value::Text(text))))
}

fn ints_of(alloc: Global, values: &[Value]) -> Result<Option<Items<i32>>, NoMemory>
    ensures { IfOk result (λ r. r ≡ ints_among values.now) }
{
    let mut ints = Items::new(alloc);
    for value in values {
        match value {
            Value::Int(z) => ints.push(*z)?,
            _ => return Ok(None),
        }
    }
    Ok(Some(ints))
}

fn first_negative(ints: &[i32]) -> Option<i32>
    ensures { result ≡ find (λ z. int_lt z (pos 0)) ints.now }
{
    ints.iter().copied().find(|z| *z < 0)
}

fn sizes_of(alloc: Global, ints: &[i32]) -> Result<Items<usize>, NoMemory>
    ensures { IfOk result (λ r. r ≡ map unsigned_abs ints.now) }
{
    let mut sizes = Items::new(alloc);
    for z in ints {
        sizes.push(z.unsigned_abs() as usize)?;
    }
    Ok(sizes)
}

fn make_all<'a>(
    alloc: Global,
    run: &mut Run<'a>,
    ty: &JavaType,
    sizes: &[usize],
) -> Result<Focus<'a>, NoMemory>
    ensures { Leads run.old result run.new (λ p s. valued (arrays_of sizes.now ty.now s)) }
{
    match arrays::arrays_of(alloc, &mut run.state, sizes, ty) {
        Ok(value) => Ok(Focus::Gives(Answer::Value(value))),
        Err(Stop::Threw(thrown)) => Ok(Focus::Threw(thrown)),
        Err(Stop::Bound) => Ok(Focus::AtBound),
        Err(Stop::NoMemory) => Err(NoMemory),
    }
}

fn make_sized<'a>(
    alloc: Global,
    run: &mut Run<'a>,
    ty: &JavaType,
    ints: &[i32],
) -> Result<Focus<'a>, NoMemory>
    ensures { Leads run.old result run.new (λ p s. valued (made_of ints.now ty.now s)) }
{
    match first_negative(ints) {
        Some(size) => throw_number(alloc, run, NEGATIVE_ARRAY_SIZE, size),
        None => {
            let sizes = sizes_of(alloc, ints)?;
            make_all(alloc, run, ty, sizes.as_slice())
        }
    }
}

/// Arrays of these sizes (JLS 15.10).
pub fn make_arrays<'a>(
    alloc: Global,
    run: &mut Run<'a>,
    ty: &JavaType,
    sizes: Items<Value>,
) -> Result<Focus<'a>, NoMemory>
    ensures { Leads run.old result run.new (λ p s. valued (sized ty.now sizes s)) }
{
    match ints_of(alloc, sizes.as_slice())? {
        None => misfit(alloc, run),
        Some(ints) => make_sized(alloc, run, ty, ints.as_slice()),
    }
}

/// A new array of first values, and its number.
fn add_array(
    alloc: Global,
    run: &mut Run<'_>,
    element: &JavaType,
    count: usize,
) -> Result<u64, NoMemory>
    ensures number { IfOk result (λ r. r ≡ length run.old.state.heap) }
    ensures after { OnOk result (run.new ≡ with_firsts count element.now run.old) }
{
    let items = Items::from_vec(vec![in alloc; default_value(element); count]?);
    let element = copied(alloc, element)?;
    add_thing(&mut run.state, Thing::Array { element, items })
}

fn fill_with<'a>(
    alloc: Global,
    run: &mut Run<'a>,
    element: &'a JavaType,
    items: &'a Items<CoreExpr>,
) -> Result<Focus<'a>, NoMemory>
    ensures { Leads run.old result run.new (λ p s. valued (filled p element.now items.now s)) }
{
    let array = add_array(alloc, run, element, items.len())?;
    evaluate_all(alloc, run, items, ForValues::Filled { array, element })
}

/// An array of these items (JLS 10.6): it has its number before they are evaluated.
pub fn fill_array<'a>(
    alloc: Global,
    g: &'a Running<'a>,
    run: &mut Run<'a>,
    ty: &'a JavaType,
    items: &'a Items<CoreExpr>,
) -> Result<Focus<'a>, NoMemory>
    requires { IsReady g.now }
    ensures { Does g.now run.old result run.new (λ p s. valued (with_some (element ty.now) s (λ u. array_with u (count (plains items.now)) (values p (plains items.now)) s))) }
{
    match element(ty) {
        None => misfit(alloc, run),
        Some(element) => fill_with(alloc, run, element, items),
    }
}

/// An array has its items.
pub fn end_array<'a>(
    alloc: Global,
    run: &mut Run<'a>,
    array: u64,
    element: &JavaType,
    items: Items<Value>,
) -> Result<Focus<'a>, NoMemory>
    ensures { Leads run.old result run.new (λ p s. Gives (an.Value (v.Ref array)) (with_array array element.now items s)) }
{
    let element = copied(alloc, element)?;
    set_array(&mut run.state, array, element, items);
    Ok(Focus::Gives(Answer::Value(Value::Ref(array))))
}
