//! Unchecked casts (JLS 5.5).

ghost use Rattle.std.specs.Prelude.{◌≡◌, ◌↔◌, IsTrue, IfOk, ℕ, length, map};
ghost use Rattle.class_world.specs.Sound.{IsOfWorld, IsSound};
ghost use Rattle.class_world.specs.Subtypes.{IsSuperAs};
ghost use Rattle.class_world.specs.Types.{with_own};
ghost use Rattle.class_world.specs.declared.world.JavaType.TheVariants as ty;
ghost use Rattle.type_kinds.specs.OfWorld.{AreBoth, HasSupers};
ghost use Rattle.unchecked_ops.specs.Bases.{BaseIs, HasArgs, HasParams, IsLed};
ghost use Rattle.unchecked_ops.specs.Casting.{Determines, DeterminesBy, Hold, IsToArguments, IsUncheckedCast};
ghost use Rattle.unchecked_ops.specs.Casting as spec;

use class_world::{JavaType, World, is_put};
use java_tree::{Items, NoMemory};
use std::alloc::Global;
use type_kinds::of_world::{is_below, is_of_world, super_of};

/// Whether a type variable stands in a type.
#[cycle(occurs)]
fn occurs(k: u32, t: &JavaType) -> bool
    ensures { result ≡ spec.occurs k t.now }
{
    match t {
        JavaType::Prim(_) => false,
        JavaType::Null => false,
        JavaType::Class(_, args) => occurs_in(k, args.as_slice()),
        JavaType::Var(j) => *j == k,
        JavaType::Array(x) => occurs(k, x.get()),
    }
}

#[cycle(occurs)]
fn occurs_in(k: u32, ts: &[JavaType]) -> bool
    ensures { result ≡ spec.some (map (spec.occurs k) ts.now) }
{
    match ts.split_first() {
        None => false,
        Some((t, ts)) => occurs(k, t) || occurs_in(k, ts),
    }
}

/// Whether a type is a type variable, or an array of one at any depth.
fn is_of_variable(t: &JavaType) -> bool
    ensures { result ≡ spec.is_of_variable t.now }
{
    match t {
        JavaType::Prim(_) => false,
        JavaType::Null => false,
        JavaType::Class(_, _) => false,
        JavaType::Var(_) => true,
        JavaType::Array(x) => is_of_variable(x.get()),
    }
}

/// Whether the first type variables stand in a type.
fn holds(n: u32, t: &JavaType) -> bool
    ensures { IsTrue result ↔ Hold n t.now }
{
    for k in 0..n {
        if !occurs(k, t) {
            return false;
        }
    }
    true
}

/// A class with its own variables as arguments.
pub(crate) fn own_type(alloc: Global, g: u32, n: u32) -> Result<JavaType, NoMemory>
    ensures { IfOk result (λ r. r ≡ with_own g n) }
{
    let mut vars = Items::new(alloc);
    for k in 0..n {
        vars.push(JavaType::Var(k))?;
    }
    Ok(JavaType::Class(g, vars))
}

fn has_args(t: &JavaType) -> bool
    ensures { IsTrue result ↔ HasArgs t.now }
{
    match t {
        JavaType::Class(_, args) => !args.is_empty(),
        _ => false,
    }
}

fn parameterization(t: Option<JavaType>) -> Option<JavaType>
    ensures { (w : World) (s : JavaType) (h : ℕ) → IsSuperAs w s h t → BaseIs w s h result }
{
    match t {
        None => None,
        Some(t) => { if has_args(&t) { Some(t) } else { None } }
    }
}

/// The parameterization of a class that is above a type (JLS 4.10.2).
fn base_of(alloc: Global, w: &World, t: &JavaType, h: u32) -> Result<Option<JavaType>, NoMemory>
    requires sound { IsSound w.now }
    requires ty { HasSupers w.now t.now }
    ensures { IfOk result (λ r. BaseIs w.now t.now h r) }
{
    Ok(parameterization(super_of(alloc, w, t, h)?))
}

/// Whether the form of a class's n variables, with arguments put for them, is what stands above the operand, and no variable is missing there.
fn is_led(above: &Option<JavaType>, form: &Option<JavaType>, n: u32, args: &[JavaType]) -> bool
    ensures { IsTrue result ↔ IsLed above.now form.now n args.now }
{
    match above {
        None => false,
        Some(above) => match form {
            None => false,
            Some(form) => holds(n, form) && is_put(args, form, above),
        },
    }
}

/// Whether an operand's type determines the arguments of a target of the class `g` by the class `h`.
fn determines_by(
    alloc: Global,
    w: &World,
    s: &JavaType,
    own: &JavaType,
    n: u32,
    args: &[JavaType],
    h: u32,
) -> Result<bool, NoMemory>
    requires sound { IsSound w.now }
    requires operand { HasSupers w.now s.now }
    requires own { HasSupers w.now own.now }
    ensures { (g : ℕ) → HasParams w.now g n → own.now ≡ with_own g n → IfOk result (λ r. IsTrue r ↔ DeterminesBy w.now s.now g args.now h) }
{
    let above = base_of(alloc, w, s, h)?;
    let form = base_of(alloc, w, own, h)?;
    Ok(is_led(&above, &form, n, args))
}

/// How many types there are; more than 32 bits can number do not fit in memory.
fn type_count(w: &World) -> Result<u32, NoMemory>
    ensures { IfOk result (λ n. n ≡ length w.now.types) }
{
    match u32::try_from(w.types.len()) {
        Ok(n) => Ok(n),
        Err(_) => Err(NoMemory),
    }
}

fn some_determines(
    alloc: Global,
    w: &World,
    s: &JavaType,
    own: &JavaType,
    g: u32,
    n: u32,
    args: &[JavaType],
) -> Result<bool, NoMemory>
    requires sound { IsSound w.now }
    requires operand { HasSupers w.now s.now }
    requires known { HasParams w.now g n }
    requires own { own.now ≡ with_own g n }
    ensures { IfOk result (λ r. IsTrue r ↔ Determines w.now s.now g args.now) }
{
    let count = type_count(w)?;
    for h in 0..count {
        if determines_by(alloc, w, s, own, n, args, h)? {
            return Ok(true);
        }
    }
    Ok(false)
}

fn is_determined(
    alloc: Global,
    w: &World,
    s: &JavaType,
    g: u32,
    n: u32,
    args: &[JavaType],
) -> Result<bool, NoMemory>
    requires sound { IsSound w.now }
    requires operand { HasSupers w.now s.now }
    requires known { HasParams w.now g n }
    ensures { IfOk result (λ r. IsTrue r ↔ Determines w.now s.now g args.now) }
{
    let own = own_type(alloc, g, n)?;
    some_determines(alloc, w, s, &own, g, n, args)
}

/// Whether an operand's type determines the arguments of a target of the class `g`.
fn determines(
    alloc: Global,
    w: &World,
    s: &JavaType,
    g: u32,
    args: &[JavaType],
) -> Result<bool, NoMemory>
    requires sound { IsSound w.now }
    requires operand { HasSupers w.now s.now }
    ensures { IfOk result (λ r. IsTrue r ↔ Determines w.now s.now g args.now) }
{
    match w.types.get(g as usize) {
        None => Ok(false),
        Some(info) => is_determined(alloc, w, s, g, info.params, args),
    }
}

fn is_null(t: &JavaType) -> bool
    ensures { IsTrue result ↔ (t.now ≡ ty.Null) }
{
    match t {
        JavaType::Null => true,
        _ => false,
    }
}

/// Whether a cast to a class type with arguments is unchecked.
fn is_to_arguments(alloc: Global, w: &World, s: &JavaType, t: &JavaType) -> Result<bool, NoMemory>
    requires sound { IsSound w.now }
    requires operand { IsOfWorld w.now s.now }
    ensures { IfOk result (λ r. IsTrue r ↔ IsToArguments w.now s.now t.now) }
{
    if is_null(s) {
        return Ok(false);
    }
    match t {
        JavaType::Class(g, args) => {
            if args.is_empty() {
                return Ok(false);
            }
            Ok(!determines(alloc, w, s, *g, args.as_slice())?)
        }
        _ => Ok(false),
    }
}

/// Whether both are types of the world, and a cast of a value of the first to the second is unchecked (JLS 5.5, more narrowly than there).
pub fn is_unchecked_cast(
    alloc: Global,
    w: &World,
    s: &JavaType,
    t: &JavaType,
) -> Result<bool, NoMemory>
    requires { IsSound w.now }
    ensures { IfOk result (λ r. IsTrue r ↔ (AreBoth w.now s.now t.now × IsUncheckedCast w.now s.now t.now)) }
{
    if !is_of_world(w, s) {
        return Ok(false);
    }
    if !is_of_world(w, t) {
        return Ok(false);
    }
    if is_of_variable(t) {
        return Ok(!is_below(w, s, t));
    }
    is_to_arguments(alloc, w, s, t)
}
