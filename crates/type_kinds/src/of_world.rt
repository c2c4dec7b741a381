//! Questions on types of a world (JLS 4.5, 4.10, 5.1.9 and 5.2). A type that is not of it is in no relation.

ghost use Rattle.std.specs.Prelude.{◌≡◌, ◌↔◌, IsTrue, IfOk};
ghost use Rattle.class_world.specs.Types.{IsReference};
ghost use Rattle.class_world.specs.Subtypes.{Fits, IsUnchecked, Subtype};
ghost use Rattle.class_world.specs.Sound.{IsOfWorld, IsSound};
ghost use Rattle.class_world.specs.declared.world.JavaType.TheVariants as ty;
ghost use Rattle.type_kinds.specs.OfWorld.{AreArgs, AreBoth, HasSupers, SuperIs, SuperTold, Takes};

use class_world::{JavaType, World, fits, is_sub, is_unchecked, super_as};
use java_tree::NoMemory;
use std::alloc::Global;

/// Whether a class of the world takes these arguments, or has none (JLS 4.5, 4.8).
fn takes(w: &World, c: u32, args: &[JavaType]) -> bool
    ensures { IsTrue result ↔ Takes w.now c args.now }
{
    match w.types.get(c as usize) {
        None => false,
        Some(info) => args.is_empty() || args.len() == info.params as usize,
    }
}

fn is_null(t: &JavaType) -> bool
    ensures { IsTrue result ↔ (t.now ≡ ty.Null) }
{
    match t {
        JavaType::Null => true,
        _ => false,
    }
}

/// Whether a type is a reference type, the type of null aside (JLS 4.3).
pub fn refers(t: &JavaType) -> bool
    ensures { IsTrue result ↔ IsReference t.now }
{
    match t {
        JavaType::Prim(_) => false,
        JavaType::Null => false,
        JavaType::Class(_, _) => true,
        JavaType::Var(_) => true,
        JavaType::Array(_) => true,
    }
}

/// Whether a type is of the world, whatever type variables are in scope: each of its classes is one of the world, and has no arguments or as many as parameters (JLS 4.5).
#[cycle(of_world)]
pub fn is_of_world(w: &World, t: &JavaType) -> bool
    ensures { IsTrue result ↔ IsOfWorld w.now t.now }
{
    match t {
        JavaType::Prim(_) => true,
        JavaType::Null => true,
        JavaType::Class(c, args) => {
            takes(w, *c, args.as_slice()) && are_args(w, args.as_slice())
        }
        JavaType::Var(_) => true,
        JavaType::Array(x) => !is_null(x.get()) && is_of_world(w, x.get()),
    }
}

#[cycle(of_world)]
fn are_args(w: &World, xs: &[JavaType]) -> bool
    ensures { IsTrue result ↔ AreArgs w.now xs.now }
{
    match xs.split_first() {
        None => true,
        Some((x, xs)) => refers(x) && is_of_world(w, x) && are_args(w, xs),
    }
}

pub(crate) fn are_both(w: &World, s: &JavaType, t: &JavaType) -> bool
    ensures { IsTrue result ↔ AreBoth w.now s.now t.now }
{
    is_of_world(w, s) && is_of_world(w, t)
}

/// Whether both are types of the world, and the first is a subtype of the second (JLS 4.10).
pub fn is_below(w: &World, s: &JavaType, t: &JavaType) -> bool
    requires { IsSound w.now }
    ensures { IsTrue result ↔ (AreBoth w.now s.now t.now × Subtype w.now s.now t.now) }
{
    if are_both(w, s, t) {
        is_sub(w, s, t)
    } else {
        false
    }
}

/// Whether both are types of the world, and a value of the first can be assigned to a variable of the second (JLS 5.2).
pub fn may_assign(w: &World, s: &JavaType, t: &JavaType) -> bool
    requires { IsSound w.now }
    ensures { IsTrue result ↔ (AreBoth w.now s.now t.now × Fits w.now s.now t.now) }
{
    if are_both(w, s, t) {
        fits(w, s, t)
    } else {
        false
    }
}

/// Whether both are types of the world, and the first fits the second by an unchecked conversion alone (JLS 5.1.9).
pub fn is_unchecked_alone(w: &World, s: &JavaType, t: &JavaType) -> bool
    requires { IsSound w.now }
    ensures { IsTrue result ↔ (AreBoth w.now s.now t.now × IsUnchecked w.now s.now t.now) }
{
    if are_both(w, s, t) {
        is_unchecked(w, s, t)
    } else {
        false
    }
}

fn has_supers(w: &World, t: &JavaType) -> bool
    ensures { IsTrue result ↔ HasSupers w.now t.now }
{
    !is_null(t) && is_of_world(w, t)
}

/// The supertype of a type with this class (JLS 4.10.2): `None` where there is none, for null and for a type that is not of the world.
pub fn super_of(
    alloc: Global,
    w: &World,
    t: &JavaType,
    g: u32,
) -> Result<Option<JavaType>, NoMemory>
    requires { IsSound w.now }
    ensures is { IfOk result (λ r. SuperIs w.now t.now g r) }
    ensures told { IfOk result (λ r. SuperTold w.now t.now g r) }
{
    if has_supers(w, t) {
        super_as(alloc, w, t, g)
    } else {
        Ok(None)
    }
}
