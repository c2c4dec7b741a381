//! Classes of exceptions, by number (JLS 11.2).

ghost use Rattle.std.specs.Prelude.{◌≡◌, ◌++◌, Bool, IfOk, OnOk, Some};
ghost use Rattle.class_world.specs.Sound.{IsSound};
ghost use Rattle.class_world.specs.declared.world.JavaType.{JavaType};
ghost use Rattle.type_kinds.specs.Kinds.{class_number as number_of};
ghost use Rattle.type_kinds.specs.Members.{method_at};
ghost use Rattle.thrown_exceptions.specs.Thrown as spec;
ghost use Rattle.thrown_exceptions.specs.Thrown.{IsOrder};

use crate::state::{Raised, State};
use class_world::{JavaType, World};
use java_tree::tree::Node;
use java_tree::{Items, NoMemory};
use std::alloc::Global;
use type_kinds::kinds::class_number;
use type_kinds::of_world;

// The numbers of the built-in classes that the rules name.
pub(crate) const THROWABLE: u32 = 4;

pub(crate) const EXCEPTION: u32 = 5;

const ERROR: u32 = 6;

const RUNTIME_EXCEPTION: u32 = 7;

/// Whether a class is another one or below it (JLS 4.10.2).
pub(crate) fn is_below(alloc: Global, w: &World, c: u32, d: u32) -> bool
    requires { IsSound w.now }
    ensures { (below : JavaType → JavaType → Bool) → IsOrder w.now below → result ≡ spec.is_below below c d }
{
    let sub = JavaType::Class(c, Items::new(alloc));
    let above = JavaType::Class(d, Items::new(alloc));
    of_world::is_below(w, &sub, &above)
}

/// Whether exceptions of a class are checked: it is below neither RuntimeException nor Error.
pub(crate) fn is_checked(alloc: Global, w: &World, c: u32) -> bool
    requires { IsSound w.now }
    ensures { (below : JavaType → JavaType → Bool) → IsOrder w.now below → result ≡ spec.is_checked below c }
{
    if is_below(alloc, w, c, RUNTIME_EXCEPTION) {
        return false;
    }
    !is_below(alloc, w, c, ERROR)
}

/// Whether a class is one of these or below one.
pub(crate) fn is_under(alloc: Global, w: &World, classes: &[u32], c: u32) -> bool
    requires { IsSound w.now }
    ensures { (below : JavaType → JavaType → Bool) → IsOrder w.now below → result ≡ spec.is_under below classes.now c }
{
    for above in classes {
        if is_below(alloc, w, c, *above) {
            return true;
        }
    }
    false
}

fn is_type_under(alloc: Global, w: &World, classes: &[u32], ty: &JavaType) -> bool
    requires { IsSound w.now }
    ensures { (below : JavaType → JavaType → Bool) → IsOrder w.now below → result ≡ spec.are_under below classes.now (spec.checked_of below (number_of ty.now)) }
{
    match class_number(ty) {
        None => true,
        Some(class) => {
            if !is_checked(alloc, w, class) {
                return true;
            }
            is_under(alloc, w, classes, class)
        }
    }
}

/// Whether the checked ones of these types are of these classes or below one.
pub(crate) fn are_under(alloc: Global, w: &World, classes: &[u32], types: &[JavaType]) -> bool
    requires { IsSound w.now }
    ensures { (below : JavaType → JavaType → Bool) → IsOrder w.now below → result ≡ spec.are_under below classes.now (spec.checked_in below types.now) }
{
    for ty in types {
        if !is_type_under(alloc, w, classes, ty) {
            return false;
        }
    }
    true
}

pub(crate) fn push_class(class: Option<u32>, out: &mut Items<u32>) -> Result<(), NoMemory>
    ensures { OnOk result (out.new ≡ out.old ++ spec.class_of class) }
{
    match class {
        None => Ok(()),
        Some(class) => {
            out.push(class)?;
            Ok(())
        }
    }
}

/// The classes of these types, in order.
pub(crate) fn classes_in(alloc: Global, types: &[JavaType]) -> Result<Items<u32>, NoMemory>
    ensures { IfOk result (λ r. r ≡ spec.classes_in types.now) }
{
    let mut out = Items::new(alloc);
    for ty in types {
        push_class(class_number(ty), &mut out)?;
    }
    Ok(out)
}

/// What a method or constructor declares that it throws (JLS 8.4.6).
pub(crate) fn throws_of(w: &World, method: u32) -> &[JavaType]
    ensures { result.now ≡ spec.throws_of (method_at w.now method) }
{
    match w.methods.get(method as usize) {
        None => &[],
        Some(info) => info.throws.as_slice(),
    }
}

fn raise_class(
    alloc: Global,
    w: &World,
    node: u32,
    class: u32,
    state: &mut State,
) -> Result<(), NoMemory>
    requires { IsSound w.now }
    ensures { spec.Makes w.now result state.new (λ below. spec.raise node (spec.checked_of below (Some class)) state.old) }
{
    if is_checked(alloc, w, class) {
        state.raised.push(Raised { node, class })?;
    }
    Ok(())
}

/// An exception of a type is thrown at a node: it counts where it is checked.
pub(crate) fn raise(
    alloc: Global,
    w: &World,
    node: u32,
    ty: &JavaType,
    state: &mut State,
) -> Result<(), NoMemory>
    requires { IsSound w.now }
    ensures { spec.Makes w.now result state.new (λ below. spec.raise node (spec.checked_of below (number_of ty.now)) state.old) }
{
    match class_number(ty) {
        None => Ok(()),
        Some(class) => raise_class(alloc, w, node, class, state),
    }
}

fn raise_all(
    alloc: Global,
    w: &World,
    node: u32,
    types: &[JavaType],
    state: &mut State,
) -> Result<(), NoMemory>
    requires { IsSound w.now }
    ensures { spec.Makes w.now result state.new (λ below. spec.raise node (spec.checked_in below types.now) state.old) }
{
    for ty in types {
        raise(alloc, w, node, ty, state)?;
    }
    Ok(())
}

/// A method or constructor is called at a node (JLS 11.2.1).
pub(crate) fn called(
    alloc: Global,
    w: &World,
    node: Node,
    method: u32,
    state: &mut State,
) -> Result<(), NoMemory>
    requires { IsSound w.now }
    ensures { spec.Makes w.now result state.new (λ below. spec.called w.now below node method state.old) }
{
    raise_all(alloc, w, node.id, throws_of(w, method), state)
}
