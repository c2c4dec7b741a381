//! The order of all types (JLS 3rd edition, 4.10 and 5.2), by the table of what is above each class. None of these calls but `super_as` takes memory.

ghost use Rattle.std.specs.Prelude.{◌≡◌, ℕ, List, [], ◌↔◌, IsTrue, IfOk, IfSome, IfNone};
ghost use Rattle.class_world.specs.Types.{IsReference, object_type};
ghost use Rattle.class_world.specs.Subtypes.{Fits, IsSuperAs, IsUnchecked, Parameterizes, Subtype};
ghost use Rattle.class_world.specs.Sound.{IsKnown, IsOfWorld, IsSound};
ghost use Rattle.class_world.specs.declared.world.JavaType.TheVariants as ty;

use crate::climb::{base_above, has_base, is_climbed};
use crate::seen::Seen;
use crate::supers::is_raw;
use crate::table::is_set;
use crate::types::is_same;
use crate::world::{JavaType, World};
use java_tree::tree::Primitive;
use java_tree::{Items, NoMemory};
use std::alloc::Global;

/// Whether `s` is a subtype of `t` (JLS 4.10). Where `t` has arguments it goes up from `s`'s class to `t`'s, by shortcuts where these lead there, else past the declared supertypes of a class: mostly in about log n steps past n classes.
pub fn is_sub(w: &World, s: &JavaType, t: &JavaType) -> bool
    requires sound { IsSound w.now }
    requires types { IsOfWorld w.now s.now × IsOfWorld w.now t.now }
    ensures { IsTrue result ↔ Subtype w.now s.now t.now }
{
    match s {
        JavaType::Prim(p) => match t {
            JavaType::Prim(q) => widens(*p, *q),
            _ => false,
        },
        JavaType::Null => match t {
            JavaType::Prim(_) => false,
            _ => true,
        },
        JavaType::Class(c, args) => is_class_sub(w, *c, args.as_slice(), t),
        JavaType::Var(_) => is_same(s, t) || is_object(t),
        JavaType::Array(x) => match t {
            JavaType::Array(y) => {
                if are_references(x.get(), y.get()) {
                    is_sub(w, x.get(), y.get())
                } else {
                    is_same(x.get(), y.get())
                }
            }
            _ => is_object(t),
        },
    }
}

/// Whether a value of one primitive type is one of the other (JLS 4.10.1).
fn widens(p: Primitive, q: Primitive) -> bool
    ensures { (w : World) → IsSound w → IsTrue result ↔ Subtype w (ty.Prim p) (ty.Prim q) }
{
    match p {
        Primitive::Char => q != Primitive::Boolean,
        Primitive::Int => q == Primitive::Int || q == Primitive::Long,
        Primitive::Long => q == Primitive::Long,
        Primitive::Boolean => q == Primitive::Boolean,
    }
}

fn is_reference(t: &JavaType) -> bool
    ensures { IsTrue result ↔ IsReference t.now }
{
    match t {
        JavaType::Prim(_) => false,
        JavaType::Null => false,
        JavaType::Class(_, _) => true,
        JavaType::Var(_) => true,
        JavaType::Array(_) => true,
    }
}

fn are_references(s: &JavaType, t: &JavaType) -> bool
    ensures { IsTrue result ↔ (IsReference s.now × IsReference t.now) }
{
    is_reference(s) && is_reference(t)
}

fn is_object(t: &JavaType) -> bool
    ensures { IsTrue result ↔ (t.now ≡ object_type) }
{
    match t {
        JavaType::Class(c, args) => *c == 0 && args.is_empty(),
        _ => false,
    }
}

/// Whether `t` is above the type of the class `c` with these arguments.
fn is_class_sub(w: &World, c: u32, args: &[JavaType], t: &JavaType) -> bool
    requires sound { IsSound w.now }
    requires class { IsOfWorld w.now (ty.Class c args.now) }
    ensures { IsTrue result ↔ Subtype w.now (ty.Class c args.now) t.now }
{
    match t {
        JavaType::Class(g, others) => {
            if others.is_empty() {
                is_class_above(w, c, *g)
            } else {
                has_base(w, c, is_raw(w, c, args), *g) && is_climbed(w, c, args, &Seen::Itself, t)
            }
        }
        _ => false,
    }
}

/// Whether the class `g` without arguments is above the class `c`, whatever arguments that one has.
fn is_class_above(w: &World, c: u32, g: u32) -> bool
    requires sound { IsSound w.now }
    requires known { IsKnown w.now c }
    ensures { (args : List JavaType) → IsTrue result ↔ Subtype w.now (ty.Class c args) (ty.Class g []) }
{
    match w.above.get(c as usize) {
        Some(row) => is_set(row.types.as_slice(), g as usize),
        None => false,
    }
}

/// Whether a value of type `s` can be assigned to a variable of type `t` (JLS 5.2, without boxing), by an unchecked conversion too.
pub fn fits(w: &World, s: &JavaType, t: &JavaType) -> bool
    requires sound { IsSound w.now }
    requires types { IsOfWorld w.now s.now × IsOfWorld w.now t.now }
    ensures { IsTrue result ↔ Fits w.now s.now t.now }
{
    is_sub(w, s, t) || is_unchecked(w, s, t)
}

/// Whether `s` fits `t` by an unchecked conversion alone (JLS 5.1.9).
pub fn is_unchecked(w: &World, s: &JavaType, t: &JavaType) -> bool
    requires sound { IsSound w.now }
    requires types { IsOfWorld w.now s.now }
    ensures { IsTrue result ↔ IsUnchecked w.now s.now t.now }
{
    match t {
        JavaType::Class(g, args) => !args.is_empty() && is_raw_alone(w, s, *g),
        _ => false,
    }
}

/// Whether the class `g` is above `s` without arguments, and with none.
fn is_raw_alone(w: &World, s: &JavaType, g: u32) -> bool
    requires sound { IsSound w.now }
    requires types { IsOfWorld w.now s.now }
    ensures { IsTrue result ↔ (Subtype w.now s.now (ty.Class g []) × ((u : JavaType) → Parameterizes g u → Subtype w.now s.now u → ⊥)) }
{
    match s {
        JavaType::Prim(_) => false,
        JavaType::Null => false,
        JavaType::Class(c, args) => {
            is_class_above(w, *c, g) && !has_base(w, *c, is_raw(w, *c, args.as_slice()), g)
        }
        JavaType::Var(_) => g == 0,
        JavaType::Array(_) => g == 0,
    }
}

/// The supertype of `t` whose class is `g`: the parameterization where there is one, else the type without arguments. Goes up from `t`'s class to `g` by shortcuts where these lead there, with a copy of the type a step: mostly in about log n steps past n classes.
pub fn super_as(
    alloc: Global,
    w: &World,
    t: &JavaType,
    g: u32,
) -> Result<Option<JavaType>, NoMemory>
    requires sound { IsSound w.now }
    requires types { IsOfWorld w.now t.now }
    requires not_null { t.now ≡ ty.Null → ⊥ }
    ensures { IfOk result (λ o. IsSuperAs w.now t.now g o) }
{
    match t {
        JavaType::Prim(_) => Ok(None),
        JavaType::Null => Ok(None),
        JavaType::Class(c, args) => {
            if has_base(w, *c, is_raw(w, *c, args.as_slice()), g) {
                Ok(Some(base_above(alloc, w, t, g)?))
            } else {
                Ok(bare_type(alloc, g, is_class_above(w, *c, g)))
            }
        }
        JavaType::Var(_) => Ok(bare_type(alloc, g, g == 0)),
        JavaType::Array(_) => Ok(bare_type(alloc, g, g == 0)),
    }
}

/// The class `g` without arguments, where it is above.
fn bare_type(alloc: Global, g: u32, above: bool) -> Option<JavaType>
    ensures some { IfSome result (λ u. IsTrue above × (u ≡ ty.Class g [])) }
    ensures none { IfNone result (IsTrue above → ⊥) }
{
    if above {
        Some(JavaType::Class(g, Items::new(alloc)))
    } else {
        None
    }
}
