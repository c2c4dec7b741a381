//! Casts between reference types, and the tests that go like them: instanceof, == and != (JLS 5.5, 15.20.2 and 15.21.3).

ghost use Rattle.std.specs.Prelude.{◌≡◌, ◌↔◌, IsTrue};
ghost use Rattle.class_world.specs.Types.{IsReference, erased};
ghost use Rattle.class_world.specs.Subtypes.{Subtype};
ghost use Rattle.class_world.specs.Sound.{IsSound};
ghost use Rattle.type_kinds.specs.Casts.{AreCastableClasses, Castable, IsInterface, IsOpenClass};
ghost use Rattle.type_kinds.specs.OfWorld.{AreBoth};

use crate::of_world::{are_both, refers};
use class_world::{JavaType, World, is_same, is_sub};
use java_tree::Items;
use java_tree::tree::Mod;
use std::alloc::Global;

/// Whether a number is that of an interface (JLS 9.1).
fn is_interface(w: &World, c: u32) -> bool
    ensures { IsTrue result ↔ IsInterface w.now c }
{
    match w.types.get(c as usize) {
        Some(info) => info.interface,
        None => false,
    }
}

/// Whether a number is that of a class that is not final (JLS 8.1.1.2).
fn is_open_class(w: &World, c: u32) -> bool
    ensures { IsTrue result ↔ IsOpenClass w.now c }
{
    match w.types.get(c as usize) {
        Some(info) => {
            if info.interface {
                false
            } else {
                !info.mods.as_slice().contains(&Mod::Final)
            }
        }
        None => false,
    }
}

fn are_castable_classes(w: &World, c: u32, d: u32) -> bool
    ensures { IsTrue result ↔ AreCastableClasses w.now c d }
{
    if is_interface(w, c) {
        is_interface(w, d) || is_open_class(w, d)
    } else {
        is_open_class(w, c) && is_interface(w, d)
    }
}

/// Whether the erasure of the first is a subtype of that of the second (JLS 4.6, 4.10). Takes no memory.
#[cycle(is_erased_sub)]
fn is_erased_sub(alloc: Global, w: &World, s: &JavaType, t: &JavaType) -> bool
    requires sound { IsSound w.now }
    requires types { AreBoth w.now s.now t.now }
    ensures { IsTrue result ↔ Subtype w.now (erased s.now) (erased t.now) }
{
    match t {
        JavaType::Prim(_) => is_sub(w, s, t),
        JavaType::Null => is_sub(w, s, t),
        JavaType::Class(g, _) => {
            let bare = JavaType::Class(*g, Items::new(alloc));
            is_sub(w, s, &bare)
        }
        JavaType::Var(_) => match s {
            JavaType::Prim(_) => false,
            _ => true,
        },
        JavaType::Array(y) => match s {
            JavaType::Null => true,
            JavaType::Array(x) => {
                if are_references(x.get(), y.get()) {
                    is_erased_sub(alloc, w, x.get(), y.get())
                } else {
                    is_same(x.get(), y.get())
                }
            }
            _ => false,
        },
    }
}

fn are_references(s: &JavaType, t: &JavaType) -> bool
    ensures { IsTrue result ↔ (IsReference s.now × IsReference t.now) }
{
    refers(s) && refers(t)
}

#[cycle(is_castable)]
fn is_castable(alloc: Global, w: &World, s: &JavaType, t: &JavaType) -> bool
    requires sound { IsSound w.now }
    requires types { AreBoth w.now s.now t.now }
    ensures { IsTrue result ↔ Castable w.now s.now t.now }
{
    if is_erased_sub(alloc, w, s, t) {
        return true;
    }
    if is_erased_sub(alloc, w, t, s) {
        return true;
    }
    match s {
        JavaType::Class(c, _) => match t {
            JavaType::Class(d, _) => are_castable_classes(w, *c, *d),
            _ => false,
        },
        JavaType::Array(x) => match t {
            JavaType::Array(y) => {
                if are_references(x.get(), y.get()) {
                    is_castable(alloc, w, x.get(), y.get())
                } else {
                    false
                }
            }
            _ => false,
        },
        _ => false,
    }
}

/// Whether both are types of the world, and a value of the first can be cast to the second (JLS 5.5, more narrowly than there). Takes no memory.
pub fn may_cast(alloc: Global, w: &World, s: &JavaType, t: &JavaType) -> bool
    requires { IsSound w.now }
    ensures { IsTrue result ↔ (AreBoth w.now s.now t.now × Castable w.now s.now t.now) }
{
    if are_both(w, s, t) {
        is_castable(alloc, w, s, t)
    } else {
        false
    }
}
