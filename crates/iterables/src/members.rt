//! The members of an interface by name, without parameters (JLS 3rd edition, 9.2 and 9.4.1).

ghost use Rattle.std.specs.Prelude.{◌↔◌, IsTrue, IfSome, IfOk};
ghost use Rattle.std.specs.List.Sorted.{IsStrictlyIncreasing};
ghost use Rattle.class_world.specs.Sound.{IsKnown, IsSound};
ghost use Rattle.iterables.specs.Walks.{IsCounted, ThrowsNothing};
ghost use Rattle.iterables.specs.Told.{DeclaresNamed, FindsOne, IsFirstDeclared, IsPlain, TellsFirst};

use crate::texts::name_of;
use class_world::World;
use java_tree::tree::Name;
use java_tree::{Names, NoMemory};
use member_methods::MethodLists;
use seen_methods::{is_of_class, method_of};
use std::alloc::Global;

fn declares(w: &World, c: u32, name: Name, m: u32) -> bool
    ensures { IsTrue result ↔ DeclaresNamed w.now c name m }
{
    match method_of(w, m) {
        Some(info) => info.owner == c && info.name == name && info.params.is_empty(),
        None => false,
    }
}

/// The first method of this name and without parameters that the type `c` declares. `None` says nothing.
fn first_declared(w: &World, c: u32, name: Name) -> Option<u32>
    ensures { IfSome result (λ m. IsFirstDeclared w.now c name m) }
{
    // More methods than numbers find no room in the memory of any machine.
    if w.methods.len() > u32::MAX as usize {
        return None;
    }
    for m in 0..w.methods.len() as u32 {
        if declares(w, c, name, m) {
            return Some(m);
        }
    }
    None
}

/// The first of the methods, which are ascending, that a class declares, or else the first of all.
fn first_of(w: &World, methods: &[u32]) -> Option<u32>
    requires { IsStrictlyIncreasing methods.now }
    ensures { TellsFirst w.now methods.now result }
{
    for m in methods {
        if is_of_class(w, *m) {
            return Some(*m);
        }
    }
    methods.first().copied()
}

/// The member of the interface `c` of this name and without parameters that counts.
fn counted(alloc: Global, w: &World, c: u32, name: Name) -> Result<Option<u32>, NoMemory>
    requires sound { IsSound w.now }
    requires known { IsKnown w.now c }
    ensures { IfOk result (FindsOne (IsCounted w.now c name)) }
{
    // What the interface declares hides what it would inherit. Only where it declares none the members of all types are needed.
    if let Some(m) = first_declared(w, c, name) {
        return Ok(Some(m));
    }
    let lists = MethodLists::of(alloc, w)?;
    Ok(first_of(w, lists.named(c, name, 0)))
}

fn throws_nothing(w: &World, m: u32) -> bool
    ensures { IsTrue result ↔ ThrowsNothing w.now m }
{
    match w.methods.get(m as usize) {
        Some(info) => info.throws.is_empty(),
        None => false,
    }
}

/// The member of the interface `c` of this name and without parameters that counts, where it has no throws clause.
pub(crate) fn plain(
    alloc: Global,
    names: &Names,
    w: &World,
    c: u32,
    text: &str,
) -> Result<Option<u32>, NoMemory>
    requires sound { IsSound w.now }
    requires known { IsKnown w.now c }
    ensures { IfOk result (FindsOne (IsPlain names.now w.now c text.now)) }
{
    let Some(name) = name_of(names, text) else {
        return Ok(None);
    };
    let Some(m) = counted(alloc, w, c, name)? else {
        return Ok(None);
    };
    if throws_nothing(w, m) {
        Ok(Some(m))
    } else {
        Ok(None)
    }
}
