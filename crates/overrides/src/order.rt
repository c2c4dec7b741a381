//! The methods of a world, those of supertypes first.

ghost use Rattle.std.specs.Prelude.{◌≡◌, ℕ, ◌<◌, length, IfOk, OnOk};
ghost use Rattle.std.specs.List.{Contains};
ghost use Rattle.class_world.specs.Sound.{IsSound};
ghost use Rattle.overrides.specs.Orders.{AreThere};

use class_world::{World, supers_first};
use java_tree::NoMemory;
use std::alloc::Global;

/// The numbers of all methods: those of each type after those of its declared supertypes, interfaces first, and at the end those that no type lists. Takes time for the types and the methods.
///
/// What a class has from an interface stands before the class so, also where the class is not below the interface. Only Object's methods can override those of interfaces that lead back to them: they stand before the interfaces too.
pub(crate) fn in_order(alloc: Global, w: &World, count: u32) -> Result<Vec<u32>, NoMemory>
    requires sound { IsSound w.now }
    requires count { count ≡ length w.now.methods }
    ensures { IfOk result (λ v. (m : ℕ) → m < length w.now.methods → Contains v.items m) }
{
    let types = supers_first(alloc, w)?;
    let mut there = vec![in alloc; false; count as usize]?;
    let mut methods = methods_of(alloc, w, 0)?;
    put_types(w, &types, true, &mut there, &mut methods)?;
    put_types(w, &types, false, &mut there, &mut methods)?;
    for m in 0..count {
        put(m, &mut there, &mut methods)?;
    }
    Ok(methods)
}

fn methods_of(alloc: Global, w: &World, c: usize) -> Result<Vec<u32>, NoMemory> {
    let mut methods = Vec::new(alloc);
    if let Some(info) = w.types.get(c) {
        for m in info.methods.as_slice() {
            methods.push(*m)?;
        }
    }
    Ok(methods)
}

/// Adds the methods of the types, or of the interfaces among them.
fn put_types(
    w: &World,
    types: &[u32],
    interfaces_alone: bool,
    there: &mut Vec<bool>,
    methods: &mut Vec<u32>,
) -> Result<(), NoMemory>
    requires { AreThere there.old.items methods.old.items }
    ensures there { OnOk result (AreThere there.new.items methods.new.items) }
    ensures size { OnOk result (length there.new.items ≡ length there.old.items) }
{
    for c in types {
        if let Some(info) = w.types.get(*c as usize) {
            if info.interface || !interfaces_alone {
                put_all(info.methods.as_slice(), there, methods)?;
            }
        }
    }
    Ok(())
}

fn put_all(numbers: &[u32], there: &mut Vec<bool>, methods: &mut Vec<u32>) -> Result<(), NoMemory>
    requires { AreThere there.old.items methods.old.items }
    ensures there { OnOk result (AreThere there.new.items methods.new.items) }
    ensures size { OnOk result (length there.new.items ≡ length there.old.items) }
{
    for m in numbers {
        put(*m, there, methods)?;
    }
    Ok(())
}

/// Adds a method, if it is not there yet.
fn put(m: u32, there: &mut Vec<bool>, methods: &mut Vec<u32>) -> Result<(), NoMemory>
    requires { AreThere there.old.items methods.old.items }
    ensures there { OnOk result (AreThere there.new.items methods.new.items) }
    ensures size { OnOk result (length there.new.items ≡ length there.old.items) }
    ensures kept { OnOk result ((k : ℕ) → Contains methods.old.items k → Contains methods.new.items k) }
    ensures put { OnOk result (m < length there.old.items → Contains methods.new.items m) }
{
    let at = m as usize;
    if at < there.len() && !there[at] {
        there[at] = true;
        methods.push(m)?;
    }
    Ok(())
}
