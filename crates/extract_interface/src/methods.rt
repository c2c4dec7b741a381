//! The methods of the class: those that are asked for, and which of them an interface may have.

ghost use Rattle.std.specs.Prelude.{◌≡◌, ◌↔◌, IsTrue, map, IfOk};
ghost use Rattle.std.specs.List.Sorted.{IsStrictlyIncreasing};
ghost use Rattle.std.specs.Option.{option_copied};
ghost use Rattle.std.specs.String.{string_bytes};
ghost use Rattle.type_kinds.specs.Members.{method_at};
ghost use Rattle.extract_interface.specs.Asked as spec;
ghost use Rattle.extract_interface.specs.Asked.{AreWanted, HasAll, HasMethod, IsNamed, IsWanted};

use class_world::{MethodInfo, World};
use interface_text::name_text;
use java_tree::tree::Mod;
use java_tree::{Items, Names, NoMemory};
use std::alloc::Global;
use type_kinds::kinds::has;

fn method_at(w: &World, method: u32) -> Option<&MethodInfo>
    ensures { option_copied result ≡ method_at w.now method }
{
    w.methods.get(method as usize)
}

// Whether a method, and no constructor, has this name.
fn is_named(w: &World, names: &Names, word: &str, method: u32) -> bool
    ensures { IsTrue result ↔ IsNamed names.now word.now (method_at w.now method) }
{
    match method_at(w, method) {
        None => false,
        Some(info) => !info.constructor && name_text(names, info.name) == word,
    }
}

fn has_method(w: &World, names: &Names, methods: &[u32], word: &str) -> bool
    ensures { IsTrue result ↔ HasMethod w.now names.now methods.now word.now }
{
    for method in methods {
        if is_named(w, names, word, *method) {
            return true;
        }
    }
    false
}

/// Whether each of the words is the name of one of these methods.
pub(crate) fn has_all(w: &World, names: &Names, methods: &[u32], words: &[String]) -> bool
    ensures { IsTrue result ↔ HasAll w.now names.now methods.now (map string_bytes words.now) }
{
    for word in words {
        if !has_method(w, names, methods, word.as_str()) {
            return false;
        }
    }
    true
}

fn is_wanted(w: &World, names: &Names, words: &[String], method: u32) -> bool
    ensures { IsTrue result ↔ IsWanted w.now names.now (map string_bytes words.now) method }
{
    for word in words {
        if is_named(w, names, word.as_str(), method) {
            return true;
        }
    }
    false
}

/// Those of these methods that have one of the words as name.
pub(crate) fn wanted(
    alloc: Global,
    w: &World,
    names: &Names,
    words: &[String],
    methods: &[u32],
) -> Result<Items<u32>, NoMemory>
    ensures { IfOk result (AreWanted w.now names.now (map string_bytes words.now) methods.now) }
{
    let mut found = Items::new(alloc);
    for method in methods {
        if is_wanted(w, names, words, *method) {
            found.push(*method)?;
        }
    }
    Ok(found)
}

fn is_public(w: &World, method: u32) -> bool
    ensures { result ≡ spec.is_public (method_at w.now method) }
{
    match method_at(w, method) {
        None => false,
        Some(info) => has(Mod::Public, info.mods.as_slice()),
    }
}

fn is_static(w: &World, method: u32) -> bool
    ensures { result ≡ spec.is_static (method_at w.now method) }
{
    match method_at(w, method) {
        None => false,
        Some(info) => has(Mod::Static, info.mods.as_slice()),
    }
}

pub(crate) fn all_public(w: &World, methods: &[u32]) -> bool
    ensures { result ≡ spec.all_public w.now methods.now }
{
    for method in methods {
        if !is_public(w, *method) {
            return false;
        }
    }
    true
}

pub(crate) fn none_static(w: &World, methods: &[u32]) -> bool
    ensures { result ≡ spec.none_static w.now methods.now }
{
    for method in methods {
        if is_static(w, *method) {
            return false;
        }
    }
    true
}

/// Whether each number is below the next.
pub(crate) fn is_ascending(numbers: &[u32]) -> bool
    ensures { IsTrue result → IsStrictlyIncreasing numbers.now }
{
    for k in 1..numbers.len() {
        if numbers[k] <= numbers[k - 1] {
            return false;
        }
    }
    true
}
