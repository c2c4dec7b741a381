//! What is above which types.

ghost use Rattle.std.specs.Prelude.{◌≡◌, ◌↔◌, true, List, Some, slice_get, IsTrue, IfOk};
ghost use Rattle.type_names.specs.declared.known.JavaNames.{JavaNames};
ghost use Rattle.type_names.specs.Known.{File};
ghost use Rattle.super_rules.specs.Rules.{IsAbove, IsGenericAbove, IsThrowable};
ghost use Rattle.super_rules.specs.Looks.{HasEntries, AreFlags};

use crate::entries::Entry;
use crate::rows::{Edges, graph_of};
use class_world::TypeInfo;
use java_tree::NoMemory;
use std::alloc::Global;
use type_reach::{on_cycles, reaching};

/// For each type whether it is generic, or a library's with a generic type above it through library types.
pub(crate) fn generic_types(
    alloc: Global,
    types: &[TypeInfo],
    entries: &[Entry<'_>],
) -> Result<Vec<bool>, NoMemory>
    ensures { (java : JavaNames) (fs : List File) → HasEntries java fs types.now entries.now → IfOk result (λ v. AreFlags v.items (IsGenericAbove java fs types.now)) }
{
    let graph = graph_of(alloc, types, entries, Edges::FromLibraries)?;
    let mut marks = Vec::new(alloc);
    for info in types {
        marks.push(info.params > 0)?;
    }
    reaching(alloc, &graph, marks.as_slice())
}

/// For each type whether it is above itself.
pub(crate) fn types_above_themselves(
    alloc: Global,
    types: &[TypeInfo],
    entries: &[Entry<'_>],
) -> Result<Vec<bool>, NoMemory>
    ensures { (java : JavaNames) (fs : List File) → HasEntries java fs types.now entries.now → IfOk result (λ v. AreFlags v.items (λ c. IsAbove java fs types.now c c)) }
{
    let graph = graph_of(alloc, types, entries, Edges::All)?;
    on_cycles(alloc, &graph)
}

/// For each type whether it is Throwable or a class below it.
pub(crate) fn throwables(
    alloc: Global,
    types: &[TypeInfo],
    entries: &[Entry<'_>],
) -> Result<Vec<bool>, NoMemory>
    ensures { (java : JavaNames) (fs : List File) → HasEntries java fs types.now entries.now → IfOk result (λ v. AreFlags v.items (IsThrowable java fs types.now)) }
{
    let graph = graph_of(alloc, types, entries, Edges::Superclasses)?;
    // Throwable has the number 4.
    reaching(alloc, &graph, &[false, false, false, false, true])
}

/// Whether a flag is there and set.
pub(crate) fn is_set(flags: &[bool], at: usize) -> bool
    ensures { IsTrue result ↔ (slice_get flags.now at ≡ Some true) }
{
    match flags.get(at) {
        None => false,
        Some(flag) => *flag,
    }
}
