//! The name of a type with its package's.

ghost use Rattle.std.specs.Prelude.{◌≡◌, ◌++◌, ◌∷◌, IfOk, OnOk, slice_get};
ghost use Rattle.generalize_declared.specs.Plans as spec;

use class_world::World;
use java_tree::tree::Name;
use java_tree::{Names, NoMemory};
use std::alloc::Global;

/// The text of a name. One that the table does not have has no text.
pub(crate) fn name_text(names: &Names, name: Name) -> &str
    ensures { result.now ≡ spec.text_of names.now name }
{
    if (name.0 as usize) < names.len() {
        names.text(name)
    } else {
        ""
    }
}

// A package's names, each with a dot behind.
fn push_package(names: &Names, home: &[Name], out: &mut Vec<u8>) -> Result<(), NoMemory>
    ensures { OnOk result (out.new.items ≡ out.old.items ++ spec.dotted names.now home.now) }
{
    match home.split_first() {
        None => Ok(()),
        Some((name, rest)) => {
            out.extend_from_slice(name_text(names, *name).as_bytes())?;
            out.push(b'.')?;
            push_package(names, rest, out)
        }
    }
}

/// The full name of a type with this simple name (JLS 6.7).
pub(crate) fn full_name(
    alloc: Global,
    names: &Names,
    w: &World,
    number: u32,
    word: &str,
) -> Result<Vec<u8>, NoMemory>
    ensures { IfOk result (λ r. r.items ≡ spec.full_name names.now (slice_get w.now.types number) word.now) }
{
    let mut out = Vec::new(alloc);
    if let Some(info) = w.types.get(number as usize) {
        push_package(names, info.package.as_slice(), &mut out)?;
    }
    out.extend_from_slice(word.as_bytes())?;
    Ok(out)
}
