//! Names of types, methods and packages.

ghost use Rattle.std.specs.Prelude.{◌≡◌, ◌++◌, IfOk, OnOk};
ghost use Rattle.interface_text.specs.Names as spec;

use class_world::World;
use java_tree::tree::Name;
use java_tree::{Names, NoMemory};
use std::alloc::Global;

/// The text of a name. One that the table does not have has no text.
pub fn name_text(names: &Names, name: Name) -> &str
    ensures { result.now ≡ spec.text_of names.now name }
{
    if (name.0 as usize) < names.len() {
        names.text(name)
    } else {
        ""
    }
}

/// The simple name of a type.
pub(crate) fn type_name<'a>(w: &World, names: &'a Names, number: u32) -> &'a str
    ensures { result.now ≡ spec.type_name w.now names.now number }
{
    match w.types.get(number as usize) {
        None => "",
        Some(info) => name_text(names, info.name),
    }
}

/// The name of a method.
pub(crate) fn method_name<'a>(w: &World, names: &'a Names, number: u32) -> &'a str
    ensures { result.now ≡ spec.method_name w.now names.now number }
{
    match w.methods.get(number as usize) {
        None => "",
        Some(info) => name_text(names, info.name),
    }
}

/// The package of a type.
pub(crate) fn package_of(w: &World, number: u32) -> &[Name]
    ensures { result.now ≡ spec.package_of w.now number }
{
    match w.types.get(number as usize) {
        None => &[],
        Some(info) => info.package.as_slice(),
    }
}

/// Whether two paths have the same names.
pub(crate) fn is_same_path(a: &[Name], b: &[Name]) -> bool
    ensures { result ≡ spec.is_same_path a.now b.now }
{
    match a.split_first() {
        None => b.is_empty(),
        Some((x, rest)) => match b.split_first() {
            None => false,
            Some((y, more)) => x.0 == y.0 && is_same_path(rest, more),
        },
    }
}

/// Writes a path with dots between its names.
pub(crate) fn push_path(names: &Names, path: &[Name], out: &mut Vec<u8>) -> Result<(), NoMemory>
    ensures { OnOk result (out.new.items ≡ out.old.items ++ spec.path_text names.now path.now) }
{
    let mut before: &[u8] = b"";
    for name in path {
        out.extend_from_slice(before)?;
        out.extend_from_slice(name_text(names, *name).as_bytes())?;
        before = b".";
    }
    Ok(())
}

// Writes a path with a dot behind each name.
fn push_dotted(names: &Names, path: &[Name], out: &mut Vec<u8>) -> Result<(), NoMemory>
    ensures { OnOk result (out.new.items ≡ out.old.items ++ spec.dotted names.now path.now) }
{
    for name in path {
        out.extend_from_slice(name_text(names, *name).as_bytes())?;
        out.push(b'.')?;
    }
    Ok(())
}

/// The full name of a type (JLS 6.7).
pub(crate) fn full_name(
    alloc: Global,
    w: &World,
    names: &Names,
    number: u32,
) -> Result<Vec<u8>, NoMemory>
    ensures { IfOk result (λ r. r.items ≡ spec.full_name w.now names.now number) }
{
    let mut out = Vec::new(alloc);
    push_dotted(names, package_of(w, number), &mut out)?;
    out.extend_from_slice(type_name(w, names, number).as_bytes())?;
    Ok(out)
}
