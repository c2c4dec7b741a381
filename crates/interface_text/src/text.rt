//! The text of the whole file.

ghost use Rattle.std.specs.Prelude.{◌≡◌, ◌++◌, map, IfOk, OnOk};
ghost use Rattle.std.specs.List.{list_any};
ghost use Rattle.std.specs.List.Sorted.{IsStrictlyIncreasing};
ghost use Rattle.java_core.specs.View.{class_plain, member_plain};
ghost use Rattle.interface_text.specs.Text as spec;

use crate::extraction::Extraction;
use crate::imports::push_imports;
use crate::methods::push_members;
use crate::names::{package_of, push_path};
use class_world::World;
use java_core::{CoreClass, CoreMember};
use java_tree::tree::{Mod, Name};
use java_tree::{Names, NoMemory};
use std::alloc::Global;

fn push_line(names: &Names, path: &[Name], out: &mut Vec<u8>) -> Result<(), NoMemory>
    ensures { OnOk result (out.new.items ≡ out.old.items ++ spec.package_line names.now path.now) }
{
    match path.split_first() {
        None => Ok(()),
        Some((_first, _rest)) => {
            out.extend_from_slice(b"package ")?;
            push_path(names, path, out)?;
            out.extend_from_slice(b";\n\n")?;
            Ok(())
        }
    }
}

// The line of the class's package and an empty line, where it has one.
fn push_package(q: &Extraction<'_>, out: &mut Vec<u8>) -> Result<(), NoMemory>
    ensures { OnOk result (out.new.items ≡ out.old.items ++ spec.package_text q.now) }
{
    push_line(q.names, package_of(q.world, q.class), out)
}

fn has_public(mods: &[Mod]) -> bool
    ensures { result ≡ list_any spec.is_public_mod mods.now }
{
    for modifier in mods {
        if matches!(modifier, Mod::Public) {
            return true;
        }
    }
    false
}

fn is_public(w: &World, number: u32) -> bool
    ensures { result ≡ spec.is_public w.now number }
{
    match w.types.get(number as usize) {
        None => false,
        Some(info) => has_public(info.mods.as_slice()),
    }
}

fn public_word(w: &World, number: u32) -> &'static str
    ensures { result.now ≡ spec.public_word w.now number }
{
    if is_public(w, number) { "public " } else { "" }
}

// The line that begins the interface.
fn push_header(q: &Extraction<'_>, out: &mut Vec<u8>) -> Result<(), NoMemory>
    ensures { OnOk result (out.new.items ≡ out.old.items ++ spec.header q.now) }
{
    out.extend_from_slice(public_word(q.world, q.class).as_bytes())?;
    out.extend_from_slice(b"interface ")?;
    out.extend_from_slice(q.new_name.as_bytes())?;
    out.extend_from_slice(b" {\n")?;
    Ok(())
}

// The interface itself.
fn push_declaration(
    q: &Extraction<'_>,
    members: &[CoreMember],
    out: &mut Vec<u8>,
) -> Result<(), NoMemory>
    requires methods { IsStrictlyIncreasing q.now.methods.now }
    requires kept { IsStrictlyIncreasing q.now.kept.now }
    ensures { OnOk result (out.new.items ≡ out.old.items ++ spec.declaration q.now (map member_plain members.now)) }
{
    push_header(q, out)?;
    push_members(q, members, out)?;
    out.extend_from_slice(b"}\n")?;
    Ok(())
}

/// The text of a file with an interface that has methods of this class: the class's package, the imports of the types that the file does not see by itself, and the
/// methods in the order of the class, a line each. The lists `methods` and `kept` are strictly ascending.
pub fn interface_text(
    alloc: Global,
    q: &Extraction<'_>,
    class: &CoreClass,
) -> Result<Vec<u8>, NoMemory>
    requires methods { IsStrictlyIncreasing q.now.methods.now }
    requires kept { IsStrictlyIncreasing q.now.kept.now }
    ensures { IfOk result (λ r. r.items ≡ spec.interface_text q.now (class_plain class.now)) }
{
    let members = class.members.as_slice();
    let mut out = Vec::new(alloc);
    push_package(q, &mut out)?;
    push_imports(alloc, q, members, &mut out)?;
    push_declaration(q, members, &mut out)?;
    Ok(out)
}
