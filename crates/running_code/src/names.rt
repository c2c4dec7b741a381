//! The names of classes (JLS 6.7, 20.3.2).

ghost use Rattle.std.specs.Prelude.{◌≡◌, ◌++◌, OnOk};
ghost use Rattle.class_world.specs.declared.world.JavaType.TheOpen as form;
ghost use Rattle.core_meaning.specs.Classes as classes;
ghost use Rattle.core_meaning.specs.Code.{Code};
ghost use Rattle.running_code.specs.Names as spec;
ghost use Rattle.running_code.specs.Names.{element_name_of};
ghost use Rattle.running_code.specs.Running.{Adds, IsReady, Makes};

use crate::running::Running;
use class_world::JavaType;
use core_meaning::Thing;
use java_tree::tree::{Name, Primitive};
use java_tree::{Items, Names, NoMemory};
use std::alloc::Global;

// The number of the class Object.
const OBJECT: u32 = 0;

/// The text of a name, empty where it has none.
pub fn text_of(names: &Names, name: Name) -> &str
    ensures { result.now ≡ spec.text_in names.now name }
{
    if (name.0 as usize) < names.len() {
        names.text(name)
    } else {
        ""
    }
}

/// Appends a text: each byte is a unit.
pub(crate) fn push_text(text: &str, out: &mut Items<u16>) -> Result<(), NoMemory>
    ensures { OnOk result (out.new ≡ out.old ++ text.now) }
{
    for byte in text.as_bytes() {
        out.push(u16::from(*byte))?;
    }
    Ok(())
}

fn push_package(names: &Names, parts: &[Name], out: &mut Items<u16>) -> Result<(), NoMemory>
    ensures { OnOk result (out.new ≡ out.old ++ spec.package_in names.now parts.now) }
{
    for part in parts {
        push_text(text_of(names, *part), out)?;
        out.push(u16::from(b'.'))?;
    }
    Ok(())
}

fn push_full_name(g: &Running<'_>, class: u32, out: &mut Items<u16>) -> Result<(), NoMemory>
    ensures { OnOk result (out.new ≡ out.old ++ spec.name_in g.now.names.now g.now.world.now class) }
{
    match g.world.types.get(class as usize) {
        None => Ok(()),
        Some(info) => {
            push_package(g.names, info.package.as_slice(), out)?;
            push_text(text_of(g.names, info.name), out)
        }
    }
}

// The full name of a class.
fn full_name(alloc: Global, g: &Running<'_>, class: u32) -> Result<Items<u16>, NoMemory>
    requires { IsReady g.now }
    ensures { Makes g.now result (λ c. classes.full_name c class) }
{
    let mut out = Items::new(alloc);
    push_full_name(g, class, &mut out)?;
    Ok(out)
}

// How an array's class names a class.
fn push_named(g: &Running<'_>, class: u32, out: &mut Items<u16>) -> Result<(), NoMemory>
    ensures { Adds g.now result out.old out.new (λ c. classes.named c class) }
{
    push_text("L", out)?;
    push_full_name(g, class, out)?;
    push_text(";", out)
}

fn push_primitive(primitive: Primitive, out: &mut Items<u16>) -> Result<(), NoMemory>
    ensures { (c : Code) → OnOk result (out.new ≡ out.old ++ classes.element_name c (form.Prim primitive)) }
{
    match primitive {
        Primitive::Int => push_text("I", out),
        Primitive::Long => push_text("J", out),
        Primitive::Char => push_text("C", out),
        Primitive::Boolean => push_text("Z", out),
    }
}

// How an array's class names the type of its elements.
fn push_element(g: &Running<'_>, t: &JavaType, out: &mut Items<u16>) -> Result<(), NoMemory>
    ensures { Adds g.now result out.old out.new (λ c. element_name_of c t.now) }
{
    match t {
        JavaType::Prim(primitive) => push_primitive(*primitive, out),
        JavaType::Null => push_named(g, OBJECT, out),
        JavaType::Class(class, _) => push_named(g, *class, out),
        JavaType::Var(_) => push_named(g, OBJECT, out),
        JavaType::Array(element) => {
            push_text("[", out)?;
            push_element(g, element.get(), out)
        }
    }
}

/// The name of the class of an object or array.
pub fn name_of(alloc: Global, g: &Running<'_>, thing: &Thing) -> Result<Items<u16>, NoMemory>
    requires { IsReady g.now }
    ensures { Makes g.now result (λ c. classes.name_of c thing.now) }
{
    match thing {
        Thing::Object { class, .. } => full_name(alloc, g, *class),
        Thing::Array { element, .. } => {
            let mut out = Items::new(alloc);
            push_text("[", &mut out)?;
            push_element(g, element, &mut out)?;
            Ok(out)
        }
    }
}
