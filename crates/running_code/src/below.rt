//! Whether what a reference is at run time is below a type (JLS 5.5, 10.10, 15.20.2).

ghost use Rattle.std.specs.Prelude.{◌≡◌, [], IfOk};
ghost use Rattle.class_world.specs.declared.world.JavaType.TheVariants as ty;
ghost use Rattle.core_meaning.specs.BuiltIns.{string_class};
ghost use Rattle.core_meaning.specs.Classes.{type_of_thing};
ghost use Rattle.core_meaning.specs.Variables as variables;
ghost use Rattle.running_code.specs.Running.{IsReady, Makes};

use crate::running::Running;
use class_world::{JavaType, copied, erase};
use core_meaning::Thing;
use java_tree::{Boxed, Items, NoMemory};
use std::alloc::Global;
use type_kinds::of_world::is_below;

// The number of the class String.
const STRING: u32 = 1;

fn type_is_below(
    alloc: Global,
    g: &Running<'_>,
    is: &JavaType,
    t: &JavaType,
) -> Result<bool, NoMemory>
    requires { IsReady g.now }
    ensures { Makes g.now result (λ c. variables.is_below c is.now t.now) }
{
    let above = erase(alloc, t)?;
    Ok(is_below(g.world, is, &above))
}

// Takes no memory: no class is below an array type, and other erasures have no parts.
fn class_is_below(
    alloc: Global,
    g: &Running<'_>,
    class: u32,
    t: &JavaType,
) -> Result<bool, NoMemory>
    requires { IsReady g.now }
    ensures { Makes g.now result (λ c. variables.is_below c (ty.Class class []) t.now) }
{
    if let JavaType::Array(_element) = t {
        return Ok(false);
    }
    let is = JavaType::Class(class, Items::new(alloc));
    type_is_below(alloc, g, &is, t)
}

fn array_is_below(
    alloc: Global,
    g: &Running<'_>,
    element: &JavaType,
    t: &JavaType,
) -> Result<bool, NoMemory>
    requires { IsReady g.now }
    ensures { Makes g.now result (λ c. variables.is_below c (ty.Array element.now) t.now) }
{
    let element = copied(alloc, element)?;
    let is = JavaType::Array(Boxed::new(alloc, element)?);
    type_is_below(alloc, g, &is, t)
}

/// Whether an object or array is below a type, by erasure. Takes memory only for arrays.
pub fn thing_is_below(
    alloc: Global,
    g: &Running<'_>,
    thing: &Thing,
    t: &JavaType,
) -> Result<bool, NoMemory>
    requires { IsReady g.now }
    ensures { Makes g.now result (λ c. variables.is_below c (type_of_thing thing.now) t.now) }
{
    match thing {
        Thing::Object { class, .. } => class_is_below(alloc, g, *class, t),
        Thing::Array { element, .. } => array_is_below(alloc, g, element, t),
    }
}

/// Whether a string is below a type, by erasure. Takes no memory.
pub fn text_is_below(alloc: Global, g: &Running<'_>, t: &JavaType) -> Result<bool, NoMemory>
    requires { IsReady g.now }
    ensures { Makes g.now result (λ c. variables.is_below c (ty.Class string_class []) t.now) }
{
    class_is_below(alloc, g, STRING, t)
}
