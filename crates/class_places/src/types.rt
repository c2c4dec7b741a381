//! Places in written types (JLS 4.3, 4.5.1).

ghost use Rattle.std.specs.Prelude.{◌≡◌, IfOk, map};
ghost use Rattle.std.specs.Option.{option_map};
ghost use Rattle.java_core.specs.View.{type_row, written};
ghost use Rattle.class_places.specs.Places as spec;

use crate::places::ClassPlace;
use class_world::JavaType;
use java_core::CoreType;
use java_tree::{Items, NoMemory};

/// The class or interface at the head of a type, by number, below its array levels (JLS 10.1).
fn head_class(ty: &JavaType) -> Option<u32>
    ensures { result ≡ spec.head_class ty.now }
{
    match ty {
        JavaType::Prim(_) => None,
        JavaType::Null => None,
        JavaType::Class(class, _) => Some(*class),
        JavaType::Var(_) => None,
        JavaType::Array(item) => head_class(item.get()),
    }
}

fn is_named(class: u32, ty: &JavaType) -> bool
    ensures { result ≡ spec.is_named class ty.now }
{
    match head_class(ty) {
        None => false,
        Some(named) => named == class,
    }
}

/// The head itself, where it names the class.
#[tactic(auto, using(java_core::proofs::Views::type_out))]
fn put_head(
    class: u32,
    ty: &CoreType,
    places: Items<ClassPlace>,
) -> Result<Items<ClassPlace>, NoMemory>
    ensures { IfOk result (λ r. r ≡ spec.put_head class (written ty.now) places) }
{
    if is_named(class, &ty.ty) {
        let mut places = places;
        places.push(ClassPlace {
            node: ty.node.id,
            head: ty.head,
        })?;
        return Ok(places);
    }
    Ok(places)
}

/// In a type whose head is a place where it names the class: the head, then its arguments.
#[cycle(in_type)]
pub(crate) fn in_type(
    class: u32,
    ty: &CoreType,
    places: Items<ClassPlace>,
) -> Result<Items<ClassPlace>, NoMemory>
    ensures { IfOk result (λ r. r ≡ spec.in_type class (written ty.now) places) }
{
    let places = put_head(class, ty, places)?;
    in_types(class, ty.args.as_slice(), places)
}

#[cycle(in_type)]
fn in_types(
    class: u32,
    types: &[CoreType],
    mut places: Items<ClassPlace>,
) -> Result<Items<ClassPlace>, NoMemory>
    ensures { IfOk result (λ r. r ≡ spec.in_types class (type_row (map written types.now)) places) }
{
    for ty in types {
        places = in_type(class, ty, places)?;
    }
    Ok(places)
}

/// In the arguments of a type whose own head is no place.
#[tactic(auto, using(java_core::proofs::Views::type_out))]
pub(crate) fn in_args(
    class: u32,
    ty: &CoreType,
    places: Items<ClassPlace>,
) -> Result<Items<ClassPlace>, NoMemory>
    ensures { IfOk result (λ r. r ≡ spec.in_args class (written ty.now) places) }
{
    in_types(class, ty.args.as_slice(), places)
}

/// The same of each of several types.
pub(crate) fn in_all_args(
    class: u32,
    types: &[CoreType],
    mut places: Items<ClassPlace>,
) -> Result<Items<ClassPlace>, NoMemory>
    ensures { IfOk result (λ r. r ≡ spec.in_all_args class (map written types.now) places) }
{
    for ty in types {
        places = in_args(class, ty, places)?;
    }
    Ok(places)
}

/// The type of a result, where there is one.
pub(crate) fn in_result(
    class: u32,
    ty: &Option<CoreType>,
    places: Items<ClassPlace>,
) -> Result<Items<ClassPlace>, NoMemory>
    ensures { IfOk result (λ r. r ≡ spec.in_result class (option_map written ty.now) places) }
{
    match ty {
        None => Ok(places),
        Some(ty) => in_type(class, ty, places),
    }
}
