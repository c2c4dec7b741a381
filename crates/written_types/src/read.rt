//! The type that a written type says.

ghost use Rattle.std.specs.Prelude.{◌≡◌, map, length, Some, IfOk};
ghost use Rattle.java_tree.specs.View as view;
ghost use Rattle.java_tree.specs.View.{type_plain};
ghost use Rattle.written_types.specs.Places.{Place, IsPlace};
ghost use Rattle.written_types.specs.Types as spec;
ghost use Rattle.written_types.specs.Walk.{made_by};

use crate::scope::{Named, Scope};
use class_world::JavaType;
use java_tree::tree::{Head, TypeExpr};
use java_tree::{Boxed, Items, NoMemory};
use std::alloc::Global;

/// The type that a written type says, `None` where it or a type within it names none (DR1). `NoMemory` also where a type parameter stands behind 2^32 others.
#[cycle(types)]
#[tactic(auto, using(crate::proofs::Steps::type_said))]
pub fn read_type(
    alloc: Global,
    scope: &Scope<'_>,
    x: &TypeExpr,
) -> Result<Option<JavaType>, NoMemory>
    ensures { (p : Place) → IsPlace scope.now p → IfOk result (λ r. r ≡ spec.type_of p (type_plain x.now)) }
{
    let Some(args) = read_types(alloc, scope, &x.args)? else {
        return Ok(None);
    };
    match head_type(scope, &x.head, args)? {
        None => Ok(None),
        Some(ty) => Ok(Some(with_levels(alloc, ty, x.dims)?)),
    }
}

/// The types that those of a list say, if each says one.
#[cycle(types)]
fn read_types(
    alloc: Global,
    scope: &Scope<'_>,
    xs: &Items<TypeExpr>,
) -> Result<Option<Items<JavaType>>, NoMemory>
    ensures { (p : Place) → IsPlace scope.now p → IfOk result (λ r. r ≡ spec.types_of p (view.types (map type_plain xs.now))) }
{
    let mut types = Items::new(alloc);
    for x in xs.as_slice() {
        match read_type(alloc, scope, x)? {
            None => return Ok(None),
            Some(ty) => types.push(ty)?,
        }
    }
    Ok(Some(types))
}

#[tactic(auto, using(crate::proofs::Typing::head_as))]
fn head_type(
    scope: &Scope<'_>,
    head: &Head,
    args: Items<JavaType>,
) -> Result<Option<JavaType>, NoMemory>
    ensures { (p : Place) → IsPlace scope.now p → IfOk result (λ r. r ≡ spec.head_type p head.now args) }
{
    let named = scope.head_named(head);
    if !scope.is_well_named(named, args.len()) {
        return Ok(None);
    }
    made(named, args)
}

/// The type that is named, with these arguments.
fn made(named: Named, args: Items<JavaType>) -> Result<Option<JavaType>, NoMemory>
    ensures { IfOk result (λ r. r ≡ made_by named args) }
{
    match named {
        Named::Primitive(p) => Ok(Some(JavaType::Prim(p))),
        Named::Variable(at) => {
            let Ok(at) = u32::try_from(at) else {
                return Err(NoMemory);
            };
            Ok(Some(JavaType::Var(at)))
        }
        Named::Type(number) => Ok(Some(JavaType::Class(number, args))),
        Named::Nothing => Ok(None),
    }
}

/// Array levels around a type.
fn with_levels(alloc: Global, ty: JavaType, levels: u32) -> Result<JavaType, NoMemory>
    ensures { IfOk result (λ r. r ≡ spec.arrays levels ty) }
{
    let mut ty = ty;
    for _ in 0..levels {
        ty = JavaType::Array(Boxed::new(alloc, ty)?);
    }
    Ok(ty)
}
