//! The types that declarations write.

ghost use Rattle.std.specs.Prelude.{◌≡◌, ◌++◌, map, filter, IfOk, OnOk};
ghost use Rattle.std.specs.List.{list_all};
ghost use Rattle.std.specs.Option.{option_map};
ghost use Rattle.java_tree.specs.View.{decl_plain, param_plain, type_plain};
ghost use Rattle.written_types.specs.Places.{Place, IsPlace};
ghost use Rattle.written_types.specs.Types as types;
ghost use Rattle.program_world.specs.ProgramWorld as spec;

use class_world::JavaType;
use java_tree::tree::{Param, TypeDecl, TypeExpr};
use java_tree::{Boxed, Items, NoMemory};
use std::alloc::Global;
use written_types::{Scope, read_type};

/// The type that a written type says, the null type where it says none.
fn read(alloc: Global, scope: &Scope<'_>, x: &TypeExpr) -> Result<JavaType, NoMemory>
    ensures { (p : Place) → IsPlace scope.now p → IfOk result (λ ty. ty ≡ spec.read p (type_plain x.now)) }
{
    let written = read_type(alloc, scope, x)?;
    Ok(written.unwrap_or(JavaType::Null))
}

/// The type that a member declares, by the written type and the array levels behind the member's name. It is always a type of the world: the null type where an argument within it is no reference type (JLS 4.5.1), as in no tree of the grammar.
pub(crate) fn member_type(
    alloc: Global,
    scope: &Scope<'_>,
    x: &TypeExpr,
    levels: u32,
) -> Result<JavaType, NoMemory>
    ensures { (p : Place) → IsPlace scope.now p → IfOk result (λ ty. ty ≡ spec.member_type p levels (type_plain x.now)) }
{
    let ty = read(alloc, scope, x)?;
    if !is_whole(&ty) {
        return Ok(JavaType::Null);
    }
    arrays(alloc, ty, levels)
}

pub(crate) fn read_result(
    alloc: Global,
    scope: &Scope<'_>,
    written: &Option<TypeExpr>,
) -> Result<Option<JavaType>, NoMemory>
    ensures { (p : Place) → IsPlace scope.now p → IfOk result (λ r. r ≡ option_map (spec.member_type p 0) (option_map type_plain written.now)) }
{
    match written {
        Some(x) => Ok(Some(member_type(alloc, scope, x, 0)?)),
        None => Ok(None),
    }
}

pub(crate) fn read_thrown(
    alloc: Global,
    scope: &Scope<'_>,
    xs: &[TypeExpr],
) -> Result<Items<JavaType>, NoMemory>
    ensures { (p : Place) → IsPlace scope.now p → IfOk result (λ tys. tys ≡ map (spec.member_type p 0) (map type_plain xs.now)) }
{
    let mut tys = Items::new(alloc);
    for x in xs {
        tys.push(member_type(alloc, scope, x, 0)?)?;
    }
    Ok(tys)
}

pub(crate) fn param_types(
    alloc: Global,
    scope: &Scope<'_>,
    params: &[Param],
) -> Result<Items<JavaType>, NoMemory>
    ensures { (p : Place) → IsPlace scope.now p → IfOk result (λ tys. tys ≡ map (spec.param_type p) (map param_plain params.now)) }
{
    let mut tys = Items::new(alloc);
    for param in params {
        tys.push(member_type(alloc, scope, &param.ty, param.dims)?)?;
    }
    Ok(tys)
}

/// So many array levels around a type.
fn arrays(alloc: Global, ty: JavaType, levels: u32) -> Result<JavaType, NoMemory>
    ensures { IfOk result (λ array. array ≡ types.arrays levels ty) }
{
    let mut array = ty;
    for _ in 0..levels {
        array = JavaType::Array(Boxed::new(alloc, array)?);
    }
    Ok(array)
}

/// The direct supertypes of a declared type in order: Object where a class writes no superclass (JLS 8.1.4), and then those that are written.
pub(crate) fn supers(
    alloc: Global,
    scope: &Scope<'_>,
    class: &TypeDecl,
) -> Result<Items<JavaType>, NoMemory>
    ensures { (p : Place) → IsPlace scope.now p → IfOk result (λ tys. tys ≡ spec.supers_of p (decl_plain class.now)) }
{
    let mut tys = implied_super(alloc, class)?;
    push_supers(alloc, scope, class.extends.as_slice(), &mut tys)?;
    push_supers(alloc, scope, class.implements.as_slice(), &mut tys)?;
    Ok(tys)
}

#[tactic(auto, using(crate::proofs::Supers::none_implied, crate::proofs::Supers::implied))]
fn implied_super(alloc: Global, class: &TypeDecl) -> Result<Items<JavaType>, NoMemory>
    ensures { IfOk result (λ tys. tys ≡ spec.implied_super class.now.interface (map type_plain class.now.extends)) }
{
    if class.interface || !class.extends.is_empty() {
        return Ok(Items::new(alloc));
    }
    Ok(Items::one(alloc, JavaType::Class(0, Items::new(alloc)))?)
}

fn push_supers(
    alloc: Global,
    scope: &Scope<'_>,
    xs: &[TypeExpr],
    tys: &mut Items<JavaType>,
) -> Result<(), NoMemory>
    ensures { OnOk result ((p : Place) → IsPlace scope.now p → tys.new ≡ tys.old ++ filter spec.is_super (map (spec.read p) (map type_plain xs.now))) }
{
    for x in xs {
        let ty = read(alloc, scope, x)?;
        if is_super(&ty) {
            tys.push(ty)?;
        }
    }
    Ok(())
}

/// Whether a type can stand as a supertype: a class or interface, with reference types as arguments at each depth (JLS 4.5.1).
fn is_super(ty: &JavaType) -> bool
    ensures { result ≡ spec.is_super ty.now }
{
    is_class(ty) && is_whole(ty)
}

fn is_class(ty: &JavaType) -> bool
    ensures { result ≡ spec.is_class ty.now }
{
    match ty {
        JavaType::Class(_, _) => true,
        JavaType::Prim(_) | JavaType::Null | JavaType::Var(_) | JavaType::Array(_) => false,
    }
}

/// Whether all arguments within a type are reference types.
#[cycle(whole)]
#[tactic(auto, using(crate::proofs::Supers::primitive_whole, crate::proofs::Supers::null_whole, crate::proofs::Supers::variable_whole))]
fn is_whole(ty: &JavaType) -> bool
    ensures { result ≡ (spec.argument ty.now).whole }
{
    match ty {
        JavaType::Prim(_) | JavaType::Var(_) => true,
        JavaType::Null => false,
        JavaType::Class(_, args) => are_whole(args.as_slice()),
        JavaType::Array(element) => is_whole(element.get()),
    }
}

/// Whether types are reference types, and all arguments within them.
#[cycle(whole)]
fn are_whole(args: &[JavaType]) -> bool
    ensures { result ≡ list_all spec.passes (map spec.argument args.now) }
{
    for arg in args {
        if !is_reference(arg) || !is_whole(arg) {
            return false;
        }
    }
    true
}

#[tactic(auto, using(crate::proofs::Supers::primitive_refers, crate::proofs::Supers::null_refers, crate::proofs::Supers::class_refers, crate::proofs::Supers::variable_refers, crate::proofs::Supers::array_refers))]
fn is_reference(ty: &JavaType) -> bool
    ensures { result ≡ (spec.argument ty.now).reference }
{
    match ty {
        JavaType::Prim(_) | JavaType::Null => false,
        JavaType::Class(_, _) | JavaType::Var(_) | JavaType::Array(_) => true,
    }
}
