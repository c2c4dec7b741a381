//! The parameter types and the result of a method, as a type sees them.

ghost use Rattle.std.specs.Prelude.{◌≡◌, List, Some, IfOk, IfSome, IfNone, slice_get};
ghost use Rattle.class_world.specs.Types.{with_own};
ghost use Rattle.class_world.specs.Sound.{IsSound};
ghost use Rattle.class_world.specs.Signatures.{IsSeenWith};
ghost use Rattle.class_world.specs.declared.world.JavaType as types;
ghost use Rattle.class_world.specs.declared.world.TypeInfo as infos;
ghost use Rattle.seen_methods.specs.Seen.{TellsParams, TellsResult};

use crate::below::{is_above, method_of};
use crate::puts::{all_substituted, substituted};
use class_world::{JavaType, World, super_as};
use java_tree::{Items, NoMemory};
use std::alloc::Global;

/// The type `c` with its own variables as arguments.
fn own_type(alloc: Global, w: &World, c: u32) -> Result<JavaType, NoMemory>
    ensures { IfOk result (λ t. (info : infos.TypeInfo) → slice_get w.now.types c ≡ Some info → t ≡ with_own c info.params) }
{
    let mut xs = Items::new(alloc);
    for k in 0..count_of(w, c) {
        xs.push(JavaType::Var(k))?;
    }
    Ok(JavaType::Class(c, xs))
}

/// How many parameters a type has.
fn count_of(w: &World, c: u32) -> u32
    ensures { (info : infos.TypeInfo) → slice_get w.now.types c ≡ Some info → result ≡ info.params }
{
    match w.types.get(c as usize) {
        Some(info) => info.params,
        None => 0,
    }
}

/// The arguments of the type `g` where it is above the type `c` with its own variables, or is it.
fn seen_with(alloc: Global, w: &World, c: u32, g: u32) -> Result<Option<Items<JavaType>>, NoMemory>
    requires { IsSound w.now }
    ensures some { IfOk result (λ o. IfSome o (λ xs. IsSeenWith w.now c g xs)) }
    ensures none { IfOk result (λ o. IfNone o ((xs : List types.JavaType) → IsSeenWith w.now c g xs → ⊥)) }
{
    if !is_above(w, c, g) {
        return Ok(None);
    }
    if count_of(w, g) == 0 {
        return Ok(Some(Items::new(alloc)));
    }
    let own = own_type(alloc, w, c)?;
    match super_as(alloc, w, &own, g)? {
        Some(t) => match t {
            JavaType::Class(_, args) => Ok(Some(args)),
            _ => Ok(None),
        },
        None => Ok(None),
    }
}

/// The parameter types of the method `m` as the type `c` with its own variables sees them; `None` where `c` is not below the type that declares it, nor is it, and for a constructor.
pub fn seen_params(
    alloc: Global,
    w: &World,
    c: u32,
    m: u32,
) -> Result<Option<Items<JavaType>>, NoMemory>
    requires { IsSound w.now }
    ensures { IfOk result (λ o. TellsParams w.now c m o) }
{
    let Some(info) = method_of(w, m) else {
        return Ok(None);
    };
    let Some(args) = seen_with(alloc, w, c, info.owner)? else {
        return Ok(None);
    };
    let params = all_substituted(alloc, args.as_slice(), info.params.as_slice())?;
    Ok(Some(params))
}

/// The result of the method `m` as the type `c` sees it, `None` for void; the outer `None` where `seen_params` has one.
pub fn seen_result(
    alloc: Global,
    w: &World,
    c: u32,
    m: u32,
) -> Result<Option<Option<JavaType>>, NoMemory>
    requires { IsSound w.now }
    ensures { IfOk result (λ o. TellsResult w.now c m o) }
{
    let Some(info) = method_of(w, m) else {
        return Ok(None);
    };
    let Some(args) = seen_with(alloc, w, c, info.owner)? else {
        return Ok(None);
    };
    match &info.result {
        None => Ok(Some(None)),
        Some(t) => {
            let t = substituted(alloc, args.as_slice(), t)?;
            Ok(Some(Some(t)))
        }
    }
}
