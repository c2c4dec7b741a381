//! Signatures of methods as a type sees them (JLS 3rd edition, 8.4.2).

ghost use Rattle.std.specs.Prelude.{◌≡◌, ◌↔◌, ℕ, List, Some, IfOk, IfSome, IfNone, IsTrue, map, slice_get};
ghost use Rattle.std.specs.List.{Contains};
ghost use Rattle.class_world.specs.declared.world.MethodInfo.{MethodInfo};
ghost use Rattle.class_world.specs.declared.world.JavaType as types;
ghost use Rattle.class_world.specs.declared.world.JavaType.TheVariants as ty;
ghost use Rattle.class_world.specs.Types.{substitute};
ghost use Rattle.class_world.specs.Sound.{IsSound};
ghost use Rattle.seen_methods.specs.Seen.{TellsParams};
ghost use Rattle.member_methods.specs.Signed.{AreOwnNamed, AreSeen, HasCount, HasParams, IsOwnType, IsReplaced};
ghost use Rattle.member_methods.specs.SignatureSets.{HasSignaturesOf};

use crate::signature_set::SignatureSet;
use class_world::{JavaType, World, is_put, super_as};
use java_tree::{Items, NoMemory};
use seen_methods::seen_params;
use std::alloc::Global;

/// So many methods of one name and number of parameters are compared with each; of more a set is made.
const FEW: usize = 4;

/// A type with its own variables as arguments; `None` for a number of no type.
pub(crate) fn own_type(alloc: Global, w: &World, c: u32) -> Result<Option<JavaType>, NoMemory>
    ensures { IfOk result (λ o. IsOwnType w.now c o) }
{
    let Some(info) = w.types.get(c as usize) else {
        return Ok(None);
    };
    let mut args = Items::new(alloc);
    for k in 0..info.params {
        args.push(JavaType::Var(k))?;
    }
    Ok(Some(JavaType::Class(c, args)))
}

/// The arguments of the type `g` above the type `own`.
fn seen_with(
    alloc: Global,
    w: &World,
    own: &Option<JavaType>,
    g: u32,
) -> Result<Option<Items<JavaType>>, NoMemory>
    requires sound { IsSound w.now }
    requires own { (c : ℕ) × IsOwnType w.now c own.now }
    ensures { IfOk result (λ o. (c : ℕ) → IsOwnType w.now c own.now → AreSeen w.now c g o) }
{
    let Some(own) = own else {
        return Ok(None);
    };
    match super_as(alloc, w, own, g)? {
        Some(above) => Ok(arguments(w, g, above)),
        None => Ok(None),
    }
}

/// A type's arguments, where they are as many as the type `g` has parameters.
fn arguments(w: &World, g: u32, t: JavaType) -> Option<Items<JavaType>>
    ensures some { IfSome result (λ args. HasCount w.now g args × ((h : ℕ) × (t ≡ ty.Class h args))) }
    ensures none { IfNone result ((h : ℕ) (args : List types.JavaType) → t ≡ ty.Class h args → HasCount w.now g args → ⊥) }
{
    match t {
        JavaType::Class(_class, args) => {
            if has_params(w, g, args.len()) {
                Some(args)
            } else {
                None
            }
        }
        JavaType::Prim(_primitive) => None,
        JavaType::Null => None,
        JavaType::Var(_number) => None,
        JavaType::Array(_element) => None,
    }
}

/// Whether a type has so many parameters.
fn has_params(w: &World, g: u32, count: usize) -> bool
    ensures { IsTrue result ↔ HasParams w.now g count }
{
    match w.types.get(g as usize) {
        Some(info) => info.params as usize == count,
        None => false,
    }
}

/// Whether the arguments put for the variables of some types make them the others.
fn are_put(args: &[JavaType], xs: &[JavaType], ys: &[JavaType]) -> bool
    ensures { IsTrue result ↔ (map (substitute args.now) xs.now ≡ ys.now) }
{
    match xs.split_first() {
        None => ys.is_empty(),
        Some((x, xs)) => match ys.split_first() {
            None => false,
            Some((y, ys)) => is_put(args, x, y) && are_put(args, xs, ys),
        },
    }
}

/// Whether one of the methods has the parameter types `params` with the arguments put.
fn is_one_put(w: &World, methods: &[u32], args: &[JavaType], params: &[JavaType]) -> bool
    ensures { IsTrue result ↔ ((k : ℕ) × Contains methods.now k × (info : MethodInfo) × (slice_get w.now.methods k ≡ Some info) × (map (substitute args.now) params.now ≡ info.params)) }
{
    for k in methods {
        if let Some(info) = w.methods.get(*k as usize) {
            if are_put(args, params, info.params.as_slice()) {
                return true;
            }
        }
    }
    false
}

/// Whether one of the type's own methods has the signature of a method of a type above it. All have one name and one number of parameters.
fn is_replaced(
    alloc: Global,
    w: &World,
    own: &Option<JavaType>,
    methods: &[u32],
    m: u32,
) -> Result<bool, NoMemory>
    requires sound { IsSound w.now }
    requires own { (c : ℕ) × IsOwnType w.now c own.now }
    ensures { IfOk result (λ r. (c : ℕ) → IsOwnType w.now c own.now → AreOwnNamed w.now c methods.now m → IsTrue r ↔ IsReplaced w.now c methods.now m) }
{
    let Some(info) = w.methods.get(m as usize) else {
        return Ok(false);
    };
    match seen_with(alloc, w, own, info.owner)? {
        Some(args) => Ok(is_one_put(w, methods, args.as_slice(), info.params.as_slice())),
        None => Ok(false),
    }
}

/// The parameter types of a method as the type `own` sees them; `None` where it does not see it.
fn params_in(
    alloc: Global,
    w: &World,
    own: &Option<JavaType>,
    m: u32,
) -> Result<Option<Items<JavaType>>, NoMemory>
    requires { IsSound w.now }
    ensures { IfOk result (λ o. (c : ℕ) → IsOwnType w.now c own.now → TellsParams w.now c m o) }
{
    match own {
        Some(JavaType::Class(c, _)) => seen_params(alloc, w, *c, m),
        _ => Ok(None),
    }
}

/// Whether the set of the signatures of the type's own methods has that of a method of a type above it.
fn is_in_set(
    alloc: Global,
    w: &World,
    own: &Option<JavaType>,
    set: &SignatureSet,
    m: u32,
) -> Result<bool, NoMemory>
    requires { IsSound w.now }
    ensures { IfOk result (λ r. (c : ℕ) (methods : List ℕ) → IsOwnType w.now c own.now → HasSignaturesOf w.now methods set.now → AreOwnNamed w.now c methods m → IsTrue r ↔ IsReplaced w.now c methods m) }
{
    let Some(info) = w.methods.get(m as usize) else {
        return Ok(false);
    };
    let Some(params) = params_in(alloc, w, own, m)? else {
        return Ok(false);
    };
    Ok(set.has(info.name, params.as_slice()))
}

/// The signatures of more than a few methods.
fn set_of_many(alloc: Global, w: &World, methods: &[u32]) -> Result<Option<SignatureSet>, NoMemory>
    ensures { IfOk result (λ o. IfSome o (HasSignaturesOf w.now methods.now)) }
{
    if methods.len() <= FEW {
        return Ok(None);
    }
    let set = SignatureSet::of(alloc, w, methods)?;
    Ok(Some(set))
}

/// The same as `is_replaced`, by the set of the own methods' signatures where there is one.
fn is_taken_out(
    alloc: Global,
    w: &World,
    own: &Option<JavaType>,
    methods: &[u32],
    set: &Option<SignatureSet>,
    m: u32,
) -> Result<bool, NoMemory>
    requires sound { IsSound w.now }
    requires own { (c : ℕ) × IsOwnType w.now c own.now }
    requires set { IfSome set.now (HasSignaturesOf w.now methods.now) }
    ensures { IfOk result (λ r. (c : ℕ) → IsOwnType w.now c own.now → AreOwnNamed w.now c methods.now m → IsTrue r ↔ IsReplaced w.now c methods.now m) }
{
    match set {
        Some(set) => is_in_set(alloc, w, own, set, m),
        None => is_replaced(alloc, w, own, methods, m),
    }
}

/// The same as `kept`, with the set of the own methods' signatures if there is one.
fn kept_by(
    alloc: Global,
    w: &World,
    own: &Option<JavaType>,
    methods: &[u32],
    set: &Option<SignatureSet>,
    above: &[u32],
) -> Result<Vec<u32>, NoMemory>
    requires sound { IsSound w.now }
    requires own { (c : ℕ) × IsOwnType w.now c own.now }
    requires set { IfSome set.now (HasSignaturesOf w.now methods.now) }
    ensures { IfOk result (λ v. (c : ℕ) → IsOwnType w.now c own.now → ((m : ℕ) → Contains above.now m → AreOwnNamed w.now c methods.now m) → (m : ℕ) → Contains v.items m ↔ (Contains above.now m × (IsReplaced w.now c methods.now m → ⊥))) }
{
    let mut kept = Vec::new(alloc);
    for m in above {
        if !is_taken_out(alloc, w, own, methods, set, *m)? {
            kept.push(*m)?;
        }
    }
    Ok(kept)
}

/// The methods of types above a type whose signature none of its own methods has. All have one name and one number of parameters.
///
/// Takes time for the parts of the parameter types of both, and for each method from above what it takes to find the arguments of its type; not for their pairs.
pub(crate) fn kept(
    alloc: Global,
    w: &World,
    own: &Option<JavaType>,
    methods: &[u32],
    above: &[u32],
) -> Result<Vec<u32>, NoMemory>
    requires sound { IsSound w.now }
    requires own { (c : ℕ) × IsOwnType w.now c own.now }
    ensures { IfOk result (λ v. (c : ℕ) → IsOwnType w.now c own.now → ((m : ℕ) → Contains above.now m → AreOwnNamed w.now c methods.now m) → (m : ℕ) → Contains v.items m ↔ (Contains above.now m × (IsReplaced w.now c methods.now m → ⊥))) }
{
    let set = set_of_many(alloc, w, methods)?;
    kept_by(alloc, w, own, methods, &set, above)
}
