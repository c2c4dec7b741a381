//! Methods of one signature (JLS 3rd edition, 8.4.2).

ghost use Rattle.std.specs.Prelude.{◌↔◌, IsTrue, IfOk, IfSome};
ghost use Rattle.class_world.specs.Sound.{IsSound};
ghost use Rattle.class_world.specs.Signatures.{AgreeBelow, HaveOneName, HaveOneSignatureIn};

use crate::below::{is_seen, method_of};
use crate::closed::{are_closed, are_same};
use crate::scopes::is_scoped;
use crate::seen::seen_params;
use class_world::World;
use java_tree::NoMemory;
use std::alloc::Global;

fn have_one_name(w: &World, m: u32, k: u32) -> bool
    ensures { IsTrue result ↔ HaveOneName w.now m k }
{
    match method_of(w, m) {
        Some(i) => match method_of(w, k) {
            Some(j) => i.name == j.name,
            None => false,
        },
        None => false,
    }
}

/// Whether two methods have one signature in the type `c`.
pub fn have_one_signature(
    alloc: Global,
    w: &World,
    c: u32,
    m: u32,
    k: u32,
) -> Result<bool, NoMemory>
    requires { IsSound w.now }
    ensures { IfOk result (λ r. IsTrue r ↔ HaveOneSignatureIn w.now c m k) }
{
    if !have_one_name(w, m, k) {
        return Ok(false);
    }
    let Some(xs) = seen_params(alloc, w, c, m)? else {
        return Ok(false);
    };
    let Some(ys) = seen_params(alloc, w, c, k)? else {
        return Ok(false);
    };
    Ok(are_same(xs.as_slice(), ys.as_slice()))
}

/// Whether two methods have one name and the same parameter types, which hold no type variable.
fn are_alike(w: &World, m: u32, k: u32) -> bool
    ensures { IsTrue result → AgreeBelow w.now m k }
{
    match method_of(w, m) {
        Some(i) => match method_of(w, k) {
            Some(j) => {
                i.name == j.name
                    && are_same(i.params.as_slice(), j.params.as_slice())
                    && are_closed(i.params.as_slice())
            }
            None => false,
        },
        None => false,
    }
}

/// Whether two methods agree in each type below both, where the type that declares `m` is that of `k` or below it. `None` where it is not, and where that one type cannot tell.
///
/// A type below both is below the one of `m`, and sees of both what this one sees, with arguments put.
fn agree_in_lower(alloc: Global, w: &World, m: u32, k: u32) -> Result<Option<bool>, NoMemory>
    requires { IsSound w.now }
    ensures { IfOk result (λ o. IfSome o (λ r. IsTrue r ↔ AgreeBelow w.now m k)) }
{
    let Some(info) = method_of(w, m) else {
        return Ok(None);
    };
    if !is_seen(w, info.owner, k) {
        return Ok(None);
    }
    if !have_one_signature(alloc, w, info.owner, m, k)? {
        return Ok(Some(false));
    }
    if is_scoped(w, m) && is_scoped(w, k) {
        Ok(Some(true))
    } else {
        Ok(None)
    }
}

/// Whether two methods agree in each type below both, by a look at every type.
fn agree_everywhere(alloc: Global, w: &World, m: u32, k: u32) -> Result<bool, NoMemory>
    requires { IsSound w.now }
    ensures { IfOk result (λ r. IsTrue r ↔ AgreeBelow w.now m k) }
{
    // More types than numbers find no room in the memory of any machine.
    if w.types.len() > u32::MAX as usize {
        return Err(NoMemory);
    }
    for c in 0..w.types.len() as u32 {
        if is_seen(w, c, m) && is_seen(w, c, k) && !have_one_signature(alloc, w, c, m, k)? {
            return Ok(false);
        }
    }
    Ok(true)
}

/// Whether two methods have one signature in each type below those that declare them.
///
/// Where they have one name and the same parameter types without variables, that is so at once. Where one is declared below the other, the lower type tells, in the time of `have_one_signature`. Else the time is that of a look at two bits of every type, and of `have_one_signature` in each below both: that is for pairs with variables, which types have from two sides.
pub fn agree_below(alloc: Global, w: &World, m: u32, k: u32) -> Result<bool, NoMemory>
    requires { IsSound w.now }
    ensures { IfOk result (λ r. IsTrue r ↔ AgreeBelow w.now m k) }
{
    if are_alike(w, m, k) {
        return Ok(true);
    }
    if let Some(agree) = agree_in_lower(alloc, w, m, k)? {
        return Ok(agree);
    }
    if let Some(agree) = agree_in_lower(alloc, w, k, m)? {
        return Ok(agree);
    }
    agree_everywhere(alloc, w, m, k)
}
