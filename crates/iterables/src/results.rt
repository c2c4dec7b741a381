//! The results of methods, as a type sees them.

ghost use Rattle.std.specs.Prelude.{◌≡◌, ℕ, ◌↔◌, IsTrue, IfSome, IfNone, IfOk, Some};
ghost use Rattle.class_world.specs.Sound.{IsSound};
ghost use Rattle.class_world.specs.declared.world.JavaType.TheVariants as ty;
ghost use Rattle.seen_methods.specs.Seen.{HasResult};
ghost use Rattle.iterables.specs.Walks.{iterator_type};
ghost use Rattle.iterables.specs.Told.{FindsOne, Gives, GivesIterator};

use class_world::{JavaType, World, is_same};
use java_tree::NoMemory;
use seen_methods::seen_result;
use std::alloc::Global;

/// The result of the method `m` as the type `c` sees it, if it has one.
fn given(alloc: Global, w: &World, c: u32, m: u32) -> Result<Option<JavaType>, NoMemory>
    requires { IsSound w.now }
    ensures { IfOk result (FindsOne (Gives w.now c m)) }
{
    match seen_result(alloc, w, c, m)? {
        Some(r) => Ok(r),
        None => Ok(None),
    }
}

/// Whether the method `m` has this result, as the type `c` sees it.
pub(crate) fn has_result(
    alloc: Global,
    w: &World,
    c: u32,
    m: u32,
    t: &JavaType,
) -> Result<bool, NoMemory>
    requires { IsSound w.now }
    ensures { IfOk result (λ r. IsTrue r ↔ HasResult w.now c m (Some t.now)) }
{
    match given(alloc, w, c, m)? {
        Some(r) => Ok(is_same(&r, t)),
        None => Ok(false),
    }
}

fn is_first_variable(t: &JavaType) -> bool
    ensures { IsTrue result ↔ (t.now ≡ ty.Var 0) }
{
    match t {
        JavaType::Var(k) => *k == 0,
        _ => false,
    }
}

/// The class of a type whose only argument is the first variable.
fn class_of_first(t: &JavaType) -> Option<u32>
    ensures some { IfSome result (λ d. t.now ≡ iterator_type d) }
    ensures none { IfNone result ((d : ℕ) → t.now ≡ iterator_type d → ⊥) }
{
    match t {
        JavaType::Class(d, args) => match args.as_slice() {
            [x] => { if is_first_variable(x) { Some(*d) } else { None } }
            _ => None,
        },
        _ => None,
    }
}

/// The class of the result of the method `m`, where its only argument is the first variable of the type `c`, which sees it.
pub(crate) fn iterator_given(
    alloc: Global,
    w: &World,
    c: u32,
    m: u32,
) -> Result<Option<u32>, NoMemory>
    requires { IsSound w.now }
    ensures { IfOk result (FindsOne (GivesIterator w.now c m)) }
{
    match given(alloc, w, c, m)? {
        Some(r) => Ok(class_of_first(&r)),
        None => Ok(None),
    }
}
