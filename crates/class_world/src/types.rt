//! Types compared, and made of others (JLS 3rd edition, 4.5 and 4.6).

ghost use Rattle.std.specs.Prelude.{◌≡◌, ◌↔◌, IsTrue, IfOk, map};
ghost use Rattle.class_world.specs.Types.{erased, substitute};

use crate::world::JavaType;
use java_tree::{Boxed, Items, NoMemory};
use std::alloc::Global;

/// The erasure of a type (JLS 4.6).
pub fn erase(alloc: Global, t: &JavaType) -> Result<JavaType, NoMemory>
    ensures { IfOk result (λ r. r ≡ erased t.now) }
{
    match t {
        JavaType::Prim(p) => Ok(JavaType::Prim(*p)),
        JavaType::Null => Ok(JavaType::Null),
        JavaType::Class(c, _) => Ok(JavaType::Class(*c, Items::new(alloc))),
        JavaType::Var(_) => Ok(JavaType::Class(0, Items::new(alloc))),
        JavaType::Array(element) => {
            let element = erase(alloc, element.get())?;
            Ok(JavaType::Array(Boxed::new(alloc, element)?))
        }
    }
}

/// Whether two types are the same.
#[cycle(same)]
pub fn is_same(s: &JavaType, t: &JavaType) -> bool
    ensures { IsTrue result ↔ (s.now ≡ t.now) }
{
    match s {
        JavaType::Prim(p) => match t {
            JavaType::Prim(q) => p == q,
            _ => false,
        },
        JavaType::Null => match t {
            JavaType::Null => true,
            _ => false,
        },
        JavaType::Class(c, xs) => match t {
            JavaType::Class(d, ys) => c == d && are_same(xs.as_slice(), ys.as_slice()),
            _ => false,
        },
        JavaType::Var(j) => match t {
            JavaType::Var(k) => j == k,
            _ => false,
        },
        JavaType::Array(x) => match t {
            JavaType::Array(y) => is_same(x.get(), y.get()),
            _ => false,
        },
    }
}

#[cycle(same)]
fn are_same(xs: &[JavaType], ys: &[JavaType]) -> bool
    ensures { IsTrue result ↔ (xs.now ≡ ys.now) }
{
    match xs.split_first() {
        None => ys.is_empty(),
        Some((x, xs)) => match ys.split_first() {
            None => false,
            Some((y, ys)) => is_same(x, y) && are_same(xs, ys),
        },
    }
}

/// Whether the arguments put for the variables of `s` make it `t`.
#[cycle(is_put)]
pub fn is_put(args: &[JavaType], s: &JavaType, t: &JavaType) -> bool
    ensures { IsTrue result ↔ (substitute args.now s.now ≡ t.now) }
{
    match s {
        JavaType::Prim(p) => match t {
            JavaType::Prim(q) => p == q,
            _ => false,
        },
        JavaType::Null => match t {
            JavaType::Null => true,
            _ => false,
        },
        JavaType::Class(c, xs) => match t {
            JavaType::Class(d, ys) => c == d && are_put(args, xs.as_slice(), ys.as_slice()),
            _ => false,
        },
        JavaType::Var(k) => match args.get(*k as usize) {
            Some(a) => is_same(a, t),
            None => is_same(s, t),
        },
        JavaType::Array(x) => match t {
            JavaType::Array(y) => is_put(args, x.get(), y.get()),
            _ => false,
        },
    }
}

#[cycle(is_put)]
fn are_put(args: &[JavaType], xs: &[JavaType], ys: &[JavaType]) -> bool
    ensures { IsTrue result ↔ (map (substitute args.now) xs.now ≡ ys.now) }
{
    match xs.split_first() {
        None => ys.is_empty(),
        Some((x, xs)) => match ys.split_first() {
            None => false,
            Some((y, ys)) => is_put(args, x, y) && are_put(args, xs, ys),
        },
    }
}

/// The same type in other memory.
#[cycle(copied)]
pub fn copied(alloc: Global, t: &JavaType) -> Result<JavaType, NoMemory>
    ensures { IfOk result (λ r. r ≡ t.now) }
{
    match t {
        JavaType::Prim(p) => Ok(JavaType::Prim(*p)),
        JavaType::Null => Ok(JavaType::Null),
        JavaType::Class(c, xs) => Ok(JavaType::Class(*c, all_copied(alloc, xs.as_slice())?)),
        JavaType::Var(k) => Ok(JavaType::Var(*k)),
        JavaType::Array(element) => {
            let element = copied(alloc, element.get())?;
            Ok(JavaType::Array(Boxed::new(alloc, element)?))
        }
    }
}

#[cycle(copied)]
fn all_copied(alloc: Global, xs: &[JavaType]) -> Result<Items<JavaType>, NoMemory>
    ensures { IfOk result (λ ys. ys ≡ xs.now) }
{
    let mut ys = Items::new(alloc);
    for x in xs {
        ys.push(copied(alloc, x)?)?;
    }
    Ok(ys)
}

/// The type with the arguments put for its variables (JLS 4.5.2).
#[cycle(substituted)]
pub fn substituted(alloc: Global, args: &[JavaType], t: &JavaType) -> Result<JavaType, NoMemory>
    ensures { IfOk result (λ r. r ≡ substitute args.now t.now) }
{
    match t {
        JavaType::Prim(p) => Ok(JavaType::Prim(*p)),
        JavaType::Null => Ok(JavaType::Null),
        JavaType::Class(c, xs) => Ok(JavaType::Class(
            *c,
            all_substituted(alloc, args, xs.as_slice())?,
        )),
        JavaType::Var(k) => match args.get(*k as usize) {
            Some(a) => copied(alloc, a),
            None => copied(alloc, t),
        },
        JavaType::Array(element) => {
            let element = substituted(alloc, args, element.get())?;
            Ok(JavaType::Array(Boxed::new(alloc, element)?))
        }
    }
}

#[cycle(substituted)]
fn all_substituted(
    alloc: Global,
    args: &[JavaType],
    xs: &[JavaType],
) -> Result<Items<JavaType>, NoMemory>
    ensures { IfOk result (λ ys. ys ≡ map (substitute args.now) xs.now) }
{
    let mut ys = Items::new(alloc);
    for x in xs {
        ys.push(substituted(alloc, args, x)?)?;
    }
    Ok(ys)
}
