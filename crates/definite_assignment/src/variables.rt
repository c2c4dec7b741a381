//! Lists of variables that are not definitely assigned, each once.

ghost use Rattle.std.specs.Prelude.{◌≡◌, IfOk, OnOk};
ghost use Rattle.definite_assignment.specs.Variables as spec;

use crate::state::Variable;
use java_tree::{Items, NoMemory};
use std::alloc::Global;

/// Whether two are the same variable: a blank field by its number alone.
fn is_same(x: Variable, y: Variable) -> bool
    ensures { result ≡ spec.is_same x y }
{
    match (x, y) {
        (Variable::Local(j), Variable::Local(k)) => j == k,
        (Variable::Blank { field: f, .. }, Variable::Blank { field: g, .. }) => f == g,
        _ => false,
    }
}

pub(crate) fn has(xs: &[Variable], x: Variable) -> bool
    ensures { result ≡ spec.has xs.now x }
{
    for y in xs {
        if is_same(*y, x) {
            return true;
        }
    }
    false
}

/// Puts a variable on a list that does not have it.
pub(crate) fn add(xs: &mut Items<Variable>, x: Variable) -> Result<(), NoMemory>
    ensures { OnOk result (xs.new ≡ spec.with_one xs.old x) }
{
    if has(xs.as_slice(), x) {
        return Ok(());
    }
    xs.push(x)?;
    Ok(())
}

/// Puts those of a second list on a first.
pub(crate) fn unite(xs: &mut Items<Variable>, ys: &[Variable]) -> Result<(), NoMemory>
    ensures { OnOk result (xs.new ≡ spec.either xs.old ys.now) }
{
    for y in ys {
        add(xs, *y)?;
    }
    Ok(())
}

/// A list without a variable.
pub(crate) fn without(
    alloc: Global,
    xs: &[Variable],
    x: Variable,
) -> Result<Items<Variable>, NoMemory>
    ensures { IfOk result (λ ys. ys ≡ spec.without xs.now x) }
{
    let mut kept = Items::new(alloc);
    for y in xs {
        if !is_same(*y, x) {
            kept.push(*y)?;
        }
    }
    Ok(kept)
}

/// Those of the second list that the first has too.
pub(crate) fn both(
    alloc: Global,
    xs: &[Variable],
    ys: &[Variable],
) -> Result<Items<Variable>, NoMemory>
    ensures { IfOk result (λ zs. zs ≡ spec.both xs.now ys.now) }
{
    let mut kept = Items::new(alloc);
    for x in xs {
        if has(ys, *x) {
            kept.push(*x)?;
        }
    }
    Ok(kept)
}
