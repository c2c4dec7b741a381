//! Constant tests: `true` and `false`, also in brackets (JLS 15.28).

ghost use Rattle.std.specs.Prelude.{◌≡◌};
ghost use Rattle.std.specs.Option.{option_map};
ghost use Rattle.java_core.specs.View.{plain};
ghost use Rattle.reachability.specs.Reached as spec;

use java_core::{CoreExpr, CoreForm};

/// Whether two truth values are the same.
pub fn is_same_truth(b: bool, c: bool) -> bool
    ensures { result ≡ spec.is_same_truth b c }
{
    if b { c } else { !c }
}

/// Whether an expression is this constant.
#[cycle(is_constant)]
pub(crate) fn is_constant(b: bool, x: &CoreExpr) -> bool
    ensures { result ≡ spec.is_constant b (plain x.now) }
{
    match &x.form {
        CoreForm::Truth(c) => is_same_truth(b, *c),
        CoreForm::Paren(x) => is_constant(b, x.get()),
        _ => false,
    }
}

/// Whether a loop goes on for ever, unless a jump leaves it: without a test, or with one that is always true.
pub(crate) fn is_endless(test: &Option<CoreExpr>) -> bool
    ensures { result ≡ spec.is_endless (option_map plain test.now) }
{
    match test {
        None => true,
        Some(x) => is_constant(true, x),
    }
}

/// Whether the body of a loop is never run.
pub(crate) fn is_never(test: &Option<CoreExpr>) -> bool
    ensures { result ≡ spec.is_never (option_map plain test.now) }
{
    match test {
        None => false,
        Some(x) => is_constant(false, x),
    }
}
