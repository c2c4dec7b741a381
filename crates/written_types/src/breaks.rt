//! The rule on written types.

ghost use Rattle.std.specs.Prelude.{◌≡◌, map};
ghost use Rattle.java_tree.specs.View as view;
ghost use Rattle.java_tree.specs.View.{type_plain};
ghost use Rattle.rule_order.specs.First.{IsFirst};
ghost use Rattle.written_types.specs.Places.{Place, IsPlace};
ghost use Rattle.written_types.specs.Breaks.{IllNamed};
ghost use Rattle.written_types.specs.Walk as spec;

use crate::scope::Scope;
use java_tree::tree::TypeExpr;
use rule_order::{Breach, noted};

/// DR1: the first node, of a written type or within it, that names no type. A name that means a type has no arguments or as many as the type has parameters.
pub fn first_ill_named(scope: &Scope<'_>, x: &TypeExpr) -> Option<Breach>
    ensures { (p : Place) → IsPlace scope.now p → IsFirst (IllNamed p (type_plain x.now)) result }
{
    let first = noted(None, 1, x.node, is_ill_named(scope, x));
    note_types(scope, x.args.as_slice(), first)
}

// The first broken rule so far, over these types and their arguments.
fn note_types(scope: &Scope<'_>, xs: &[TypeExpr], mut first: Option<Breach>) -> Option<Breach>
    ensures { (p : Place) → IsPlace scope.now p → result ≡ spec.types p (view.types (map type_plain xs.now)) first }
{
    for x in xs {
        first = noted(first, 1, x.node, is_ill_named(scope, x));
        first = note_types(scope, x.args.as_slice(), first);
    }
    first
}

#[tactic(auto, using(crate::proofs::Steps::ill_out))]
fn is_ill_named(scope: &Scope<'_>, x: &TypeExpr) -> bool
    ensures { (p : Place) → IsPlace scope.now p → result ≡ spec.is_ill_named p (type_plain x.now) }
{
    !scope.is_well_named(scope.head_named(&x.head), x.args.len())
}
