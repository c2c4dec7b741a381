//! The written types of a declaration that name no type (DR1).

ghost use Rattle.std.specs.Prelude.{◌≡◌, map, flat_map, option_to_list};
ghost use Rattle.std.specs.Option.{option_map};
ghost use Rattle.java_tree.specs.View.{type_plain, param_plain, member_plain};
ghost use Rattle.rule_order.specs.Noted.{SomeOf, Adds};
ghost use Rattle.written_types.specs.Places.{Place, IsPlace};
ghost use Rattle.written_types.specs.Breaks.{IllNamed};
ghost use Rattle.declared_types.specs.Rules.{member_types};

use java_tree::tree::{Member, Param, TypeExpr};
use rule_order::{Breach, earlier};
use written_types::{Scope, first_ill_named};

fn note_type(scope: &Scope<'_>, x: &TypeExpr, first: Option<Breach>) -> Option<Breach>
    ensures { (p : Place) → IsPlace scope.now p → Adds (IllNamed p (type_plain x.now)) first result }
{
    earlier(first, first_ill_named(scope, x))
}

/// The first broken rule so far, behind these types.
pub(crate) fn note_types(
    scope: &Scope<'_>,
    xs: &[TypeExpr],
    mut first: Option<Breach>,
) -> Option<Breach>
    ensures { (p : Place) → IsPlace scope.now p → Adds (SomeOf (map type_plain xs.now) (IllNamed p)) first result }
{
    for x in xs {
        first = note_type(scope, x, first);
    }
    first
}

fn note_result(scope: &Scope<'_>, x: &Option<TypeExpr>, first: Option<Breach>) -> Option<Breach>
    ensures { (p : Place) → IsPlace scope.now p → Adds (SomeOf (option_to_list (option_map type_plain x.now)) (IllNamed p)) first result }
{
    match x {
        None => first,
        Some(x) => note_type(scope, x, first),
    }
}

fn note_params(scope: &Scope<'_>, params: &[Param], mut first: Option<Breach>) -> Option<Breach>
    ensures { (p : Place) → IsPlace scope.now p → Adds (SomeOf (map (λ q. q.ty) (map param_plain params.now)) (IllNamed p)) first result }
{
    for param in params {
        first = note_type(scope, &param.ty, first);
    }
    first
}

fn note_member(scope: &Scope<'_>, m: &Member, first: Option<Breach>) -> Option<Breach>
    ensures { (p : Place) → IsPlace scope.now p → Adds (SomeOf (member_types (member_plain m.now)) (IllNamed p)) first result }
{
    match m {
        Member::Field { ty, .. } => note_type(scope, ty, first),
        Member::Method {
            result: ty,
            params,
            throws,
            ..
        } => {
            let first = note_result(scope, ty, first);
            let first = note_params(scope, params.as_slice(), first);
            note_types(scope, throws.as_slice(), first)
        }
    }
}

/// The first broken rule so far, behind the types of members outside bodies.
pub(crate) fn note_members(
    scope: &Scope<'_>,
    members: &[Member],
    mut first: Option<Breach>,
) -> Option<Breach>
    ensures { (p : Place) → IsPlace scope.now p → Adds (SomeOf (flat_map member_types (map member_plain members.now)) (IllNamed p)) first result }
{
    for m in members {
        first = note_member(scope, m, first);
    }
    first
}
