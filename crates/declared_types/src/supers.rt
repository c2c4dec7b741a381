//! Supertypes (DR2), and all written types of a declaration.

ghost use Rattle.std.specs.Prelude.{◌≡◌, ◌++◌, ◌||◌, ◌&&◌, ◌∷◌, [], List, map, slice_get, is_some, IfOk, OnOk};
ghost use Rattle.std.specs.List.{list_any};
ghost use Rattle.java_tree.specs.Plain as t;
ghost use Rattle.java_tree.specs.View.{type_plain, decl_plain};
ghost use Rattle.rule_order.specs.First.{Either};
ghost use Rattle.rule_order.specs.Noted.{Adds};
ghost use Rattle.written_types.specs.Places.{Place, IsPlace};
ghost use Rattle.written_types.specs.Types.{type_of};
ghost use Rattle.declared_types.specs.Rules.{NamesNoType, BreaksSuper};
ghost use Rattle.declared_types.specs.Spelling.{is_spelled, HoldsSpelled};
ghost use Rattle.declared_types.specs.Looks.{BreaksBehind};
ghost use Rattle.declared_types.specs.Looks as spec;

use crate::members::{note_members, note_types};
use crate::spelling::{Sign, spell};
use class_world::TypeInfo;
use java_tree::NoMemory;
use java_tree::tree::{Mod, TypeDecl, TypeExpr};
use rule_order::{Breach, noted};
use std::alloc::Global;
use std::collections::HashSet;
use written_types::{Named, Scope, first_ill_named};

fn is_final(mods: &[Mod]) -> bool
    ensures { result ≡ list_any spec.is_final_mod mods.now }
{
    for modifier in mods {
        if matches!(modifier, Mod::Final) {
            return true;
        }
    }
    false
}

// Whether the type of a number, if there is one, is of the wrong kind, final or, without arguments, raw.
fn is_unfit_type(types: &[TypeInfo], number: u32, wants_class: bool, bare: bool) -> bool
    ensures { result ≡ spec.unfit_info wants_class bare (slice_get types.now number) }
{
    match types.get(number as usize) {
        None => false,
        Some(info) => {
            info.interface == wants_class
                || is_final(info.mods.as_slice())
                || (bare && info.params > 0)
        }
    }
}

// Whether a supertype is a type parameter, of the wrong kind, final or raw.
#[tactic(auto, using(crate::proofs::Steps::unfit_out))]
fn is_unfit(scope: &Scope<'_>, wants_class: bool, x: &TypeExpr) -> bool
    ensures { (p : Place) → IsPlace scope.now p → result ≡ spec.is_unfit scope.now.types.now p wants_class (type_plain x.now) }
{
    match scope.head_named(&x.head) {
        Named::Variable(_) => true,
        Named::Type(number) => {
            is_unfit_type(scope.types, number, wants_class, x.args.is_empty())
        }
        Named::Primitive(_) | Named::Nothing => false,
    }
}

// Whether a written type says a type.
fn is_typed(scope: &Scope<'_>, x: &TypeExpr) -> bool
    ensures { (p : Place) → IsPlace scope.now p → result ≡ is_some (type_of p (type_plain x.now)) }
{
    first_ill_named(scope, x).is_none()
}

// Whether a supertype is unfit, or says what an earlier type says that is spelled the same.
fn is_wrong(scope: &Scope<'_>, wants_class: bool, again: bool, x: &TypeExpr) -> bool
    ensures { (p : Place) → IsPlace scope.now p
        → result ≡ (spec.is_unfit scope.now.types.now p wants_class (type_plain x.now) || (again && is_some (type_of p (type_plain x.now)))) }
{
    is_unfit(scope, wants_class, x) || (again && is_typed(scope, x))
}

// Whether an earlier type is spelled the same; this one is among them from now on.
fn push_spelled(
    alloc: Global,
    scope: &Scope<'_>,
    x: &TypeExpr,
    seen: &mut HashSet<Vec<Sign>>,
) -> Result<bool, NoMemory>
    ensures again { (p : Place) (before : List t.TypeExpr) → IsPlace scope.now p → HoldsSpelled p seen.old before
        → IfOk result (λ r. r ≡ is_spelled p before (type_plain x.now)) }
    ensures held { (p : Place) (before : List t.TypeExpr) → IsPlace scope.now p → HoldsSpelled p seen.old before
        → OnOk result (HoldsSpelled p seen.new (before ++ type_plain x.now ∷ [])) }
{
    let mut signs = Vec::new(alloc);
    spell(scope, x, &mut signs)?;
    let is_new = seen.insert(signs)?;
    Ok(!is_new)
}

// The supertypes of one clause. Those before them are kept in `seen`.
fn note_supers(
    alloc: Global,
    scope: &Scope<'_>,
    wants_class: bool,
    xs: &[TypeExpr],
    seen: &mut HashSet<Vec<Sign>>,
    mut first: Option<Breach>,
) -> Result<Option<Breach>, NoMemory>
    ensures adds { (p : Place) (before : List t.TypeExpr) → IsPlace scope.now p → HoldsSpelled p seen.old before
        → IfOk result (λ r. Adds (BreaksBehind scope.now.types.now p wants_class before (map type_plain xs.now)) first r) }
    ensures held { (p : Place) (before : List t.TypeExpr) → IsPlace scope.now p → HoldsSpelled p seen.old before
        → OnOk result (HoldsSpelled p seen.new (before ++ map type_plain xs.now)) }
{
    for x in xs {
        let again = push_spelled(alloc, scope, x, seen)?;
        first = noted(first, 2, x.node, is_wrong(scope, wants_class, again, x));
    }
    Ok(first)
}

/// The first broken rule so far, behind a declaration: DR1 at its written types, and DR2 at its supertypes.
pub(crate) fn note_decl(
    alloc: Global,
    scope: &Scope<'_>,
    d: &TypeDecl,
    first: Option<Breach>,
) -> Result<Option<Breach>, NoMemory>
    ensures { (p : Place) → IsPlace scope.now p
        → IfOk result (λ r. Adds (Either (NamesNoType p (decl_plain d.now)) (BreaksSuper scope.now.types.now p (decl_plain d.now))) first r) }
{
    let extends = d.extends.as_slice();
    let implements = d.implements.as_slice();
    let first = note_types(scope, extends, first);
    let first = note_types(scope, implements, first);
    let first = note_members(scope, d.members.as_slice(), first);
    let mut seen = HashSet::new(alloc);
    let first = note_supers(alloc, scope, !d.interface, extends, &mut seen, first)?;
    note_supers(alloc, scope, false, implements, &mut seen, first)
}
