//! What may be assigned (JLS 4.5.4, 8.3.1.2, 15.26).

ghost use Rattle.std.specs.Prelude.{◌≡◌};
ghost use Rattle.java_core.specs.View.{plain};
ghost use Rattle.type_kinds.specs.Kinds.{form_of};
ghost use Rattle.type_facts.specs.Facts.{AreFacts, Facts};
ghost use Rattle.operator_rules.specs.Operators as spec;

use crate::uses::Use;
use java_core::{CoreExpr, CoreForm};
use type_facts::Questions;
use type_facts::scope::{LocalVar, Locals, Place};
use type_kinds::members::is_final_field;

fn is_final_local(locals: &[LocalVar], slot: u32) -> bool
    ensures { result ≡ spec.is_final_local locals.now slot }
{
    for local in locals {
        if local.is_final && local.slot == slot {
            return true;
        }
    }
    false
}

/// Whether a variable is final, through brackets and the cast of its value (JLS 4.5.4).
#[tactic(auto, using(java_core::proofs::Views::plain_at))]
pub fn is_final(q: &Questions, locals: &Locals, x: &CoreExpr) -> bool
    ensures { (f : Facts) → AreFacts q.now f → result ≡ spec.is_final f locals.now (plain x.now) }
{
    match &x.form {
        CoreForm::Local(slot) => is_final_local(locals.as_slice(), *slot),
        CoreForm::Field { field, .. } => is_final_field(q.world, *field),
        CoreForm::SuperField(field) => is_final_field(q.world, *field),
        CoreForm::StaticField { field, .. } => is_final_field(q.world, *field),
        CoreForm::Paren(x) => is_final(q, locals, x.get()),
        CoreForm::Implied(x) => is_final(q, locals, x.get()),
        _ => false,
    }
}

#[tactic(auto, using(java_core::proofs::Views::plain_at))]
fn is_this(x: &CoreExpr) -> bool
    ensures { result ≡ spec.is_this_form (form_of (plain x.now)) }
{
    match &x.form {
        CoreForm::This => true,
        _ => false,
    }
}

fn is_among(field: u32, blanks: &[u32]) -> bool
    ensures { result ≡ spec.is_among field blanks.now }
{
    for blank in blanks {
        if *blank == field {
            return true;
        }
    }
    false
}

/// Whether it is a field of the class without a value of its own, by its name or with `this.` before it (JLS 8.3.1.2).
#[tactic(auto, using(java_core::proofs::Views::plain_at))]
fn is_blank(place: &Place, x: &CoreExpr) -> bool
    ensures { result ≡ spec.is_blank_form place.now (form_of (plain x.now)) }
{
    match &x.form {
        CoreForm::Field { of, field, .. } => {
            if is_this(of.get()) {
                is_among(*field, place.blanks.as_slice())
            } else {
                false
            }
        }
        _ => false,
    }
}

// Where a blank final field gets its value: that, or a variable that is not final.
fn may_set_first(q: &Questions, place: &Place, locals: &Locals, x: &CoreExpr) -> bool
    ensures { (f : Facts) → AreFacts q.now f → result ≡ spec.may_set_first f place.now locals.now (plain x.now) }
{
    if is_final(q, locals, x) {
        return is_blank(place, x);
    }
    true
}

/// Whether a variable may be assigned where it stands: one that is not final, or a blank final field where it gets its value (JLS 8.3.1.2, 15.26).
pub fn may_set(q: &Questions, place: &Place, how: Use, locals: &Locals, x: &CoreExpr) -> bool
    ensures { (f : Facts) → AreFacts q.now f → result ≡ spec.may_set f place.now how locals.now (plain x.now) }
{
    match how {
        Use::PerformFirst => may_set_first(q, place, locals, x),
        Use::Read | Use::Set | Use::Change | Use::Perform => !is_final(q, locals, x),
    }
}
