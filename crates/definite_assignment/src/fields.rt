//! Uses of variables and fields, and what an assignment gives a value.

ghost use Rattle.std.specs.Prelude.{◌≡◌, Some, OnOk};
ghost use Rattle.java_core.specs.View.{plain};
ghost use Rattle.type_kinds.specs.Members.{field_at};
ghost use Rattle.definite_assignment.specs.Assigned as spec;
ghost use Rattle.definite_assignment.specs.Bodies as bodies;

use crate::state::{State, Variable, give, is_missing, keep_rule};
use class_world::{FieldInfo, World};
use java_core::{Before, CoreExpr, CoreForm};
use java_tree::NoMemory;
use java_tree::tree::Node;
use reachability::is_same_truth;
use std::alloc::Global;
use type_kinds::members::is_static_field;

/// Whether the field k is of the class of the field i, as static as that, and not declared before it.
fn is_not_before(w: &World, i: u32, own: &FieldInfo, k: u32, used: &FieldInfo) -> bool
    ensures { result ≡ spec.is_not_before w.now i (Some own.now) k (Some used.now) }
{
    if own.owner != used.owner {
        return false;
    }
    if !is_same_truth(is_static_field(w, own), is_static_field(w, used)) {
        return false;
    }
    k >= i
}

/// Whether a use of a field by its simple name in the value of `home` is one before its declaration (JLS 8.3.2.3).
fn is_early(w: &World, home: Option<u32>, k: u32) -> bool
    ensures { result ≡ spec.is_early w.now home k }
{
    match home {
        None => false,
        Some(i) => match w.fields.get(i as usize) {
            None => false,
            Some(own) => match w.fields.get(k as usize) {
                None => false,
                Some(used) => is_not_before(w, i, own, k, used),
            },
        },
    }
}

pub(crate) fn use_local(node: Node, slot: u32, s: &mut State)
    ensures { s.new ≡ spec.use_local node slot s.old }
{
    let holds = !is_missing(s, Variable::Local(slot));
    keep_rule(holds, node.id, 3, s);
}

/// The use of an instance field of the object itself by its simple name.
pub(crate) fn use_field(w: &World, home: Option<u32>, node: Node, field: u32, s: &mut State)
    ensures { s.new ≡ spec.use_field w.now home node field s.old }
{
    let holds = !is_missing(s, Variable::Blank { node: 0, field });
    keep_rule(!is_early(w, home, field), node.id, 11, s);
    keep_rule(holds, node.id, 12, s);
}

/// The use of a static field before which no expression stands.
pub(crate) fn use_static(
    w: &World,
    home: Option<u32>,
    node: Node,
    before: Before,
    field: u32,
    s: &mut State,
)
    ensures { s.new ≡ spec.use_static w.now home node before field s.old }
{
    match before {
        Before::Nothing => keep_rule(!is_early(w, home, field), node.id, 11, s),
        _ => (),
    }
}

#[tactic(auto, using(java_core::proofs::Views::plain_at))]
pub(crate) fn is_this(x: &CoreExpr) -> bool
    ensures { result ≡ bodies.is_this (plain x.now) }
{
    match &x.form {
        CoreForm::This => true,
        _ => false,
    }
}

#[tactic(auto, using(java_core::proofs::Views::plain_at))]
fn give_field(alloc: Global, of: &CoreExpr, field: u32, s: &mut State) -> Result<(), NoMemory>
    ensures { OnOk result (s.new ≡ spec.given_field (plain of.now) field s.old) }
{
    if is_this(of) {
        return give(alloc, Variable::Blank { node: 0, field }, s);
    }
    Ok(())
}

/// What an assignment gives a value: a local, or a field of the object itself, in brackets too.
#[cycle(assign)]
#[tactic(auto, using(java_core::proofs::Views::plain_at))]
pub(crate) fn assign(alloc: Global, to: &CoreExpr, s: &mut State) -> Result<(), NoMemory>
    ensures { OnOk result (s.new ≡ spec.assigned (plain to.now) s.old) }
{
    match &to.form {
        CoreForm::Local(slot) => give(alloc, Variable::Local(*slot), s),
        CoreForm::Field { of, field, .. } => give_field(alloc, of.get(), *field, s),
        CoreForm::Paren(of) => assign(alloc, of.get(), s),
        _ => Ok(()),
    }
}
