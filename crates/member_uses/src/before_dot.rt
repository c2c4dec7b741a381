//! What stands before a dot.

ghost use Rattle.std.specs.Prelude.{◌≡◌, IfOk};
ghost use Rattle.java_tree.specs.View as view;
ghost use Rattle.type_facts.specs.Facts.{AreFacts, Facts, IsReady};
ghost use Rattle.member_uses.specs.Receivers.{before};
ghost use Rattle.member_uses.specs.Targets as spec;

use crate::receiver::Dotted;
use java_tree::NoMemory;
use java_tree::tree::{Expr, ExprForm, Name, Node};
use std::alloc::Global;
use type_facts::Questions;
use type_facts::asks::{field_named, mean};
use type_facts::scope::{Locals, Place, own_type};

// Whether a simple name is that of a local, a parameter or a field that the class has.
fn is_variable(
    alloc: Global,
    q: &Questions<'_>,
    place: &Place,
    locals: &Locals,
    name: Name,
) -> Result<bool, NoMemory>
    requires ready { IsReady q.now }
    ensures { (f : Facts) → AreFacts q.now f → IfOk result (λ r. r ≡ spec.is_variable f place.now locals.now name) }
{
    if locals.find(name).is_some() {
        return Ok(true);
    }
    let own = own_type(alloc, place)?;
    Ok(field_named(q, &own, name).is_some())
}

fn named(
    alloc: Global,
    q: &Questions<'_>,
    place: &Place,
    locals: &Locals,
    node: Node,
    name: Name,
) -> Result<Dotted, NoMemory>
    requires ready { IsReady q.now }
    ensures { (f : Facts) → AreFacts q.now f → IfOk result (λ r. before r ≡ spec.dotted_name f place.now locals.now node name) }
{
    if is_variable(alloc, q, place, locals, name)? {
        return Ok(Dotted::Value);
    }
    match mean(q, name) {
        None => Ok(Dotted::Unknown(node)),
        Some(c) => Ok(Dotted::Type(node, c)),
    }
}

/// What an expression before a dot stands for (JLS 6.5.2): a simple name that is no variable's is a type's.
#[tactic(auto, using(crate::proofs::Names::no_name, java_tree::proofs::Views::plain_name))]
pub fn dotted(
    alloc: Global,
    q: &Questions<'_>,
    place: &Place,
    locals: &Locals,
    e: &Expr,
) -> Result<Dotted, NoMemory>
    requires ready { IsReady q.now }
    ensures { (f : Facts) → AreFacts q.now f → IfOk result (λ r. before r ≡ spec.dotted f place.now locals.now (view.plain e.now)) }
{
    match &e.form {
        ExprForm::Name(name) => named(alloc, q, place, locals, e.node, *name),
        _ => Ok(Dotted::Value),
    }
}
