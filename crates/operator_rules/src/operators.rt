//! Prefix operators, steps, operators on two values, and assignments (JLS 15.14, 15.15, 15.17 to 15.24 and 15.26).

ghost use Rattle.std.specs.Prelude.{◌≡◌, IfOk};
ghost use Rattle.java_tree.specs.declared.tree.UnOp.TheVariants as un;
ghost use Rattle.java_core.specs.Plain as p;
ghost use Rattle.java_core.specs.View.{plain};
ghost use Rattle.checked.specs.Checked.{Checked, Meets, Stops};
ghost use Rattle.type_facts.specs.Facts.{AreFacts, Facts, IsReady};
ghost use Rattle.operator_rules.specs.Operators as spec;

use crate::finals::{is_final, may_set};
use crate::kinds::{binary_rule, binary_type, compound_kind, kind_by, left_operand, right_operand};
use crate::uses::Use;
use checked::Stop;
use class_world::{JavaType, copied};
use java_core::{CoreExpr, CoreForm, Kind};
use java_tree::tree::{BinOp, Node, Primitive, UnOp};
use java_tree::{Boxed, NoMemory};
use std::alloc::Global;
use type_facts::Questions;
use type_facts::asks::may_assign;
use type_facts::scope::{Locals, Place};
use type_kinds::conversions::{converted, operand};
use type_kinds::kinds::{is_boolean, is_numeric, kind_type, lone_kind};

#[tactic(auto, using(java_core::proofs::Views::plain_at))]
fn negated(node: Node, of: Boxed<CoreExpr>) -> Result<CoreExpr, Stop>
    ensures { Meets plain result (spec.negated node (plain of)) }
{
    if !is_boolean(&of.get().ty) {
        return Err(Stop::Broken {
            node: node.id,
            rule: 43,
        });
    }
    Ok(CoreExpr {
        node,
        ty: JavaType::Prim(Primitive::Boolean),
        form: CoreForm::Unary { op: UnOp::Not, of },
    })
}

#[tactic(auto, using(java_core::proofs::Views::plain_at))]
fn promoted(alloc: Global, node: Node, op: UnOp, of: Boxed<CoreExpr>) -> Result<CoreExpr, NoMemory>
    ensures { IfOk result (λ r. plain r ≡ spec.promoted node op (plain of)) }
{
    let kind = lone_kind(&of.get().ty);
    let of = operand(alloc, kind, of)?;
    Ok(CoreExpr {
        node,
        ty: kind_type(alloc, kind),
        form: CoreForm::Unary { op, of },
    })
}

#[tactic(auto, using(java_core::proofs::Views::plain_at))]
fn signed(alloc: Global, node: Node, op: UnOp, of: Boxed<CoreExpr>) -> Result<CoreExpr, Stop>
    ensures { Meets plain result (spec.signed node op (plain of)) }
{
    if !is_numeric(&of.get().ty) {
        return Err(Stop::Broken {
            node: node.id,
            rule: 42,
        });
    }
    Ok(promoted(alloc, node, op, of)?)
}

/// A prefix operator on a value (JLS 15.15.3 to 15.15.6).
pub fn unary(
    alloc: Global,
    node: Node,
    op: UnOp,
    of: Result<Boxed<CoreExpr>, Stop>,
) -> Result<CoreExpr, Stop>
    ensures { (a : Checked p.Expr) → Meets plain of a → Meets plain result (spec.unary node op a) }
{
    let of = of?;
    match op {
        UnOp::Not => negated(node, of),
        UnOp::Plus => signed(alloc, node, op, of),
        UnOp::Minus => signed(alloc, node, op, of),
        UnOp::Invert => signed(alloc, node, op, of),
    }
}

/// A step up or down, before or behind the variable (JLS 15.14.2, 15.14.3, 15.15.1, 15.15.2).
#[tactic(auto, using(java_core::proofs::Views::plain_at))]
pub fn step(
    alloc: Global,
    q: &Questions,
    locals: &Locals,
    node: Node,
    up: bool,
    before: bool,
    of: Result<Boxed<CoreExpr>, Stop>,
) -> Result<CoreExpr, Stop>
    ensures { (f : Facts) → AreFacts q.now f → (a : Checked p.Expr) → Meets plain of a → Meets plain result (spec.step f locals.now node up before a) }
{
    let of = of?;
    if !is_numeric(&of.get().ty) {
        return Err(Stop::Broken {
            node: node.id,
            rule: 44,
        });
    }
    if is_final(q, locals, of.get()) {
        return Err(Stop::Broken {
            node: node.id,
            rule: 60,
        });
    }
    Ok(CoreExpr {
        node,
        ty: copied(alloc, &of.get().ty)?,
        form: CoreForm::Step { up, before, of },
    })
}

#[tactic(auto, using(java_core::proofs::Views::plain_at))]
fn assignment(
    alloc: Global,
    node: Node,
    to: Boxed<CoreExpr>,
    from: Boxed<CoreExpr>,
) -> Result<CoreExpr, NoMemory>
    ensures { IfOk result (λ r. plain r ≡ spec.assignment node (plain to) (plain from)) }
{
    let ty = copied(alloc, &to.get().ty)?;
    let from = converted(alloc, &ty, from)?;
    Ok(CoreExpr {
        node,
        ty,
        form: CoreForm::Assign { to, from },
    })
}

#[tactic(auto, using(java_core::proofs::Views::plain_at))]
fn assigned(
    alloc: Global,
    q: &Questions,
    place: &Place,
    how: Use,
    locals: &Locals,
    node: Node,
    to: Boxed<CoreExpr>,
    from: Boxed<CoreExpr>,
) -> Result<CoreExpr, Stop>
    requires { IsReady q.now }
    ensures { (f : Facts) → AreFacts q.now f → Meets plain result (spec.assigned f place.now how locals.now node (plain to) (plain from)) }
{
    if !may_assign(q, &from.get().ty, &to.get().ty) {
        return Err(Stop::Broken {
            node: node.id,
            rule: 58,
        });
    }
    if !may_set(q, place, how, locals, to.get()) {
        return Err(Stop::Broken {
            node: node.id,
            rule: 60,
        });
    }
    Ok(assignment(alloc, node, to, from)?)
}

/// The rule on the left side, before a right side that breaks a rule at a node of its own.
fn set_before(
    q: &Questions,
    place: &Place,
    how: Use,
    locals: &Locals,
    node: Node,
    to: &CoreExpr,
    m: u32,
    rule: u8,
) -> Stop
    ensures { (f : Facts) → AreFacts q.now f → Stops result (spec.set_before f place.now how locals.now node (plain to.now) m rule) }
{
    if may_set(q, place, how, locals, to) {
        Stop::Broken { node: m, rule }
    } else {
        Stop::Broken {
            node: node.id,
            rule: 60,
        }
    }
}

/// A plain assignment (JLS 15.26.1). Whether the left side may be assigned is read there alone, so that it counts where the right side is broken.
pub fn assign(
    alloc: Global,
    q: &Questions,
    place: &Place,
    how: Use,
    locals: &Locals,
    node: Node,
    to: Result<Boxed<CoreExpr>, Stop>,
    from: Result<Boxed<CoreExpr>, Stop>,
) -> Result<CoreExpr, Stop>
    requires { IsReady q.now }
    ensures { (f : Facts) → AreFacts q.now f → (a b : Checked p.Expr) → Meets plain to a → Meets plain from b → Meets plain result (spec.assign f place.now how locals.now node a b) }
{
    let to = to?;
    match from {
        Ok(from) => assigned(alloc, q, place, how, locals, node, to, from),
        Err(Stop::NoMemory) => Err(Stop::NoMemory),
        Err(Stop::Broken { node: m, rule }) => Err(set_before(
            q,
            place,
            how,
            locals,
            node,
            to.get(),
            m,
            rule,
        )),
    }
}

#[tactic(auto, using(java_core::proofs::Views::plain_at))]
fn binary_made(
    alloc: Global,
    node: Node,
    op: BinOp,
    kind: Kind,
    left: Boxed<CoreExpr>,
    right: Boxed<CoreExpr>,
) -> Result<CoreExpr, NoMemory>
    ensures { IfOk result (λ r. plain r ≡ spec.binary_made node op kind (plain left) (plain right)) }
{
    let left = left_operand(alloc, kind, left)?;
    let right = right_operand(alloc, op, kind, right)?;
    Ok(CoreExpr {
        node,
        ty: binary_type(alloc, op, kind),
        form: CoreForm::Binary {
            op,
            kind,
            left,
            right,
        },
    })
}

#[tactic(auto, using(java_core::proofs::Views::plain_at))]
fn binary(
    alloc: Global,
    q: &Questions,
    node: Node,
    op: BinOp,
    left: Boxed<CoreExpr>,
    right: Boxed<CoreExpr>,
) -> Result<CoreExpr, Stop>
    requires { IsReady q.now }
    ensures { (f : Facts) → AreFacts q.now f → Meets plain result (spec.binary f node op (plain left) (plain right)) }
{
    match kind_by(alloc, q, op, &left.get().ty, &right.get().ty) {
        None => Err(Stop::Broken {
            node: node.id,
            rule: binary_rule(op, &left.get().ty, &right.get().ty),
        }),
        Some(kind) => Ok(binary_made(alloc, node, op, kind, left, right)?),
    }
}

#[tactic(auto, using(java_core::proofs::Views::plain_at))]
fn truths(
    node: Node,
    both: bool,
    left: Boxed<CoreExpr>,
    right: Boxed<CoreExpr>,
) -> Result<CoreExpr, Stop>
    ensures { Meets plain result (spec.truths node both (plain left) (plain right)) }
{
    let broken = Stop::Broken {
        node: node.id,
        rule: 52,
    };
    if !is_boolean(&left.get().ty) {
        return Err(broken);
    }
    if !is_boolean(&right.get().ty) {
        return Err(broken);
    }
    Ok(CoreExpr {
        node,
        ty: JavaType::Prim(Primitive::Boolean),
        form: CoreForm::Logic { both, left, right },
    })
}

/// The rule on one operand, where the other one breaks a rule at a node of its own.
#[tactic(auto, using(java_core::proofs::Views::plain_at))]
fn truth_before(node: Node, x: &CoreExpr, m: u32, rule: u8) -> Stop
    ensures { Stops result (spec.truth_before node (plain x.now) m rule) }
{
    if is_boolean(&x.ty) {
        Stop::Broken { node: m, rule }
    } else {
        Stop::Broken {
            node: node.id,
            rule: 52,
        }
    }
}

/// `&&` where `both` holds, else `||`. The rule reads each operand for itself.
fn logic(
    node: Node,
    both: bool,
    left: Result<Boxed<CoreExpr>, Stop>,
    right: Result<Boxed<CoreExpr>, Stop>,
) -> Result<CoreExpr, Stop>
    ensures { (a b : Checked p.Expr) → Meets plain left a → Meets plain right b → Meets plain result (spec.logic node both a b) }
{
    match left {
        Ok(left) => match right {
            Ok(right) => truths(node, both, left, right),
            Err(Stop::NoMemory) => Err(Stop::NoMemory),
            Err(Stop::Broken { node: m, rule }) => Err(truth_before(node, left.get(), m, rule)),
        },
        Err(Stop::NoMemory) => Err(Stop::NoMemory),
        Err(Stop::Broken { node: m, rule }) => match right {
            Ok(right) => Err(truth_before(node, right.get(), m, rule)),
            Err(Stop::NoMemory) => Err(Stop::NoMemory),
            Err(Stop::Broken { .. }) => Err(Stop::Broken { node: m, rule }),
        },
    }
}

fn logic_of(op: BinOp) -> Option<bool>
    ensures { result ≡ spec.logic_of op }
{
    match op {
        BinOp::LogicAnd => Some(true),
        BinOp::LogicOr => Some(false),
        _ => None,
    }
}

/// An operator on two values (JLS 15.17 to 15.24).
pub fn operands(
    alloc: Global,
    q: &Questions,
    node: Node,
    op: BinOp,
    left: Result<Boxed<CoreExpr>, Stop>,
    right: Result<Boxed<CoreExpr>, Stop>,
) -> Result<CoreExpr, Stop>
    requires { IsReady q.now }
    ensures { (f : Facts) → AreFacts q.now f → (a b : Checked p.Expr) → Meets plain left a → Meets plain right b → Meets plain result (spec.operands f node op a b) }
{
    match logic_of(op) {
        Some(both) => logic(node, both, left, right),
        None => {
            let left = left?;
            let right = right?;
            binary(alloc, q, node, op, left, right)
        }
    }
}

#[tactic(auto, using(java_core::proofs::Views::plain_at))]
fn compound_made(
    alloc: Global,
    node: Node,
    op: BinOp,
    kind: Kind,
    to: Boxed<CoreExpr>,
    from: Boxed<CoreExpr>,
) -> Result<CoreExpr, NoMemory>
    ensures { IfOk result (λ r. plain r ≡ spec.compound_made node op kind (plain to) (plain from)) }
{
    let from = right_operand(alloc, op, kind, from)?;
    Ok(CoreExpr {
        node,
        ty: copied(alloc, &to.get().ty)?,
        form: CoreForm::Compound { op, kind, to, from },
    })
}

#[tactic(auto, using(java_core::proofs::Views::plain_at))]
fn changed(
    alloc: Global,
    q: &Questions,
    locals: &Locals,
    node: Node,
    op: BinOp,
    to: Boxed<CoreExpr>,
    from: Boxed<CoreExpr>,
) -> Result<CoreExpr, Stop>
    requires { IsReady q.now }
    ensures { (f : Facts) → AreFacts q.now f → Meets plain result (spec.changed f locals.now node op (plain to) (plain from)) }
{
    match compound_kind(alloc, q, op, &to.get().ty, &from.get().ty) {
        None => Err(Stop::Broken {
            node: node.id,
            rule: 59,
        }),
        Some(kind) => {
            if is_final(q, locals, to.get()) {
                return Err(Stop::Broken {
                    node: node.id,
                    rule: 60,
                });
            }
            Ok(compound_made(alloc, node, op, kind, to, from)?)
        }
    }
}

/// The rule on the left side, before a right side that breaks a rule at a node of its own.
fn changed_before(
    q: &Questions,
    locals: &Locals,
    node: Node,
    to: &CoreExpr,
    m: u32,
    rule: u8,
) -> Stop
    ensures { (f : Facts) → AreFacts q.now f → Stops result (spec.changed_before f locals.now node (plain to.now) m rule) }
{
    if is_final(q, locals, to) {
        Stop::Broken {
            node: node.id,
            rule: 60,
        }
    } else {
        Stop::Broken { node: m, rule }
    }
}

/// A compound assignment (JLS 15.26.2). Whether the left side may be assigned is read there alone.
pub fn compound(
    alloc: Global,
    q: &Questions,
    locals: &Locals,
    node: Node,
    op: BinOp,
    to: Result<Boxed<CoreExpr>, Stop>,
    from: Result<Boxed<CoreExpr>, Stop>,
) -> Result<CoreExpr, Stop>
    requires { IsReady q.now }
    ensures { (f : Facts) → AreFacts q.now f → (a b : Checked p.Expr) → Meets plain to a → Meets plain from b → Meets plain result (spec.compound f locals.now node op a b) }
{
    let to = to?;
    match from {
        Ok(from) => changed(alloc, q, locals, node, op, to, from),
        Err(Stop::NoMemory) => Err(Stop::NoMemory),
        Err(Stop::Broken { node: m, rule }) => {
            Err(changed_before(q, locals, node, to.get(), m, rule))
        }
    }
}
