//! What each form of statement makes of its parts, and its rules (JLS 14).

ghost use Rattle.std.specs.Prelude.{◌≡◌, ◌++◌, List, Some, map, IfOk, OnOk};
ghost use Rattle.java_core.specs.Plain as p;
ghost use Rattle.java_core.specs.View.{plain, stmt_plain, group_plain, catch_plain, stmt_row};
ghost use Rattle.checked.specs.Checked.{Checked, Fine, Meets};
ghost use Rattle.type_kinds.specs.Kinds as kinds;
ghost use Rattle.type_facts.specs.Facts.{AreFacts, Facts, IsReady};
ghost use Rattle.check_stmt.specs.Labels.{value_of};
ghost use Rattle.check_stmt.specs.Pieces as spec;

use crate::jumps::Jumps;
use crate::labels::{Label, are_labels, values};
use checked::Stop;
use class_world::JavaType;
use java_core::{CoreCatch, CoreExpr, CoreGroup, CoreStmt, CoreStmtForm};
use java_tree::tree::{Node, Primitive};
use java_tree::{Boxed, Items, NoMemory};
use operator_rules::Use;
use std::alloc::Global;
use type_facts::Questions;
use type_facts::asks::{is_below, may_assign};
use type_kinds::conversions::converted_value;
use type_kinds::kinds::{is_boolean, is_short, primitive};

/// The answer with its core in a box. Forms take the statements within them so.
pub fn boxed_stmt(alloc: Global, of: Result<CoreStmt, Stop>) -> Result<Boxed<CoreStmt>, Stop>
    ensures { (a : Checked p.Stmt) → Meets stmt_plain of a → Meets stmt_plain result a }
{
    let of = of?;
    Ok(Boxed::new(alloc, of)?)
}

/// The use of an expression that is a statement (JLS 14.8); `first` says that it may set a blank final field.
pub fn statement_use(first: bool) -> Use
    ensures { result ≡ spec.statement_use first }
{
    if first {
        Use::PerformFirst
    } else {
        Use::Perform
    }
}

/// Where the body of a loop may jump to.
pub fn in_loop() -> Jumps
    ensures { result ≡ spec.in_loop }
{
    Jumps {
        breaks: true,
        continues: true,
    }
}

/// Where a statement in a switch may jump to.
pub fn in_switch(jumps: Jumps) -> Jumps
    ensures { result ≡ spec.in_switch jumps }
{
    Jumps {
        breaks: true,
        continues: jumps.continues,
    }
}

/// An expression as a statement (JLS 14.8).
pub fn value_of_stmt(node: Node, x: Result<CoreExpr, Stop>) -> Result<CoreStmt, Stop>
    ensures { (a : Checked p.Expr) → Meets plain x a → Meets stmt_plain result (spec.value_of_stmt node a) }
{
    let x = x?;
    Ok(CoreStmt {
        node,
        form: CoreStmtForm::Value(x),
    })
}

/// A block (JLS 14.2).
pub fn block(node: Node, body: Result<Items<CoreStmt>, Stop>) -> Result<CoreStmt, Stop>
    ensures { (ss : Checked (List p.Stmt)) → Meets (map stmt_plain) body ss → Meets stmt_plain result (spec.block node ss) }
{
    let body = body?;
    Ok(CoreStmt {
        node,
        form: CoreStmtForm::Block(body),
    })
}

/// A test of a statement: T7 reads it alone.
#[tactic(auto, using(java_core::proofs::Views::plain_at))]
fn tested(node: Node, test: Result<CoreExpr, Stop>) -> Result<CoreExpr, Stop>
    ensures { (a : Checked p.Expr) → Meets plain test a → Meets plain result (spec.test_of node a) }
{
    let test = test?;
    if !is_boolean(&test.ty) {
        return Err(Stop::Broken {
            node: node.id,
            rule: 7,
        });
    }
    Ok(test)
}

/// An if without an else (JLS 14.9): T7.
#[tactic(auto, using(java_core::proofs::Views::made_if))]
pub fn if_of(
    node: Node,
    test: Result<CoreExpr, Stop>,
    yes: Result<Boxed<CoreStmt>, Stop>,
) -> Result<CoreStmt, Stop>
    ensures { (a : Checked p.Expr) (b : Checked p.Stmt) → Meets plain test a → Meets stmt_plain yes b → Meets stmt_plain result (spec.if_of node a b) }
{
    let test = tested(node, test)?;
    let yes = yes?;
    Ok(CoreStmt {
        node,
        form: CoreStmtForm::If {
            test,
            yes,
            no: None,
        },
    })
}

/// An if with an else (JLS 14.9): T7.
#[tactic(auto, using(java_core::proofs::Views::made_if_else))]
pub fn if_else(
    node: Node,
    test: Result<CoreExpr, Stop>,
    yes: Result<Boxed<CoreStmt>, Stop>,
    no: Result<Boxed<CoreStmt>, Stop>,
) -> Result<CoreStmt, Stop>
    ensures { (a : Checked p.Expr) (b c : Checked p.Stmt) → Meets plain test a → Meets stmt_plain yes b → Meets stmt_plain no c → Meets stmt_plain result (spec.if_else node a b c) }
{
    let test = tested(node, test)?;
    let yes = yes?;
    let no = no?;
    Ok(CoreStmt {
        node,
        form: CoreStmtForm::If {
            test,
            yes,
            no: Some(no),
        },
    })
}

/// A while (JLS 14.12): T7.
pub fn while_of(
    node: Node,
    test: Result<CoreExpr, Stop>,
    body: Result<Boxed<CoreStmt>, Stop>,
) -> Result<CoreStmt, Stop>
    ensures { (a : Checked p.Expr) (b : Checked p.Stmt) → Meets plain test a → Meets stmt_plain body b → Meets stmt_plain result (spec.while_of node a b) }
{
    let test = tested(node, test)?;
    let body = body?;
    Ok(CoreStmt {
        node,
        form: CoreStmtForm::While { test, body },
    })
}

#[tactic(auto, using(java_core::proofs::Views::plain_at))]
fn do_while(
    node: Node,
    body: Result<Boxed<CoreStmt>, Stop>,
    test: CoreExpr,
) -> Result<CoreStmt, Stop>
    ensures { (b : Checked p.Stmt) → Meets stmt_plain body b → Meets stmt_plain result (spec.do_while node b (plain test)) }
{
    if !is_boolean(&test.ty) {
        return Err(Stop::Broken {
            node: node.id,
            rule: 7,
        });
    }
    let body = body?;
    Ok(CoreStmt {
        node,
        form: CoreStmtForm::Do { body, test },
    })
}

/// A do (JLS 14.13): T7.
pub fn do_of(
    node: Node,
    body: Result<Boxed<CoreStmt>, Stop>,
    test: Result<CoreExpr, Stop>,
) -> Result<CoreStmt, Stop>
    ensures { (b : Checked p.Stmt) (a : Checked p.Expr) → Meets stmt_plain body b → Meets plain test a → Meets stmt_plain result (spec.do_of node b a) }
{
    match test {
        Ok(test) => do_while(node, body, test),
        Err(Stop::NoMemory) => Err(Stop::NoMemory),
        Err(Stop::Broken { node: m, rule }) => match body {
            Ok(_) => Err(Stop::Broken { node: m, rule }),
            Err(e) => Err(e),
        },
    }
}

#[tactic(auto, using(java_core::proofs::Views::made_for))]
fn for_made(
    node: Node,
    init: Result<Items<CoreStmt>, Stop>,
    test: CoreExpr,
    step: Result<Items<CoreExpr>, Stop>,
    body: Result<Boxed<CoreStmt>, Stop>,
) -> Result<CoreStmt, Stop>
    ensures { (xs : Checked (List p.Stmt)) (ys : Checked (List p.Expr)) (b : Checked p.Stmt) → Meets (map stmt_plain) init xs → Meets (map plain) step ys → Meets stmt_plain body b → Meets stmt_plain result (spec.for_made node xs (plain test) ys b) }
{
    let init = init?;
    let step = step?;
    let body = body?;
    Ok(CoreStmt {
        node,
        form: CoreStmtForm::For {
            init,
            test: Some(test),
            step,
            body,
        },
    })
}

#[tactic(auto, using(java_core::proofs::Views::plain_at))]
fn for_while(
    node: Node,
    init: Result<Items<CoreStmt>, Stop>,
    test: CoreExpr,
    step: Result<Items<CoreExpr>, Stop>,
    body: Result<Boxed<CoreStmt>, Stop>,
) -> Result<CoreStmt, Stop>
    ensures { (xs : Checked (List p.Stmt)) (ys : Checked (List p.Expr)) (b : Checked p.Stmt) → Meets (map stmt_plain) init xs → Meets (map plain) step ys → Meets stmt_plain body b → Meets stmt_plain result (spec.for_while node xs (plain test) ys b) }
{
    if !is_boolean(&test.ty) {
        return Err(Stop::Broken {
            node: node.id,
            rule: 7,
        });
    }
    for_made(node, init, test, step, body)
}

/// A for with a test (JLS 14.14.1): T7.
pub fn for_of(
    node: Node,
    init: Result<Items<CoreStmt>, Stop>,
    test: Result<CoreExpr, Stop>,
    step: Result<Items<CoreExpr>, Stop>,
    body: Result<Boxed<CoreStmt>, Stop>,
) -> Result<CoreStmt, Stop>
    ensures { (xs : Checked (List p.Stmt)) (a : Checked p.Expr) (ys : Checked (List p.Expr)) (b : Checked p.Stmt) → Meets (map stmt_plain) init xs → Meets plain test a → Meets (map plain) step ys → Meets stmt_plain body b → Meets stmt_plain result (spec.for_of node xs a ys b) }
{
    match test {
        Ok(test) => for_while(node, init, test, step, body),
        Err(Stop::NoMemory) => Err(Stop::NoMemory),
        Err(Stop::Broken { node: m, rule }) => match init {
            Ok(_) => Err(Stop::Broken { node: m, rule }),
            Err(e) => Err(e),
        },
    }
}

/// A for without a test (JLS 14.14.1).
#[tactic(auto, using(java_core::proofs::Views::made_for_ever))]
pub fn for_ever(
    node: Node,
    init: Result<Items<CoreStmt>, Stop>,
    step: Result<Items<CoreExpr>, Stop>,
    body: Result<Boxed<CoreStmt>, Stop>,
) -> Result<CoreStmt, Stop>
    ensures { (xs : Checked (List p.Stmt)) (ys : Checked (List p.Expr)) (b : Checked p.Stmt) → Meets (map stmt_plain) init xs → Meets (map plain) step ys → Meets stmt_plain body b → Meets stmt_plain result (spec.for_ever node xs ys b) }
{
    let init = init?;
    let step = step?;
    let body = body?;
    Ok(CoreStmt {
        node,
        form: CoreStmtForm::For {
            init,
            test: None,
            step,
            body,
        },
    })
}

/// Whether a type is char (JLS 4.2.1).
pub fn is_char(t: &JavaType) -> bool
    ensures { result ≡ spec.is_char t.now }
{
    match primitive(t) {
        Some(Primitive::Char) => true,
        _ => false,
    }
}

/// A switch (JLS 14.11): T11.
#[tactic(auto, using(java_core::proofs::Views::plain_at))]
pub fn switch(
    node: Node,
    on: CoreExpr,
    groups: Result<Items<CoreGroup>, Stop>,
) -> Result<CoreStmt, Stop>
    ensures { (gs : Checked (List p.Group)) → Meets (map group_plain) groups gs → Meets stmt_plain result (spec.switch node (plain on) gs) }
{
    if !is_short(&on.ty) {
        return Err(Stop::Broken {
            node: node.id,
            rule: 11,
        });
    }
    let groups = groups?;
    Ok(CoreStmt {
        node,
        form: CoreStmtForm::Switch { on, groups },
    })
}

fn group_made(
    alloc: Global,
    node: Node,
    labels: &[Option<Label>],
    body: Items<CoreStmt>,
) -> Result<CoreGroup, NoMemory>
    ensures { IfOk result (λ r. group_plain r ≡ p.Labelled node (map value_of labels.now) (stmt_row (map stmt_plain body))) }
{
    let labels = values(alloc, labels)?;
    Ok(CoreGroup { node, labels, body })
}

/// A group of statements with its labels, which join those seen in the switch (JLS 14.11): T12.
pub fn group_of(
    alloc: Global,
    node: Node,
    on_char: bool,
    seen: &mut Items<Option<i32>>,
    labels: &[Option<Label>],
    body: Result<Items<CoreStmt>, Stop>,
) -> Result<CoreGroup, Stop>
    ensures meets { (ss : Checked (List p.Stmt)) → Meets (map stmt_plain) body ss → Meets group_plain result (spec.group_of node labels.now on_char seen.old ss) }
    ensures seen { OnOk result (seen.new ≡ seen.old ++ map value_of labels.now) }
{
    if !are_labels(on_char, seen, labels)? {
        return Err(Stop::Broken {
            node: node.id,
            rule: 12,
        });
    }
    let body = body?;
    Ok(group_made(alloc, node, labels, body)?)
}

/// A break (JLS 14.15): T13.
pub fn break_of(jumps: Jumps, node: Node) -> Result<CoreStmt, Stop>
    ensures { Meets stmt_plain result (spec.break_of jumps node) }
{
    if !jumps.breaks {
        return Err(Stop::Broken {
            node: node.id,
            rule: 13,
        });
    }
    Ok(CoreStmt {
        node,
        form: CoreStmtForm::Break,
    })
}

/// A continue (JLS 14.16): T13.
pub fn continue_of(jumps: Jumps, node: Node) -> Result<CoreStmt, Stop>
    ensures { Meets stmt_plain result (spec.continue_of jumps node) }
{
    if !jumps.continues {
        return Err(Stop::Broken {
            node: node.id,
            rule: 13,
        });
    }
    Ok(CoreStmt {
        node,
        form: CoreStmtForm::Continue,
    })
}

#[tactic(auto, using(java_core::proofs::Views::made_return))]
fn return_made(node: Node, x: CoreExpr) -> CoreStmt
    ensures { stmt_plain result ≡ p.Return node (Some (plain x)) }
{
    CoreStmt {
        node,
        form: CoreStmtForm::Return(Some(x)),
    }
}

#[tactic(auto, using(java_core::proofs::Views::plain_at))]
fn return_typed(
    alloc: Global,
    q: &Questions<'_>,
    node: Node,
    ty: &JavaType,
    x: CoreExpr,
) -> Result<CoreStmt, Stop>
    requires ready { IsReady q.now }
    ensures { (f : Facts) → AreFacts q.now f → Meets stmt_plain result (spec.return_of f node (Some ty.now) (Fine (plain x))) }
{
    if !may_assign(q, &x.ty, ty) {
        return Err(Stop::Broken {
            node: node.id,
            rule: 14,
        });
    }
    let x = converted_value(alloc, ty, x)?;
    Ok(return_made(node, x))
}

/// A return of a value (JLS 14.17): T14, which reads no value where the method has no result.
pub fn return_of(
    alloc: Global,
    q: &Questions<'_>,
    node: Node,
    ty: &Option<JavaType>,
    x: Result<CoreExpr, Stop>,
) -> Result<CoreStmt, Stop>
    requires ready { IsReady q.now }
    ensures { (f : Facts) → AreFacts q.now f → (a : Checked p.Expr) → Meets plain x a → Meets stmt_plain result (spec.return_of f node ty.now a) }
{
    match ty {
        None => Err(Stop::Broken {
            node: node.id,
            rule: 14,
        }),
        Some(ty) => {
            let x = x?;
            return_typed(alloc, q, node, ty, x)
        }
    }
}

/// A return without a value (JLS 14.17): T15.
#[tactic(auto, using(java_core::proofs::Views::made_return_void))]
pub fn return_void(node: Node, ty: &Option<JavaType>) -> Result<CoreStmt, Stop>
    ensures { Meets stmt_plain result (spec.return_void node ty.now) }
{
    match ty {
        None => Ok(CoreStmt {
            node,
            form: CoreStmtForm::Return(None),
        }),
        Some(_) => Err(Stop::Broken {
            node: node.id,
            rule: 15,
        }),
    }
}

/// The class Throwable (JLS 11.5).
pub fn throwable(alloc: Global) -> JavaType
    ensures { result ≡ kinds.throwable }
{
    JavaType::Class(4, Items::new(alloc))
}

/// A throw (JLS 14.18): T16.
#[tactic(auto, using(java_core::proofs::Views::plain_at))]
pub fn throw_of(
    alloc: Global,
    q: &Questions<'_>,
    node: Node,
    x: Result<CoreExpr, Stop>,
) -> Result<CoreStmt, Stop>
    requires ready { IsReady q.now }
    ensures { (f : Facts) → AreFacts q.now f → (a : Checked p.Expr) → Meets plain x a → Meets stmt_plain result (spec.throw_of f node a) }
{
    let x = x?;
    let above = throwable(alloc);
    if !is_below(q, &x.ty, &above) {
        return Err(Stop::Broken {
            node: node.id,
            rule: 16,
        });
    }
    Ok(CoreStmt {
        node,
        form: CoreStmtForm::Throw(x),
    })
}

/// A try without a finally (JLS 14.20.1).
#[tactic(auto, using(java_core::proofs::Views::made_try))]
pub fn try_of(
    node: Node,
    body: Result<Boxed<CoreStmt>, Stop>,
    catches: Result<Items<CoreCatch>, Stop>,
) -> Result<CoreStmt, Stop>
    ensures { (a : Checked p.Stmt) (cs : Checked (List p.Catch)) → Meets stmt_plain body a → Meets (map catch_plain) catches cs → Meets stmt_plain result (spec.try_of node a cs) }
{
    let body = body?;
    let catches = catches?;
    Ok(CoreStmt {
        node,
        form: CoreStmtForm::Try {
            body,
            catches,
            last: None,
        },
    })
}

/// A try with a finally (JLS 14.20.2).
#[tactic(auto, using(java_core::proofs::Views::made_try_finally))]
pub fn try_finally(
    node: Node,
    body: Result<Boxed<CoreStmt>, Stop>,
    catches: Result<Items<CoreCatch>, Stop>,
    last: Result<Boxed<CoreStmt>, Stop>,
) -> Result<CoreStmt, Stop>
    ensures { (a : Checked p.Stmt) (cs : Checked (List p.Catch)) (b : Checked p.Stmt) → Meets stmt_plain body a → Meets (map catch_plain) catches cs → Meets stmt_plain last b → Meets stmt_plain result (spec.try_finally node a cs b) }
{
    let body = body?;
    let catches = catches?;
    let last = last?;
    Ok(CoreStmt {
        node,
        form: CoreStmtForm::Try {
            body,
            catches,
            last: Some(last),
        },
    })
}
