//! Statements (JLS 14). The scope grows along a block, and shrinks at its end.

ghost use Rattle.std.specs.Prelude.{◌≡◌, Bool, false, List, [], map, OnOk};
ghost use Rattle.std.specs.Option.{option_map};
ghost use Rattle.java_tree.specs.Plain as t;
ghost use Rattle.java_tree.specs.View as view;
ghost use Rattle.java_core.specs.Plain as p;
ghost use Rattle.java_core.specs.View.{written, stmt_plain, group_plain, catch_plain};
ghost use Rattle.checked.specs.Checked.{Checked, Meets};
ghost use Rattle.type_facts.specs.Facts.{AreFacts, Facts, IsReady};
ghost use Rattle.check_stmt.specs.Fronts.{IsFront};
ghost use Rattle.check_stmt.specs.Pieces as piece;
ghost use Rattle.check_stmt.specs.Statements as spec;

use crate::calls::{args_before_this, super_call, this_call};
use crate::each::foreach;
use crate::jumps::Jumps;
use crate::labels::labels;
use crate::locals::{check_performed, local_of};
use crate::pieces::{self, boxed_stmt, group_of, in_loop, in_switch, statement_use};
use crate::scopes::{declare_all, declare_one, declare_stmt, spot_of};
use crate::vars::catch_of;
use check_expr::exprs::check;
use checked::Stop;
use java_core::{CoreCatch, CoreGroup, CoreStmt, CoreStmtForm, CoreType};
use java_tree::Items;
use java_tree::tree::{Catch, Expr, Group, Name, Node, Stmt, StmtForm, TypeExpr};
use operator_rules::Use;
use operator_rules::writtens::written;
use std::alloc::Global;
use type_facts::Questions;
use type_facts::scope::{Locals, Place};

/// The core of a statement, or the first rule that it breaks, by its node. `first` says that it stands directly in the body of a constructor that begins with no
/// this(..).
#[cycle(check_stmt)]
#[tactic(auto, using(java_tree::proofs::Views::plain_if, java_tree::proofs::Views::plain_if_else, java_tree::proofs::Views::plain_for, java_tree::proofs::Views::plain_return, java_tree::proofs::Views::plain_local, java_tree::proofs::Views::plain_try, java_tree::proofs::Views::plain_try_finally))]
pub fn check_stmt(
    alloc: Global,
    q: &Questions<'_>,
    place: &Place,
    jumps: Jumps,
    first: bool,
    locals: &mut Locals,
    s: &Stmt,
) -> Result<CoreStmt, Stop>
    requires ready { IsReady q.now }
    ensures meets { (f : Facts) → AreFacts q.now f → Meets stmt_plain result (spec.typed_stmt f place.now jumps first locals.old (view.stmt_plain s.now)) }
    ensures kept { locals.new ≡ locals.old }
{
    let node = s.node;
    match &s.form {
        StmtForm::Block(body) => {
            let body = check_stmts(alloc, q, place, jumps, false, locals, body.as_slice());
            pieces::block(node, body)
        }
        StmtForm::Local { is_final, ty, vars } => {
            let ty = written(alloc, q, place, ty);
            local_of(
                alloc,
                q,
                place,
                locals,
                node,
                *is_final,
                ty,
                vars.as_slice(),
            )
        }
        StmtForm::Empty => Ok(CoreStmt {
            node,
            form: CoreStmtForm::Empty,
        }),
        StmtForm::Value(e) => {
            let x = check(alloc, q, place, locals, statement_use(first), e);
            pieces::value_of_stmt(node, x)
        }
        StmtForm::If { test, yes, no } => match no {
            None => {
                let test = check(alloc, q, place, locals, Use::Read, test);
                let yes = boxed_stmt(
                    alloc,
                    check_stmt(alloc, q, place, jumps, false, locals, yes.get()),
                );
                pieces::if_of(node, test, yes)
            }
            Some(no) => {
                let test = check(alloc, q, place, locals, Use::Read, test);
                let yes = boxed_stmt(
                    alloc,
                    check_stmt(alloc, q, place, jumps, false, locals, yes.get()),
                );
                let no = boxed_stmt(
                    alloc,
                    check_stmt(alloc, q, place, jumps, false, locals, no.get()),
                );
                pieces::if_else(node, test, yes, no)
            }
        },
        StmtForm::While { test, body } => {
            let test = check(alloc, q, place, locals, Use::Read, test);
            let body = boxed_stmt(
                alloc,
                check_stmt(alloc, q, place, in_loop(), false, locals, body.get()),
            );
            pieces::while_of(node, test, body)
        }
        StmtForm::Do { body, test } => {
            let body = boxed_stmt(
                alloc,
                check_stmt(alloc, q, place, in_loop(), false, locals, body.get()),
            );
            let test = check(alloc, q, place, locals, Use::Read, test);
            pieces::do_of(node, body, test)
        }
        StmtForm::For {
            init,
            test,
            step,
            body,
        } => check_for(
            alloc,
            q,
            place,
            jumps,
            locals,
            node,
            init.as_slice(),
            test,
            step.as_slice(),
            body.get(),
        ),
        StmtForm::ForEach {
            is_final,
            ty,
            name,
            over,
            body,
        } => check_each(
            alloc,
            q,
            place,
            locals,
            node,
            *is_final,
            ty,
            *name,
            over,
            body.get(),
        ),
        StmtForm::Switch { on, groups } => check_switch(
            alloc,
            q,
            place,
            jumps,
            locals,
            node,
            on,
            groups.as_slice(),
        ),
        StmtForm::Break => pieces::break_of(jumps, node),
        StmtForm::Continue => pieces::continue_of(jumps, node),
        StmtForm::Return(x) => match x {
            None => pieces::return_void(node, &place.result),
            Some(x) => {
                let x = check(alloc, q, place, locals, Use::Read, x);
                pieces::return_of(alloc, q, node, &place.result, x)
            }
        },
        StmtForm::Throw(x) => {
            let x = check(alloc, q, place, locals, Use::Read, x);
            pieces::throw_of(alloc, q, node, x)
        }
        StmtForm::Try {
            body,
            catches,
            last,
        } => match last {
            None => {
                let body = boxed_stmt(
                    alloc,
                    check_stmt(alloc, q, place, jumps, false, locals, body.get()),
                );
                let catches = check_catches(alloc, q, place, jumps, locals, catches.as_slice());
                pieces::try_of(node, body, catches)
            }
            Some(last) => {
                let body = boxed_stmt(
                    alloc,
                    check_stmt(alloc, q, place, jumps, false, locals, body.get()),
                );
                let catches = check_catches(alloc, q, place, jumps, locals, catches.as_slice());
                let last = boxed_stmt(
                    alloc,
                    check_stmt(alloc, q, place, jumps, false, locals, last.get()),
                );
                pieces::try_finally(node, body, catches, last)
            }
        },
        StmtForm::ThisCall(args) => {
            let args = args_before_this(alloc, q, place, locals, args.as_slice());
            this_call(alloc, q, place, node, args)
        }
        StmtForm::SuperCall(args) => {
            let args = args_before_this(alloc, q, place, locals, args.as_slice());
            super_call(alloc, q, place, node, args)
        }
    }
}

/// The cores of statements one behind the other, as in a block (JLS 14.2): what they declare is out of scope behind them.
#[cycle(check_stmt)]
#[tactic(auto, using(crate::proofs::Fronts::front_take, crate::proofs::Fronts::front_same))]
pub fn check_stmts(
    alloc: Global,
    q: &Questions<'_>,
    place: &Place,
    jumps: Jumps,
    first: bool,
    locals: &mut Locals,
    ss: &[Stmt],
) -> Result<Items<CoreStmt>, Stop>
    requires ready { IsReady q.now }
    ensures meets { (f : Facts) → AreFacts q.now f → Meets (map stmt_plain) result (spec.typed_stmts f place.now jumps first locals.old (view.stmts_plain ss.now)) }
    ensures kept { locals.new ≡ locals.old }
{
    let depth = locals.len();
    let body = check_row(alloc, q, place, jumps, first, locals, ss);
    locals.truncate(depth);
    body
}

/// The same, with what they declare in scope behind them.
#[cycle(check_stmt)]
#[tactic(auto, using(crate::proofs::Fronts::front_then, crate::proofs::Fronts::front_same, crate::proofs::Steps::stmts_end))]
fn check_row(
    alloc: Global,
    q: &Questions<'_>,
    place: &Place,
    jumps: Jumps,
    first: bool,
    locals: &mut Locals,
    ss: &[Stmt],
) -> Result<Items<CoreStmt>, Stop>
    requires ready { IsReady q.now }
    ensures meets { (f : Facts) → AreFacts q.now f → Meets (map stmt_plain) result (spec.typed_stmts f place.now jumps first locals.old (view.stmts_plain ss.now)) }
    ensures scope { (f : Facts) → AreFacts q.now f → OnOk result (locals.new ≡ spec.after_all f place.now locals.old (view.stmts_plain ss.now)) }
    ensures front { IsFront locals.old locals.new }
{
    let mut done = Items::new(alloc);
    for s in ss {
        done.push(check_stmt(alloc, q, place, jumps, first, locals, s)?)?;
        declare_stmt(alloc, q, place, locals, s)?;
    }
    Ok(done)
}

/// A statement in the scope of the variable of an enhanced for or the parameter of a catch.
#[cycle(check_stmt)]
#[tactic(auto, using(crate::proofs::Fronts::front_take, crate::proofs::Fronts::front_same))]
fn check_within(
    alloc: Global,
    q: &Questions<'_>,
    place: &Place,
    jumps: Jumps,
    locals: &mut Locals,
    is_final: bool,
    levels: u32,
    name: Name,
    ty: &Result<CoreType, Stop>,
    s: &Stmt,
) -> Result<CoreStmt, Stop>
    requires ready { IsReady q.now }
    ensures meets { (f : Facts) → AreFacts q.now f → (a : Checked p.Written) → Meets written ty.now a → Meets stmt_plain result (spec.typed_stmt f place.now jumps false (piece.with_one locals.old is_final levels name a) (view.stmt_plain s.now)) }
    ensures kept { locals.new ≡ locals.old }
{
    let depth = locals.len();
    let made = match declare_one(alloc, locals, is_final, levels, name, ty) {
        Err(_) => Err(Stop::NoMemory),
        Ok(()) => check_stmt(alloc, q, place, jumps, false, locals, s),
    };
    locals.truncate(depth);
    made
}

#[cycle(check_stmt)]
fn check_each(
    alloc: Global,
    q: &Questions<'_>,
    place: &Place,
    locals: &mut Locals,
    node: Node,
    is_final: bool,
    ty: &TypeExpr,
    name: Name,
    over: &Expr,
    body: &Stmt,
) -> Result<CoreStmt, Stop>
    requires ready { IsReady q.now }
    ensures meets { (f : Facts) → AreFacts q.now f → (jumps : Jumps) (first : Bool) → Meets stmt_plain result (spec.typed_stmt f place.now jumps first locals.old (t.ForEach node is_final (view.type_plain ty.now) name (view.plain over.now) (view.stmt_plain body.now))) }
    ensures kept { locals.new ≡ locals.old }
{
    let spot = spot_of(locals, name)?;
    let ty = written(alloc, q, place, ty);
    let over = check(alloc, q, place, locals, Use::Read, over);
    let body = boxed_stmt(
        alloc,
        check_within(
            alloc,
            q,
            place,
            in_loop(),
            locals,
            is_final,
            0,
            name,
            &ty,
            body,
        ),
    );
    foreach(alloc, q, node, is_final, name, spot, ty, over, body)
}

/// The parts of a for, with what its first part declares in scope.
#[cycle(check_stmt)]
fn check_loop(
    alloc: Global,
    q: &Questions<'_>,
    place: &Place,
    locals: &mut Locals,
    node: Node,
    init: Result<Items<CoreStmt>, Stop>,
    test: &Option<Expr>,
    step: &[Expr],
    body: &Stmt,
) -> Result<CoreStmt, Stop>
    requires ready { IsReady q.now }
    ensures meets { (f : Facts) → AreFacts q.now f → (xs : Checked (List p.Stmt)) → Meets (map stmt_plain) init xs → Meets stmt_plain result (spec.loop_of f place.now locals.old node xs (option_map view.plain test.now) (view.plains step.now) (view.stmt_plain body.now)) }
    ensures kept { locals.new ≡ locals.old }
{
    match test {
        None => {
            let step = check_performed(alloc, q, place, locals, step);
            let body = boxed_stmt(
                alloc,
                check_stmt(alloc, q, place, in_loop(), false, locals, body),
            );
            pieces::for_ever(node, init, step, body)
        }
        Some(test) => {
            let test = check(alloc, q, place, locals, Use::Read, test);
            let step = check_performed(alloc, q, place, locals, step);
            let body = boxed_stmt(
                alloc,
                check_stmt(alloc, q, place, in_loop(), false, locals, body),
            );
            pieces::for_of(node, init, test, step, body)
        }
    }
}

#[cycle(check_stmt)]
#[tactic(auto, using(crate::proofs::Fronts::front_take, crate::proofs::Fronts::front_same, crate::proofs::Steps::for_loop))]
fn check_for(
    alloc: Global,
    q: &Questions<'_>,
    place: &Place,
    jumps: Jumps,
    locals: &mut Locals,
    node: Node,
    init: &[Stmt],
    test: &Option<Expr>,
    step: &[Expr],
    body: &Stmt,
) -> Result<CoreStmt, Stop>
    requires ready { IsReady q.now }
    ensures meets { (f : Facts) → AreFacts q.now f → (first : Bool) → Meets stmt_plain result (spec.typed_stmt f place.now jumps first locals.old (t.For node (view.stmts_plain init.now) (option_map view.plain test.now) (view.plains step.now) (view.stmt_plain body.now))) }
    ensures kept { locals.new ≡ locals.old }
{
    let first = check_stmts(alloc, q, place, jumps, false, locals, init);
    let depth = locals.len();
    let made = match declare_all(alloc, q, place, locals, init) {
        Err(_) => Err(Stop::NoMemory),
        Ok(()) => check_loop(alloc, q, place, locals, node, first, test, step, body),
    };
    locals.truncate(depth);
    made
}

#[cycle(check_stmt)]
fn check_switch(
    alloc: Global,
    q: &Questions<'_>,
    place: &Place,
    jumps: Jumps,
    locals: &mut Locals,
    node: Node,
    on: &Expr,
    groups: &[Group],
) -> Result<CoreStmt, Stop>
    requires ready { IsReady q.now }
    ensures meets { (f : Facts) → AreFacts q.now f → (first : Bool) → Meets stmt_plain result (spec.typed_stmt f place.now jumps first locals.old (t.Switch node (view.plain on.now) (view.group_row (map view.group_plain groups.now)))) }
    ensures kept { locals.new ≡ locals.old }
{
    let on = check(alloc, q, place, locals, Use::Read, on)?;
    let on_char = pieces::is_char(&on.ty);
    let groups = check_groups(alloc, q, place, jumps, locals, on_char, groups);
    pieces::switch(node, on, groups)
}

/// The groups of a switch, which are one block.
#[cycle(check_stmt)]
#[tactic(auto, using(crate::proofs::Fronts::front_take, crate::proofs::Fronts::front_same))]
fn check_groups(
    alloc: Global,
    q: &Questions<'_>,
    place: &Place,
    jumps: Jumps,
    locals: &mut Locals,
    on_char: bool,
    groups: &[Group],
) -> Result<Items<CoreGroup>, Stop>
    requires ready { IsReady q.now }
    ensures meets { (f : Facts) → AreFacts q.now f → Meets (map group_plain) result (spec.groups f place.now jumps locals.old on_char [] (view.group_row (map view.group_plain groups.now))) }
    ensures kept { locals.new ≡ locals.old }
{
    let depth = locals.len();
    let made = check_each_group(alloc, q, place, jumps, locals, on_char, groups);
    locals.truncate(depth);
    made
}

#[cycle(check_stmt)]
#[tactic(auto, using(crate::proofs::Fronts::front_then, crate::proofs::Fronts::front_same, crate::proofs::Steps::groups_end))]
fn check_each_group(
    alloc: Global,
    q: &Questions<'_>,
    place: &Place,
    jumps: Jumps,
    locals: &mut Locals,
    on_char: bool,
    groups: &[Group],
) -> Result<Items<CoreGroup>, Stop>
    requires ready { IsReady q.now }
    ensures meets { (f : Facts) → AreFacts q.now f → Meets (map group_plain) result (spec.groups f place.now jumps locals.old on_char [] (view.group_row (map view.group_plain groups.now))) }
    ensures front { IsFront locals.old locals.new }
{
    let mut done = Items::new(alloc);
    let mut seen = Items::new(alloc);
    for group in groups {
        let labels = labels(alloc, group.labels.as_slice())?;
        let body = check_row(
            alloc,
            q,
            place,
            in_switch(jumps),
            false,
            locals,
            group.body.as_slice(),
        );
        done.push(group_of(
            alloc,
            group.node,
            on_char,
            &mut seen,
            labels.as_slice(),
            body,
        )?)?;
    }
    Ok(done)
}

#[cycle(check_stmt)]
fn check_catch(
    alloc: Global,
    q: &Questions<'_>,
    place: &Place,
    jumps: Jumps,
    locals: &mut Locals,
    catch: &Catch,
) -> Result<CoreCatch, Stop>
    requires ready { IsReady q.now }
    ensures meets { (f : Facts) → AreFacts q.now f → Meets catch_plain result (spec.one_catch f place.now jumps locals.old (view.catch_plain catch.now)) }
    ensures kept { locals.new ≡ locals.old }
{
    let param = &catch.param;
    let spot = spot_of(locals, param.name)?;
    let ty = written(alloc, q, place, &param.ty);
    let body = boxed_stmt(
        alloc,
        check_within(
            alloc,
            q,
            place,
            jumps,
            locals,
            param.is_final,
            param.dims,
            param.name,
            &ty,
            catch.body.get(),
        ),
    );
    catch_of(alloc, q, spot, catch.node, param, ty, body)
}

#[cycle(check_stmt)]
#[tactic(auto, using(crate::proofs::Steps::catches_end, crate::proofs::Steps::catches_stop))]
fn check_catches(
    alloc: Global,
    q: &Questions<'_>,
    place: &Place,
    jumps: Jumps,
    locals: &mut Locals,
    catches: &[Catch],
) -> Result<Items<CoreCatch>, Stop>
    requires ready { IsReady q.now }
    ensures meets { (f : Facts) → AreFacts q.now f → Meets (map catch_plain) result (spec.catches f place.now jumps locals.old (view.catch_row (map view.catch_plain catches.now))) }
    ensures kept { locals.new ≡ locals.old }
{
    let mut done = Items::new(alloc);
    for catch in catches {
        done.push(check_catch(alloc, q, place, jumps, locals, catch)?)?;
    }
    Ok(done)
}
