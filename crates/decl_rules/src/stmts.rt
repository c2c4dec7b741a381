//! The walk over the written types in statements (S12, S13, S17).

ghost use Rattle.std.specs.Prelude.{◌≡◌, Bool, map};
ghost use Rattle.std.specs.Option.{option_map};
ghost use Rattle.java_tree.specs.View.{stmt_plain, stmt_maybe, stmts_plain, group_plain, group_row, catch_plain, catch_row};
ghost use Rattle.java_tree.specs.declared.tree.Name.{Name};
ghost use Rattle.decl_rules.specs.Generic.{Told};
ghost use Rattle.decl_rules.specs.Walk as spec;

use crate::exprs::{walk_expr, walk_exprs};
use crate::generics::{GenericNames, Generics};
use crate::types::walk_type;
use crate::vars::{walk_declared, walk_init, walk_labels, walk_param};
use java_tree::tree::{Catch, Group, Stmt, StmtForm};
use java_tree::{Boxed, Items};
use rule_order::Breach;

/// A statement and all that is in it.
#[cycle(stmts)]
#[tactic(auto, using(tree_numbers::proofs::Forms::plain_if, tree_numbers::proofs::Forms::plain_try))]
pub(crate) fn walk_stmt<G: GenericNames>(
    generics: &Generics<'_, G>,
    x: &Stmt,
    first: Option<Breach>,
) -> Option<Breach>
    ensures { (generic : Name → Bool) → Told (G.answers generics.now.names.now) generic → result ≡ spec.stmt (spec.is_nested generic generics.now.vars.now) (stmt_plain x.now) first }
{
    match &x.form {
        StmtForm::Empty | StmtForm::Break | StmtForm::Continue => first,
        StmtForm::Block(body) => walk_stmts(generics, body, first),
        StmtForm::Local { ty, vars, .. } => walk_declared(generics, ty, vars, first),
        StmtForm::Value(value) => walk_expr(generics, value, first),
        StmtForm::If { test, yes, no } => {
            let first = walk_expr(generics, test, first);
            let first = walk_stmt(generics, yes.get(), first);
            walk_maybe_stmt(generics, no, first)
        }
        StmtForm::While { test, body } => {
            let first = walk_expr(generics, test, first);
            walk_stmt(generics, body.get(), first)
        }
        StmtForm::Do { body, test } => {
            let first = walk_stmt(generics, body.get(), first);
            walk_expr(generics, test, first)
        }
        StmtForm::For {
            init,
            test,
            step,
            body,
        } => {
            let first = walk_stmts(generics, init, first);
            let first = walk_init(generics, test, first);
            let first = walk_exprs(generics, step, first);
            walk_stmt(generics, body.get(), first)
        }
        StmtForm::ForEach { ty, over, body, .. } => {
            let first = walk_type(generics, ty, first);
            let first = walk_expr(generics, over, first);
            walk_stmt(generics, body.get(), first)
        }
        StmtForm::Switch { on, groups } => {
            let first = walk_expr(generics, on, first);
            walk_groups(generics, groups, first)
        }
        StmtForm::Return(value) => walk_init(generics, value, first),
        StmtForm::Throw(value) => walk_expr(generics, value, first),
        StmtForm::Try {
            body,
            catches,
            last,
        } => {
            let first = walk_stmt(generics, body.get(), first);
            let first = walk_catches(generics, catches, first);
            walk_maybe_stmt(generics, last, first)
        }
        StmtForm::ThisCall(args) => walk_exprs(generics, args, first),
        StmtForm::SuperCall(args) => walk_exprs(generics, args, first),
    }
}

#[cycle(stmts)]
fn walk_maybe_stmt<G: GenericNames>(
    generics: &Generics<'_, G>,
    x: &Option<Boxed<Stmt>>,
    first: Option<Breach>,
) -> Option<Breach>
    ensures { (generic : Name → Bool) → Told (G.answers generics.now.names.now) generic → result ≡ spec.maybe_stmt (spec.is_nested generic generics.now.vars.now) (stmt_maybe (option_map stmt_plain x.now)) first }
{
    match x {
        None => first,
        Some(x) => walk_stmt(generics, x.get(), first),
    }
}

#[cycle(stmts)]
fn walk_stmts<G: GenericNames>(
    generics: &Generics<'_, G>,
    xs: &Items<Stmt>,
    mut first: Option<Breach>,
) -> Option<Breach>
    ensures { (generic : Name → Bool) → Told (G.answers generics.now.names.now) generic → result ≡ spec.stmts (spec.is_nested generic generics.now.vars.now) (stmts_plain xs.now) first }
{
    for x in xs.as_slice() {
        first = walk_stmt(generics, x, first);
    }
    first
}

#[cycle(stmts)]
fn walk_group<G: GenericNames>(
    generics: &Generics<'_, G>,
    x: &Group,
    first: Option<Breach>,
) -> Option<Breach>
    ensures { (generic : Name → Bool) → Told (G.answers generics.now.names.now) generic → result ≡ spec.group (spec.is_nested generic generics.now.vars.now) (group_plain x.now) first }
{
    let first = walk_labels(generics, &x.labels, first);
    walk_stmts(generics, &x.body, first)
}

#[cycle(stmts)]
fn walk_groups<G: GenericNames>(
    generics: &Generics<'_, G>,
    xs: &Items<Group>,
    mut first: Option<Breach>,
) -> Option<Breach>
    ensures { (generic : Name → Bool) → Told (G.answers generics.now.names.now) generic → result ≡ spec.groups (spec.is_nested generic generics.now.vars.now) (group_row (map group_plain xs.now)) first }
{
    for x in xs.as_slice() {
        first = walk_group(generics, x, first);
    }
    first
}

#[cycle(stmts)]
fn walk_catch<G: GenericNames>(
    generics: &Generics<'_, G>,
    x: &Catch,
    first: Option<Breach>,
) -> Option<Breach>
    ensures { (generic : Name → Bool) → Told (G.answers generics.now.names.now) generic → result ≡ spec.catch (spec.is_nested generic generics.now.vars.now) (catch_plain x.now) first }
{
    let first = walk_param(generics, &x.param, first);
    walk_stmt(generics, x.body.get(), first)
}

#[cycle(stmts)]
fn walk_catches<G: GenericNames>(
    generics: &Generics<'_, G>,
    xs: &Items<Catch>,
    mut first: Option<Breach>,
) -> Option<Breach>
    ensures { (generic : Name → Bool) → Told (G.answers generics.now.names.now) generic → result ≡ spec.catches (spec.is_nested generic generics.now.vars.now) (catch_row (map catch_plain xs.now)) first }
{
    for x in xs.as_slice() {
        first = walk_catch(generics, x, first);
    }
    first
}
