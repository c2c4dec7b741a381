//! Methods and constructors.

ghost use Rattle.std.specs.Prelude.{◌≡◌, ◌++◌, ◌∷◌, [], List, map, IfOk, OnOk};
ghost use Rattle.std.specs.Option.{option_map};
ghost use Rattle.java_tree.specs.View as view;
ghost use Rattle.java_core.specs.Plain as p;
ghost use Rattle.java_core.specs.View.{method_plain, param_plain, stmt_plain, stmt_row, written};
ghost use Rattle.checked.specs.Checked.{Meets, same};
ghost use Rattle.type_facts.specs.Facts.{AreFacts, Facts, IsReady};
ghost use Rattle.check_program.specs.Classes as spec;
ghost use Rattle.check_program.specs.Views.{beginning};

use crate::parts::{all_written, maybe_written, params_of};
use check_stmt::{Jumps, check_stmts};
use checked::Stop;
use class_world::copied;
use java_core::{CoreMethod, CoreParam, CoreStmt, CoreStmtForm, CoreType, Implied};
use java_tree::tree::{Node, Param, Stmt, StmtForm, TypeExpr};
use java_tree::{Items, NoMemory};
use member_uses::{constructor, superclass};
use std::alloc::Global;
use type_facts::Questions;
use type_facts::scope::{LocalVar, Locals, Place};

/// How a constructor's body begins (JLS 8.8.7).
#[derive(Clone, Copy, Debug, PartialEq, Eq)]
pub enum Beginning {
    WithThis,
    WithSuper,
    WithNeither,
}

/// What a file writes of a method or constructor.
#[derive(Clone, Copy)]
pub struct Declaration<'a> {
    pub node: Node,
    pub constructor: bool,
    pub result: &'a Option<TypeExpr>,
    pub params: &'a [Param],
    pub throws: &'a [TypeExpr],
    pub body: &'a Option<Stmt>,
}

// The core of a method without its body.
#[derive(Drop)]
struct Heading {
    node: Node,
    method: u32,
    implied: Option<Implied>,
    result: Option<CoreType>,
    params: Items<CoreParam>,
    throws: Items<CoreType>,
}

fn begins_stmts(ss: &[Stmt]) -> Beginning
    ensures { beginning result ≡ spec.begins_stmts (view.stmts_plain ss.now) }
{
    match ss.first() {
        None => Beginning::WithNeither,
        Some(s) => match &s.form {
            StmtForm::ThisCall(_) => Beginning::WithThis,
            StmtForm::SuperCall(_) => Beginning::WithSuper,
            _ => Beginning::WithNeither,
        },
    }
}

fn begins(body: &Option<Stmt>) -> Beginning
    ensures { beginning result ≡ spec.begins (option_map view.stmt_plain body.now) }
{
    match body {
        None => Beginning::WithNeither,
        Some(s) => match &s.form {
            StmtForm::Block(ss) => begins_stmts(ss.as_slice()),
            _ => Beginning::WithNeither,
        },
    }
}

/// The constructor of the class above that runs first where none is called (JLS 8.8.7, 8.8.9): T39, at the constructor or the class.
pub fn implied_super(
    alloc: Global,
    q: &Questions<'_>,
    place: &Place,
    node: Node,
) -> Result<Option<Implied>, Stop>
    requires ready { IsReady q.now }
    ensures { (f : Facts) → AreFacts q.now f → Meets same result (spec.implied_super f place.now node) }
{
    let Some(above) = superclass(alloc, q.world, place.class)? else {
        return Err(Stop::Broken {
            node: node.id,
            rule: 39,
        });
    };
    match constructor(alloc, q, place, &above, &[])? {
        None => Err(Stop::Broken {
            node: node.id,
            rule: 39,
        }),
        Some(chosen) => Ok(Some(Implied {
            node,
            constructor: chosen.method,
        })),
    }
}

fn implied_of(
    alloc: Global,
    q: &Questions<'_>,
    place: &Place,
    constructor: bool,
    node: Node,
    begins: Beginning,
) -> Result<Option<Implied>, Stop>
    requires ready { IsReady q.now }
    ensures { (f : Facts) → AreFacts q.now f → Meets same result (spec.implied_of f place.now constructor node (beginning begins)) }
{
    if !constructor {
        return Ok(None);
    }
    match begins {
        Beginning::WithThis => Ok(None),
        Beginning::WithSuper => Ok(None),
        Beginning::WithNeither => implied_super(alloc, q, place, node),
    }
}

fn in_scope(alloc: Global, locals: &mut Locals, x: &CoreParam) -> Result<(), NoMemory>
    ensures { OnOk result (locals.new ≡ locals.old ++ spec.in_scope (param_plain x.now) ∷ []) }
{
    let ty = copied(alloc, &x.ty)?;
    locals.push(LocalVar {
        name: x.name,
        slot: x.slot,
        ty,
        is_final: x.is_final,
    })?;
    Ok(())
}

fn scope_of(alloc: Global, params: &[CoreParam]) -> Result<Locals, NoMemory>
    ensures { IfOk result (λ r. r ≡ map spec.in_scope (map param_plain params.now)) }
{
    let mut locals = Locals::new(alloc);
    for x in params {
        in_scope(alloc, &mut locals, x)?;
    }
    Ok(locals)
}

fn may_fill(constructor: bool, begins: Beginning) -> bool
    ensures { result ≡ spec.may_fill constructor (beginning begins) }
{
    if !constructor {
        return false;
    }
    match begins {
        Beginning::WithThis => false,
        Beginning::WithSuper => true,
        Beginning::WithNeither => true,
    }
}

fn block(node: Node, body: Items<CoreStmt>) -> CoreStmt
    ensures { stmt_plain result ≡ p.Block node (stmt_row (map stmt_plain body)) }
{
    CoreStmt {
        node,
        form: CoreStmtForm::Block(body),
    }
}

/// The body of a method, which is a block; `first` says that its statements may give blank final fields their values.
#[tactic(auto, using(crate::proofs::Bodies::body_fine, crate::proofs::Bodies::body_broken))]
fn body_of(
    alloc: Global,
    q: &Questions<'_>,
    place: &Place,
    first: bool,
    params: &[CoreParam],
    body: &Option<Stmt>,
) -> Result<Option<CoreStmt>, Stop>
    requires ready { IsReady q.now }
    ensures { (f : Facts) → AreFacts q.now f → Meets (option_map stmt_plain) result (spec.body_of f place.now first (map spec.in_scope (map param_plain params.now)) (option_map view.stmt_plain body.now)) }
{
    let Some(s) = body else {
        return Ok(None);
    };
    match &s.form {
        StmtForm::Block(ss) => {
            let mut locals = scope_of(alloc, params)?;
            let jumps = Jumps {
                breaks: false,
                continues: false,
            };
            let body = check_stmts(alloc, q, place, jumps, first, &mut locals, ss.as_slice())?;
            Ok(Some(block(s.node, body)))
        }
        _ => Ok(None),
    }
}

// The body, behind all before it.
fn method_behind(
    alloc: Global,
    q: &Questions<'_>,
    place: &Place,
    made: Heading,
    constructor: bool,
    body: &Option<Stmt>,
) -> Result<CoreMethod, Stop>
    requires ready { IsReady q.now }
    ensures { (f : Facts) → AreFacts q.now f → Meets method_plain result (spec.method_behind f place.now made.method made.node constructor made.implied (option_map written made.result) (map param_plain made.params) (map written made.throws) (option_map view.stmt_plain body.now)) }
{
    let first = may_fill(constructor, begins(body));
    let body = body_of(alloc, q, place, first, made.params.as_slice(), body)?;
    Ok(with_body(made, body))
}

fn with_body(made: Heading, body: Option<CoreStmt>) -> CoreMethod
    ensures { method_plain result ≡ spec.method_made made.node made.method made.implied (option_map written made.result) (map param_plain made.params) (map written made.throws) (option_map stmt_plain body) }
{
    let Heading {
        node,
        method,
        implied,
        result,
        params,
        throws,
    } = made;
    CoreMethod {
        node,
        method,
        result,
        params,
        throws,
        implied,
        body,
    }
}

/// A method or constructor, by its number (JLS 8.4, 8.8).
pub fn method_in(
    alloc: Global,
    q: &Questions<'_>,
    place: &Place,
    method: u32,
    m: &Declaration<'_>,
) -> Result<CoreMethod, Stop>
    requires ready { IsReady q.now }
    ensures { (f : Facts) → AreFacts q.now f → Meets method_plain result (spec.method_in f place.now method m.now.node m.now.constructor (option_map view.type_plain m.now.result.now) (map view.param_plain m.now.params.now) (map view.type_plain m.now.throws.now) (option_map view.stmt_plain m.now.body.now)) }
{
    let implied = implied_of(alloc, q, place, m.constructor, m.node, begins(m.body))?;
    let result = maybe_written(alloc, q, place, m.result)?;
    method_with(alloc, q, place, method, m, implied, result)
}

fn method_with(
    alloc: Global,
    q: &Questions<'_>,
    place: &Place,
    method: u32,
    m: &Declaration<'_>,
    implied: Option<Implied>,
    gives: Option<CoreType>,
) -> Result<CoreMethod, Stop>
    requires ready { IsReady q.now }
    ensures { (f : Facts) → AreFacts q.now f → Meets method_plain result (spec.method_with f place.now method m.now.node m.now.constructor implied (option_map written gives) (map view.param_plain m.now.params.now) (map view.type_plain m.now.throws.now) (option_map view.stmt_plain m.now.body.now)) }
{
    let params = params_of(alloc, q, place, m.params)?;
    let throws = all_written(alloc, q, place, m.throws)?;
    let made = Heading {
        node: m.node,
        method,
        implied,
        result: gives,
        params,
        throws,
    };
    method_behind(alloc, q, place, made, m.constructor, m.body)
}
