//! Locals come into scope along a block, and go out of it at its end (JLS 14.4.2).

ghost use Rattle.std.specs.Prelude.{◌≡◌, map, IfOk, OnOk};
ghost use Rattle.java_tree.specs.View as view;
ghost use Rattle.java_core.specs.Plain as p;
ghost use Rattle.java_core.specs.View.{written};
ghost use Rattle.checked.specs.Checked.{Checked, Meets};
ghost use Rattle.written_types.specs.Types.{arrays};
ghost use Rattle.type_facts.specs.Facts.{AreFacts, Facts, IsReady};
ghost use Rattle.check_stmt.specs.Fronts.{IsFront};
ghost use Rattle.check_stmt.specs.Pieces as piece;
ghost use Rattle.check_stmt.specs.Statements as spec;

use checked::Stop;
use class_world::{JavaType, copied};
use java_core::CoreType;
use java_tree::tree::{Name, Stmt, StmtForm, Var};
use java_tree::{Boxed, NoMemory};
use operator_rules::writtens::written;
use std::alloc::Global;
use type_facts::Questions;
use type_facts::scope::{LocalVar, Locals, Place};

/// Where a local is to stand: its slot, and whether a local in scope has its name.
#[derive(Clone, Copy, Debug, PartialEq, Eq)]
pub struct Spot {
    pub slot: u32,
    pub taken: bool,
}

/// The place of the next local. More than 2^32 locals are want of memory.
pub fn spot_of(locals: &Locals, name: Name) -> Result<Spot, NoMemory>
    ensures { IfOk result (λ s. s ≡ piece.spot_of locals.now name) }
{
    let Ok(slot) = u32::try_from(locals.len()) else {
        return Err(NoMemory);
    };
    Ok(Spot {
        slot,
        taken: locals.find(name).is_some(),
    })
}

/// Array levels around a type (JLS 10.1).
pub fn with_levels(alloc: Global, ty: JavaType, levels: u32) -> Result<JavaType, NoMemory>
    ensures { IfOk result (λ r. r ≡ arrays levels ty) }
{
    let mut ty = ty;
    for _ in 0..levels {
        ty = JavaType::Array(Boxed::new(alloc, ty)?);
    }
    Ok(ty)
}

/// Brings a local into scope.
#[tactic(auto, using(crate::proofs::Fronts::front_push, crate::proofs::Fronts::front_same))]
pub fn declare(
    alloc: Global,
    locals: &mut Locals,
    name: Name,
    ty: &JavaType,
    is_final: bool,
) -> Result<(), NoMemory>
    ensures scope { OnOk result (locals.new ≡ piece.declared locals.old name ty.now is_final) }
    ensures front { IsFront locals.old locals.new }
{
    let Ok(slot) = u32::try_from(locals.len()) else {
        return Err(NoMemory);
    };
    let ty = copied(alloc, ty)?;
    locals.push(LocalVar {
        name,
        slot,
        ty,
        is_final,
    })?;
    Ok(())
}

/// Brings variables of a written type into scope, each with the array levels behind its name.
#[tactic(auto, using(crate::proofs::Fronts::front_then, crate::proofs::Fronts::front_same))]
fn declare_vars(
    alloc: Global,
    locals: &mut Locals,
    ty: &JavaType,
    is_final: bool,
    vars: &[Var],
) -> Result<(), NoMemory>
    ensures scope { OnOk result (locals.new ≡ piece.with_vars locals.old ty.now is_final (map view.var_plain vars.now)) }
    ensures front { IsFront locals.old locals.new }
{
    for var in vars {
        let ty = with_levels(alloc, copied(alloc, ty)?, var.dims)?;
        declare(alloc, locals, var.name, &ty, is_final)?;
    }
    Ok(())
}

/// The same where a type was read for them; no type declares none.
#[tactic(auto, using(crate::proofs::Fronts::front_same, java_core::proofs::Views::type_out))]
fn declare_typed(
    alloc: Global,
    locals: &mut Locals,
    is_final: bool,
    vars: &[Var],
    ty: Result<CoreType, Stop>,
) -> Result<(), NoMemory>
    ensures scope { (a : Checked p.Written) → Meets written ty a → OnOk result (locals.new ≡ piece.with_typed locals.old is_final (map view.var_plain vars.now) a) }
    ensures front { IsFront locals.old locals.new }
{
    match ty {
        Ok(ty) => declare_vars(alloc, locals, &ty.ty, is_final, vars),
        Err(Stop::NoMemory) => Err(NoMemory),
        Err(Stop::Broken { .. }) => Ok(()),
    }
}

/// Brings what a statement declares into scope (JLS 14.4).
#[tactic(auto, using(crate::proofs::Fronts::front_same))]
pub fn declare_stmt(
    alloc: Global,
    q: &Questions<'_>,
    place: &Place,
    locals: &mut Locals,
    s: &Stmt,
) -> Result<(), NoMemory>
    requires ready { IsReady q.now }
    ensures scope { (f : Facts) → AreFacts q.now f → OnOk result (locals.new ≡ spec.after f place.now locals.old (view.stmt_plain s.now)) }
    ensures front { IsFront locals.old locals.new }
{
    match &s.form {
        StmtForm::Local { is_final, ty, vars } => {
            let ty = written(alloc, q, place, ty);
            declare_typed(alloc, locals, *is_final, vars.as_slice(), ty)
        }
        _ => Ok(()),
    }
}

/// Brings what statements declare into scope, also where one of them breaks a rule.
#[tactic(auto, using(crate::proofs::Fronts::front_then, crate::proofs::Fronts::front_same))]
pub fn declare_all(
    alloc: Global,
    q: &Questions<'_>,
    place: &Place,
    locals: &mut Locals,
    ss: &[Stmt],
) -> Result<(), NoMemory>
    requires ready { IsReady q.now }
    ensures scope { (f : Facts) → AreFacts q.now f → OnOk result (locals.new ≡ spec.after_all f place.now locals.old (view.stmts_plain ss.now)) }
    ensures front { IsFront locals.old locals.new }
{
    for s in ss {
        declare_stmt(alloc, q, place, locals, s)?;
    }
    Ok(())
}

/// Brings the variable of an enhanced for, or the parameter of a catch, into scope (JLS 14.14.2, 14.20).
#[tactic(auto, using(crate::proofs::Fronts::front_same, java_core::proofs::Views::type_out))]
pub fn declare_one(
    alloc: Global,
    locals: &mut Locals,
    is_final: bool,
    levels: u32,
    name: Name,
    ty: &Result<CoreType, Stop>,
) -> Result<(), NoMemory>
    ensures scope { (a : Checked p.Written) → Meets written ty.now a → OnOk result (locals.new ≡ piece.with_one locals.old is_final levels name a) }
    ensures front { IsFront locals.old locals.new }
{
    match ty {
        Ok(ty) => {
            let ty = with_levels(alloc, copied(alloc, &ty.ty)?, levels)?;
            declare(alloc, locals, name, &ty, is_final)
        }
        Err(Stop::NoMemory) => Err(NoMemory),
        Err(Stop::Broken { .. }) => Ok(()),
    }
}
