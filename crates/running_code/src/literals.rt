//! Literals and concatenations of such (JLS 15.18.1.2, 15.28).

ghost use Rattle.std.specs.Prelude.{◌≡◌, ◌++◌, [], IfOk, OnOk, Some, true, is_some, unwrap_or};
ghost use Rattle.std.specs.Option.{option_map};
ghost use Rattle.java_core.specs.View.{form_plain, plain};
ghost use Rattle.core_meaning.specs.Code as code;
ghost use Rattle.core_meaning.specs.Texts.{number_units, truth_units};

use crate::names::push_text;
use java_core::{CoreExpr, CoreForm, Kind};
use java_tree::tree::{BinOp, UnOp};
use java_tree::{Items, NoMemory};
use std::alloc::Global;

/// Whether an operator joins texts.
fn is_join_of(op: BinOp, kind: Kind) -> bool
    ensures { result ≡ code.is_join_of op kind }
{
    match op {
        BinOp::Add => match kind {
            Kind::Text => true,
            _ => false,
        },
        _ => false,
    }
}

/// Whether an expression counts as one literal.
#[tactic(auto, using(crate::proofs::Joins::joins))]
fn has_literal(e: &CoreExpr) -> bool
    ensures { result ≡ is_some (code.literal_of (plain e.now)) }
{
    match &e.form {
        CoreForm::Int(_) => true,
        CoreForm::Long(_) => true,
        CoreForm::Char(_) => true,
        CoreForm::Text(_) => true,
        CoreForm::Truth(_) => true,
        CoreForm::Null => true,
        CoreForm::Paren(of) => has_literal(of.get()),
        CoreForm::Binary {
            op,
            kind,
            left,
            right,
        } => { is_join_of(*op, *kind) && has_literal(right.get()) && has_literal(left.get()) }
        _ => false,
    }
}

/// Whether a concatenation of two expressions counts as one literal. The right one mostly says at once that it does not.
#[tactic(auto, using(crate::proofs::Joins::joins))]
fn has_joined(op: BinOp, kind: Kind, left: &CoreExpr, right: &CoreExpr) -> bool
    ensures { result ≡ is_some (code.joined_literal op kind (plain left.now) (plain right.now)) }
{
    is_join_of(op, kind) && has_literal(right) && has_literal(left)
}

/// What stands under the widening of a primitive.
fn unwidened(e: &CoreExpr) -> &CoreForm
    ensures { form_plain result.now ≡ code.unwidened (plain e.now) }
{
    match &e.form {
        CoreForm::Widen(of) => unwidened(of.get()),
        form => form,
    }
}

/// Whether an expression is a concatenation of literals, in brackets or not.
fn is_concatenation(e: &CoreExpr) -> bool
    ensures { result ≡ code.is_concatenation (plain e.now) }
{
    match &e.form {
        CoreForm::Paren(of) => is_concatenation(of.get()),
        CoreForm::Binary {
            op,
            kind,
            left,
            right,
        } => has_joined(*op, *kind, left.get(), right.get()),
        _ => false,
    }
}

fn is_literal(form: &CoreForm) -> bool
    ensures { result ≡ code.is_literal (form_plain form.now) }
{
    match form {
        CoreForm::Int(_) => true,
        CoreForm::Long(_) => true,
        CoreForm::Char(_) => true,
        CoreForm::Text(_) => true,
        CoreForm::Truth(_) => true,
        CoreForm::Paren(of) => is_concatenation(of.get()),
        CoreForm::Binary {
            op,
            kind,
            left,
            right,
        } => has_joined(*op, *kind, left.get(), right.get()),
        _ => false,
    }
}

fn is_signed_literal(form: &CoreForm) -> bool
    ensures { result ≡ code.is_signed_literal (form_plain form.now) }
{
    match form {
        CoreForm::Unary { op, of } => match op {
            UnOp::Minus => is_literal(unwidened(of.get())),
            _ => false,
        },
        _ => is_literal(form),
    }
}

/// Whether an initialiser is that of a constant field: a literal with a minus or none, or a concatenation of literals.
pub(crate) fn is_constant_value(init: &Option<CoreExpr>) -> bool
    ensures { result ≡ code.is_constant_value (option_map plain init.now) }
{
    match init {
        None => false,
        Some(value) => is_signed_literal(unwidened(value)),
    }
}

fn push_units(units: &[u16], out: &mut Items<u16>) -> Result<(), NoMemory>
    ensures { OnOk result (out.new ≡ out.old ++ units.now) }
{
    for unit in units {
        out.push(*unit)?;
    }
    Ok(())
}

fn push_number(alloc: Global, n: i64, out: &mut Items<u16>) -> Result<(), NoMemory>
    ensures { OnOk result (out.new ≡ out.old ++ number_units n) }
{
    let text = format!(in alloc; "{n}")?;
    push_text(text.as_str(), out)
}

fn push_truth(is: bool, out: &mut Items<u16>) -> Result<(), NoMemory>
    ensures { OnOk result (out.new ≡ out.old ++ truth_units is) }
{
    if is {
        push_text("true", out)
    } else {
        push_text("false", out)
    }
}

/// Appends the units of an expression that counts as one literal.
fn push_literal(alloc: Global, e: &CoreExpr, out: &mut Items<u16>) -> Result<(), NoMemory>
    ensures { is_some (code.literal_of (plain e.now)) ≡ true → OnOk result (out.new ≡ out.old ++ unwrap_or (code.literal_of (plain e.now)) []) }
{
    match &e.form {
        CoreForm::Int(n) => push_number(alloc, i64::from(*n), out),
        CoreForm::Long(n) => push_number(alloc, *n, out),
        CoreForm::Char(unit) => {
            out.push(*unit)?;
            Ok(())
        }
        CoreForm::Text(units) => push_units(units.as_slice(), out),
        CoreForm::Truth(is) => push_truth(*is, out),
        CoreForm::Null => push_text("null", out),
        CoreForm::Paren(of) => push_literal(alloc, of.get(), out),
        CoreForm::Binary { left, right, .. } => {
            push_literal(alloc, left.get(), out)?;
            push_literal(alloc, right.get(), out)?;
            Ok(())
        }
        _ => Ok(()),
    }
}

#[tactic(auto, using(crate::proofs::Joins::joined))]
fn joined_units(alloc: Global, left: &CoreExpr, right: &CoreExpr) -> Result<Items<u16>, NoMemory>
    requires left { is_some (code.literal_of (plain left.now)) ≡ true }
    requires right { is_some (code.literal_of (plain right.now)) ≡ true }
    ensures { IfOk result (λ r. Some r ≡ code.both (code.literal_of (plain left.now)) (code.literal_of (plain right.now))) }
{
    let mut out = Items::new(alloc);
    push_literal(alloc, left, &mut out)?;
    push_literal(alloc, right, &mut out)?;
    Ok(out)
}

/// The units of a concatenation that counts as one literal: of literals and of concatenations of such, in brackets or not. Takes no memory where it is none.
#[tactic(auto, using(crate::proofs::Joins::join_left, crate::proofs::Joins::join_right))]
pub fn joined_literal(
    alloc: Global,
    op: BinOp,
    kind: Kind,
    left: &CoreExpr,
    right: &CoreExpr,
) -> Result<Option<Items<u16>>, NoMemory>
    ensures { IfOk result (λ r. r ≡ code.joined_literal op kind (plain left.now) (plain right.now)) }
{
    if has_joined(op, kind, left, right) {
        Ok(Some(joined_units(alloc, left, right)?))
    } else {
        Ok(None)
    }
}
