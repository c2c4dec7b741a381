//! The labels of a switch (JLS 14.11).

ghost use Rattle.std.specs.Prelude.{◌≡◌, ◌<◌, ◌^◌, ◌++◌, true, map, IfOk, OnOk};
ghost use Rattle.std.specs.Option.{option_map};
ghost use Rattle.java_tree.specs.View as view;
ghost use Rattle.checked.specs.Checked.{Meets, same};
ghost use Rattle.operator_rules.specs.Constants as constants;
ghost use Rattle.check_stmt.specs.Labels as spec;

use checked::Stop;
use java_tree::tree::{Expr, ExprForm, Node, UnOp};
use java_tree::{Items, NoMemory};
use std::alloc::Global;

/// The value of a label, a char's its number. No switch may have one that `is_long`.
#[derive(Clone, Copy, Debug, PartialEq, Eq)]
pub struct Label {
    pub value: i32,
    pub is_char: bool,
    pub is_long: bool,
}

/// Whether a literal is one of int (JLS 3.10.1).
fn is_int(decimal: bool, minus: bool, value: u64) -> bool
    ensures { result ≡ constants.is_in_range 32 decimal minus value }
{
    if decimal {
        if value < 1 << 31 {
            return true;
        }
        if minus {
            return value == 1 << 31;
        }
        return false;
    }
    value < 1 << 32
}

/// Whether a literal is one of long (JLS 3.10.1).
fn is_long(decimal: bool, minus: bool, value: u64) -> bool
    ensures { result ≡ constants.is_in_range 64 decimal minus value }
{
    if decimal {
        if value < 1 << 63 {
            return true;
        }
        if minus {
            return value == 1 << 63;
        }
        return false;
    }
    true
}

/// A number of 32 bits, the upper half as what is below zero.
fn wrapped(value: u64) -> i32
    requires { value < 2 ^ 32 }
    ensures { result ≡ constants.wrapped 32 value }
{
    (value as u32).cast_signed()
}

/// The value of an int literal, under a minus or not.
fn int_value(minus: bool, value: u64) -> i32
    requires { value < 2 ^ 32 }
    ensures { result ≡ spec.int_value minus value }
{
    let wrapped = wrapped(value);
    if !minus {
        return wrapped;
    }
    if value == 1 << 31 {
        return wrapped;
    }
    -wrapped
}

/// What is no label, or one with `L`.
fn no_label() -> Label
    ensures { result ≡ spec.no_label }
{
    Label {
        value: 0,
        is_char: false,
        is_long: true,
    }
}

fn number_label(
    node: Node,
    value: u64,
    decimal: bool,
    long: bool,
    minus: bool,
) -> Result<Label, Stop>
    ensures { Meets same result (spec.number_label node value decimal long minus) }
{
    if long {
        if !is_long(decimal, minus, value) {
            return Err(Stop::Broken {
                node: node.id,
                rule: 19,
            });
        }
        return Ok(no_label());
    }
    if !is_int(decimal, minus, value) {
        return Err(Stop::Broken {
            node: node.id,
            rule: 18,
        });
    }
    Ok(Label {
        value: int_value(minus, value),
        is_char: false,
        is_long: false,
    })
}

fn char_label(minus: bool, value: u16) -> Label
    ensures { result ≡ spec.char_label minus value }
{
    if minus {
        return Label {
            value: -i32::from(value),
            is_char: false,
            is_long: false,
        };
    }
    Label {
        value: i32::from(value),
        is_char: true,
        is_long: false,
    }
}

/// The label that an expression under a minus is.
fn signed_label(e: &Expr) -> Result<Label, Stop>
    ensures { Meets same result (spec.signed_label (view.plain e.now)) }
{
    match &e.form {
        ExprForm::Number {
            value,
            decimal,
            long,
        } => number_label(e.node, *value, *decimal, *long, true),
        ExprForm::Char(x) => Ok(char_label(true, *x)),
        ExprForm::Text(_) => Ok(no_label()),
        ExprForm::Bool(_) => Ok(no_label()),
        ExprForm::Null => Ok(no_label()),
        ExprForm::This => Ok(no_label()),
        ExprForm::Name(_) => Ok(no_label()),
        ExprForm::Field { .. } => Ok(no_label()),
        ExprForm::SuperField(_) => Ok(no_label()),
        ExprForm::Index { .. } => Ok(no_label()),
        ExprForm::Call { .. } => Ok(no_label()),
        ExprForm::SuperMethod { .. } => Ok(no_label()),
        ExprForm::New { .. } => Ok(no_label()),
        ExprForm::NewArray { .. } => Ok(no_label()),
        ExprForm::NewFilled { .. } => Ok(no_label()),
        ExprForm::Items(_) => Ok(no_label()),
        ExprForm::Paren(_) => Ok(no_label()),
        ExprForm::Unary { .. } => Ok(no_label()),
        ExprForm::Step { .. } => Ok(no_label()),
        ExprForm::Cast { .. } => Ok(no_label()),
        ExprForm::Binary { .. } => Ok(no_label()),
        ExprForm::InstanceOf { .. } => Ok(no_label()),
        ExprForm::Cond { .. } => Ok(no_label()),
        ExprForm::Assign { .. } => Ok(no_label()),
    }
}

/// The label that an expression is: a literal of int or char, under a minus or not (JLS 14.11): T18, T19.
fn label_of(e: &Expr) -> Result<Label, Stop>
    ensures { Meets same result (spec.label (view.plain e.now)) }
{
    match &e.form {
        ExprForm::Number {
            value,
            decimal,
            long,
        } => number_label(e.node, *value, *decimal, *long, false),
        ExprForm::Char(x) => Ok(char_label(false, *x)),
        ExprForm::Unary { op, of } => match op {
            UnOp::Minus => signed_label(of.get()),
            UnOp::Plus => Ok(no_label()),
            UnOp::Invert => Ok(no_label()),
            UnOp::Not => Ok(no_label()),
        },
        ExprForm::Text(_) => Ok(no_label()),
        ExprForm::Bool(_) => Ok(no_label()),
        ExprForm::Null => Ok(no_label()),
        ExprForm::This => Ok(no_label()),
        ExprForm::Name(_) => Ok(no_label()),
        ExprForm::Field { .. } => Ok(no_label()),
        ExprForm::SuperField(_) => Ok(no_label()),
        ExprForm::Index { .. } => Ok(no_label()),
        ExprForm::Call { .. } => Ok(no_label()),
        ExprForm::SuperMethod { .. } => Ok(no_label()),
        ExprForm::New { .. } => Ok(no_label()),
        ExprForm::NewArray { .. } => Ok(no_label()),
        ExprForm::NewFilled { .. } => Ok(no_label()),
        ExprForm::Items(_) => Ok(no_label()),
        ExprForm::Paren(_) => Ok(no_label()),
        ExprForm::Step { .. } => Ok(no_label()),
        ExprForm::Cast { .. } => Ok(no_label()),
        ExprForm::Binary { .. } => Ok(no_label()),
        ExprForm::InstanceOf { .. } => Ok(no_label()),
        ExprForm::Cond { .. } => Ok(no_label()),
        ExprForm::Assign { .. } => Ok(no_label()),
    }
}

fn some_label(e: &Option<Expr>) -> Result<Option<Label>, Stop>
    ensures { Meets same result (spec.some_label (option_map view.plain e.now)) }
{
    match e {
        None => Ok(None),
        Some(e) => Ok(Some(label_of(e)?)),
    }
}

/// The labels of a group of statements, `None` for `default` (JLS 14.11): T18, T19.
#[tactic(auto, using(crate::proofs::Steps::labels_end))]
pub fn labels(alloc: Global, es: &[Option<Expr>]) -> Result<Items<Option<Label>>, Stop>
    ensures { Meets same result (spec.labels (map (option_map view.plain) es.now)) }
{
    let mut done = Items::new(alloc);
    for e in es {
        done.push(some_label(e)?)?;
    }
    Ok(done)
}

/// Whether a switch on char, or on int, may have the label.
fn is_of_kind(on_char: bool, label: Option<Label>) -> bool
    ensures { result ≡ spec.is_of_kind on_char label }
{
    match label {
        None => true,
        Some(label) => {
            if on_char {
                return label.is_char;
            }
            !label.is_long
        }
    }
}

fn value_of(label: Option<Label>) -> Option<i32>
    ensures { result ≡ spec.value_of label }
{
    match label {
        None => None,
        Some(label) => Some(label.value),
    }
}

fn is_same(x: Option<i32>, y: Option<i32>) -> bool
    ensures { result ≡ spec.same_label x y }
{
    match x {
        None => y.is_none(),
        Some(x) => match y {
            None => false,
            Some(y) => x == y,
        },
    }
}

fn is_seen(value: Option<i32>, seen: &[Option<i32>]) -> bool
    ensures { result ≡ spec.is_seen value seen.now }
{
    for other in seen {
        if is_same(value, *other) {
            return true;
        }
    }
    false
}

/// Whether a switch may have these labels behind those seen, which they join: each is of its kind, and none stands before it (JLS 14.11).
pub fn are_labels(
    on_char: bool,
    seen: &mut Items<Option<i32>>,
    labels: &[Option<Label>],
) -> Result<bool, NoMemory>
    ensures answer { IfOk result (λ b. b ≡ spec.are_labels on_char seen.old labels.now) }
    ensures seen { OnOk result (spec.are_labels on_char seen.old labels.now ≡ true → seen.new ≡ seen.old ++ map spec.value_of labels.now) }
{
    for label in labels {
        if !is_of_kind(on_char, *label) {
            return Ok(false);
        }
        let value = value_of(*label);
        if is_seen(value, seen.as_slice()) {
            return Ok(false);
        }
        seen.push(value)?;
    }
    Ok(true)
}

/// The values of labels.
pub fn values(alloc: Global, labels: &[Option<Label>]) -> Result<Items<Option<i32>>, NoMemory>
    ensures { IfOk result (λ r. r ≡ map spec.value_of labels.now) }
{
    let mut done = Items::new(alloc);
    for label in labels {
        done.push(value_of(*label))?;
    }
    Ok(done)
}
