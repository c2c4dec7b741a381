//! The check of expressions.

ghost use Rattle.std.specs.Prelude.{◌≡◌, Some, None, map};
ghost use Rattle.std.specs.Option.{option_copied};
ghost use Rattle.java_tree.specs.View as view;
ghost use Rattle.java_core.specs.View.{plain, written};
ghost use Rattle.checked.specs.Checked.{Meets, and_then};
ghost use Rattle.type_facts.specs.Facts.{AreFacts, Facts, IsReady};
ghost use Rattle.type_kinds.specs.Kinds as kinds;
ghost use Rattle.operator_rules.specs.declared.uses.Use.TheVariants as use_;
ghost use Rattle.operator_rules.specs.Writtens as writtens;
ghost use Rattle.check_expr.specs.Typed as spec;

use crate::forms;
use checked::{Stop, boxed};
use class_world::JavaType;
use java_core::{CoreExpr, CoreForm};
use java_tree::Items;
use java_tree::tree::{Expr, ExprForm, Name, Node, Primitive, TypeExpr, UnOp};
use member_uses::{Dotted, Receiver, dotted, field_of, super_field, variable};
use operator_rules::Use;
use operator_rules::arrays::index;
use operator_rules::casts::{cast, instance_of};
use operator_rules::conditionals::cond;
use operator_rules::constants::number;
use operator_rules::operators::{assign, compound, operands, step, unary};
use operator_rules::uses::within;
use operator_rules::writtens::written;
use std::alloc::Global;
use type_facts::Questions;
use type_facts::scope::{Locals, Place};
use type_kinds::kinds::element;

/// A number as it is written.
#[derive(Clone, Copy)]
struct Literal {
    node: Node,
    value: u64,
    decimal: bool,
    long: bool,
}

fn literal_of(e: &Expr) -> Option<Literal>
    ensures { result ≡ spec.literal_of (view.plain e.now) }
{
    match &e.form {
        ExprForm::Number {
            value,
            decimal,
            long,
        } => Some(Literal {
            node: e.node,
            value: *value,
            decimal: *decimal,
            long: *long,
        }),
        _ => None,
    }
}

/// The core of an expression, or the first rule that it breaks, by its node.
pub fn check(
    alloc: Global,
    q: &Questions<'_>,
    place: &Place,
    locals: &Locals,
    how: Use,
    e: &Expr,
) -> Result<CoreExpr, Stop>
    requires ready { IsReady q.now }
    ensures { (f : Facts) → AreFacts q.now f → Meets plain result (spec.typed f place.now locals.now how (view.plain e.now)) }
{
    check_for(alloc, q, place, locals, None, how, e)
}

/// What gives a variable of this type its value: items for an array, or an expression.
pub fn check_initial(
    alloc: Global,
    q: &Questions<'_>,
    place: &Place,
    locals: &Locals,
    ty: &JavaType,
    e: &Expr,
) -> Result<CoreExpr, Stop>
    requires ready { IsReady q.now }
    ensures { (f : Facts) → AreFacts q.now f → Meets plain result (spec.initial f place.now locals.now ty.now (view.plain e.now)) }
{
    check_for(alloc, q, place, locals, Some(ty), Use::Read, e)
}

// `to` is the type of the variable or item that the value is for, where it stands as one.
#[cycle(check)]
#[tactic(auto, using(java_tree::proofs::Views::plain_call, java_tree::proofs::Views::plain_call_on, java_tree::proofs::Views::plain_assign))]
fn check_for(
    alloc: Global,
    q: &Questions<'_>,
    place: &Place,
    locals: &Locals,
    to: Option<&JavaType>,
    how: Use,
    e: &Expr,
) -> Result<CoreExpr, Stop>
    requires ready { IsReady q.now }
    ensures { (f : Facts) → AreFacts q.now f → Meets plain result (spec.typed_for f place.now locals.now (option_copied to.entry) how (view.plain e.now)) }
{
    let node = e.node;
    match &e.form {
        ExprForm::Number {
            value,
            decimal,
            long,
        } => number(node, *value, *decimal, *long, false),
        ExprForm::Char(x) => Ok(CoreExpr {
            node,
            ty: JavaType::Prim(Primitive::Char),
            form: CoreForm::Char(*x),
        }),
        ExprForm::Text(x) => forms::text(alloc, node, x),
        ExprForm::Bool(b) => Ok(CoreExpr {
            node,
            ty: JavaType::Prim(Primitive::Boolean),
            form: CoreForm::Truth(*b),
        }),
        ExprForm::Null => Ok(CoreExpr {
            node,
            ty: JavaType::Null,
            form: CoreForm::Null,
        }),
        ExprForm::This => forms::this_of(alloc, place, node),
        ExprForm::Name(name) => variable(alloc, q, place, how, locals, node, *name),
        ExprForm::Field { of, name } => {
            let before = dotted(alloc, q, place, locals, of.get());
            match before {
                Err(_) => Err(Stop::NoMemory),
                Ok(Dotted::Value) => {
                    let of = boxed(
                        alloc,
                        check_for(alloc, q, place, locals, None, Use::Read, of.get()),
                    );
                    forms::field_on(alloc, q, place, how, node, of, *name)
                }
                Ok(Dotted::Type(at, class)) => {
                    field_of(
                        alloc,
                        q,
                        place,
                        how,
                        node,
                        28,
                        Receiver::Type(at, class),
                        *name,
                    )
                }
                Ok(Dotted::Unknown(at)) => Err(Stop::Broken {
                    node: at.id,
                    rule: 26,
                }),
            }
        }
        ExprForm::SuperField(name) => super_field(alloc, q, place, how, node, *name),
        ExprForm::Index { of, at } => {
            let of = boxed(
                alloc,
                check_for(alloc, q, place, locals, None, Use::Read, of.get()),
            );
            let at = boxed(
                alloc,
                check_for(alloc, q, place, locals, None, Use::Read, at.get()),
            );
            index(alloc, node, of, at)
        }
        ExprForm::Call { of, name, args } => match of {
            None => {
                let args = check_all(alloc, q, place, locals, args.as_slice());
                forms::call_here(alloc, q, place, how, node, *name, args)
            }
            Some(of) => {
                let before = dotted(alloc, q, place, locals, of.get());
                match before {
                    Err(_) => Err(Stop::NoMemory),
                    Ok(Dotted::Value) => {
                        let of = boxed(
                            alloc,
                            check_for(alloc, q, place, locals, None, Use::Read, of.get()),
                        );
                        let args = check_all(alloc, q, place, locals, args.as_slice());
                        forms::call_on(alloc, q, place, how, node, of, *name, args)
                    }
                    Ok(Dotted::Type(at, class)) => {
                        let args = check_all(alloc, q, place, locals, args.as_slice());
                        forms::call_on_type(alloc, q, place, how, node, at, class, *name, args)
                    }
                    Ok(Dotted::Unknown(at)) => Err(Stop::Broken {
                        node: at.id,
                        rule: 26,
                    }),
                }
            }
        },
        ExprForm::SuperMethod { name, args } => {
            let args = check_all(alloc, q, place, locals, args.as_slice());
            forms::super_call(alloc, q, place, how, node, *name, args)
        }
        ExprForm::New { ty, args } => {
            let ty = written(alloc, q, place, ty);
            let args = check_all(alloc, q, place, locals, args.as_slice());
            forms::new_of(alloc, q, place, node, ty, args)
        }
        ExprForm::NewArray { ty, sizes, extra } => {
            let ty = written(alloc, q, place, ty);
            let sizes = check_all(alloc, q, place, locals, sizes.as_slice());
            forms::array_of(alloc, node, ty, *extra, sizes)
        }
        ExprForm::NewFilled { ty, items } => check_filled(
            alloc,
            q,
            place,
            locals,
            node,
            ty,
            items.get(),
        ),
        ExprForm::Items(items) => match to {
            None => Err(Stop::Broken {
                node: node.id,
                rule: 8,
            }),
            Some(to) => check_filling(alloc, q, place, locals, node, to, items.as_slice()),
        },
        ExprForm::Paren(of) => {
            let of = boxed(
                alloc,
                check_for(alloc, q, place, locals, None, within(how), of.get()),
            );
            forms::paren(alloc, node, of)
        }
        ExprForm::Unary { op, of } => {
            let of = boxed(alloc, check_operand(alloc, q, place, locals, *op, of.get()));
            unary(alloc, node, *op, of)
        }
        ExprForm::Step { up, before, of } => {
            let of = boxed(
                alloc,
                check_for(alloc, q, place, locals, None, Use::Change, of.get()),
            );
            step(alloc, q, locals, node, *up, *before, of)
        }
        ExprForm::Cast { ty, close, of } => {
            let ty = written(alloc, q, place, ty);
            let of = boxed(
                alloc,
                check_for(alloc, q, place, locals, None, Use::Read, of.get()),
            );
            cast(alloc, q, node, ty, *close, of)
        }
        ExprForm::Binary { op, left, right } => {
            let left = boxed(
                alloc,
                check_for(alloc, q, place, locals, None, Use::Read, left.get()),
            );
            let right = boxed(
                alloc,
                check_for(alloc, q, place, locals, None, Use::Read, right.get()),
            );
            operands(alloc, q, node, *op, left, right)
        }
        ExprForm::InstanceOf { of, ty } => {
            let of = boxed(
                alloc,
                check_for(alloc, q, place, locals, None, Use::Read, of.get()),
            );
            let ty = written(alloc, q, place, ty);
            instance_of(alloc, q, node, of, ty)
        }
        ExprForm::Cond { test, yes, no } => {
            let test = boxed(
                alloc,
                check_for(alloc, q, place, locals, None, Use::Read, test.get()),
            );
            let yes = boxed(
                alloc,
                check_for(alloc, q, place, locals, None, Use::Read, yes.get()),
            );
            let no = boxed(
                alloc,
                check_for(alloc, q, place, locals, None, Use::Read, no.get()),
            );
            cond(alloc, q, node, test, yes, no)
        }
        ExprForm::Assign { op, to, from } => match op {
            None => {
                let to = boxed(
                    alloc,
                    check_for(alloc, q, place, locals, None, Use::Set, to.get()),
                );
                let from = boxed(
                    alloc,
                    check_for(alloc, q, place, locals, None, Use::Read, from.get()),
                );
                assign(alloc, q, place, how, locals, node, to, from)
            }
            Some(op) => {
                let to = boxed(
                    alloc,
                    check_for(alloc, q, place, locals, None, Use::Change, to.get()),
                );
                let from = boxed(
                    alloc,
                    check_for(alloc, q, place, locals, None, Use::Read, from.get()),
                );
                compound(alloc, q, locals, node, *op, to, from)
            }
        },
    }
}

// The operand of a sign: behind a minus a number may be larger by one.
#[cycle(check)]
fn check_operand(
    alloc: Global,
    q: &Questions<'_>,
    place: &Place,
    locals: &Locals,
    op: UnOp,
    e: &Expr,
) -> Result<CoreExpr, Stop>
    requires ready { IsReady q.now }
    ensures { (f : Facts) → AreFacts q.now f → Meets plain result (spec.signed op (view.plain e.now) (spec.typed_for f place.now locals.now None use_.Read (view.plain e.now))) }
{
    match op {
        UnOp::Minus => match literal_of(e) {
            None => check_for(alloc, q, place, locals, None, Use::Read, e),
            Some(x) => number(x.node, x.value, x.decimal, x.long, true),
        },
        UnOp::Plus => check_for(alloc, q, place, locals, None, Use::Read, e),
        UnOp::Invert => check_for(alloc, q, place, locals, None, Use::Read, e),
        UnOp::Not => check_for(alloc, q, place, locals, None, Use::Read, e),
    }
}

// An array that is created of its items.
#[cycle(check)]
fn check_filled(
    alloc: Global,
    q: &Questions<'_>,
    place: &Place,
    locals: &Locals,
    node: Node,
    ty: &TypeExpr,
    items: &Expr,
) -> Result<CoreExpr, Stop>
    requires ready { IsReady q.now }
    ensures { (f : Facts) → AreFacts q.now f → Meets plain result (and_then (writtens.written f place.now (view.type_plain ty.now)) (λ w. spec.filled_of node w (spec.typed_for f place.now locals.now (Some (writtens.type_said w)) use_.Read (view.plain items.now)))) }
{
    let ty = written(alloc, q, place, ty)?;
    let items = boxed(
        alloc,
        check_for(alloc, q, place, locals, Some(&ty.ty), Use::Read, items),
    );
    forms::filled_of(alloc, node, ty, items)
}

// Items for an array of this type.
#[cycle(check)]
fn check_filling(
    alloc: Global,
    q: &Questions<'_>,
    place: &Place,
    locals: &Locals,
    node: Node,
    ty: &JavaType,
    items: &[Expr],
) -> Result<CoreExpr, Stop>
    requires ready { IsReady q.now }
    ensures { (f : Facts) → AreFacts q.now f → Meets plain result (spec.filled_by node ty.now (kinds.element ty.now) (λ y. spec.items f place.now locals.now y (view.plains items.now))) }
{
    match element(ty) {
        None => Err(Stop::Broken {
            node: node.id,
            rule: 8,
        }),
        Some(of) => {
            let items = check_items(alloc, q, place, locals, of, items);
            forms::filled(alloc, node, ty, items)
        }
    }
}

// The items of an array of this element type.
#[cycle(check)]
#[tactic(auto, using(crate::proofs::Steps::done_last, crate::proofs::Steps::done_end))]
fn check_items(
    alloc: Global,
    q: &Questions<'_>,
    place: &Place,
    locals: &Locals,
    ty: &JavaType,
    es: &[Expr],
) -> Result<Items<CoreExpr>, Stop>
    requires ready { IsReady q.now }
    ensures { (f : Facts) → AreFacts q.now f → Meets (map plain) result (spec.items f place.now locals.now ty.now (view.plains es.now)) }
{
    let mut done = Items::new(alloc);
    for e in es {
        let of = check_for(alloc, q, place, locals, Some(ty), Use::Read, e);
        done.push(forms::item(alloc, q, ty, e, of)?)?;
    }
    Ok(done)
}

/// The cores of expressions one behind the other.
#[cycle(check)]
#[tactic(auto, using(crate::proofs::Steps::done_last, crate::proofs::Steps::done_end))]
pub fn check_all(
    alloc: Global,
    q: &Questions<'_>,
    place: &Place,
    locals: &Locals,
    es: &[Expr],
) -> Result<Items<CoreExpr>, Stop>
    requires ready { IsReady q.now }
    ensures { (f : Facts) → AreFacts q.now f → Meets (map plain) result (spec.typeds f place.now locals.now (view.plains es.now)) }
{
    let mut done = Items::new(alloc);
    for e in es {
        done.push(check_for(alloc, q, place, locals, None, Use::Read, e)?)?;
    }
    Ok(done)
}
