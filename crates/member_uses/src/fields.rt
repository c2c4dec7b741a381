//! Fields, as an expression uses them.

ghost use Rattle.std.specs.Prelude.{◌≡◌, IfOk, true};
ghost use Rattle.java_core.specs.Plain as p;
ghost use Rattle.java_core.specs.View.{plain, form_plain};
ghost use Rattle.checked.specs.Checked.{Meets};
ghost use Rattle.type_facts.specs.Facts.{AreFacts, Facts, IsReady};
ghost use Rattle.type_facts.specs.Scopes as scopes;
ghost use Rattle.member_uses.specs.Receivers.{receiver};
ghost use Rattle.member_uses.specs.Targets as spec;

use crate::receiver::{Receiver, receiver_type};
use crate::supers::superclass;
use checked::Stop;
use class_world::{Declared, FieldInfo, JavaType, copied};
use java_core::{Before, CoreExpr, CoreForm};
use java_tree::tree::{Name, Node, Primitive};
use java_tree::{Boxed, NoMemory};
use operator_rules::Use;
use operator_rules::uses::{is_read, is_set};
use std::alloc::Global;
use type_facts::Questions;
use type_facts::asks::{field_named, has_access};
use type_facts::scope::{LocalVar, Locals, Place, own_type};
use type_facts::seen::{accessed, as_seen, seen_by};
use type_kinds::kinds::element;
use type_kinds::members::is_static_field;

// Whether a class can access a field (JLS 6.6). A simple name may name any field of its class.
fn can_access_field(q: &Questions<'_>, place: &Place, of: &Receiver, number: u32) -> bool
    ensures { (f : Facts) → AreFacts q.now f → result ≡ spec.can_access_field f place.now (receiver of.now) number }
{
    match of {
        Receiver::This => true,
        Receiver::Value(_) => has_access(q, place.class, Declared::Field(number)),
        Receiver::Type(_, _) => has_access(q, place.class, Declared::Field(number)),
        Receiver::Super(_) => has_access(q, place.class, Declared::Field(number)),
    }
}

// Whether a field, static or not, may be used so (JLS 15.11).
fn may_have_field(place: &Place, of: &Receiver, is_static: bool) -> bool
    ensures { result ≡ spec.may_have_field place.now (receiver of.now) is_static }
{
    match of {
        Receiver::This => { if is_static { true } else { !place.is_static } }
        Receiver::Value(_) => true,
        Receiver::Type(_, _) => is_static,
        Receiver::Super(_) => !place.is_static,
    }
}

/// `this`, where nothing is written (JLS 15.8.3).
#[tactic(auto, using(java_core::proofs::Views::plain_at))]
pub fn this(alloc: Global, place: &Place, node: Node) -> Result<Boxed<CoreExpr>, NoMemory>
    ensures { IfOk result (λ r. plain r ≡ p.At node (scopes.own_type place.now) p.This) }
{
    let ty = own_type(alloc, place)?;
    Ok(Boxed::new(
        alloc,
        CoreExpr {
            node,
            ty,
            form: CoreForm::This,
        },
    )?)
}

#[tactic(auto, using(java_core::proofs::Views::static_field))]
fn named_field(before: Before, field: u32) -> CoreForm
    ensures { form_plain result ≡ p.StaticField before p.NoExpr field }
{
    CoreForm::StaticField {
        before,
        of: None,
        field,
    }
}

fn this_field(
    alloc: Global,
    place: &Place,
    node: Node,
    is_static: bool,
    field: u32,
) -> Result<CoreForm, NoMemory>
    ensures { IfOk result (λ r. form_plain r ≡ spec.field_form place.now node spec.OfThis is_static field) }
{
    if is_static {
        return Ok(named_field(Before::Nothing, field));
    }
    Ok(CoreForm::Field {
        of: this(alloc, place, node)?,
        simple: true,
        field,
    })
}

#[tactic(auto, using(java_core::proofs::Views::static_field_on))]
fn value_field(of: Boxed<CoreExpr>, is_static: bool, field: u32) -> CoreForm
    ensures { form_plain result ≡ spec.value_field (plain of) is_static field }
{
    if is_static {
        CoreForm::StaticField {
            before: Before::Nothing,
            of: Some(of),
            field,
        }
    } else {
        CoreForm::Field {
            of,
            simple: false,
            field,
        }
    }
}

fn field_form(
    alloc: Global,
    place: &Place,
    node: Node,
    of: Receiver,
    is_static: bool,
    field: u32,
) -> Result<CoreForm, NoMemory>
    ensures { IfOk result (λ r. form_plain r ≡ spec.field_form place.now node (receiver of) is_static field) }
{
    match of {
        Receiver::This => this_field(alloc, place, node, is_static, field),
        Receiver::Value(of) => Ok(value_field(of, is_static, field)),
        Receiver::Type(named, class) => Ok(named_field(Before::Type(named, class), field)),
        Receiver::Super(_) => {
            if is_static {
                Ok(named_field(Before::Super, field))
            } else {
                Ok(CoreForm::SuperField(field))
            }
        }
    }
}

// The type of a field as it is used.
fn field_type(
    alloc: Global,
    q: &Questions<'_>,
    place: &Place,
    of: &Receiver,
    info: &FieldInfo,
) -> Result<JavaType, NoMemory>
    requires ready { IsReady q.now }
    ensures { (f : Facts) → AreFacts q.now f → IfOk result (λ r. r ≡ spec.field_type f place.now (receiver of.now) info.now) }
{
    let ty = receiver_type(alloc, place, of)?;
    let seen = seen_by(alloc, q, &ty, info.owner, is_static_field(q.world, info))?;
    as_seen(alloc, &seen, &info.ty)
}

// A value that is only assigned is not cast.
#[tactic(auto, using(java_core::proofs::Views::plain_at))]
fn access(
    alloc: Global,
    q: &Questions<'_>,
    reads: bool,
    node: Node,
    declared: &JavaType,
    ty: JavaType,
    form: CoreForm,
) -> Result<CoreExpr, NoMemory>
    requires ready { IsReady q.now }
    ensures { (f : Facts) → AreFacts q.now f → IfOk result (λ r. plain r ≡ spec.access f reads node declared.now ty (form_plain form)) }
{
    if reads {
        accessed(alloc, q, node, declared, ty, form)
    } else {
        Ok(CoreExpr { node, ty, form })
    }
}

fn field_made(
    alloc: Global,
    q: &Questions<'_>,
    place: &Place,
    how: Use,
    node: Node,
    of: Receiver,
    number: u32,
    info: &FieldInfo,
) -> Result<CoreExpr, NoMemory>
    requires ready { IsReady q.now }
    ensures { (f : Facts) → AreFacts q.now f → IfOk result (λ r. plain r ≡ spec.field_made f place.now how node (receiver of) number info.now) }
{
    let ty = field_type(alloc, q, place, &of, info)?;
    let form = field_form(
        alloc,
        place,
        node,
        of,
        is_static_field(q.world, info),
        number,
    )?;
    access(alloc, q, is_read(how), node, &info.ty, ty, form)
}

fn field_numbered(
    alloc: Global,
    q: &Questions<'_>,
    place: &Place,
    how: Use,
    node: Node,
    rule: u8,
    of: Receiver,
    number: u32,
) -> Result<CoreExpr, Stop>
    requires ready { IsReady q.now }
    ensures { (f : Facts) → AreFacts q.now f → Meets plain result (spec.field_numbered f place.now how node rule (receiver of) number) }
{
    let Some(info) = q.world.fields.get(number as usize) else {
        return Err(Stop::Broken {
            node: node.id,
            rule,
        });
    };
    if !can_access_field(q, place, &of, number) {
        return Err(Stop::Broken {
            node: node.id,
            rule,
        });
    }
    if !may_have_field(place, &of, is_static_field(q.world, info)) {
        return Err(Stop::Broken {
            node: node.id,
            rule,
        });
    }
    Ok(field_made(alloc, q, place, how, node, of, number, info)?)
}

/// The field of this name that a receiver has, used so (JLS 6.5.6, 15.11), or the rule on it, broken at the node.
pub fn field_of(
    alloc: Global,
    q: &Questions<'_>,
    place: &Place,
    how: Use,
    node: Node,
    rule: u8,
    of: Receiver,
    name: Name,
) -> Result<CoreExpr, Stop>
    requires ready { IsReady q.now }
    ensures { (f : Facts) → AreFacts q.now f → Meets plain result (spec.field_of f place.now how node rule (receiver of) name) }
{
    let ty = receiver_type(alloc, place, &of)?;
    match field_named(q, &ty, name) {
        None => Err(Stop::Broken {
            node: node.id,
            rule,
        }),
        Some(number) => field_numbered(alloc, q, place, how, node, rule, of, number),
    }
}

// Whether this is the `length` of an array (JLS 10.7).
#[tactic(auto, using(java_core::proofs::Views::plain_at))]
fn is_length(q: &Questions<'_>, of: &CoreExpr, name: Name) -> bool
    ensures { (f : Facts) → AreFacts q.now f → result ≡ spec.is_length f (plain of.now) name }
{
    if element(&of.ty).is_some() {
        name.0 == q.length_name.0
    } else {
        false
    }
}

// The length of an array, which is not assigned (JLS 10.7): T29.
#[tactic(auto, using(java_core::proofs::Views::plain_at))]
fn length(how: Use, node: Node, of: Boxed<CoreExpr>) -> Result<CoreExpr, Stop>
    ensures { Meets plain result (spec.length_of how node (plain of)) }
{
    if is_set(how) {
        return Err(Stop::Broken {
            node: node.id,
            rule: 29,
        });
    }
    Ok(CoreExpr {
        node,
        ty: JavaType::Prim(Primitive::Int),
        form: CoreForm::Length(of),
    })
}

/// The field of this name that a value has (JLS 10.7, 15.11.1): T27, T29.
pub fn field_of_value(
    alloc: Global,
    q: &Questions<'_>,
    place: &Place,
    how: Use,
    node: Node,
    of: Boxed<CoreExpr>,
    name: Name,
) -> Result<CoreExpr, Stop>
    requires ready { IsReady q.now }
    ensures { (f : Facts) → AreFacts q.now f → Meets plain result (spec.field_of_value f place.now how node (plain of) name) }
{
    if is_length(q, of.get(), name) {
        return length(how, node, of);
    }
    field_of(alloc, q, place, how, node, 27, Receiver::Value(of), name)
}

#[tactic(auto, using(java_core::proofs::Views::plain_at))]
fn local(alloc: Global, node: Node, of: &LocalVar) -> Result<CoreExpr, NoMemory>
    ensures { IfOk result (λ r. plain r ≡ spec.local node of.now) }
{
    Ok(CoreExpr {
        node,
        ty: copied(alloc, &of.ty)?,
        form: CoreForm::Local(of.slot),
    })
}

/// A simple name as a variable (JLS 6.5.6.1): a local or parameter, or else a field: T25.
pub fn variable(
    alloc: Global,
    q: &Questions<'_>,
    place: &Place,
    how: Use,
    locals: &Locals,
    node: Node,
    name: Name,
) -> Result<CoreExpr, Stop>
    requires ready { IsReady q.now }
    ensures { (f : Facts) → AreFacts q.now f → Meets plain result (spec.variable f place.now how node (scopes.find_local locals.now name) name) }
{
    match locals.find(name) {
        Some(of) => Ok(local(alloc, node, of)?),
        None => field_of(alloc, q, place, how, node, 25, Receiver::This, name),
    }
}

/// A field by `super` (JLS 15.11.2): T30.
pub fn super_field(
    alloc: Global,
    q: &Questions<'_>,
    place: &Place,
    how: Use,
    node: Node,
    name: Name,
) -> Result<CoreExpr, Stop>
    requires ready { IsReady q.now }
    ensures { (f : Facts) → AreFacts q.now f → Meets plain result (spec.super_field f place.now how node name) }
{
    match superclass(alloc, q.world, place.class)? {
        None => Err(Stop::Broken {
            node: node.id,
            rule: 30,
        }),
        Some(above) => field_of(alloc, q, place, how, node, 30, Receiver::Super(above), name),
    }
}
