//! What each form of expression makes of its parts, where no crate below says it.

ghost use Rattle.std.specs.Prelude.{◌≡◌, ◌+◌, List, length, map, IfOk};
ghost use Rattle.java_tree.specs.View as view;
ghost use Rattle.java_core.specs.Plain as p;
ghost use Rattle.java_core.specs.View.{plain, row, written};
ghost use Rattle.checked.specs.Checked.{Checked, Fine, Meets};
ghost use Rattle.type_facts.specs.Facts.{AreFacts, Facts, IsReady};
ghost use Rattle.type_kinds.specs.Kinds as kinds;
ghost use Rattle.written_types.specs.Types.{arrays};
ghost use Rattle.operator_rules.specs.Writtens as writtens;
ghost use Rattle.operator_rules.specs.Operators as operators;
ghost use Rattle.member_uses.specs.Targets as targets;
ghost use Rattle.check_expr.specs.Typed as spec;

use checked::Stop;
use class_world::{JavaType, copied};
use java_core::{CoreExpr, CoreForm, CoreType};
use java_tree::tree::{Expr, Mod, Name, Node};
use java_tree::{Boxed, Items, NoMemory};
use member_uses::{Receiver, called, constructor, field_of_value, superclass};
use operator_rules::Use;
use operator_rules::arrays::{are_short, is_creatable, sizes};
use std::alloc::Global;
use type_facts::Questions;
use type_facts::asks::may_assign;
use type_facts::scope::{Place, own_type};
use type_kinds::conversions::{converted_all, converted_value};
use type_kinds::kinds::{class_number, has, is_reference, string_type};

/// A string literal (JLS 3.10.5).
#[tactic(auto, using(java_core::proofs::Views::plain_at))]
pub fn text(alloc: Global, node: Node, units: &Items<u16>) -> Result<CoreExpr, Stop>
    ensures { Meets plain result (Fine (p.At node kinds.string (p.Text units.now))) }
{
    let units = Items::from_slice(alloc, units.as_slice())?;
    Ok(CoreExpr {
        node,
        ty: string_type(alloc),
        form: CoreForm::Text(units),
    })
}

/// `this` (JLS 15.8.3): T24.
pub fn this_of(alloc: Global, place: &Place, node: Node) -> Result<CoreExpr, Stop>
    ensures { Meets plain result (spec.this_of place.now node) }
{
    if place.is_static {
        return Err(Stop::Broken {
            node: node.id,
            rule: 24,
        });
    }
    Ok(CoreExpr {
        node,
        ty: own_type(alloc, place)?,
        form: CoreForm::This,
    })
}

/// An expression in brackets (JLS 15.8.5).
#[tactic(auto, using(java_core::proofs::Views::plain_at))]
pub fn paren(alloc: Global, node: Node, of: Result<Boxed<CoreExpr>, Stop>) -> Result<CoreExpr, Stop>
    ensures { (a : Checked p.Expr) → Meets plain of a → Meets plain result (spec.paren node a) }
{
    let of = of?;
    Ok(CoreExpr {
        node,
        ty: copied(alloc, &of.get().ty)?,
        form: CoreForm::Paren(of),
    })
}

/// A field behind a dot (JLS 15.11.1): T26 to T29.
pub fn field_on(
    alloc: Global,
    q: &Questions<'_>,
    place: &Place,
    how: Use,
    node: Node,
    of: Result<Boxed<CoreExpr>, Stop>,
    name: Name,
) -> Result<CoreExpr, Stop>
    requires ready { IsReady q.now }
    ensures { (f : Facts) → AreFacts q.now f → (a : Checked p.Expr) → Meets plain of a → Meets plain result (spec.field_on f place.now how node a name) }
{
    let of = of?;
    field_of_value(alloc, q, place, how, node, of, name)
}

/// A call by a simple name (JLS 15.12): T32, T36.
pub fn call_here(
    alloc: Global,
    q: &Questions<'_>,
    place: &Place,
    how: Use,
    node: Node,
    name: Name,
    args: Result<Items<CoreExpr>, Stop>,
) -> Result<CoreExpr, Stop>
    requires ready { IsReady q.now }
    ensures { (f : Facts) → AreFacts q.now f → (xs : Checked (List p.Expr)) → Meets (map plain) args xs → Meets plain result (spec.call_here f place.now how node name xs) }
{
    let args = args?;
    called(alloc, q, place, how, node, Receiver::This, name, args)
}

/// A call on a value (JLS 15.12): T33 reads the value alone.
#[tactic(auto, using(java_core::proofs::Views::plain_at))]
pub fn call_on(
    alloc: Global,
    q: &Questions<'_>,
    place: &Place,
    how: Use,
    node: Node,
    of: Result<Boxed<CoreExpr>, Stop>,
    name: Name,
    args: Result<Items<CoreExpr>, Stop>,
) -> Result<CoreExpr, Stop>
    requires ready { IsReady q.now }
    ensures { (f : Facts) → AreFacts q.now f → (a : Checked p.Expr) (xs : Checked (List p.Expr)) → Meets plain of a → Meets (map plain) args xs → Meets plain result (spec.call_on f place.now how node a name xs) }
{
    let of = of?;
    if !is_reference(&of.get().ty) {
        return Err(Stop::Broken {
            node: node.id,
            rule: 33,
        });
    }
    let args = args?;
    called(alloc, q, place, how, node, Receiver::Value(of), name, args)
}

/// A call on a type's name (JLS 15.12.3): T34, T36.
pub fn call_on_type(
    alloc: Global,
    q: &Questions<'_>,
    place: &Place,
    how: Use,
    node: Node,
    before: Node,
    class: u32,
    name: Name,
    args: Result<Items<CoreExpr>, Stop>,
) -> Result<CoreExpr, Stop>
    requires ready { IsReady q.now }
    ensures { (f : Facts) → AreFacts q.now f → (a : Checked p.Expr) (xs : Checked (List p.Expr)) → Meets (map plain) args xs
        → Meets plain result (spec.dotted_call f place.now how node (targets.AType before class) a name xs) }
{
    let args = args?;
    called(
        alloc,
        q,
        place,
        how,
        node,
        Receiver::Type(before, class),
        name,
        args,
    )
}

/// A call by `super` (JLS 15.12): T35, T36.
pub fn super_call(
    alloc: Global,
    q: &Questions<'_>,
    place: &Place,
    how: Use,
    node: Node,
    name: Name,
    args: Result<Items<CoreExpr>, Stop>,
) -> Result<CoreExpr, Stop>
    requires ready { IsReady q.now }
    ensures { (f : Facts) → AreFacts q.now f → (xs : Checked (List p.Expr)) → Meets (map plain) args xs → Meets plain result (spec.super_call f place.now how node name xs) }
{
    let args = args?;
    if place.is_static {
        return Err(Stop::Broken {
            node: node.id,
            rule: 35,
        });
    }
    super_called(alloc, q, place, how, node, name, args)
}

fn super_called(
    alloc: Global,
    q: &Questions<'_>,
    place: &Place,
    how: Use,
    node: Node,
    name: Name,
    args: Items<CoreExpr>,
) -> Result<CoreExpr, Stop>
    requires ready { IsReady q.now }
    ensures { (f : Facts) → AreFacts q.now f → Meets plain result (spec.super_called f place.now how node name (map plain args)) }
{
    match superclass(alloc, q.world, place.class)? {
        None => Err(Stop::Broken {
            node: node.id,
            rule: 35,
        }),
        Some(above) => called(
            alloc,
            q,
            place,
            how,
            node,
            Receiver::Super(above),
            name,
            args,
        ),
    }
}

// Whether a type is that of a class of which there are objects.
fn may_create(q: &Questions<'_>, ty: &JavaType) -> bool
    ensures { (f : Facts) → AreFacts q.now f → result ≡ spec.may_create f (kinds.class_number ty.now) }
{
    let Some(class) = class_number(ty) else {
        return false;
    };
    match q.world.types.get(class as usize) {
        None => false,
        Some(info) => {
            if info.interface {
                false
            } else {
                !has(Mod::Abstract, info.mods.as_slice())
            }
        }
    }
}

#[tactic(auto, using(java_core::proofs::Views::plain_at))]
fn created(
    alloc: Global,
    q: &Questions<'_>,
    place: &Place,
    node: Node,
    ty: CoreType,
    args: Items<CoreExpr>,
) -> Result<CoreExpr, Stop>
    requires ready { IsReady q.now }
    ensures { (f : Facts) → AreFacts q.now f → Meets plain result (spec.created f place.now node (written ty) (map plain args)) }
{
    if !may_create(q, &ty.ty) {
        return Err(Stop::Broken {
            node: node.id,
            rule: 38,
        });
    }
    match constructor(alloc, q, place, &ty.ty, args.as_slice())? {
        None => Err(Stop::Broken {
            node: node.id,
            rule: 38,
        }),
        Some(chosen) => {
            let args = converted_all(alloc, chosen.params.as_slice(), args)?;
            Ok(made(alloc, node, ty, chosen.method, args)?)
        }
    }
}

#[tactic(auto, using(java_core::proofs::Views::plain_at, java_core::proofs::Views::type_out))]
fn made(
    alloc: Global,
    node: Node,
    ty: CoreType,
    constructor: u32,
    args: Items<CoreExpr>,
) -> Result<CoreExpr, NoMemory>
    ensures { IfOk result (λ r. plain r ≡ p.At node (writtens.type_said (written ty)) (p.New (written ty) constructor (row (map plain args)))) }
{
    Ok(CoreExpr {
        node,
        ty: copied(alloc, &ty.ty)?,
        form: CoreForm::New {
            written: ty,
            constructor,
            args,
        },
    })
}

/// The creation of an object (JLS 15.9): T38.
pub fn new_of(
    alloc: Global,
    q: &Questions<'_>,
    place: &Place,
    node: Node,
    ty: Result<CoreType, Stop>,
    args: Result<Items<CoreExpr>, Stop>,
) -> Result<CoreExpr, Stop>
    requires ready { IsReady q.now }
    ensures { (f : Facts) → AreFacts q.now f → (a : Checked p.Written) (xs : Checked (List p.Expr)) → Meets written ty a → Meets (map plain) args xs → Meets plain result (spec.new_of f place.now node a xs) }
{
    let ty = ty?;
    let args = args?;
    created(alloc, q, place, node, ty, args)
}

/// The creation of an array of these sizes (JLS 15.10): T40.
pub fn array_of(
    alloc: Global,
    node: Node,
    ty: Result<CoreType, Stop>,
    extra: u32,
    sizes_of: Result<Items<CoreExpr>, Stop>,
) -> Result<CoreExpr, Stop>
    ensures { (a : Checked p.Written) (xs : Checked (List p.Expr)) → Meets written ty a → Meets (map plain) sizes_of xs → Meets plain result (spec.array_of node a extra xs) }
{
    let ty = ty?;
    let items = sizes_of?;
    array_made(alloc, node, ty, extra, items)
}

fn array_made(
    alloc: Global,
    node: Node,
    ty: CoreType,
    extra: u32,
    items: Items<CoreExpr>,
) -> Result<CoreExpr, Stop>
    ensures { Meets plain result (spec.array_made node (written ty) extra (map plain items)) }
{
    if !is_creatable(&ty.ty) {
        return Err(Stop::Broken {
            node: node.id,
            rule: 40,
        });
    }
    if !are_short(items.as_slice()) {
        return Err(Stop::Broken {
            node: node.id,
            rule: 40,
        });
    }
    Ok(array_built(alloc, node, ty, extra, items)?)
}

/// Array levels around a type (JLS 10.1).
fn with_levels(alloc: Global, ty: JavaType, levels: usize) -> Result<JavaType, NoMemory>
    ensures { IfOk result (λ r. r ≡ arrays levels ty) }
{
    let mut ty = ty;
    for _ in 0..levels {
        ty = JavaType::Array(Boxed::new(alloc, ty)?);
    }
    Ok(ty)
}

#[tactic(auto, using(java_core::proofs::Views::type_out))]
fn array_type(alloc: Global, ty: &CoreType, sizes: usize, extra: u32) -> Result<JavaType, NoMemory>
    ensures { IfOk result (λ r. r ≡ arrays (sizes + extra) (writtens.type_said (written ty.now))) }
{
    let Some(levels) = sizes.checked_add(extra as usize) else {
        return Err(NoMemory);
    };
    with_levels(alloc, copied(alloc, &ty.ty)?, levels)
}

#[tactic(auto, using(java_core::proofs::Views::plain_at))]
fn array_built(
    alloc: Global,
    node: Node,
    ty: CoreType,
    extra: u32,
    items: Items<CoreExpr>,
) -> Result<CoreExpr, NoMemory>
    ensures { IfOk result (λ r. plain r ≡ p.At node (arrays (length items + extra) (writtens.type_said (written ty))) (p.NewArray (written ty) (row (operators.sizes (map plain items))))) }
{
    let created = array_type(alloc, &ty, items.len(), extra)?;
    let sizes = sizes(alloc, items)?;
    Ok(CoreExpr {
        node,
        ty: created,
        form: CoreForm::NewArray { written: ty, sizes },
    })
}

/// The creation of an array of these items (JLS 15.10): T41 reads the type alone.
#[tactic(auto, using(java_core::proofs::Views::plain_at, java_core::proofs::Views::type_out))]
pub fn filled_of(
    alloc: Global,
    node: Node,
    ty: CoreType,
    items: Result<Boxed<CoreExpr>, Stop>,
) -> Result<CoreExpr, Stop>
    ensures { (b : Checked p.Expr) → Meets plain items b → Meets plain result (spec.filled_of node (written ty) b) }
{
    if !is_creatable(&ty.ty) {
        return Err(Stop::Broken {
            node: node.id,
            rule: 41,
        });
    }
    let items = items?;
    Ok(CoreExpr {
        node,
        ty: copied(alloc, &ty.ty)?,
        form: CoreForm::NewFilled { written: ty, items },
    })
}

/// An item of an array (JLS 10.6), which is written so: T8, at the item.
#[tactic(auto, using(java_core::proofs::Views::plain_at, crate::proofs::Nodes::plain_node))]
pub fn item(
    alloc: Global,
    q: &Questions<'_>,
    ty: &JavaType,
    e: &Expr,
    of: Result<CoreExpr, Stop>,
) -> Result<CoreExpr, Stop>
    requires ready { IsReady q.now }
    ensures { (f : Facts) → AreFacts q.now f → (a : Checked p.Expr) → Meets plain of a → Meets plain result (spec.item f ty.now (spec.node_of (view.plain e.now)).id a) }
{
    let of = of?;
    if !may_assign(q, &of.ty, ty) {
        return Err(Stop::Broken {
            node: e.node.id,
            rule: 8,
        });
    }
    Ok(converted_value(alloc, ty, of)?)
}

/// An array of these items (JLS 10.6).
#[tactic(auto, using(java_core::proofs::Views::plain_at))]
pub fn filled(
    alloc: Global,
    node: Node,
    ty: &JavaType,
    items: Result<Items<CoreExpr>, Stop>,
) -> Result<CoreExpr, Stop>
    ensures { (xs : Checked (List p.Expr)) → Meets (map plain) items xs → Meets plain result (spec.filled node ty.now xs) }
{
    let items = items?;
    Ok(CoreExpr {
        node,
        ty: copied(alloc, ty)?,
        form: CoreForm::Filled(items),
    })
}
