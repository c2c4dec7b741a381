//! Fields.

ghost use Rattle.std.specs.Prelude.{◌≡◌, ◌+◌, ◌<◌, ◌^◌, map, length, IfOk};
ghost use Rattle.std.specs.Option.{option_map};
ghost use Rattle.java_tree.specs.View as view;
ghost use Rattle.java_core.specs.Plain as p;
ghost use Rattle.java_core.specs.View as core;
ghost use Rattle.java_core.specs.View.{field_plain, member_plain, plain};
ghost use Rattle.written_types.specs.Types as types;
ghost use Rattle.checked.specs.Checked.{Checked, Meets};
ghost use Rattle.type_facts.specs.Facts.{AreFacts, Facts, IsReady};
ghost use Rattle.check_program.specs.Classes as spec;

use check_expr::check_initial;
use check_stmt::scopes::with_levels;
use checked::Stop;
use class_world::{JavaType, copied};
use java_core::{CoreExpr, CoreField, CoreMember, CoreType};
use java_tree::tree::{Node, TypeExpr, Var};
use java_tree::{Items, NoMemory};
use operator_rules::writtens::written;
use std::alloc::Global;
use type_facts::Questions;
use type_facts::asks::may_assign;
use type_facts::scope::{Locals, Place};
use type_kinds::conversions::converted_value;

/// A field's value: T4, at the variable.
#[tactic(auto, using(java_core::proofs::Views::plain_at))]
fn field_set(
    alloc: Global,
    q: &Questions<'_>,
    node: Node,
    field: u32,
    ty: &JavaType,
    init: Result<CoreExpr, Stop>,
) -> Result<CoreField, Stop>
    requires ready { IsReady q.now }
    ensures { (f : Facts) → AreFacts q.now f → (a : Checked p.Expr) → Meets plain init a → Meets field_plain result (spec.field_set f node field ty.now a) }
{
    let init = init?;
    if !may_assign(q, &init.ty, ty) {
        return Err(Stop::Broken {
            node: node.id,
            rule: 4,
        });
    }
    let init = converted_value(alloc, ty, init)?;
    Ok(CoreField {
        node,
        field,
        init: Some(init),
    })
}

fn field_of(
    alloc: Global,
    q: &Questions<'_>,
    place: &Place,
    field: u32,
    ty: &JavaType,
    v: &Var,
) -> Result<CoreField, Stop>
    requires ready { IsReady q.now }
    ensures { (f : Facts) → AreFacts q.now f → Meets field_plain result (spec.field_of f place.now field ty.now (view.var_plain v.now) (option_map view.plain v.now.init)) }
{
    match &v.init {
        None => Ok(CoreField {
            node: v.node,
            field,
            init: None,
        }),
        Some(init) => {
            let locals = Locals::new(alloc);
            let init = check_initial(alloc, q, place, &locals, ty, init);
            field_set(alloc, q, v.node, field, ty, init)
        }
    }
}

// A type with the array levels behind a variable's name.
fn var_type(alloc: Global, ty: &JavaType, levels: u32) -> Result<JavaType, NoMemory>
    ensures { IfOk result (λ r. r ≡ types.arrays levels ty.now) }
{
    with_levels(alloc, copied(alloc, ty)?, levels)
}

/// The variables of a field declaration, numbered from `field` on. `NoMemory` also where there are 2^32 fields.
#[tactic(auto, using(crate::proofs::Steps::field_step, crate::proofs::Steps::field_stop, crate::proofs::Steps::field_end))]
fn fields_of(
    alloc: Global,
    q: &Questions<'_>,
    place: &Place,
    field: u32,
    ty: &JavaType,
    vars: &[Var],
) -> Result<Items<CoreField>, Stop>
    requires ready { IsReady q.now }
    ensures { (f : Facts) → AreFacts q.now f → Meets (map field_plain) result (spec.fields_of f place.now field ty.now (map view.var_plain vars.now)) }
{
    let mut done = Items::new(alloc);
    let mut number = field;
    for v in vars {
        let ty = var_type(alloc, ty, v.dims)?;
        done.push(field_of(alloc, q, place, number, &ty, v)?)?;
        let Some(next) = number.checked_add(1) else {
            return Err(Stop::NoMemory);
        };
        number = next;
    }
    Ok(done)
}

fn fields_made(node: Node, ty: CoreType, vars: Items<CoreField>) -> CoreMember
    ensures { member_plain result ≡ p.Fields node (core.written ty) (map field_plain vars) }
{
    CoreMember::Fields {
        node,
        written: ty,
        vars,
    }
}

/// A field declaration (JLS 8.3, 9.3), whose first variable has this number.
#[tactic(auto, using(java_core::proofs::Views::type_out))]
pub fn field_member(
    alloc: Global,
    q: &Questions<'_>,
    place: &Place,
    field: u32,
    node: Node,
    ty: &TypeExpr,
    vars: &[Var],
) -> Result<CoreMember, Stop>
    requires ready { IsReady q.now }
    ensures { (f : Facts) → AreFacts q.now f → Meets member_plain result (spec.field_member f place.now field node (view.type_plain ty.now) (map view.var_plain vars.now)) }
{
    let ty = written(alloc, q, place, ty)?;
    let vars = fields_of(alloc, q, place, field, &ty.ty, vars)?;
    Ok(fields_made(node, ty, vars))
}
