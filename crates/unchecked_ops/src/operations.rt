//! The unchecked operations of the members of a class.

ghost use Rattle.std.specs.Prelude.{◌≡◌, ◌++◌, Bool, OnOk, map};
ghost use Rattle.std.specs.Option.{option_map};
ghost use Rattle.class_world.specs.declared.world.JavaType.{JavaType};
ghost use Rattle.java_core.specs.View.{field_plain, member_plain, stmt_plain};
ghost use Rattle.type_facts.specs.Facts.{AreFacts, Facts, IsReady};
ghost use Rattle.unchecked_ops.specs.Casting.{AreCasts};
ghost use Rattle.unchecked_ops.specs.Operations as spec;
ghost use Rattle.type_kinds.specs.Members.{field_at, method_at};

use crate::stmts::{init_ops, option_ops, stmt_ops};
use class_world::JavaType;
use java_core::{CoreClass, CoreField, CoreMember, CoreStmt};
use java_tree::tree::Node;
use java_tree::{Items, NoMemory};
use std::alloc::Global;
use type_facts::Questions;

fn value_ops(
    alloc: Global,
    q: &Questions<'_>,
    above: &JavaType,
    x: &CoreField,
    out: &mut Items<Node>,
) -> Result<(), NoMemory>
    requires { IsReady q.now }
    ensures { spec.Puts q.now result out.old out.new (λ f u. spec.value_ops f u above.now (spec.field_type (field_at f.world (field_plain x.now).field)) (field_plain x.now).init) }
{
    match q.world.fields.get(x.field as usize) {
        None => option_ops(alloc, q, above, &x.init, out),
        Some(field) => init_ops(alloc, q, above, &field.ty, &x.init, out),
    }
}

fn field_ops(
    alloc: Global,
    q: &Questions<'_>,
    above: &JavaType,
    vars: &[CoreField],
    out: &mut Items<Node>,
) -> Result<(), NoMemory>
    requires { IsReady q.now }
    ensures { spec.Puts q.now result out.old out.new (λ f u. spec.field_ops f u above.now (map field_plain vars.now)) }
{
    for x in vars {
        value_ops(alloc, q, above, x, out)?;
    }
    Ok(())
}

fn given_ops(
    alloc: Global,
    q: &Questions<'_>,
    own: &JavaType,
    above: &JavaType,
    given: &Option<JavaType>,
    body: &Option<CoreStmt>,
    out: &mut Items<Node>,
) -> Result<(), NoMemory>
    requires { IsReady q.now }
    ensures { spec.Puts q.now result out.old out.new (λ f u. spec.body_ops f u own.now above.now given.now (option_map stmt_plain body.now)) }
{
    match body {
        None => Ok(()),
        Some(body) => stmt_ops(alloc, q, own, above, given, body, out),
    }
}

/// The operations of the body of a method or constructor.
fn body_ops(
    alloc: Global,
    q: &Questions<'_>,
    own: &JavaType,
    above: &JavaType,
    method: u32,
    body: &Option<CoreStmt>,
    out: &mut Items<Node>,
) -> Result<(), NoMemory>
    requires { IsReady q.now }
    ensures { spec.Puts q.now result out.old out.new (λ f u. spec.body_ops f u own.now above.now (spec.result_of (method_at f.world method)) (option_map stmt_plain body.now)) }
{
    match q.world.methods.get(method as usize) {
        None => given_ops(alloc, q, own, above, &None, body, out),
        Some(method) => given_ops(alloc, q, own, above, &method.result, body, out),
    }
}

fn one_member(
    alloc: Global,
    q: &Questions<'_>,
    own: &JavaType,
    above: &JavaType,
    member: &CoreMember,
    out: &mut Items<Node>,
) -> Result<(), NoMemory>
    requires { IsReady q.now }
    ensures { spec.Puts q.now result out.old out.new (λ f u. spec.one_member f u own.now above.now (member_plain member.now)) }
{
    match member {
        CoreMember::Fields { vars, .. } => field_ops(alloc, q, above, vars.as_slice(), out),
        CoreMember::Method(method) => {
            body_ops(alloc, q, own, above, method.method, &method.body, out)
        }
    }
}

fn member_ops(
    alloc: Global,
    q: &Questions<'_>,
    own: &JavaType,
    above: &JavaType,
    members: &[CoreMember],
    out: &mut Items<Node>,
) -> Result<(), NoMemory>
    requires { IsReady q.now }
    ensures { spec.Puts q.now result out.old out.new (λ f u. spec.member_ops f u own.now above.now (map member_plain members.now)) }
{
    for member in members {
        one_member(alloc, q, own, above, member, out)?;
    }
    Ok(())
}

/// Puts on the numbers of the nodes of a class's unchecked operations, as a walk in preorder meets them (JLS 4.8, 5.1.9, 5.5). `own` is the type of `this` and `above` the type above.
pub fn unchecked_of_class(
    alloc: Global,
    q: &Questions<'_>,
    class: &CoreClass,
    own: &JavaType,
    above: &JavaType,
    out: &mut Items<Node>,
) -> Result<(), NoMemory>
    requires { IsReady q.now }
    ensures { spec.Puts q.now result out.old out.new (λ f u. spec.member_ops f u own.now above.now (map member_plain class.now.members)) }
{
    member_ops(alloc, q, own, above, class.members.as_slice(), out)
}
