//! The methods, constructors and fields of a declared type.

ghost use Rattle.std.specs.Prelude.{◌≡◌, ◌++◌, map, IfOk, OnOk};
ghost use Rattle.std.specs.List.{list_any};
ghost use Rattle.java_tree.specs.View.{decl_plain, member_plain};
ghost use Rattle.type_names.specs.Known.{is_public_mod};
ghost use Rattle.written_types.specs.Places.{Place, IsPlace};
ghost use Rattle.program_world.specs.ProgramWorld as spec;
ghost use Rattle.program_world.specs.Steps as step;

use crate::written::{member_type, param_types, read_result, read_thrown};
use class_world::{FieldInfo, MethodInfo};
use java_tree::tree::{Member, Mod, TypeDecl};
use java_tree::{Items, NoMemory};
use std::alloc::Global;
use written_types::Scope;

/// Adds the methods and constructors of the type with the number `owner` in order, and its default constructor (JLS 8.8.9).
pub(crate) fn push_methods(
    alloc: Global,
    scope: &Scope<'_>,
    owner: u32,
    class: &TypeDecl,
    methods: &mut Items<MethodInfo>,
) -> Result<(), NoMemory>
    ensures { OnOk result ((p : Place) → IsPlace scope.now p → methods.new ≡ methods.old ++ spec.methods_of p owner (decl_plain class.now)) }
{
    for member in class.members.as_slice() {
        push_method(alloc, scope, owner, member, methods)?;
    }
    if lacks_constructor(class) {
        methods.push(default_constructor(alloc, owner, class)?)?;
    }
    Ok(())
}

/// Adds a member that is a method or a constructor.
fn push_method(
    alloc: Global,
    scope: &Scope<'_>,
    owner: u32,
    member: &Member,
    methods: &mut Items<MethodInfo>,
) -> Result<(), NoMemory>
    ensures { OnOk result ((p : Place) → IsPlace scope.now p → methods.new ≡ methods.old ++ step.methods_in p owner (member_plain member.now)) }
{
    let Member::Method {
        node,
        mods,
        result: written,
        constructor,
        name,
        params,
        throws,
        ..
    } = member
    else {
        return Ok(());
    };
    methods.push(MethodInfo {
        owner,
        name: *name,
        constructor: *constructor,
        mods: Items::from_slice(alloc, mods.as_slice())?,
        params: param_types(alloc, scope, params.as_slice())?,
        result: read_result(alloc, scope, written)?,
        throws: read_thrown(alloc, scope, throws.as_slice())?,
        node: Some(node.id),
    })?;
    Ok(())
}

/// Whether a class declares no constructor.
#[tactic(auto, using(crate::proofs::Own::constructors))]
fn lacks_constructor(class: &TypeDecl) -> bool
    ensures { result ≡ spec.lacks_constructor (decl_plain class.now) }
{
    !class.interface && !declares_constructor(class.members.as_slice())
}

fn declares_constructor(members: &[Member]) -> bool
    ensures { result ≡ list_any (λ m. step.constructs (member_plain m)) members.now }
{
    for member in members {
        if is_constructor(member) {
            return true;
        }
    }
    false
}

fn is_constructor(member: &Member) -> bool
    ensures { result ≡ step.constructs (member_plain member.now) }
{
    match member {
        Member::Method { constructor, .. } => *constructor,
        Member::Field { .. } => false,
    }
}

fn default_constructor(alloc: Global, owner: u32, class: &TypeDecl) -> Result<MethodInfo, NoMemory>
    ensures { IfOk result (λ info. info ≡ spec.default_constructor owner (decl_plain class.now)) }
{
    let mut mods = Items::new(alloc);
    if is_public(class) {
        mods.push(Mod::Public)?;
    }
    Ok(MethodInfo {
        owner,
        name: class.name,
        constructor: true,
        mods,
        params: Items::new(alloc),
        result: None,
        throws: Items::new(alloc),
        node: None,
    })
}

fn is_public(class: &TypeDecl) -> bool
    ensures { result ≡ list_any is_public_mod class.now.mods }
{
    for modifier in class.mods.as_slice() {
        if matches!(modifier, Mod::Public) {
            return true;
        }
    }
    false
}

/// Adds the fields of the type with the number `owner` in order (JLS 8.3).
pub(crate) fn push_fields(
    alloc: Global,
    scope: &Scope<'_>,
    owner: u32,
    class: &TypeDecl,
    fields: &mut Items<FieldInfo>,
) -> Result<(), NoMemory>
    ensures { OnOk result ((p : Place) → IsPlace scope.now p → fields.new ≡ fields.old ++ spec.fields_of p owner (decl_plain class.now)) }
{
    for member in class.members.as_slice() {
        push_variables(alloc, scope, owner, member, fields)?;
    }
    Ok(())
}

/// Adds a field for each variable that a member declares.
fn push_variables(
    alloc: Global,
    scope: &Scope<'_>,
    owner: u32,
    member: &Member,
    fields: &mut Items<FieldInfo>,
) -> Result<(), NoMemory>
    ensures { OnOk result ((p : Place) → IsPlace scope.now p → fields.new ≡ fields.old ++ step.fields_in p owner (member_plain member.now)) }
{
    let Member::Field { mods, ty, vars, .. } = member else {
        return Ok(());
    };
    for var in vars.as_slice() {
        fields.push(FieldInfo {
            owner,
            name: var.name,
            mods: Items::from_slice(alloc, mods.as_slice())?,
            ty: member_type(alloc, scope, ty, var.dims)?,
            node: Some(var.node.id),
        })?;
    }
    Ok(())
}
