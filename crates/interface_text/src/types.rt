//! Written types.

ghost use Rattle.std.specs.Prelude.{◌≡◌, ◌++◌, map, OnOk};
ghost use Rattle.std.specs.List.Sorted.{IsStrictlyIncreasing};
ghost use Rattle.java_core.specs.View.{type_row, written};
ghost use Rattle.interface_text.specs.Types as spec;

use crate::extraction::Extraction;
use crate::lists::is_among;
use crate::names::type_name;
use class_world::JavaType;
use java_core::CoreType;
use java_tree::NoMemory;
use java_tree::tree::Primitive;

fn keyword(primitive: Primitive) -> &'static str
    ensures { result.now ≡ spec.keyword primitive }
{
    match primitive {
        Primitive::Int => "int",
        Primitive::Long => "long",
        Primitive::Char => "char",
        Primitive::Boolean => "boolean",
    }
}

// The name of a class or interface at the head of a written type: the interface's, where that named the class and changes.
fn class_text<'a>(q: &Extraction<'a>, node: u32, number: u32) -> &'a str
    requires { IsStrictlyIncreasing q.now.kept.now }
    ensures { result.now ≡ spec.class_text q.now node number }
{
    if number == q.class && !is_among(q.kept, node) {
        return q.new_name;
    }
    type_name(q.world, q.names, number)
}

// The head of a written type, below its array levels (JLS 10.1).
fn head_text<'a>(q: &Extraction<'a>, node: u32, ty: &JavaType) -> &'a str
    requires { IsStrictlyIncreasing q.now.kept.now }
    ensures { result.now ≡ spec.head_text q.now node ty.now }
{
    match ty {
        JavaType::Prim(primitive) => keyword(*primitive),
        JavaType::Null => "",
        JavaType::Class(number, _) => class_text(q, node, *number),
        JavaType::Var(_) => "",
        JavaType::Array(item) => head_text(q, node, item.get()),
    }
}

/// The class or interface at the head of a type, below its array levels (JLS 10.1).
pub(crate) fn head_class(ty: &JavaType) -> Option<u32>
    ensures { result ≡ spec.head_class ty.now }
{
    match ty {
        JavaType::Prim(_) => None,
        JavaType::Null => None,
        JavaType::Class(number, _) => Some(*number),
        JavaType::Var(_) => None,
        JavaType::Array(item) => head_class(item.get()),
    }
}

/// Writes `[]` for each array level.
pub(crate) fn push_levels(ty: &JavaType, out: &mut Vec<u8>) -> Result<(), NoMemory>
    ensures { OnOk result (out.new.items ≡ out.old.items ++ spec.levels ty.now) }
{
    match ty {
        JavaType::Array(item) => {
            out.extend_from_slice(b"[]")?;
            push_levels(item.get(), out)
        }
        JavaType::Prim(_) => Ok(()),
        JavaType::Null => Ok(()),
        JavaType::Class(_, _) => Ok(()),
        JavaType::Var(_) => Ok(()),
    }
}

/// Writes a type without its array levels: its head and its arguments.
#[cycle(push_bare)]
pub(crate) fn push_bare(
    q: &Extraction<'_>,
    ty: &CoreType,
    out: &mut Vec<u8>,
) -> Result<(), NoMemory>
    requires { IsStrictlyIncreasing q.now.kept.now }
    ensures { OnOk result (out.new.items ≡ out.old.items ++ spec.bare_text q.now (written ty.now)) }
{
    out.extend_from_slice(head_text(q, ty.node.id, &ty.ty).as_bytes())?;
    push_args(q, ty.args.as_slice(), out)?;
    Ok(())
}

// What stands behind arguments, where there are any.
fn closing(args: &[CoreType]) -> &'static str
    ensures { result.now ≡ spec.closing (type_row (map written args.now)) }
{
    match args.split_first() {
        None => "",
        Some((_first, _rest)) => ">",
    }
}

// Writes arguments, between `<` and `>` where there are any.
#[cycle(push_bare)]
fn push_args(q: &Extraction<'_>, args: &[CoreType], out: &mut Vec<u8>) -> Result<(), NoMemory>
    requires { IsStrictlyIncreasing q.now.kept.now }
    ensures { OnOk result (out.new.items ≡ out.old.items ++ spec.args_text q.now (type_row (map written args.now))) }
{
    let mut before: &[u8] = b"<";
    for arg in args {
        out.extend_from_slice(before)?;
        push_bare(q, arg, out)?;
        push_levels(&arg.ty, out)?;
        before = b", ";
    }
    out.extend_from_slice(closing(args).as_bytes())?;
    Ok(())
}

/// Writes a type as it is after the change.
#[tactic(auto, using(crate::proofs::Steps::levels_said))]
pub(crate) fn push_type(
    q: &Extraction<'_>,
    ty: &CoreType,
    out: &mut Vec<u8>,
) -> Result<(), NoMemory>
    requires { IsStrictlyIncreasing q.now.kept.now }
    ensures { OnOk result (out.new.items ≡ out.old.items ++ spec.type_text q.now (written ty.now)) }
{
    push_bare(q, ty, out)?;
    push_levels(&ty.ty, out)
}

/// The head of a type that is thrown, which never changes.
#[tactic(auto, using(java_core::proofs::Views::type_out))]
pub(crate) fn thrown_name<'a>(q: &Extraction<'a>, ty: &CoreType) -> &'a str
    ensures { result.now ≡ spec.thrown_name q.now (written ty.now) }
{
    match head_class(&ty.ty) {
        None => "",
        Some(number) => type_name(q.world, q.names, number),
    }
}
