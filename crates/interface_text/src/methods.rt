//! The declarations of methods.

ghost use Rattle.std.specs.Prelude.{◌≡◌, ◌++◌, map, flat_map, OnOk};
ghost use Rattle.std.specs.Option.{option_map};
ghost use Rattle.std.specs.List.Sorted.{IsStrictlyIncreasing};
ghost use Rattle.java_core.specs.View.{member_plain, method_plain, param_plain, written};
ghost use Rattle.interface_text.specs.Text as spec;

use crate::extraction::Extraction;
use crate::lists::is_among;
use crate::names::{method_name, name_text};
use crate::types::{push_bare, push_levels, push_type, thrown_name};
use java_core::{CoreMember, CoreMethod, CoreParam, CoreType};
use java_tree::NoMemory;

fn push_result(q: &Extraction<'_>, ty: &Option<CoreType>, out: &mut Vec<u8>) -> Result<(), NoMemory>
    requires { IsStrictlyIncreasing q.now.kept.now }
    ensures { OnOk result (out.new.items ≡ out.old.items ++ spec.result_text q.now (option_map written ty.now)) }
{
    match ty {
        None => Ok(out.extend_from_slice(b"void")?),
        Some(ty) => push_type(q, ty, out),
    }
}

// The type of a parameter and its name.
fn push_param(q: &Extraction<'_>, param: &CoreParam, out: &mut Vec<u8>) -> Result<(), NoMemory>
    requires { IsStrictlyIncreasing q.now.kept.now }
    ensures { OnOk result (out.new.items ≡ out.old.items ++ spec.param_text q.now (param_plain param.now)) }
{
    push_bare(q, &param.written, out)?;
    push_levels(&param.ty, out)?;
    out.push(b' ')?;
    out.extend_from_slice(name_text(q.names, param.name).as_bytes())?;
    Ok(())
}

fn push_params(q: &Extraction<'_>, params: &[CoreParam], out: &mut Vec<u8>) -> Result<(), NoMemory>
    requires { IsStrictlyIncreasing q.now.kept.now }
    ensures { OnOk result (out.new.items ≡ out.old.items ++ spec.params_text q.now (map param_plain params.now)) }
{
    let mut before: &[u8] = b"";
    for param in params {
        out.extend_from_slice(before)?;
        push_param(q, param, out)?;
        before = b", ";
    }
    Ok(())
}

fn push_throws(q: &Extraction<'_>, throws: &[CoreType], out: &mut Vec<u8>) -> Result<(), NoMemory>
    ensures { OnOk result (out.new.items ≡ out.old.items ++ spec.throws_text q.now (map written throws.now)) }
{
    let mut before: &[u8] = b" throws ";
    for ty in throws {
        out.extend_from_slice(before)?;
        out.extend_from_slice(thrown_name(q, ty).as_bytes())?;
        before = b", ";
    }
    Ok(())
}

// The result of a method and its name.
fn push_front(q: &Extraction<'_>, method: &CoreMethod, out: &mut Vec<u8>) -> Result<(), NoMemory>
    requires { IsStrictlyIncreasing q.now.kept.now }
    ensures { OnOk result (out.new.items ≡ out.old.items ++ spec.front q.now (method_plain method.now)) }
{
    out.extend_from_slice(b"    ")?;
    push_result(q, &method.result, out)?;
    out.push(b' ')?;
    out.extend_from_slice(method_name(q.world, q.names, method.method).as_bytes())?;
    Ok(())
}

// The parameters of a method and its throws clause.
fn push_rest(q: &Extraction<'_>, method: &CoreMethod, out: &mut Vec<u8>) -> Result<(), NoMemory>
    requires { IsStrictlyIncreasing q.now.kept.now }
    ensures { OnOk result (out.new.items ≡ out.old.items ++ spec.rest q.now (method_plain method.now)) }
{
    out.push(b'(')?;
    push_params(q, method.params.as_slice(), out)?;
    out.push(b')')?;
    push_throws(q, method.throws.as_slice(), out)?;
    Ok(())
}

// The line of a method.
fn push_method(q: &Extraction<'_>, method: &CoreMethod, out: &mut Vec<u8>) -> Result<(), NoMemory>
    requires { IsStrictlyIncreasing q.now.kept.now }
    ensures { OnOk result (out.new.items ≡ out.old.items ++ spec.method_line q.now (method_plain method.now)) }
{
    push_front(q, method, out)?;
    push_rest(q, method, out)?;
    out.extend_from_slice(b";\n")?;
    Ok(())
}

fn push_member(q: &Extraction<'_>, member: &CoreMember, out: &mut Vec<u8>) -> Result<(), NoMemory>
    requires methods { IsStrictlyIncreasing q.now.methods.now }
    requires kept { IsStrictlyIncreasing q.now.kept.now }
    ensures { OnOk result (out.new.items ≡ out.old.items ++ spec.member_text q.now (member_plain member.now)) }
{
    match member {
        CoreMember::Fields { .. } => Ok(()),
        CoreMember::Method(method) => {
            if is_among(q.methods, method.method) {
                return push_method(q, method, out);
            }
            Ok(())
        }
    }
}

/// Writes the lines of the methods that are extracted.
pub(crate) fn push_members(
    q: &Extraction<'_>,
    members: &[CoreMember],
    out: &mut Vec<u8>,
) -> Result<(), NoMemory>
    requires methods { IsStrictlyIncreasing q.now.methods.now }
    requires kept { IsStrictlyIncreasing q.now.kept.now }
    ensures { OnOk result (out.new.items ≡ out.old.items ++ flat_map (spec.member_text q.now) (map member_plain members.now)) }
{
    for member in members {
        push_member(q, member, out)?;
    }
    Ok(())
}
