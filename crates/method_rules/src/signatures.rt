//! Erased signatures as keys.

ghost use Rattle.std.specs.Prelude.{◌≡◌, ◌++◌, IfOk, OnOk};
ghost use Rattle.method_rules.specs.Signatures as spec;
ghost use Rattle.method_rules.specs.Signatures.{parts, IsSignatureOf};

use class_world::{JavaType, MethodInfo};
use java_tree::NoMemory;
use java_tree::tree::Primitive;
use std::alloc::Global;

/// A part of erased types that are written one after another: each level of an array stands before its element.
#[derive(Clone, Copy, PartialEq, Eq, Hash)]
pub(crate) enum Part {
    Level,
    Int,
    Long,
    Char,
    Boolean,
    Null,
    Class(u32),
}

/// What is one for two methods or constructors of one type with one erased signature.
#[derive(PartialEq, Eq, Hash, Drop)]
pub(crate) struct Signature {
    owner: u32,
    name: u32,
    constructor: bool,
    params: Vec<Part>,
}

pub(crate) fn signature_of(alloc: Global, m: &MethodInfo) -> Result<Signature, NoMemory>
    ensures { IfOk result (λ s. IsSignatureOf m.now s) }
{
    let mut params = Vec::new(alloc);
    for t in m.params.as_slice() {
        push_parts(t, &mut params)?;
    }
    Ok(Signature {
        owner: m.owner,
        name: m.name.0,
        constructor: m.constructor,
        params,
    })
}

/// Writes the erasure of a type (JLS 4.6); that of a type variable, which has no bound, is Object.
fn push_parts(t: &JavaType, list: &mut Vec<Part>) -> Result<(), NoMemory>
    ensures { OnOk result (list.new.items ≡ list.old.items ++ parts t.now) }
{
    match t {
        JavaType::Prim(p) => list.push(primitive(*p))?,
        JavaType::Null => list.push(Part::Null)?,
        JavaType::Class(c, _) => list.push(Part::Class(*c))?,
        JavaType::Var(_) => list.push(Part::Class(0))?,
        JavaType::Array(element) => {
            list.push(Part::Level)?;
            push_parts(element.get(), list)?;
        }
    }
    Ok(())
}

fn primitive(p: Primitive) -> Part
    ensures { result ≡ spec.primitive p }
{
    match p {
        Primitive::Int => Part::Int,
        Primitive::Long => Part::Long,
        Primitive::Char => Part::Char,
        Primitive::Boolean => Part::Boolean,
    }
}
