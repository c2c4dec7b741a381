//! The unchecked operations of classes, files and programs.

ghost use Rattle.std.specs.Prelude.{◌≡◌, ◌++◌, IfOk, OnOk, length, map, slice_get};
ghost use Rattle.java_core.specs.View.{class_plain, file_plain, program_plain};
ghost use Rattle.member_uses.specs.Targets.{superclass as superclass_of};
ghost use Rattle.type_facts.specs.Facts.{IsReady};
ghost use Rattle.unchecked_ops.specs.Operations as operations;
ghost use Rattle.unchecked_ops.specs.Programs as spec;

use crate::casting::own_type;
use crate::operations::unchecked_of_class;
use class_world::{JavaType, World};
use java_core::{CoreClass, CoreFile, CoreProgram};
use java_tree::tree::Node;
use java_tree::{Items, NoMemory};
use member_uses::superclass;
use std::alloc::Global;
use type_facts::Questions;

/// The type of `this` in a class (JLS 8.1.2).
fn this_type(alloc: Global, w: &World, class: u32) -> Result<JavaType, NoMemory>
    ensures { IfOk result (λ t. t ≡ spec.this_type class (slice_get w.now.types class)) }
{
    match w.types.get(class as usize) {
        None => Ok(JavaType::Class(class, Items::new(alloc))),
        Some(info) => own_type(alloc, class, info.params),
    }
}

/// The type that `super` stands for in a class (JLS 8.1.4).
fn super_type(alloc: Global, w: &World, class: u32) -> Result<JavaType, NoMemory>
    ensures { IfOk result (λ t. t ≡ spec.super_type (superclass_of w.now class)) }
{
    match superclass(alloc, w, class)? {
        None => Ok(JavaType::Null),
        Some(t) => Ok(t),
    }
}

fn class_ops(
    alloc: Global,
    q: &Questions<'_>,
    class: &CoreClass,
    out: &mut Items<Node>,
) -> Result<(), NoMemory>
    requires { IsReady q.now }
    ensures { operations.Puts q.now result out.old out.new (λ f u. spec.class_ops f u (class_plain class.now)) }
{
    let own = this_type(alloc, q.world, class.number)?;
    let above = super_type(alloc, q.world, class.number)?;
    unchecked_of_class(alloc, q, class, &own, &above, out)
}

fn classes_ops(
    alloc: Global,
    q: &Questions<'_>,
    classes: &[CoreClass],
    out: &mut Items<Node>,
) -> Result<(), NoMemory>
    requires { IsReady q.now }
    ensures { operations.Puts q.now result out.old out.new (λ f u. spec.classes_ops f u (map class_plain classes.now)) }
{
    for class in classes {
        class_ops(alloc, q, class, out)?;
    }
    Ok(())
}

fn in_file<'a>(q: &Questions<'a>, file: u32) -> Questions<'a>
    ensures { result ≡ spec.in_file q.now file }
{
    Questions {
        world: q.world,
        members: q.members,
        names: q.names,
        file,
        length_name: q.length_name,
    }
}

/// An unchecked operation: the number of its file, from 0, user files before library files, and its node.
#[derive(Clone, Copy, Debug, PartialEq, Eq)]
pub struct Operation {
    pub file: u32,
    pub node: Node,
}

fn put_all(file: u32, nodes: &[Node], out: &mut Items<Operation>) -> Result<(), NoMemory>
    ensures { OnOk result (out.new ≡ out.old ++ map (spec.operation file) nodes.now) }
{
    for node in nodes {
        out.push(Operation { file, node: *node })?;
    }
    Ok(())
}

fn file_ops(
    alloc: Global,
    q: &Questions<'_>,
    number: u32,
    file: &CoreFile,
    out: &mut Items<Operation>,
) -> Result<(), NoMemory>
    requires { IsReady q.now }
    ensures { spec.PutsIn q.now number result out.old out.new (λ f u. spec.file_ops f u number (file_plain file.now)) }
{
    let here = in_file(q, number);
    let mut nodes = Items::new(alloc);
    classes_ops(alloc, &here, file.classes.as_slice(), &mut nodes)?;
    put_all(number, nodes.as_slice(), out)
}

fn files_ops(
    alloc: Global,
    q: &Questions<'_>,
    files: &[CoreFile],
    out: &mut Items<Operation>,
) -> Result<(), NoMemory>
    requires { IsReady q.now }
    ensures { spec.PutsOf q.now (length files.now) result out.old out.new (λ fs u. spec.files_ops fs u 0 (map file_plain files.now)) }
{
    if files.len() > u32::MAX as usize {
        return Err(NoMemory);
    }
    for (i, file) in files.iter().enumerate() {
        file_ops(alloc, q, i as u32, file, out)?;
    }
    Ok(())
}

/// The unchecked operations of a program, file by file, as a walk in preorder meets them (JLS 4.8, 5.1.9, 5.5). The file of the questions does not matter. More than
/// 2^32 - 1 files are want of memory.
pub fn program_operations(
    alloc: Global,
    q: &Questions<'_>,
    program: &CoreProgram,
) -> Result<Items<Operation>, NoMemory>
    requires ready { IsReady q.now }
    ensures { spec.Gives q.now (length program.now.files) result (λ fs u. spec.program_ops fs u (program_plain program.now)) }
{
    let mut out = Items::new(alloc);
    files_ops(alloc, q, program.files.as_slice(), &mut out)?;
    Ok(out)
}
