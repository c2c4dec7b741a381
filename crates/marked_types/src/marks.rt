//! The declared types of users' fields and methods, with marks.

ghost use Rattle.std.specs.Prelude.{◌≡◌, [], map, None, Some, IfOk};
ghost use Rattle.std.specs.Option.{option_copied, option_map};
ghost use Rattle.java_core.specs.View.{class_plain, field_plain, file_plain, member_plain, method_plain, param_plain, written};
ghost use Rattle.type_kinds.specs.Members.{field_at};
ghost use Rattle.marked_types.specs.Table as spec;

use crate::marking::marked;
use class_world::{JavaType, MethodInfo, World};
use java_core::{CoreClass, CoreField, CoreFile, CoreMember, CoreMethod, CoreParam, CoreType};
use java_tree::{Items, NoMemory};
use std::alloc::Global;

/// By the number of a field its type, and by that of a method its result and the types of its parameters; `None`, or no types, for what no user declares.
#[derive(Drop)]
pub struct Marks {
    pub fields: Items<Option<JavaType>>,
    pub results: Items<Option<JavaType>>,
    pub params: Items<Items<JavaType>>,
}

#[tactic(auto, using(crate::proofs::Many::one_more))]
fn nothing(alloc: Global, count: usize) -> Result<Items<Option<JavaType>>, NoMemory>
    ensures { IfOk result (λ r. r ≡ spec.so_many None count) }
{
    let mut all = Items::new(alloc);
    for _ in 0..count {
        all.push(None)?;
    }
    Ok(all)
}

#[tactic(auto, using(crate::proofs::Many::one_more))]
fn no_lists(alloc: Global, count: usize) -> Result<Items<Items<JavaType>>, NoMemory>
    ensures { IfOk result (λ r. r ≡ spec.so_many [] count) }
{
    let mut all = Items::new(alloc);
    for _ in 0..count {
        all.push(Items::new(alloc))?;
    }
    Ok(all)
}

fn set_type(items: &mut Items<Option<JavaType>>, number: u32, t: JavaType)
    ensures { items.new ≡ spec.set_at items.old number (Some t) }
{
    let at = number as usize;
    if at < items.len() {
        *items.at_mut(at) = Some(t);
    }
}

fn set_types(items: &mut Items<Items<JavaType>>, number: u32, types: Items<JavaType>)
    ensures { items.new ≡ spec.set_at items.old number types }
{
    let at = number as usize;
    if at < items.len() {
        *items.at_mut(at) = types;
    }
}

impl Marks {
    /// The type of a field that a user declares.
    pub fn field(&self, field: u32) -> Option<&JavaType>
        ensures { option_copied result ≡ spec.field_mark self.now field }
    {
        match self.fields.get(field as usize) {
            Some(Some(t)) => Some(t),
            Some(None) => None,
            None => None,
        }
    }

    /// The result of a method that a user declares.
    pub fn result(&self, method: u32) -> Option<&JavaType>
        ensures { option_copied result ≡ spec.result_mark self.now method }
    {
        match self.results.get(method as usize) {
            Some(Some(t)) => Some(t),
            Some(None) => None,
            None => None,
        }
    }

    /// The type of a parameter, by its place from 0, of a method that a user declares.
    pub fn param(&self, method: u32, index: usize) -> Option<&JavaType>
        ensures { option_copied result ≡ spec.param_mark self.now method index }
    {
        match self.params.get(method as usize) {
            Some(types) => types.get(index),
            None => None,
        }
    }
}

fn mark_field(
    alloc: Global,
    class: u32,
    w: &World,
    ty: &CoreType,
    field: u32,
    marks: Marks,
) -> Result<Marks, NoMemory>
    ensures { IfOk result (λ r. r ≡ spec.mark_field class (written ty.now) field (field_at w.now field) marks) }
{
    match w.fields.get(field as usize) {
        None => Ok(marks),
        Some(info) => {
            let t = marked(alloc, class, ty, &info.ty)?;
            let mut marks = marks;
            set_type(&mut marks.fields, field, t);
            Ok(marks)
        }
    }
}

fn mark_fields(
    alloc: Global,
    class: u32,
    w: &World,
    ty: &CoreType,
    vars: &[CoreField],
    mut marks: Marks,
) -> Result<Marks, NoMemory>
    ensures { IfOk result (λ r. r ≡ spec.mark_fields class w.now (written ty.now) (map field_plain vars.now) marks) }
{
    for var in vars {
        marks = mark_field(alloc, class, w, ty, var.field, marks)?;
    }
    Ok(marks)
}

fn marked_params(
    alloc: Global,
    class: u32,
    params: &[CoreParam],
) -> Result<Items<JavaType>, NoMemory>
    ensures { IfOk result (λ r. r ≡ spec.marked_params class (map param_plain params.now)) }
{
    let mut types = Items::new(alloc);
    for param in params {
        types.push(marked(alloc, class, &param.written, &param.ty)?)?;
    }
    Ok(types)
}

fn result_of(info: Option<&MethodInfo>) -> Option<&JavaType>
    ensures { option_copied result ≡ spec.result_of (option_copied info.entry) }
{
    match info {
        None => None,
        Some(info) => match &info.result {
            None => None,
            Some(t) => Some(t),
        },
    }
}

fn mark_given(
    alloc: Global,
    class: u32,
    ty: &CoreType,
    method: u32,
    given: Option<&JavaType>,
    marks: Marks,
) -> Result<Marks, NoMemory>
    ensures { IfOk result (λ r. r ≡ spec.mark_given class (written ty.now) method (option_copied given.entry) marks) }
{
    match given {
        None => Ok(marks),
        Some(t) => {
            let t = marked(alloc, class, ty, t)?;
            let mut marks = marks;
            set_type(&mut marks.results, method, t);
            Ok(marks)
        }
    }
}

fn mark_result(
    alloc: Global,
    class: u32,
    w: &World,
    method: u32,
    given: &Option<CoreType>,
    marks: Marks,
) -> Result<Marks, NoMemory>
    ensures { IfOk result (λ r. r ≡ spec.mark_result class w.now method (option_map written given.now) marks) }
{
    match given {
        None => Ok(marks),
        Some(ty) => {
            let known = result_of(w.methods.get(method as usize));
            mark_given(alloc, class, ty, method, known, marks)
        }
    }
}

fn mark_method(
    alloc: Global,
    class: u32,
    w: &World,
    method: &CoreMethod,
    marks: Marks,
) -> Result<Marks, NoMemory>
    ensures { IfOk result (λ r. r ≡ spec.mark_method class w.now (method_plain method.now) marks) }
{
    let types = marked_params(alloc, class, method.params.as_slice())?;
    let mut marks = marks;
    set_types(&mut marks.params, method.method, types);
    mark_result(alloc, class, w, method.method, &method.result, marks)
}

fn mark_member(
    alloc: Global,
    class: u32,
    w: &World,
    member: &CoreMember,
    marks: Marks,
) -> Result<Marks, NoMemory>
    ensures { IfOk result (λ r. r ≡ spec.mark_member class w.now (member_plain member.now) marks) }
{
    match member {
        CoreMember::Fields { written, vars, .. } => {
            mark_fields(alloc, class, w, written, vars.as_slice(), marks)
        }
        CoreMember::Method(method) => mark_method(alloc, class, w, method, marks),
    }
}

fn mark_members(
    alloc: Global,
    class: u32,
    w: &World,
    members: &[CoreMember],
    mut marks: Marks,
) -> Result<Marks, NoMemory>
    ensures { IfOk result (λ r. r ≡ spec.mark_members class w.now (map member_plain members.now) marks) }
{
    for member in members {
        marks = mark_member(alloc, class, w, member, marks)?;
    }
    Ok(marks)
}

fn mark_classes(
    alloc: Global,
    class: u32,
    w: &World,
    classes: &[CoreClass],
    mut marks: Marks,
) -> Result<Marks, NoMemory>
    ensures { IfOk result (λ r. r ≡ spec.mark_classes class w.now (map class_plain classes.now) marks) }
{
    for declared in classes {
        marks = mark_members(alloc, class, w, declared.members.as_slice(), marks)?;
    }
    Ok(marks)
}

fn mark_files(
    alloc: Global,
    class: u32,
    w: &World,
    files: &[CoreFile],
    mut marks: Marks,
) -> Result<Marks, NoMemory>
    ensures { IfOk result (λ r. r ≡ spec.mark_files class w.now (map file_plain files.now) marks) }
{
    for file in files {
        marks = mark_classes(alloc, class, w, file.classes.as_slice(), marks)?;
    }
    Ok(marks)
}

/// The marks, for a class, of what these files declare.
pub fn marks_of(alloc: Global, class: u32, w: &World, files: &[CoreFile]) -> Result<Marks, NoMemory>
    ensures { IfOk result (λ r. r ≡ spec.marks_of class w.now (map file_plain files.now)) }
{
    let marks = Marks {
        fields: nothing(alloc, w.fields.len())?,
        results: nothing(alloc, w.methods.len())?,
        params: no_lists(alloc, w.methods.len())?,
    };
    mark_files(alloc, class, w, files, marks)
}
