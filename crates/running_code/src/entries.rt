//! The classes of the files, with what each declares, by number.

ghost use Rattle.std.specs.Prelude.{◌≡◌, ◌++◌, IfOk, IfSome, OnOk, map, Some};
ghost use Rattle.std.specs.Option.{option_copied, option_map};
ghost use Rattle.java_core.specs.Plain as e;
ghost use Rattle.java_core.specs.View.{class_plain, field_plain, file_plain, member_plain, method_plain, program_plain};
ghost use Rattle.core_meaning.specs.Code as code;
ghost use Rattle.running_code.specs.Entries.{AreClasses, AreEntries, IsEntry, class_in, class_of, constants_in, fields_of};

use crate::literals::is_constant_value;
use crate::places::{Places, place, places_of};
use java_core::{CoreClass, CoreField, CoreFile, CoreMember, CoreMethod, CoreProgram};
use java_tree::{Items, NoMemory};
use std::alloc::Global;

/// A class of a file: its fields and its methods and constructors in text order, with the places of the latter by number; and of the fields that have the value of a
/// constant field.
#[derive(Drop)]
pub(crate) struct Entry<'a> {
    pub class: &'a CoreClass,
    pub fields: Items<&'a CoreField>,
    pub constants: Places,
    pub methods: Items<&'a CoreMethod>,
    pub places: Places,
}

/// The classes of all files in order, their places by number, and all their fields.
#[derive(Drop)]
pub(crate) struct Classes<'a> {
    pub entries: Items<Entry<'a>>,
    pub places: Places,
    pub fields: Items<&'a CoreField>,
}

fn push_variables<'a>(
    member: &'a CoreMember,
    out: &mut Items<&'a CoreField>,
) -> Result<(), NoMemory>
    ensures { OnOk result (map (λ x. field_plain x.now) out.new ≡ map (λ x. field_plain x.now) out.old ++ code.variables_of (member_plain member.now)) }
{
    let CoreMember::Fields { vars, .. } = member else {
        return Ok(());
    };
    for field in vars.as_slice() {
        out.push(field)?;
    }
    Ok(())
}

fn push_methods<'a>(member: &'a CoreMember, out: &mut Items<&'a CoreMethod>) -> Result<(), NoMemory>
    ensures { OnOk result (map (λ x. method_plain x.now) out.new ≡ map (λ x. method_plain x.now) out.old ++ code.methods_of (member_plain member.now)) }
{
    let CoreMember::Method(method) = member else {
        return Ok(());
    };
    out.push(method)?;
    Ok(())
}

/// The fields of a class behind others.
fn push_fields<'a>(class: &'a CoreClass, out: &mut Items<&'a CoreField>) -> Result<(), NoMemory>
    ensures { OnOk result (map (λ x. field_plain x.now) out.new ≡ map (λ x. field_plain x.now) out.old ++ code.class_fields (Some (class_plain class.now))) }
{
    for member in class.members.as_slice() {
        push_variables(member, out)?;
    }
    Ok(())
}

fn methods_in<'a>(alloc: Global, class: &'a CoreClass) -> Result<Items<&'a CoreMethod>, NoMemory>
    ensures { IfOk result (λ r. map (λ x. method_plain x.now) r ≡ code.class_methods (class_plain class.now)) }
{
    let mut methods = Items::new(alloc);
    for member in class.members.as_slice() {
        push_methods(member, &mut methods)?;
    }
    Ok(methods)
}

fn method_numbers(alloc: Global, methods: &[&CoreMethod]) -> Result<Items<u32>, NoMemory>
    ensures { IfOk result (λ r. r ≡ map (λ x. x.now.method) methods.now) }
{
    let numbers = methods.iter().map(|method| method.method).collect(alloc)?;
    Ok(Items::from_vec(numbers))
}

fn constant_numbers(alloc: Global, fields: &[&CoreField]) -> Result<Items<u32>, NoMemory>
    ensures { IfOk result (λ r. r ≡ constants_in (map (λ x. field_plain x.now) fields.now)) }
{
    let mut numbers = Items::new(alloc);
    for field in fields {
        if is_constant_value(&field.init) {
            numbers.push(field.field)?;
        }
    }
    Ok(numbers)
}

fn entry_of<'a>(alloc: Global, class: &'a CoreClass) -> Result<Entry<'a>, NoMemory>
    ensures entry { IfOk result (λ r. IsEntry r) }
    ensures class { IfOk result (λ r. class_of r ≡ class_plain class.now) }
{
    let mut fields = Items::new(alloc);
    push_fields(class, &mut fields)?;
    let constants = constant_numbers(alloc, fields.as_slice())?;
    let constants = places_of(alloc, constants.as_slice())?;
    let methods = methods_in(alloc, class)?;
    let numbers = method_numbers(alloc, methods.as_slice())?;
    let places = places_of(alloc, numbers.as_slice())?;
    Ok(Entry {
        class,
        fields,
        constants,
        methods,
        places,
    })
}

fn push_entries<'a>(
    alloc: Global,
    file: &'a CoreFile,
    out: &mut Items<Entry<'a>>,
) -> Result<(), NoMemory>
    requires { AreEntries out.old }
    ensures entries { OnOk result (AreEntries out.new) }
    ensures classes { OnOk result (map class_of out.new ≡ map class_of out.old ++ (file_plain file.now).classes) }
{
    for class in file.classes.as_slice() {
        let entry = entry_of(alloc, class)?;
        out.push(entry)?;
    }
    Ok(())
}

fn entries_of<'a>(alloc: Global, core: &'a CoreProgram) -> Result<Items<Entry<'a>>, NoMemory>
    ensures entries { IfOk result (λ r. AreEntries r) }
    ensures classes { IfOk result (λ r. map class_of r ≡ code.classes_of (program_plain core.now).files) }
{
    let mut entries = Items::new(alloc);
    for file in core.files.as_slice() {
        push_entries(alloc, file, &mut entries)?;
    }
    Ok(entries)
}

fn class_numbers(alloc: Global, entries: &[Entry<'_>]) -> Result<Items<u32>, NoMemory>
    ensures { IfOk result (λ r. r ≡ map (λ x. (class_of x).number) entries.now) }
{
    let numbers = entries
        .iter()
        .map(|entry| entry.class.number)
        .collect(alloc)?;
    Ok(Items::from_vec(numbers))
}

fn all_fields<'a>(alloc: Global, entries: &[Entry<'a>]) -> Result<Items<&'a CoreField>, NoMemory>
    ensures { IfOk result (λ r. map (λ x. field_plain x.now) r ≡ fields_of (map class_of entries.now)) }
{
    let mut fields = Items::new(alloc);
    for entry in entries {
        push_fields(entry.class, &mut fields)?;
    }
    Ok(fields)
}

/// The classes of a program.
pub(crate) fn classes_of<'a>(alloc: Global, core: &'a CoreProgram) -> Result<Classes<'a>, NoMemory>
    ensures { IfOk result (λ r. AreClasses (program_plain core.now) r) }
{
    let entries = entries_of(alloc, core)?;
    let numbers = class_numbers(alloc, entries.as_slice())?;
    let places = places_of(alloc, numbers.as_slice())?;
    let fields = all_fields(alloc, entries.as_slice())?;
    Ok(Classes {
        entries,
        places,
        fields,
    })
}

/// A class by its number: the first of it.
#[tactic(auto, using(crate::proofs::Lists::class_found, crate::proofs::Lists::class_missing, crate::proofs::Lists::entry_is))]
pub(crate) fn entry_at<'b, 'a>(t: &'b Classes<'a>, class: u32) -> Option<&'b Entry<'a>>
    ensures class { (p : e.Program) → AreClasses p t.now → option_map class_of (option_copied result) ≡ class_in p class }
    ensures entry { (p : e.Program) → AreClasses p t.now → IfSome result (λ x. IsEntry x.now) }
{
    match place(&t.places, class) {
        Some(at) => t.entries.get(at),
        None => None,
    }
}

/// Whether a class gives a field the value of a constant field.
#[tactic(auto, using(crate::proofs::Lists::constant_told))]
pub(crate) fn has_constant(t: &Classes<'_>, class: u32, field: u32) -> bool
    ensures { (p : e.Program) → AreClasses p t.now → result ≡ code.has_constant field (code.class_fields (class_in p class)) }
{
    match entry_at(t, class) {
        Some(entry) => place(&entry.constants, field).is_some(),
        None => false,
    }
}
