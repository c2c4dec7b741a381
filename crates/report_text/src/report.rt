//! The lines of a report, as text.

ghost use Rattle.std.specs.Prelude.{◌≡◌, [], ◌∷◌, ◌++◌, length, IfOk, codes};
ghost use Rattle.std.specs.Fmt.{decimal};
ghost use Rattle.std.specs.String.{string_bytes};
ghost use Rattle.report_text.specs.Report as spec;

use edit_writer::{Edit, Place};
use java_tree::NoMemory;
use std::alloc::Global;

// The line's front, up to the space behind TO.
pub(crate) fn edit_front(alloc: Global, file: &str, edit: &Edit) -> Result<String, NoMemory>
    ensures { IfOk result (λ r. string_bytes r ≡ spec.spaced (codes "edit" ∷ file.now ∷ decimal edit.now.from ∷ decimal edit.now.to ∷ [])) }
{
    Ok(format!(in alloc; "edit {file} {} {} ", edit.from, edit.to)?)
}

// The rest of the line, and the line behind it.
fn edit_rest(alloc: Global, text: &str) -> Result<String, NoMemory>
    ensures { IfOk result (λ r. string_bytes r ≡ spec.line_of (decimal (length text.now) ∷ text.now ∷ []) ++ spec.one_edit) }
{
    let bytes = text.len();
    Ok(format!(in alloc; "{bytes} {text}\ndone 1 edits\n")?)
}

/// `edit FILE FROM TO BYTES TEXT` and `done 1 edits`. The offsets are bytes of the old file, and the text is the edit's.
pub fn edit_report(alloc: Global, file: &str, edit: &Edit, text: &str) -> Result<String, NoMemory>
    requires { text.now ≡ edit.now.text }
    ensures { IfOk result (λ r. string_bytes r ≡ spec.edit_report file.now edit.now) }
{
    let mut report = edit_front(alloc, file, edit)?;
    let rest = edit_rest(alloc, text)?;
    report.push_str(rest.as_str())?;
    Ok(report)
}

/// `FILE:LINE:COL`
pub fn place_text(alloc: Global, file: &str, place: Place) -> Result<String, NoMemory>
    ensures { IfOk result (λ r. string_bytes r ≡ spec.place_text file.now place) }
{
    Ok(format!(in alloc; "{file}:{}:{}", place.line, place.col)?)
}

/// `refused RULE PLACE`
pub fn refused_place(alloc: Global, rule: &str, place: &str) -> Result<String, NoMemory>
    ensures { IfOk result (λ r. string_bytes r ≡ spec.refused_place rule.now place.now) }
{
    Ok(format!(in alloc; "refused {rule} {place}\n")?)
}

/// `unchecked PLACE`
pub fn unchecked_at(alloc: Global, place: &str) -> Result<String, NoMemory>
    ensures { IfOk result (λ r. string_bytes r ≡ spec.unchecked_at place.now) }
{
    Ok(format!(in alloc; "unchecked {place}\n")?)
}

/// `checked K files`
pub fn checked_files(alloc: Global, files: usize) -> Result<String, NoMemory>
    ensures { IfOk result (λ r. string_bytes r ≡ spec.checked_files files) }
{
    Ok(format!(in alloc; "checked {files} files\n")?)
}

/// `refused RULE FILE:LINE:COL`
pub fn refused_at(alloc: Global, rule: &str, file: &str, place: Place) -> Result<String, NoMemory>
    ensures { IfOk result (λ r. string_bytes r ≡ spec.refused_at rule.now file.now place) }
{
    let place = place_text(alloc, file, place)?;
    refused_place(alloc, rule, place.as_str())
}

/// `missing NAME`
pub fn missing(alloc: Global, name: &str) -> Result<String, NoMemory>
    ensures { IfOk result (λ r. string_bytes r ≡ spec.missing name.now) }
{
    Ok(format!(in alloc; "missing {name}\n")?)
}

/// `read fault NAME`
pub fn read_fault(alloc: Global, name: &str) -> Result<String, NoMemory>
    ensures { IfOk result (λ r. string_bytes r ≡ spec.read_fault name.now) }
{
    Ok(format!(in alloc; "read fault {name}\n")?)
}

/// `write fault NAME`
pub fn write_fault(alloc: Global, name: &str) -> Result<String, NoMemory>
    ensures { IfOk result (λ r. string_bytes r ≡ spec.write_fault name.now) }
{
    Ok(format!(in alloc; "write fault {name}\n")?)
}

/// `usage URULE`
pub fn usage(alloc: Global, rule: u8) -> Result<String, NoMemory>
    ensures { IfOk result (λ r. string_bytes r ≡ spec.usage rule) }
{
    Ok(format!(in alloc; "usage U{rule}\n")?)
}

/// A rule, by the letters of its family and its number.
pub fn rule_name(alloc: Global, family: &str, number: u8) -> Result<String, NoMemory>
    ensures { IfOk result (λ r. string_bytes r ≡ family.now ++ decimal number) }
{
    Ok(format!(in alloc; "{family}{number}")?)
}
