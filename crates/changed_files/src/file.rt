//! The edits of one file.

ghost use Rattle.std.specs.Prelude.{◌≡◌, ◌<◌, ◌^◌, ◌++◌, List, length, map, IfOk, OnOk};
ghost use Rattle.java_tree.specs.View.{unit_plain};
ghost use Rattle.java_tree.specs.declared.tree.Token as tokens;
ghost use Rattle.java_lexer.specs.Lexing.{Lexes};
ghost use Rattle.changed_files.specs.FileEdits as spec;

use crate::import::import_edit;
use edit_writer::Edit;
use java_tree::tree::{SourceUnit, Span};
use java_tree::{Items, NoMemory};
use std::alloc::Global;

// The import, where a file does not see the type.
fn import_edits(
    alloc: Global,
    sees: bool,
    text: &[u8],
    unit: &SourceUnit,
    full_name: &[u8],
) -> Result<Option<Items<Edit>>, NoMemory>
    requires { length text.now < 2 ^ 27 }
    ensures { (ts : List tokens.Token) → Lexes text.now ts → IfOk result (λ es. es ≡ spec.import_edits sees text.now ts (unit_plain unit.now) full_name.now) }
{
    if sees {
        return Ok(Some(Items::new(alloc)));
    }
    match import_edit(alloc, text, unit, full_name)? {
        Some(edit) => Ok(Some(Items::one(alloc, edit)?)),
        None => Ok(None),
    }
}

fn head_edit(alloc: Global, name: &[u8], head: Span) -> Result<Edit, NoMemory>
    ensures { IfOk result (λ e. e ≡ spec.head_edit name.now head) }
{
    Ok(Edit {
        from: head.from,
        to: head.to,
        text: Items::from_slice(alloc, name)?,
    })
}

/// Puts the edits by which the heads at these spans become a name.
pub fn add_heads(
    alloc: Global,
    name: &[u8],
    heads: &[Span],
    edits: &mut Items<Edit>,
) -> Result<(), NoMemory>
    ensures { OnOk result (edits.new ≡ edits.old ++ map (spec.head_edit name.now) heads.now) }
{
    for head in heads {
        edits.push(head_edit(alloc, name, *head)?)?;
    }
    Ok(())
}

/// The edits of a file with this tree in which the heads of types at these spans become a simple name, in the order of the spans. Where there
/// are such heads and the file does not see the type, its import by the full name is the first edit. There is `None` where the import has no
/// place.
pub fn edits_of(
    alloc: Global,
    text: &[u8],
    unit: &SourceUnit,
    sees: bool,
    heads: &[Span],
    name: &[u8],
    full_name: &[u8],
) -> Result<Option<Items<Edit>>, NoMemory>
    requires { length text.now < 2 ^ 27 }
    ensures { (ts : List tokens.Token) → Lexes text.now ts → IfOk result (λ es. es ≡ spec.file_edits text.now ts (unit_plain unit.now) sees heads.now name.now full_name.now) }
{
    let needs_none = sees || heads.is_empty();
    match import_edits(alloc, needs_none, text, unit, full_name)? {
        Some(mut edits) => {
            add_heads(alloc, name, heads, &mut edits)?;
            Ok(Some(edits))
        }
        None => Ok(None),
    }
}
