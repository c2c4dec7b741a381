//! The report of a change of files, as bytes: the text of an edit is bytes of a file.

ghost use Rattle.std.specs.Prelude.{◌≡◌, ◌≤◌, ◌+◌, [], ◌∷◌, ◌++◌, length, map, flat_map, IfOk, OnOk};
ghost use Rattle.std.specs.Fmt.{decimal};
ghost use Rattle.std.specs.List.{sum_by};
ghost use Rattle.std.specs.String.{string_bytes};
ghost use Rattle.report_text.specs.Report as spec;

use crate::report::edit_front;
use edit_writer::Edit;
use java_tree::{Items, NoMemory};
use std::alloc::Global;

// The number of bytes and the bytes, up to the end of the line.
fn push_text(alloc: Global, text: &[u8], lines: &mut Vec<u8>) -> Result<(), NoMemory>
    ensures { OnOk result (lines.new.items ≡ lines.old.items ++ spec.line_of (decimal (length text.now) ∷ text.now ∷ [])) }
{
    let bytes = text.len();
    let count = format!(in alloc; "{bytes} ")?;
    lines.extend_from_slice(count.as_bytes())?;
    lines.extend_from_slice(text)?;
    lines.extend_from_slice(b"\n")?;
    Ok(())
}

// `edit FILE FROM TO BYTES TEXT`
fn push_edit(alloc: Global, file: &str, edit: &Edit, lines: &mut Vec<u8>) -> Result<(), NoMemory>
    ensures { OnOk result (lines.new.items ≡ lines.old.items ++ spec.edit_line file.now edit.now) }
{
    let front = edit_front(alloc, file, edit)?;
    lines.extend_from_slice(front.as_bytes())?;
    push_text(alloc, edit.text.as_slice(), lines)
}

// The lines of a file's edits, each of which has some bytes.
fn push_edits(
    alloc: Global,
    file: &str,
    edits: &[Edit],
    lines: &mut Vec<u8>,
) -> Result<(), NoMemory>
    ensures lines { OnOk result (lines.new.items ≡ lines.old.items ++ flat_map (spec.edit_line file.now) edits.now) }
    ensures some { OnOk result (length lines.old.items + length edits.now ≤ length lines.new.items) }
{
    for edit in edits {
        push_edit(alloc, file, edit, lines)?;
    }
    Ok(())
}

// The lines of the edits of all files, and their number.
pub(crate) fn push_edits_of_files(
    alloc: Global,
    files: &[String],
    edits: &[Items<Edit>],
    lines: &mut Vec<u8>,
) -> Result<usize, NoMemory>
    requires { length files.now ≡ length edits.now }
    ensures lines { OnOk result (lines.new.items ≡ lines.old.items ++ spec.edit_lines (map string_bytes files.now) edits.now) }
    ensures count { IfOk result (λ k. k ≡ sum_by length edits.now) }
{
    let mut count = 0;
    for file in 0..files.len() {
        let of_file = edits[file].as_slice();
        push_edits(alloc, files[file].as_str(), of_file, lines)?;
        count += of_file.len();
    }
    Ok(count)
}

// The last line, `done K edits`.
pub(crate) fn push_done(alloc: Global, count: usize, lines: &mut Vec<u8>) -> Result<(), NoMemory>
    ensures { OnOk result (lines.new.items ≡ lines.old.items ++ spec.done_edits count) }
{
    let last = format!(in alloc; "done {count} edits\n")?;
    lines.extend_from_slice(last.as_bytes())?;
    Ok(())
}

/// For each file in order, and for each of its edits in order, the line `edit FILE FROM TO BYTES TEXT`: FROM and TO are byte offsets in the old
/// file, BYTES is the length of TEXT, and TEXT, which may hold line ends, is what the edit puts there. Then `done K edits`, where K counts them.
pub fn change_report(
    alloc: Global,
    files: &[String],
    edits: &[Items<Edit>],
) -> Result<Vec<u8>, NoMemory>
    requires { length files.now ≡ length edits.now }
    ensures { IfOk result (λ r. r.items ≡ spec.change_report (map string_bytes files.now) edits.now) }
{
    let mut lines = Vec::new(alloc);
    let count = push_edits_of_files(alloc, files, edits, &mut lines)?;
    push_done(alloc, count, &mut lines)?;
    Ok(lines)
}
