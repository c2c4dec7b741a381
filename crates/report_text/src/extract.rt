//! The report of an extracted interface.

ghost use Rattle.std.specs.Prelude.{◌≡◌, ◌++◌, length, map, flat_map, IfOk, OnOk};
ghost use Rattle.std.specs.String.{string_bytes};
ghost use Rattle.report_text.specs.Report as spec;

use crate::change::{push_done, push_edits_of_files};
use edit_writer::Edit;
use java_tree::{Items, NoMemory};
use std::alloc::Global;

/// A place that keeps its type, by texts `FILE:LINE:COL`: the node of a kind such as `ASSIGN` that is the cause, and the next
/// kept place, where the node leads to one.
#[derive(Drop)]
pub struct KeptLine {
    pub place: String,
    pub kind: &'static str,
    pub node: String,
    pub next: Option<String>,
}

// `create FILE BYTES`
fn create_line(alloc: Global, file: &str, bytes: usize) -> Result<String, NoMemory>
    ensures { IfOk result (λ r. string_bytes r ≡ spec.create_line file.now bytes) }
{
    Ok(format!(in alloc; "create {file} {bytes}\n")?)
}

// `kept PLACE because KIND NODE then NEXT`, or `kept PLACE needs KIND NODE`
fn kept_line(alloc: Global, kept: &KeptLine) -> Result<String, NoMemory>
    ensures { IfOk result (λ r. string_bytes r ≡ spec.kept_line (spec.kept_parts kept.now)) }
{
    let KeptLine {
        place,
        kind,
        node,
        next,
    } = kept;
    match next {
        Some(next) => Ok(format!(in alloc; "kept {place} because {kind} {node} then {next}\n")?),
        None => Ok(format!(in alloc; "kept {place} needs {kind} {node}\n")?),
    }
}

fn push_kept(alloc: Global, kept: &[KeptLine], lines: &mut Vec<u8>) -> Result<(), NoMemory>
    ensures { OnOk result (lines.new.items ≡ lines.old.items ++ flat_map spec.kept_line (map spec.kept_parts kept.now)) }
{
    for place in kept {
        let line = kept_line(alloc, place)?;
        lines.extend_from_slice(line.as_bytes())?;
    }
    Ok(())
}

/// The lines of the edits, as `change_report` has them; `create FILE BYTES`, the new file and its size in bytes; for each kept place in order
/// `kept PLACE because KIND NODE then NEXT` or `kept PLACE needs KIND NODE`; and `done K edits`, where K counts the edits.
pub fn extract_report(
    alloc: Global,
    files: &[String],
    edits: &[Items<Edit>],
    created: &str,
    bytes: usize,
    kept: &[KeptLine],
) -> Result<Vec<u8>, NoMemory>
    requires { length files.now ≡ length edits.now }
    ensures { IfOk result (λ r. r.items ≡ spec.extract_report (map string_bytes files.now) edits.now created.now bytes (map spec.kept_parts kept.now)) }
{
    let mut lines = Vec::new(alloc);
    let count = push_edits_of_files(alloc, files, edits, &mut lines)?;
    let line = create_line(alloc, created, bytes)?;
    lines.extend_from_slice(line.as_bytes())?;
    push_kept(alloc, kept, &mut lines)?;
    push_done(alloc, count, &mut lines)?;
    Ok(lines)
}
