//! The report of the types to which a place may go.

ghost use Rattle.std.specs.Prelude.{◌≡◌, map, flat_map, IfOk};
ghost use Rattle.std.specs.String.{string_bytes};
ghost use Rattle.report_text.specs.Report as spec;

use java_tree::NoMemory;
use std::alloc::Global;

// `type NAME`
fn type_line(alloc: Global, name: &str) -> Result<String, NoMemory>
    ensures { IfOk result (λ r. string_bytes r ≡ spec.type_line name.now) }
{
    Ok(format!(in alloc; "type {name}\n")?)
}

fn type_lines(alloc: Global, names: &[String]) -> Result<String, NoMemory>
    ensures { IfOk result (λ r. string_bytes r ≡ flat_map spec.type_line (map string_bytes names.now)) }
{
    let mut lines = String::new(alloc);
    for name in names {
        let line = type_line(alloc, name.as_str())?;
        lines.push_str(line.as_str())?;
    }
    Ok(lines)
}

// `done K types`
fn done_types(alloc: Global, count: usize) -> Result<String, NoMemory>
    ensures { IfOk result (λ r. string_bytes r ≡ spec.done_types count) }
{
    Ok(format!(in alloc; "done {count} types\n")?)
}

/// For each name in order the line `type NAME`, and then `done K types`, where K counts them.
pub fn types_report(alloc: Global, names: &[String]) -> Result<String, NoMemory>
    ensures { IfOk result (λ r. string_bytes r ≡ spec.types_report (map string_bytes names.now)) }
{
    let mut report = type_lines(alloc, names)?;
    let last = done_types(alloc, names.len())?;
    report.push_str(last.as_str())?;
    Ok(report)
}
