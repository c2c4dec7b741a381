//! A whole report.

ghost use Rattle.std.specs.Prelude.{◌≡◌, ℕ, List, map, Some, IfOk, IfErr, IfSome};
ghost use Rattle.std.specs.Option.{option_map};
ghost use Rattle.report_reading.specs.declared.stop.Stop.TheVariants.{Form};
ghost use Rattle.report_text.specs.Report.{KeptParts, extract_report};
ghost use Rattle.edit_writer.specs.declared.edits.Edit.{Edit};
ghost use Rattle.report_reading.specs.Lines.{Parts, parts, AreLines, lines_text, extract_lines};

use crate::line::Line;
use crate::line_reading::line_at;
use crate::stop::Stop;
use java_tree::{Items, NoMemory};
use std::alloc::Global;

fn lines_of(alloc: Global, text: &[u8]) -> Result<Items<Line>, Stop>
    ensures are { IfOk result (λ ls. AreLines (map parts ls)) }
    ensures text { IfOk result (λ ls. lines_text (map parts ls) ≡ text.now) }
    ensures only { IfOk result (λ ls. (ms : List Parts) → AreLines ms → lines_text ms ≡ text.now → map parts ls ≡ ms) }
    ensures none { IfErr result (λ e. e ≡ Form → (ms : List Parts) → AreLines ms → lines_text ms ≡ text.now → ⊥) }
{
    let mut lines = Items::new(alloc);
    let mut rest = text;
    while !rest.is_empty() {
        match line_at(alloc, rest) {
            Ok((line, behind)) => {
                lines.push(line)?;
                rest = behind;
            }
            Err(stop) => return Err(stop),
        }
    }
    Ok(lines)
}

fn read(alloc: Global, text: &[u8]) -> Result<Option<Items<Line>>, NoMemory>
    ensures found { IfOk result (λ r. IfSome r (λ ls. AreLines (map parts ls) × (lines_text (map parts ls) ≡ text.now))) }
    ensures only { (ms : List Parts) → AreLines ms → lines_text ms ≡ text.now → IfOk result (λ r. option_map (map parts) r ≡ Some ms) }
{
    match lines_of(alloc, text) {
        Ok(lines) => Ok(Some(lines)),
        Err(Stop::Form) => Ok(None),
        Err(Stop::Memory) => Err(NoMemory),
    }
}

/// The lines of a report, where it is a sequence of the lines `edit`, `create`, `kept` and `done`, each in its form.
pub fn read_report(alloc: Global, text: &[u8]) -> Result<Option<Items<Line>>, NoMemory>
    // What is read is written so.
    ensures found { IfOk result (λ r. IfSome r (λ ls. AreLines (map parts ls) × (lines_text (map parts ls) ≡ text.now))) }
    // What is written so is read.
    ensures only { (ms : List Parts) → AreLines ms → lines_text ms ≡ text.now → IfOk result (λ r. option_map (map parts) r ≡ Some ms) }
    // The report of an extracted interface gives its lines back, where their names, places and numbers are such.
    ensures extracted { (files : List (List ℕ)) (edits : List (List Edit)) (created : List ℕ) (bytes : ℕ) (kept : List KeptParts) →
        text.now ≡ extract_report files edits created bytes kept → AreLines (extract_lines files edits created bytes kept) →
        IfOk result (λ r. option_map (map parts) r ≡ Some (extract_lines files edits created bytes kept)) }
{
    read(alloc, text)
}
