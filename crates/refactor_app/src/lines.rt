//! The lines of refusals and of checks.

ghost use Rattle.std.specs.Prelude.{◌≡◌, ◌<◌, ◌≤◌, ℕ, List, Some, length, map, flat_map, slice_get, codes, Err, IfOk, option_and_then};
ghost use Rattle.std.specs.String.{string_bytes};
ghost use Rattle.java_tree.specs.View.{unit_plain};
ghost use Rattle.java_tree.specs.Plain as unit;
ghost use Rattle.node_places.specs.Places.{place_of};
ghost use Rattle.node_lists.specs.Table.{told};
ghost use Rattle.line_tables.specs.Marks.{AreMarks};
ghost use Rattle.source_files.specs.Held.{AreSmall};
ghost use Rattle.source_files.specs.Answers.{HasParsed};
ghost use Rattle.refactor_app.specs.Words.{Files, inputs};
ghost use Rattle.refactor_app.specs.Changes as changes;
ghost use Rattle.refactor_app.specs.Checking as checking;
ghost use Rattle.refactor_app.specs.Declarations as spec;
ghost use Rattle.refactor_app.specs.Marked.{AreTables, marks_at};
ghost use Rattle.refactor_app.specs.Refusals.{IsAt};
ghost use Rattle.refactor_app.specs.Stops.{TellsStop};

use edit_writer::{Place, place_at};
use generalize_declared::Against;
use java_tree::tree::SourceUnit;
use java_tree::{Broken, Family, Items, NoMemory};
use line_tables::{line_table, place_by};
use node_lists::place_in;
use node_places::{NodePlace, first_byte};
use report_text::{checked_files, place_text, refused_at, refused_place, rule_name, unchecked_at};
use source_files::TreeStop;
use std::alloc::Global;
use type_constraints::Constraint;
use unchecked_ops::Operation;

// A refusal at a byte of a file.
fn refused_in(
    alloc: Global,
    rule: &str,
    names: &[String],
    texts: &[Items<u8>],
    file: usize,
    at: u32,
) -> Result<String, NoMemory>
    requires name { file < length names.now }
    requires text { file < length texts.now }
    requires within { (x : List ℕ) → slice_get texts.now file ≡ Some x → (at ≤ length x) × (length x ≤ 1048576) }
    ensures { (fs : Files) → inputs fs ≡ map string_bytes names.now → IfOk result (λ r. IsAt rule.now fs texts.now file at (string_bytes r)) }
{
    let place = place_at(texts[file].as_slice(), at as usize);
    refused_at(alloc, rule, names[file].as_str(), place)
}

/// The refusal of what stops the parsing of texts.
pub fn stop_line(
    alloc: Global,
    names: &[String],
    texts: &[Items<u8>],
    stop: TreeStop,
) -> Result<String, NoMemory>
    requires names { length names.now ≡ length texts.now }
    requires small { AreSmall texts.now }
    requires stopped { HasParsed texts.now (Err stop) }
    ensures { (fs : Files) → inputs fs ≡ map string_bytes names.now → IfOk result (λ r. TellsStop fs texts.now stop (string_bytes r)) }
{
    match stop {
        TreeStop::Lexical { rule, file, at } => {
            let rule = rule_name(alloc, "X", rule)?;
            refused_in(alloc, rule.as_str(), names, texts, file, at)
        }
        TreeStop::Tokens => Ok(String::from_str(alloc, "refused L4 -\n")?),
        TreeStop::LeftOut { rule, file, at } => {
            let rule = rule_name(alloc, "S", rule)?;
            refused_in(alloc, rule.as_str(), names, texts, file, at)
        }
        TreeStop::NoTree { file, at } => refused_in(alloc, "G1", names, texts, file, at),
        TreeStop::NoMemory => Err(NoMemory),
    }
}

// The letters of a rule's name.
fn letters(family: Family) -> &'static str
    ensures { result.now ≡ spec.letters family }
{
    match family {
        Family::L => "L",
        Family::X => "X",
        Family::S => "S",
        Family::G => "G",
        Family::DR => "DR",
        Family::T => "T",
        Family::F => "F",
        Family::V => "V",
        Family::E => "E",
        Family::P => "P",
        Family::I => "I",
    }
}

// No place.
fn nowhere(alloc: Global) -> Result<String, NoMemory>
    ensures { IfOk result (λ r. string_bytes r ≡ codes "-") }
{
    Ok(String::from_str(alloc, "-")?)
}

// The place of a node, where there is one.
fn node_place(units: &[SourceUnit], node: Option<u32>) -> Option<NodePlace>
    ensures { result ≡ option_and_then (place_of (map unit_plain units.now)) node }
{
    first_byte(units, node?)
}

/// Marks of each of these texts.
pub(crate) fn marks_of(alloc: Global, texts: &[Items<u8>]) -> Result<Items<Items<Place>>, NoMemory>
    requires { AreSmall texts.now }
    ensures { IfOk result (AreTables texts.now) }
{
    let mut tables = Items::new(alloc);
    for text in texts {
        let marks = line_table(alloc, text.as_slice())?;
        tables.push(marks)?;
    }
    Ok(tables)
}

// The marks of a file: none where there is no table of it.
fn marks_in(tables: &[Items<Place>], file: usize) -> &[Place]
    ensures { result.now ≡ marks_at tables.now file }
{
    match tables.get(file) {
        Some(marks) => marks.as_slice(),
        None => &[],
    }
}

// FILE:LINE:COL of a place, by marks of its text: with none, the text is walked from its beginning.
fn place_name(
    alloc: Global,
    names: &[String],
    texts: &[Items<u8>],
    marks: &[Place],
    place: NodePlace,
) -> Result<String, NoMemory>
    requires small { AreSmall texts.now }
    requires marks { (x : List ℕ) → slice_get texts.now place.file ≡ Some x → AreMarks x marks.now }
    ensures { (fs : Files) → inputs fs ≡ map string_bytes names.now → IfOk result (λ r. string_bytes r ≡ spec.place_name fs texts.now (Some place)) }
{
    let Some(name) = names.get(place.file) else {
        return nowhere(alloc);
    };
    let Some(text) = texts.get(place.file) else {
        return nowhere(alloc);
    };
    let text = text.as_slice();
    let at = place_by(marks, text, text.len().min(place.at as usize));
    place_text(alloc, name.as_str(), at)
}

/// The PLACE of a node.
pub(crate) fn node_name(
    alloc: Global,
    names: &[String],
    texts: &[Items<u8>],
    units: &[SourceUnit],
    node: Option<u32>,
) -> Result<String, NoMemory>
    requires small { AreSmall texts.now }
    ensures { (fs : Files) → inputs fs ≡ map string_bytes names.now → IfOk result (λ r. string_bytes r ≡ spec.node_name fs texts.now (map unit_plain units.now) node) }
{
    match node_place(units, node) {
        Some(place) => place_name(alloc, names, texts, &[], place),
        None => nowhere(alloc),
    }
}

/// The PLACE of a node of files of which a table tells the places of nodes, by marks of their texts.
pub(crate) fn listed_name(
    alloc: Global,
    names: &[String],
    texts: &[Items<u8>],
    table: &[Option<NodePlace>],
    tables: &[Items<Place>],
    node: u32,
) -> Result<String, NoMemory>
    requires small { AreSmall texts.now }
    requires tables { AreTables texts.now tables.now }
    ensures { (fs : Files) (us : List unit.SourceUnit) → inputs fs ≡ map string_bytes names.now → ((k : ℕ) → told table.now k ≡ place_of us k)
        → IfOk result (λ r. string_bytes r ≡ spec.node_name fs texts.now us (Some node)) }
{
    match place_in(table, node) {
        Some(place) => {
            let marks = marks_in(tables, place.file);
            place_name(alloc, names, texts, marks, place)
        }
        None => nowhere(alloc),
    }
}

/// The refusal of a rule that these files break.
pub fn broken_line(
    alloc: Global,
    names: &[String],
    texts: &[Items<u8>],
    units: &[SourceUnit],
    broken: Broken,
) -> Result<String, NoMemory>
    requires small { AreSmall texts.now }
    ensures { (fs : Files) → inputs fs ≡ map string_bytes names.now → IfOk result (λ r. string_bytes r ≡ spec.broken_line fs texts.now (map unit_plain units.now) broken) }
{
    let rule = rule_name(alloc, letters(broken.family), broken.number)?;
    let place = node_name(alloc, names, texts, units, broken.node)?;
    refused_place(alloc, rule.as_str(), place.as_str())
}

fn kind_name(kind: Constraint) -> &'static str
    ensures { result.now ≡ changes.kind_name kind }
{
    match kind {
        Constraint::Assign => "ASSIGN",
        Constraint::Member => "MEMBER",
        Constraint::Field => "FIELD",
        Constraint::Override => "OVERRIDE",
        Constraint::Overload => "OVERLOAD",
        Constraint::Result => "RESULT",
        Constraint::Throws => "THROWS",
        Constraint::Arm => "ARM",
    }
}

fn rule_against(against: Against) -> &'static str
    ensures { result.now ≡ changes.rule_against against }
{
    match against {
        Against::Unchecked(_) => "S21",
        Against::NoPlace => "V1",
        Against::NoTarget(_) => "V2",
        Against::NotAbove(_) => "V3",
        Against::Unmet(unmet) => kind_name(unmet.kind),
        Against::Kept(_) => "KEEP",
    }
}

fn node_against(against: Against) -> Option<u32>
    ensures { result ≡ changes.node_against against }
{
    match against {
        Against::Unchecked(node) => Some(node),
        Against::NoPlace => None,
        Against::NoTarget(node) => Some(node),
        Against::NotAbove(node) => Some(node),
        Against::Unmet(unmet) => Some(unmet.node),
        Against::Kept(node) => Some(node),
    }
}

/// The refusal of what stands against a change of these files.
pub fn against_line(
    alloc: Global,
    names: &[String],
    texts: &[Items<u8>],
    units: &[SourceUnit],
    against: Against,
) -> Result<String, NoMemory>
    requires small { AreSmall texts.now }
    ensures { (fs : Files) → inputs fs ≡ map string_bytes names.now → IfOk result (λ r. string_bytes r ≡ changes.against_line fs texts.now (map unit_plain units.now) against) }
{
    let place = node_name(alloc, names, texts, units, node_against(against))?;
    refused_place(alloc, rule_against(against), place.as_str())
}

// The first byte of an operation.
fn operation_place(operation: Operation) -> NodePlace
    ensures { result ≡ checking.operation_place operation }
{
    NodePlace {
        file: operation.file as usize,
        at: operation.node.span.from,
    }
}

// The line of an unchecked operation.
fn unchecked_line(
    alloc: Global,
    names: &[String],
    texts: &[Items<u8>],
    operation: Operation,
) -> Result<String, NoMemory>
    requires small { AreSmall texts.now }
    ensures { (fs : Files) → inputs fs ≡ map string_bytes names.now → IfOk result (λ r. string_bytes r ≡ checking.unchecked_line fs texts.now operation) }
{
    let place = place_name(alloc, names, texts, &[], operation_place(operation))?;
    unchecked_at(alloc, place.as_str())
}

// The lines of unchecked operations.
fn unchecked_lines(
    alloc: Global,
    names: &[String],
    texts: &[Items<u8>],
    operations: &[Operation],
) -> Result<String, NoMemory>
    requires small { AreSmall texts.now }
    ensures { (fs : Files) → inputs fs ≡ map string_bytes names.now → IfOk result (λ r. string_bytes r ≡ flat_map (checking.unchecked_line fs texts.now) operations.now) }
{
    let mut lines = String::new(alloc);
    for operation in operations {
        let line = unchecked_line(alloc, names, texts, *operation)?;
        lines.push_str(line.as_str())?;
    }
    Ok(lines)
}

/// The report of a check of these files that break no rule.
pub fn check_report(
    alloc: Global,
    names: &[String],
    texts: &[Items<u8>],
    operations: &[Operation],
) -> Result<String, NoMemory>
    requires small { AreSmall texts.now }
    ensures { (fs : Files) → inputs fs ≡ map string_bytes names.now → IfOk result (λ r. string_bytes r ≡ checking.check_report fs texts.now operations.now) }
{
    let mut report = unchecked_lines(alloc, names, texts, operations)?;
    let last = checked_files(alloc, names.len())?;
    report.push_str(last.as_str())?;
    Ok(report)
}
