//! What becomes of an extraction from checked files.

ghost use Rattle.std.specs.Prelude.{◌≡◌, ◌≤◌, ℕ, List, length, map, Some, IfOk};
ghost use Rattle.std.specs.Option.{option_map};
ghost use Rattle.std.specs.String.{string_bytes};
ghost use Rattle.java_tree.specs.Names.{AreDistinct};
ghost use Rattle.java_tree.specs.Plain as unit;
ghost use Rattle.java_tree.specs.View.{unit_plain};
ghost use Rattle.node_places.specs.Places.{place_of};
ghost use Rattle.node_lists.specs.Table.{told};
ghost use Rattle.class_world.specs.Sound.{IsSound};
ghost use Rattle.member_table.specs.Table.{HoldsMembers};
ghost use Rattle.decl_table.specs.Program.{Program};
ghost use Rattle.source_files.specs.Held.{AreSmall};
ghost use Rattle.report_text.specs.Report.{kept_parts};
ghost use Rattle.refactor_app.specs.Asked.{extract_of};
ghost use Rattle.refactor_app.specs.Extractions as spec;
ghost use Rattle.refactor_app.specs.Checked.{AreFilesOf};
ghost use Rattle.refactor_app.specs.Decided.{AreOutputs, DecidesExtract, IsExtractVerdict, IsWritten};
ghost use Rattle.refactor_app.specs.Marked.{AreTables};
ghost use Rattle.refactor_app.specs.Words.{Files, inputs};

use crate::asked::AskedExtract;
use crate::decide::{Output, Verdict, output_of, push_outputs};
use crate::lines::{listed_name, marks_of, node_name};
use checked_files::Declared;
use checker::{CheckedProgram, java_names, length_name};
use edit_writer::Place;
use extract_interface::{Against, Answer, Extracted, Wish, extract_interface};
use generalize_declared::CheckedSource;
use java_tree::tree::SourceUnit;
use java_tree::{Items, Names, NoMemory};
use kept_places::{Kept, Kind};
use node_lists::places_of;
use node_places::NodePlace;
use report_text::{KeptLine, extract_report, refused_place};
use std::alloc::Global;
use type_facts::Questions;
use type_names::TypeNames;

fn rule_of(against: Against) -> &'static str
    ensures { result.now ≡ spec.rule_against against }
{
    match against {
        Against::Unchecked(_) => "S21",
        Against::NoClass => "E1",
        Against::NameTaken(_) => "E2",
        Against::NoMethod(_) => "E3",
        Against::NotPublic(_) => "E4",
        Against::Static(_) => "E5",
        Against::FileTaken(_) => "E6",
        Against::Kept(_) => "KEEP",
    }
}

fn node_of(against: Against) -> Option<u32>
    ensures { result ≡ spec.node_against against }
{
    match against {
        Against::Unchecked(node) => Some(node),
        Against::NoClass => None,
        Against::NameTaken(node) => node,
        Against::NoMethod(node) => node,
        Against::NotPublic(node) => node,
        Against::Static(node) => node,
        Against::FileTaken(node) => node,
        Against::Kept(node) => node,
    }
}

fn kind_name(kind: Kind) -> &'static str
    ensures { result.now ≡ spec.kind_name kind }
{
    match kind {
        Kind::Assign => "ASSIGN",
        Kind::Member => "MEMBER",
        Kind::Field => "FIELD",
        Kind::Override => "OVERRIDE",
        Kind::Overload => "OVERLOAD",
        Kind::Result => "RESULT",
        Kind::Throws => "THROWS",
        Kind::Arm => "ARM",
        Kind::Argument => "ARGUMENT",
    }
}

// The refusal of what stands against an extraction from these files.
fn against_line(
    alloc: Global,
    names: &[String],
    texts: &[Items<u8>],
    units: &[SourceUnit],
    against: Against,
) -> Result<String, NoMemory>
    requires small { AreSmall texts.now }
    ensures { (fs : Files) → inputs fs ≡ map string_bytes names.now
        → IfOk result (λ r. string_bytes r ≡ spec.against_line fs texts.now (map unit_plain units.now) against) }
{
    let place = node_name(alloc, names, texts, units, node_of(against))?;
    refused_place(alloc, rule_of(against), place.as_str())
}

// The PLACE of the next kept place, if there is one.
fn next_name(
    alloc: Global,
    names: &[String],
    texts: &[Items<u8>],
    table: &[Option<NodePlace>],
    tables: &[Items<Place>],
    next: Option<u32>,
) -> Result<Option<String>, NoMemory>
    requires small { AreSmall texts.now }
    requires tables { AreTables texts.now tables.now }
    ensures { (fs : Files) (us : List unit.SourceUnit) → inputs fs ≡ map string_bytes names.now → ((k : ℕ) → told table.now k ≡ place_of us k)
        → IfOk result (λ r. option_map string_bytes r ≡ spec.next_name fs texts.now us next) }
{
    match next {
        None => Ok(None),
        Some(node) => Ok(Some(listed_name(alloc, names, texts, table, tables, node)?)),
    }
}

// What the report says of a kept place.
fn kept_line(
    alloc: Global,
    names: &[String],
    texts: &[Items<u8>],
    table: &[Option<NodePlace>],
    tables: &[Items<Place>],
    kept: Kept,
) -> Result<KeptLine, NoMemory>
    requires small { AreSmall texts.now }
    requires tables { AreTables texts.now tables.now }
    ensures { (fs : Files) (us : List unit.SourceUnit) → inputs fs ≡ map string_bytes names.now → ((k : ℕ) → told table.now k ≡ place_of us k)
        → IfOk result (λ r. kept_parts r ≡ spec.kept_told fs texts.now us kept) }
{
    let place = listed_name(alloc, names, texts, table, tables, kept.place)?;
    let node = listed_name(alloc, names, texts, table, tables, kept.node)?;
    let next = next_name(alloc, names, texts, table, tables, kept.next)?;
    Ok(KeptLine {
        place,
        kind: kind_name(kept.kind),
        node,
        next,
    })
}

// What the report says of kept places, by a table of the places of nodes and marks of the texts.
fn listed_lines(
    alloc: Global,
    names: &[String],
    texts: &[Items<u8>],
    table: &[Option<NodePlace>],
    tables: &[Items<Place>],
    kept: &[Kept],
) -> Result<Items<KeptLine>, NoMemory>
    requires small { AreSmall texts.now }
    requires tables { AreTables texts.now tables.now }
    ensures { (fs : Files) (us : List unit.SourceUnit) → inputs fs ≡ map string_bytes names.now → ((k : ℕ) → told table.now k ≡ place_of us k)
        → IfOk result (λ r. map kept_parts r ≡ map (spec.kept_told fs texts.now us) kept.now) }
{
    let mut lines = Items::new(alloc);
    for one in kept {
        lines.push(kept_line(alloc, names, texts, table, tables, *one)?)?;
    }
    Ok(lines)
}

// What the report says of kept places.
fn kept_lines(
    alloc: Global,
    names: &[String],
    texts: &[Items<u8>],
    units: &[SourceUnit],
    kept: &[Kept],
) -> Result<Items<KeptLine>, NoMemory>
    requires small { AreSmall texts.now }
    ensures { (fs : Files) → inputs fs ≡ map string_bytes names.now
        → IfOk result (λ r. map kept_parts r ≡ map (spec.kept_told fs texts.now (map unit_plain units.now)) kept.now) }
{
    let table = places_of(alloc, units)?;
    let tables = marks_of(alloc, texts)?;
    listed_lines(
        alloc,
        names,
        texts,
        table.as_slice(),
        tables.as_slice(),
        kept,
    )
}

// The user's new files and the created one, to be written.
fn outputs_of(
    alloc: Global,
    q: &AskedExtract<'_>,
    made: &Extracted,
) -> Result<Items<Output>, NoMemory>
    requires { length q.now.inputs.users.now ≤ length made.now.new.texts }
    ensures { IfOk result (AreOutputs (spec.out_names (extract_of q.now) made.now) (spec.out_texts (extract_of q.now) made.now)) }
{
    let mut outputs = Items::new(alloc);
    push_outputs(
        alloc,
        q.out,
        q.inputs.users,
        made.new.texts.as_slice(),
        &mut outputs,
    )?;
    let created = output_of(alloc, q.out, made.name.as_str(), made.text.as_slice())?;
    outputs.push(created)?;
    Ok(outputs)
}

// The new files of an extraction, to be written, with the report.
fn written(
    alloc: Global,
    q: &AskedExtract<'_>,
    file_names: &[String],
    source: &CheckedSource<'_>,
    made: &Extracted,
) -> Result<Verdict, NoMemory>
    requires small { AreSmall source.now.texts.now }
    requires names { map string_bytes file_names.now ≡ inputs (extract_of q.now).files }
    ensures { IfOk result (IsWritten (spec.extract_writing (extract_of q.now) source.now.texts.now (map unit_plain source.now.units.now) made.now)) }
{
    let users = q.inputs.users.len();
    if made.new.texts.len() < users || made.new.edits.len() < users {
        return Err(NoMemory);
    }
    let (edits, _) = made.new.edits.as_slice().split_at(users);
    let kept = made.kept.as_slice();
    let lines = kept_lines(alloc, file_names, source.texts, source.units, kept)?;
    let report = extract_report(
        alloc,
        q.inputs.users,
        edits,
        made.name.as_str(),
        made.text.len(),
        lines.as_slice(),
    )?;
    let outputs = outputs_of(alloc, q, made)?;
    Ok(Verdict::Changed { outputs, report })
}

// What is put of what `extract-interface` answers.
fn verdict_of(
    alloc: Global,
    q: &AskedExtract<'_>,
    file_names: &[String],
    source: &CheckedSource<'_>,
    answer: &Answer,
) -> Result<Verdict, NoMemory>
    requires small { AreSmall source.now.texts.now }
    requires names { map string_bytes file_names.now ≡ inputs (extract_of q.now).files }
    ensures { IfOk result (IsExtractVerdict (extract_of q.now) source.now.texts.now (map unit_plain source.now.units.now) answer.now) }
{
    match answer {
        Answer::Extracted(made) => written(alloc, q, file_names, source, made),
        Answer::Against(against) => {
            let line = against_line(alloc, file_names, source.texts, source.units, *against)?;
            Ok(Verdict::Refused(line))
        }
    }
}

/// What becomes of an extraction from files that break no rule. The first `users` files are the user's, and the table has the names that the built-in types need.
pub fn extraction(
    alloc: Global,
    q: &AskedExtract<'_>,
    file_names: &[String],
    texts: &[Items<u8>],
    units: &[SourceUnit],
    table: &Names,
    declared: &Declared,
    checked: &CheckedProgram,
) -> Result<Verdict, NoMemory>
    requires small { AreSmall texts.now }
    requires names { map string_bytes file_names.now ≡ inputs (extract_of q.now).files }
    requires units { length units.now ≡ length texts.now }
    requires users { length q.now.inputs.users.now ≤ length units.now }
    requires sound { IsSound declared.now.world }
    requires members { HoldsMembers declared.now.world declared.now.members }
    requires distinct { AreDistinct table.now }
    requires program { (p : Program) × AreFilesOf (length q.now.inputs.users.now) table.now (map unit_plain units.now) p }
    ensures { IfOk result (DecidesExtract (extract_of q.now) texts.now table.now (map unit_plain units.now) declared.now.world checked.now) }
{
    let users = q.inputs.users.len();
    let (user, lib) = units.split_at(users);
    let meant = TypeNames::of(alloc, java_names(table), user, lib)?;
    let questions = Questions {
        world: &declared.world,
        members: &declared.members,
        names: &meant,
        file: 0,
        length_name: length_name(table),
    };
    let source = CheckedSource {
        texts,
        units,
        users,
        names: table,
        core: &checked.core,
        operations: checked.operations.as_slice(),
    };
    let wish = Wish {
        class: q.class,
        name: q.name,
        methods: q.methods,
        files: file_names,
    };
    let answer = extract_interface(alloc, &questions, &source, &wish)?;
    verdict_of(alloc, q, file_names, &source, &answer)
}
