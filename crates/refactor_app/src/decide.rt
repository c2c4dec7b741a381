//! What becomes of a question about a place of checked files.

ghost use Rattle.std.specs.Prelude.{◌≡◌, ◌≤◌, ◌<◌, length, map, take, Some, IfOk, IfSome, OnOk, slice_get};
ghost use Rattle.std.specs.String.{string_bytes};
ghost use Rattle.java_tree.specs.Names.{AreDistinct};
ghost use Rattle.java_tree.specs.View.{unit_plain};
ghost use Rattle.class_world.specs.Sound.{IsSound};
ghost use Rattle.member_table.specs.Table.{HoldsMembers};
ghost use Rattle.decl_table.specs.Program.{Program};
ghost use Rattle.source_files.specs.Held.{AreSmall};
ghost use Rattle.type_facts.specs.Facts.{IsReady};
ghost use Rattle.generalize_declared.specs.Plans.{AreSourceFacts};
ghost use Rattle.command_words.specs.Names.{within};
ghost use Rattle.refactor_app.specs.Asked.{aim_of, request_of};
ghost use Rattle.refactor_app.specs.Changes as spec;
ghost use Rattle.refactor_app.specs.Checked.{AreFilesOf};
ghost use Rattle.refactor_app.specs.Decided.{Adds, Decides, IsOutput, IsVerdict, IsWritten, SaysSo};
ghost use Rattle.refactor_app.specs.Words.{inputs};

use crate::asked::{Asked, Want};
use crate::lines::against_line;
use changed_files::NewFiles;
use checked_files::Declared;
use checker::{CheckedProgram, java_names, length_name};
use generalize_declared::{Answer, CheckedSource, TypesAnswer, Wish, allowed_types, generalize};
use java_tree::tree::SourceUnit;
use java_tree::{Items, Names, NoMemory};
use report_text::{change_report, types_report, write_fault};
use std::alloc::Global;
use type_facts::Questions;
use type_names::TypeNames;

/// A file that is written: its name, its bytes, and the report where the write fails.
#[derive(Drop)]
pub struct Output {
    pub name: String,
    pub text: Items<u8>,
    pub fault: String,
}

#[derive(Drop)]
pub enum Verdict {
    /// The line that names what stands against the question.
    Refused(String),
    Changed {
        outputs: Items<Output>,
        report: Vec<u8>,
    },
    /// The report of the types to which the place may go.
    Listed(String),
}

// The place of a name among others.
fn place_among(names: &[String], name: &str) -> Option<usize>
    ensures { IfSome result (λ k. slice_get (map string_bytes names.now) k ≡ Some name.now) }
{
    match names.split_first() {
        None => None,
        Some((first, rest)) => {
            if first.as_str() == name {
                return Some(0);
            }
            let at = place_among(rest, name)?;
            at.checked_add(1)
        }
    }
}

// The place that is asked for, in one of the user's files.
fn wish_of(q: &Asked<'_>) -> Option<Wish>
    ensures { IfSome result (λ x. spec.IsWish (request_of q.now) x) }
{
    let file = place_among(q.inputs.users, q.file)?;
    Some(Wish {
        file,
        line: q.line,
        col: q.col,
    })
}

// The folder of the new files.
fn out_of<'a>(want: Want<'a>) -> &'a str
    ensures { result.now ≡ spec.out_of (aim_of want.entry) }
{
    match want {
        Want::Become { out, .. } => out,
        Want::Types => "",
    }
}

// OUT/FILE
fn out_name(alloc: Global, out: &str, file: &str) -> Result<String, NoMemory>
    ensures { IfOk result (λ r. string_bytes r ≡ within out.now file.now) }
{
    Ok(format!(in alloc; "{out}/{file}")?)
}

/// What is written of a file.
pub(crate) fn output_of(
    alloc: Global,
    out: &str,
    file: &str,
    text: &[u8],
) -> Result<Output, NoMemory>
    ensures { IfOk result (IsOutput (within out.now file.now) text.now) }
{
    let name = out_name(alloc, out, file)?;
    let fault = write_fault(alloc, name.as_str())?;
    let text = Items::from_slice(alloc, text)?;
    Ok(Output { name, text, fault })
}

/// What is written of files, each with its text.
pub(crate) fn push_outputs(
    alloc: Global,
    out: &str,
    files: &[String],
    texts: &[Items<u8>],
    outputs: &mut Items<Output>,
) -> Result<(), NoMemory>
    requires { length files.now ≤ length texts.now }
    ensures { OnOk result (Adds (map (within out.now) (map string_bytes files.now)) (take (length files.now) texts.now) outputs.old outputs.new) }
{
    match files.split_first() {
        None => Ok(()),
        Some((file, rest)) => match texts.split_first() {
            None => Ok(()),
            Some((text, more)) => {
                outputs.push(output_of(alloc, out, file.as_str(), text.as_slice())?)?;
                push_outputs(alloc, out, rest, more, outputs)
            }
        },
    }
}

// The new files of a change, to be written.
fn changed(alloc: Global, q: &Asked<'_>, new: &NewFiles) -> Result<Verdict, NoMemory>
    ensures { IfOk result (IsWritten (spec.change_writing (request_of q.now) new.now)) }
{
    let users = q.inputs.users.len();
    if new.texts.len() < users || new.edits.len() < users {
        return Err(NoMemory);
    }
    let (edits, _) = new.edits.as_slice().split_at(users);
    let report = change_report(alloc, q.inputs.users, edits)?;
    let mut outputs = Items::new(alloc);
    push_outputs(
        alloc,
        out_of(q.want),
        q.inputs.users,
        new.texts.as_slice(),
        &mut outputs,
    )?;
    Ok(Verdict::Changed { outputs, report })
}

// What is put of what `generalize` answers.
fn verdict_of(
    alloc: Global,
    q: &Asked<'_>,
    file_names: &[String],
    source: &CheckedSource<'_>,
    answer: &Answer,
) -> Result<Verdict, NoMemory>
    requires small { AreSmall source.now.texts.now }
    requires names { map string_bytes file_names.now ≡ inputs (request_of q.now).files }
    ensures { IfOk result (IsVerdict (request_of q.now) source.now.texts.now (map unit_plain source.now.units.now) (spec.said_of answer.now)) }
{
    match answer {
        Answer::Changed(new) => changed(alloc, q, new),
        Answer::Against(against) => {
            let line = against_line(alloc, file_names, source.texts, source.units, *against)?;
            Ok(Verdict::Refused(line))
        }
    }
}

// What is put of what `allowed` answers.
fn types_verdict(
    alloc: Global,
    q: &Asked<'_>,
    file_names: &[String],
    source: &CheckedSource<'_>,
    answer: &TypesAnswer,
) -> Result<Verdict, NoMemory>
    requires small { AreSmall source.now.texts.now }
    requires names { map string_bytes file_names.now ≡ inputs (request_of q.now).files }
    ensures { IfOk result (IsVerdict (request_of q.now) source.now.texts.now (map unit_plain source.now.units.now) (spec.types_said answer.now)) }
{
    match answer {
        TypesAnswer::Types(names) => Ok(Verdict::Listed(types_report(alloc, names.as_slice())?)),
        TypesAnswer::Against(against) => {
            let line = against_line(alloc, file_names, source.texts, source.units, *against)?;
            Ok(Verdict::Refused(line))
        }
    }
}

// What is put of what the command answers that is asked.
fn answered(
    alloc: Global,
    q: &Asked<'_>,
    file_names: &[String],
    questions: &Questions<'_>,
    source: &CheckedSource<'_>,
    wish: Wish,
) -> Result<Verdict, NoMemory>
    requires ready { IsReady questions.now }
    requires small { AreSmall source.now.texts.now }
    requires distinct { AreDistinct source.now.names.now }
    requires texts { length source.now.texts.now ≡ length source.now.units.now }
    requires file { wish.file < length source.now.units.now }
    requires names { map string_bytes file_names.now ≡ inputs (request_of q.now).files }
    ensures { IfOk result (SaysSo (request_of q.now) source.now wish (AreSourceFacts questions.now source.now)) }
{
    match q.want {
        Want::Become { ty, .. } => {
            let answer = generalize(alloc, questions, source, wish, ty)?;
            verdict_of(alloc, q, file_names, source, &answer)
        }
        Want::Types => {
            let answer = allowed_types(alloc, questions, source, wish)?;
            types_verdict(alloc, q, file_names, source, &answer)
        }
    }
}

/// What becomes of a question about a place of files that break no rule. The first `users` files are the user's, and the table has the names that the built-in types need.
pub fn decide(
    alloc: Global,
    q: &Asked<'_>,
    file_names: &[String],
    texts: &[Items<u8>],
    units: &[SourceUnit],
    table: &Names,
    declared: &Declared,
    checked: &CheckedProgram,
) -> Result<Verdict, NoMemory>
    requires small { AreSmall texts.now }
    requires names { map string_bytes file_names.now ≡ inputs (request_of q.now).files }
    requires units { length units.now ≡ length texts.now }
    requires users { length q.now.inputs.users.now ≤ length units.now }
    requires sound { IsSound declared.now.world }
    requires members { HoldsMembers declared.now.world declared.now.members }
    requires distinct { AreDistinct table.now }
    requires program { (p : Program) × AreFilesOf (length q.now.inputs.users.now) table.now (map unit_plain units.now) p }
    ensures { (p : Program) → AreFilesOf (length q.now.inputs.users.now) table.now (map unit_plain units.now) p
        → IfOk result (Decides (request_of q.now) texts.now table.now (map unit_plain units.now) p declared.now.world checked.now) }
{
    let Some(wish) = wish_of(q) else {
        return Err(NoMemory);
    };
    let users = q.inputs.users.len();
    let (user, lib) = units.split_at(users);
    let meant = TypeNames::of(alloc, java_names(table), user, lib)?;
    let questions = Questions {
        world: &declared.world,
        members: &declared.members,
        names: &meant,
        file: 0,
        length_name: length_name(table),
    };
    let source = CheckedSource {
        texts,
        units,
        users,
        names: table,
        core: &checked.core,
        operations: checked.operations.as_slice(),
    };
    answered(alloc, q, file_names, &questions, &source, wish)
}
