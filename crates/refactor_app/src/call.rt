//! The top call.

ghost use Rattle.std.specs.Prelude.{◌≡◌, ◌≤◌, ℕ, List, length, map, take, Ok, IfOk, OnErr};
ghost use Rattle.std.specs.String.{string_bytes};
ghost use Rattle.java_tree.specs.Names.{AreDistinct, IsTable, built_in_names};
ghost use Rattle.java_tree.specs.View.{unit_plain};
ghost use Rattle.built_in_types.specs.BuiltIns.{with_words};
ghost use Rattle.class_world.specs.Sound.{IsSound};
ghost use Rattle.member_table.specs.Table.{HoldsMembers};
ghost use Rattle.tool_files.specs.Told.{Rose};
ghost use Rattle.decl_table.specs.Program.{Program};
ghost use Rattle.source_files.specs.Held.{AreHeld, AreSmall};
ghost use Rattle.source_files.specs.Trees.{AreTrees};
ghost use Rattle.source_files.specs.Answers.{HasParsed};
ghost use Rattle.refactor_app.specs.Words.{inputs};
ghost use Rattle.refactor_app.specs.Asked.{AsksTask, extract_of, request_of, task_files};
ghost use Rattle.refactor_app.specs.Answers as answers;
ghost use Rattle.refactor_app.specs.Answers.{IsBound, IsDone, IsRefused, IsThrew, IsUsage, IsWriteFault, IsOutFault, Ends};
ghost use Rattle.checked_files.specs.Judged.{AreDeclaredAs};
ghost use Rattle.refactor_app.specs.Checked.{AreFilesOf};
ghost use Rattle.refactor_app.specs.Ran.{EndsRun, RunsSo};
ghost use Rattle.refactor_app.specs.Course.{EndsWith};
ghost use Rattle.refactor_app.specs.Refusals.{AsksFew};
ghost use Rattle.refactor_app.specs.Course.{Moment, Course, Finishes};
ghost use Rattle.refactor_app.specs.Written.{ChangesSo, EndsVerdict, ExtractsSo};
ghost use Rattle.refactor_app.specs.Stops.{IsNamed, Stops};

use crate::asked::{Asked, AskedExtract, AskedRun, Task, names_of, task_of};
use crate::check::{CheckAnswer, check};
use crate::decide::{Output, Verdict, decide};
use crate::extract::extraction;
use crate::lines::{broken_line, stop_line};
use crate::status::{Status, run_status};
use checked_files::{Declared, judge_declarations};
use command_words::{Reading, read_words};
use java_tree::tree::SourceUnit;
use java_tree::{Fault, Items, Names, NoMemory};
use program_runs::{RunAnswer, run_main};
use report_text::{missing, read_fault, usage};
use source_files::{Parsed, ReadStop, TreeStop, parse_files, read_files};
use std::alloc::Global;
use tool_files::{Files, Sink};

/// The most files of a program.
const MOST_FILES: usize = 256;

/// The most steps of a run.
const MOST_STEPS: u64 = 100_000_000;

// Puts a report, after which the call ends so.
fn put<K: Sink>(out: &mut K, report: &[u8], status: Status) -> Status
    ensures { Ends (K.written out.old) (K.written out.new) (K.faults out.old) (K.faults out.new) report.now status result }
{
    match out.put(report) {
        Ok(()) => status,
        Err(_) => Status::OutFault,
    }
}

// Puts a report that was made. Without memory nothing is put.
fn put_made<K: Sink>(out: &mut K, made: Result<String, NoMemory>, status: Status) -> Status
    ensures put { IfOk made (λ r. Ends (K.written out.old) (K.written out.new) (K.faults out.old) (K.faults out.new) (string_bytes r) status result) }
    ensures none { OnErr made ((result ≡ Status.NoMemory) × (K.written out.new ≡ K.written out.old)) }
{
    match made {
        Ok(report) => put(out, report.as_bytes(), status),
        Err(_) => Status::NoMemory,
    }
}

// Writes the new files one behind the other, and then puts the report, or the fault of the one that failed. Takes no memory.
fn finish<F: Files, K: Sink>(
    files: &mut F,
    out: &mut K,
    outputs: &[Output],
    report: &[u8],
) -> Status
    ensures { Finishes outputs.now (F.holds files.old) (F.holds files.new) (F.write_faults files.old) (F.write_faults files.new) report.now
        (Ends (K.written out.old) (K.written out.new) (K.faults out.old) (K.faults out.new)) result }
{
    match outputs.split_first() {
        None => put(out, report, Status::Done),
        Some((output, rest)) => match files.write(output.name.as_str(), output.text.as_slice()) {
            Ok(()) => finish(files, out, rest, report),
            Err(_) => put(out, output.fault.as_bytes(), Status::WriteFault),
        },
    }
}

// Puts the answer of a check.
fn put_checked<K: Sink>(out: &mut K, checked: &CheckAnswer) -> Status
    ensures { EndsWith (K.written out.old) (K.written out.new) (K.faults out.old) (K.faults out.new) checked.now result }
{
    match checked {
        CheckAnswer::Refused(line) => put(out, line.as_bytes(), Status::Refused),
        CheckAnswer::Passed { report, .. } => put(out, report.as_bytes(), Status::Done),
    }
}

// Puts the answer of a run.
fn put_run<K: Sink>(out: &mut K, answer: Result<RunAnswer, NoMemory>) -> Status
    ensures { EndsRun (K.written out.old) (K.written out.new) (K.faults out.old) (K.faults out.new) answer result }
{
    match answer {
        Ok(RunAnswer::NoMain) => put(out, b"refused S24 -\n", Status::Refused),
        Ok(RunAnswer::Ran { report, end }) => put(out, report.as_slice(), run_status(end)),
        Err(_) => Status::NoMemory,
    }
}

// Runs the main method of files of which a check answered this, and puts the answer.
fn on_run<K: Sink>(
    alloc: Global,
    q: &AskedRun<'_>,
    table: &Names,
    declared: &Declared,
    checked: &CheckAnswer,
    out: &mut K,
) -> Status
    requires sound { IsSound declared.now.world }
    requires members { HoldsMembers declared.now.world declared.now.members }
    ensures { RunsSo declared.now.world table.now q.now (K.written out.old) (K.written out.new) (K.faults out.old) (K.faults out.new) checked.now result }
{
    match checked {
        CheckAnswer::Refused(line) => put(out, line.as_bytes(), Status::Refused),
        CheckAnswer::Passed { checked, .. } => {
            let answer = run_main(
                alloc,
                &declared.world,
                table,
                &checked.core,
                &declared.members,
                q.inputs.users.len(),
                q.class,
                q.args,
                q.steps,
            );
            put_run(out, answer)
        }
    }
}

// Writes what was decided of a change, or puts the types of a place or what stands against the question.
fn put_verdict<F: Files, K: Sink>(
    files: &mut F,
    out: &mut K,
    verdict: Result<Verdict, NoMemory>,
) -> Status
    ensures { EndsVerdict (F.holds files.old) (F.holds files.new) (F.write_faults files.old) (F.write_faults files.new)
        (K.written out.old) (K.written out.new) (K.faults out.old) (K.faults out.new) verdict result }
{
    match verdict {
        Ok(Verdict::Refused(line)) => put(out, line.as_bytes(), Status::Refused),
        Ok(Verdict::Changed { outputs, report }) => {
            finish(files, out, outputs.as_slice(), report.as_slice())
        }
        Ok(Verdict::Listed(report)) => put(out, report.as_bytes(), Status::Done),
        Err(_) => Status::NoMemory,
    }
}

// What becomes of a question about a place of files with these texts and trees, whose declarations break no rule and say this, and of which a check answered this.
// The table has the names that the built-in types need.
fn on_place<F: Files, K: Sink>(
    alloc: Global,
    q: &Asked<'_>,
    file_names: &[String],
    texts: &[Items<u8>],
    units: &[SourceUnit],
    table: &Names,
    declared: &Declared,
    checked: &CheckAnswer,
    files: &mut F,
    out: &mut K,
) -> Status
    requires small { AreSmall texts.now }
    requires names { map string_bytes file_names.now ≡ inputs (request_of q.now).files }
    requires units { length units.now ≡ length texts.now }
    requires users { length q.now.inputs.users.now ≤ length units.now }
    requires sound { IsSound declared.now.world }
    requires members { HoldsMembers declared.now.world declared.now.members }
    requires distinct { AreDistinct table.now }
    requires program { (p : Program) × AreFilesOf (length q.now.inputs.users.now) table.now (map unit_plain units.now) p }
    ensures { (p : Program) → AreFilesOf (length q.now.inputs.users.now) table.now (map unit_plain units.now) p
        → ChangesSo (F.holds files.old) (F.holds files.new) (F.write_faults files.old) (F.write_faults files.new)
        (K.written out.old) (K.written out.new) (K.faults out.old) (K.faults out.new) (request_of q.now) texts.now table.now (map unit_plain units.now) p declared.now.world checked.now result }
{
    match checked {
        CheckAnswer::Refused(line) => put(out, line.as_bytes(), Status::Refused),
        CheckAnswer::Passed { checked, .. } => {
            let verdict = decide(alloc, q, file_names, texts, units, table, declared, checked);
            put_verdict(files, out, verdict)
        }
    }
}

// What becomes of an extraction from such files.
fn on_extract<F: Files, K: Sink>(
    alloc: Global,
    q: &AskedExtract<'_>,
    file_names: &[String],
    texts: &[Items<u8>],
    units: &[SourceUnit],
    table: &Names,
    declared: &Declared,
    checked: &CheckAnswer,
    files: &mut F,
    out: &mut K,
) -> Status
    requires small { AreSmall texts.now }
    requires names { map string_bytes file_names.now ≡ inputs (extract_of q.now).files }
    requires units { length units.now ≡ length texts.now }
    requires users { length q.now.inputs.users.now ≤ length units.now }
    requires sound { IsSound declared.now.world }
    requires members { HoldsMembers declared.now.world declared.now.members }
    requires distinct { AreDistinct table.now }
    requires program { (p : Program) × AreFilesOf (length q.now.inputs.users.now) table.now (map unit_plain units.now) p }
    ensures { ExtractsSo (F.holds files.old) (F.holds files.new) (F.write_faults files.old) (F.write_faults files.new)
        (K.written out.old) (K.written out.new) (K.faults out.old) (K.faults out.new)
        (extract_of q.now) texts.now table.now (map unit_plain units.now) declared.now.world checked.now result }
{
    match checked {
        CheckAnswer::Refused(line) => put(out, line.as_bytes(), Status::Refused),
        CheckAnswer::Passed { checked, .. } => {
            let verdict = extraction(alloc, q, file_names, texts, units, table, declared, checked);
            put_verdict(files, out, verdict)
        }
    }
}

// What becomes of a task on files with these texts and trees, whose declarations break no rule and say this. The first `count` names are those of the texts, and
// those behind them are what the built-in types need.
fn on_declared<F: Files, K: Sink>(
    alloc: Global,
    task: &Task<'_>,
    file_names: &[String],
    texts: &[Items<u8>],
    table: &Names,
    count: u32,
    units: Items<SourceUnit>,
    declared: &Declared,
    files: &mut F,
    out: &mut K,
) -> Status
    requires names { map string_bytes file_names.now ≡ inputs (task_files task.now) }
    requires held { AreHeld (F.holds files.old) 0 (inputs (task_files task.now)) texts.now }
    requires table { IsTable table.now }
    requires words { table.now ≡ with_words (take count table.now) }
    requires within { count ≤ length table.now }
    requires built_in { 19 ≤ count }
    requires trees { AreTrees built_in_names 0 0 texts.now (map unit_plain units) (take count table.now) }
    requires declared { AreDeclaredAs (length (task_files task.now).users) (take count table.now) (map unit_plain units) declared.now }
    ensures { let a : Moment = record { holds = F.holds files.old; misses = F.misses files.old; read_faults = F.read_faults files.old; write_faults = F.write_faults files.old; put = K.written out.old; faults = K.faults out.old } in
        let b : Moment = record { holds = F.holds files.new; misses = F.misses files.new; read_faults = F.read_faults files.new; write_faults = F.write_faults files.new; put = K.written out.new; faults = K.faults out.new } in
        (words : List (List ℕ)) → AsksTask words task.now → AsksFew words (task_files task.now) → Course words a b result }
{
    let users = task.inputs().users.len();
    let Ok(checked) = check(
        alloc,
        file_names,
        texts,
        units.as_slice(),
        users,
        table,
        declared,
    ) else {
        return Status::NoMemory;
    };
    match task {
        Task::Place(q) => on_place(
            alloc,
            q,
            file_names,
            texts,
            units.as_slice(),
            table,
            declared,
            &checked,
            files,
            out,
        ),
        Task::Extract(q) => on_extract(
            alloc,
            q,
            file_names,
            texts,
            units.as_slice(),
            table,
            declared,
            &checked,
            files,
            out,
        ),
        Task::Check(_) => put_checked(out, &checked),
        Task::Run(q) => on_run(alloc, q, table, declared, &checked, out),
    }
}

// What becomes of a task on files with these texts and trees.
fn on_trees<F: Files, K: Sink>(
    alloc: Global,
    task: &Task<'_>,
    file_names: &[String],
    texts: &[Items<u8>],
    parsed: Parsed,
    files: &mut F,
    out: &mut K,
) -> Status
    requires names { map string_bytes file_names.now ≡ inputs (task_files task.now) }
    requires held { AreHeld (F.holds files.old) 0 (inputs (task_files task.now)) texts.now }
    requires trees { HasParsed texts.now (Ok parsed) }
    ensures { let a : Moment = record { holds = F.holds files.old; misses = F.misses files.old; read_faults = F.read_faults files.old; write_faults = F.write_faults files.old; put = K.written out.old; faults = K.faults out.old } in
        let b : Moment = record { holds = F.holds files.new; misses = F.misses files.new; read_faults = F.read_faults files.new; write_faults = F.write_faults files.new; put = K.written out.new; faults = K.faults out.new } in
        (words : List (List ℕ)) → AsksTask words task.now → AsksFew words (task_files task.now) → Course words a b result }
{
    let Parsed { mut names, units } = parsed;
    let count = names.len() as u32;
    let users = task.inputs().users.len();
    match judge_declarations(alloc, users, units.as_slice(), &mut names) {
        Ok(declared) => on_declared(
            alloc, task, file_names, texts, &names, count, units, &declared, files, out,
        ),
        Err(Fault::Broken(broken)) => {
            let line = broken_line(alloc, file_names, texts, units.as_slice(), broken);
            put_made(out, line, Status::Refused)
        }
        Err(Fault::NoMemory) => Status::NoMemory,
    }
}

// What becomes of a task on files with these texts.
fn on_texts<F: Files, K: Sink>(
    alloc: Global,
    task: &Task<'_>,
    names: &[String],
    texts: &[Items<u8>],
    files: &mut F,
    out: &mut K,
) -> Status
    requires names { map string_bytes names.now ≡ inputs (task_files task.now) }
    requires few { length names.now ≤ 256 }
    requires held { AreHeld (F.holds files.old) 0 (inputs (task_files task.now)) texts.now }
    ensures { let a : Moment = record { holds = F.holds files.old; misses = F.misses files.old; read_faults = F.read_faults files.old; write_faults = F.write_faults files.old; put = K.written out.old; faults = K.faults out.old } in
        let b : Moment = record { holds = F.holds files.new; misses = F.misses files.new; read_faults = F.read_faults files.new; write_faults = F.write_faults files.new; put = K.written out.new; faults = K.faults out.new } in
        (words : List (List ℕ)) → AsksTask words task.now → AsksFew words (task_files task.now) → Course words a b result }
{
    match parse_files(alloc, texts) {
        Ok(parsed) => on_trees(alloc, task, names, texts, parsed, files, out),
        Err(stop) => put_made(out, stop_line(alloc, names, texts, stop), Status::Refused),
    }
}

// What stops the reading of the files.
fn stop<K: Sink>(alloc: Global, names: &[String], stop: ReadStop, out: &mut K) -> Status
    requires { IsNamed (length names.now) stop }
    ensures { Stops (map string_bytes names.now) stop (K.written out.old) (K.written out.new) (K.faults out.old) (K.faults out.new) result }
{
    match stop {
        ReadStop::Missing(file) => {
            let line = missing(alloc, names[file].as_str());
            put_made(out, line, Status::Missing)
        }
        ReadStop::Failed(file) => {
            let line = read_fault(alloc, names[file].as_str());
            put_made(out, line, Status::ReadFault)
        }
        ReadStop::TooLarge => put(out, b"refused L2 -\n", Status::Refused),
        ReadStop::TooMuch => put(out, b"refused L3 -\n", Status::Refused),
        ReadStop::NoMemory => Status::NoMemory,
    }
}

// Reads the files of a task and does it.
fn on_files<F: Files, K: Sink>(
    alloc: Global,
    task: &Task<'_>,
    names: &[String],
    files: &mut F,
    out: &mut K,
) -> Status
    requires names { map string_bytes names.now ≡ inputs (task_files task.now) }
    requires few { length names.now ≤ 256 }
    ensures { let a : Moment = record { holds = F.holds files.old; misses = F.misses files.old; read_faults = F.read_faults files.old; write_faults = F.write_faults files.old; put = K.written out.old; faults = K.faults out.old } in
        let b : Moment = record { holds = F.holds files.new; misses = F.misses files.new; read_faults = F.read_faults files.new; write_faults = F.write_faults files.new; put = K.written out.new; faults = K.faults out.new } in
        (words : List (List ℕ)) → AsksTask words task.now → AsksFew words (task_files task.now) → Course words a b result }
{
    match read_files(alloc, names, files) {
        Ok(texts) => on_texts(alloc, task, names, texts.as_slice(), files, out),
        Err(why) => stop(alloc, names, why, out),
    }
}

// A task on its files.
fn on_task<F: Files, K: Sink>(alloc: Global, task: &Task<'_>, files: &mut F, out: &mut K) -> Status
    ensures { let a : Moment = record { holds = F.holds files.old; misses = F.misses files.old; read_faults = F.read_faults files.old; write_faults = F.write_faults files.old; put = K.written out.old; faults = K.faults out.old } in
        let b : Moment = record { holds = F.holds files.new; misses = F.misses files.new; read_faults = F.read_faults files.new; write_faults = F.write_faults files.new; put = K.written out.new; faults = K.faults out.new } in
        (words : List (List ℕ)) → AsksTask words task.now → Course words a b result }
{
    let inputs = task.inputs();
    match names_of(alloc, &inputs) {
        Ok(names) => {
            if names.len() > MOST_FILES {
                put(out, b"refused L1 -\n", Status::Refused)
            } else if task.steps() > MOST_STEPS {
                put(out, b"refused L9 -\n", Status::Refused)
            } else {
                on_files(alloc, task, names.as_slice(), files, out)
            }
        }
        Err(_) => Status::NoMemory,
    }
}

// The call, by the way that it goes.
fn run<F: Files, K: Sink>(alloc: Global, words: &[String], files: &mut F, out: &mut K) -> Status
    ensures { let a : Moment = record { holds = F.holds files.old; misses = F.misses files.old; read_faults = F.read_faults files.old; write_faults = F.write_faults files.old; put = K.written out.old; faults = K.faults out.old } in
        let b : Moment = record { holds = F.holds files.new; misses = F.misses files.new; read_faults = F.read_faults files.new; write_faults = F.write_faults files.new; put = K.written out.new; faults = K.faults out.new } in
        Course (map string_bytes words.now) a b result }
{
    match read_words(alloc, words) {
        Ok(Reading::Usage(rule)) => put_made(out, usage(alloc, rule), Status::Usage),
        Ok(Reading::Asked(request)) => match task_of(&request) {
            Some(task) => on_task(alloc, &task, files, out),
            None => put(out, b"refused N1 -\n", Status::Refused),
        },
        Err(_) => Status::NoMemory,
    }
}

/// Does with a program what the words ask, and puts a report. The words are one of these commands, each with its files:
/// - `check -- FILES + LIBRARY FILES` checks it;
/// - `run STEPS CLASS = ARGS -- FILES + LIBRARY FILES` runs the main method of a class within so many steps;
/// - `generalize OUT FILE LINE COL TYPE -- FILES + LIBRARY FILES` gives a place another declared type;
/// - `allowed FILE LINE COL -- FILES + LIBRARY FILES` names the types that a place may have;
/// - `extract-interface OUT CLASS NEWNAME METHOD .. -- FILES + LIBRARY FILES` makes an interface of some methods of a class, and uses it where it may stand.
///
/// LINE and COL count from 1, columns in bytes. Words are read for every command; those that are not built yet are refused as N1.
///
/// Where `files` and `out` tell what they hold, each answer says of it what its clause says. `NoMemory` is free, before the first write or put.
pub fn refactor<F: Files, K: Sink>(
    alloc: Global,
    words: &[String],
    files: &mut F,
    out: &mut K,
) -> Status
    // Of a change: each of the user's files is written under OUT with the reported edits and no other name is changed; the old and the new program break no rule, and
    // for all arguments and every bound the new one prints, enters and ends as the old one.
    // Of an extraction: the new interface is written too, beside the file of its class, and the report also names the places that are kept, and why;
    // both programs break no rule, and in each run of the old one in which nothing goes wrong the new one prints, enters and ends as it.
    // Of the types of a place: the program breaks no rule, and the report names those that meet each constraint, and no others; nothing is written.
    // Of a check: the program breaks no rule, and the report names its unchecked operations; nothing is written.
    // Of a run: the program breaks no rule, its main method ended normally, and the report has what it printed; nothing is written.
    ensures done { result ≡ Status.Done → IsDone (map string_bytes words.now) (F.holds files.old) (F.holds files.new) (K.written out.old) (K.written out.new) }
    // This is the first rule or constraint that stands against the words and the files; nothing is written.
    ensures refused { result ≡ Status.Refused → IsRefused (map string_bytes words.now) (F.holds files.old) (F.holds files.new) (K.written out.old) (K.written out.new) }
    // This is the lowest rule that the words break.
    ensures usage { result ≡ Status.Usage → IsUsage (map string_bytes words.now) (F.holds files.old) (F.holds files.new) (K.written out.old) (K.written out.new) }
    ensures missing { result ≡ Status.Missing → answers.IsMissing (map string_bytes words.now) (F.holds files.old) (F.holds files.new) (K.written out.old) (K.written out.new) }
    ensures missed { result ≡ Status.Missing → Rose (F.misses files.old) (F.misses files.new) }
    ensures read_fault { result ≡ Status.ReadFault → answers.IsReadFault (map string_bytes words.now) (F.holds files.old) (F.holds files.new) (K.written out.old) (K.written out.new) }
    ensures unread { result ≡ Status.ReadFault → Rose (F.read_faults files.old) (F.read_faults files.new) }
    ensures write_fault { result ≡ Status.WriteFault → IsWriteFault (map string_bytes words.now) (F.holds files.old) (F.holds files.new) (K.written out.old) (K.written out.new) }
    ensures unwritten { result ≡ Status.WriteFault → Rose (F.write_faults files.old) (F.write_faults files.new) }
    ensures out_fault { result ≡ Status.OutFault → IsOutFault (map string_bytes words.now) (F.holds files.old) (F.holds files.new) (K.written out.old) (K.written out.new) }
    ensures cut { result ≡ Status.OutFault → Rose (K.faults out.old) (K.faults out.new) }
    // Nothing was written and nothing put.
    ensures no_memory { result ≡ Status.NoMemory → (F.holds files.new ≡ F.holds files.old) × (K.written out.new ≡ K.written out.old) }
    // The run ended so, and the report has what was printed; nothing is written.
    ensures threw { result ≡ Status.Threw → IsThrew (map string_bytes words.now) (F.holds files.old) (F.holds files.new) (K.written out.old) (K.written out.new) }
    ensures bound { result ≡ Status.Bound → IsBound (map string_bytes words.now) (F.holds files.old) (F.holds files.new) (K.written out.old) (K.written out.new) }
{
    run(alloc, words, files, out)
}
