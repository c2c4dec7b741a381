//! What words ask for: something of a place, an extraction, a check or a run.

ghost use Rattle.std.specs.Prelude.{◌≡◌, ◌≢◌, ℕ, true, false, map, drop, List, ◌++◌, OnOk, IfOk, IfSome, IfNone};
ghost use Rattle.std.specs.String.{string_bytes};
ghost use Rattle.command_words.specs.declared.table.Command.TheVariants as commands;
ghost use Rattle.command_words.specs.Asked as asked_words;
ghost use Rattle.refactor_app.specs.Words.{Asks, AsksExtract, inputs};
ghost use Rattle.refactor_app.specs.Asked.{AreRunWords, AsksRunOf, AsksTask, HasRunWords, extract_of, files_of, request_of, task_files, task_steps};

use command_words::{Command, Request, number};
use java_tree::{Items, NoMemory};
use std::alloc::Global;

/// The user files and the library files of a command.
#[derive(Clone, Copy)]
pub struct Inputs<'a> {
    pub users: &'a [String],
    pub libs: &'a [String],
}

/// What is asked of a place.
#[derive(Clone, Copy)]
pub enum Want<'a> {
    /// `generalize`: that it become a type, with the new files below a folder.
    Become { out: &'a str, ty: &'a str },
    /// `allowed`: the types to which it may go.
    Types,
}

/// `generalize OUT FILE LINE COL TYPE` or `allowed FILE LINE COL` with its files. Lines and columns count from 1, columns in bytes.
#[derive(Clone, Copy)]
pub struct Asked<'a> {
    pub want: Want<'a>,
    pub file: &'a str,
    pub line: u64,
    pub col: u64,
    pub inputs: Inputs<'a>,
}

/// `run STEPS CLASS = ARGS` with its files.
#[derive(Clone, Copy)]
pub struct AskedRun<'a> {
    pub steps: u64,
    pub class: &'a str,
    pub args: &'a [String],
    pub inputs: Inputs<'a>,
}

/// `extract-interface OUT CLASS NEWNAME METHOD ..` with its files.
#[derive(Clone, Copy)]
pub struct AskedExtract<'a> {
    pub out: &'a str,
    pub class: &'a str,
    pub name: &'a str,
    pub methods: &'a [String],
    pub inputs: Inputs<'a>,
}

/// What is to be done with the files.
#[derive(Clone, Copy)]
pub enum Task<'a> {
    Place(Asked<'a>),
    Extract(AskedExtract<'a>),
    Check(Inputs<'a>),
    Run(AskedRun<'a>),
}

impl<'a> Task<'a> {
    pub fn inputs(&self) -> Inputs<'a>
        ensures { files_of result ≡ task_files self.now }
    {
        match self {
            Task::Place(q) => q.inputs,
            Task::Extract(q) => q.inputs,
            Task::Check(inputs) => *inputs,
            Task::Run(q) => q.inputs,
        }
    }

    /// The steps that a run may take.
    pub fn steps(&self) -> u64
        ensures { result ≡ task_steps self.now }
    {
        match self {
            Task::Run(q) => q.steps,
            _ => 0,
        }
    }
}

fn inputs_in<'a>(request: &Request<'a>) -> Inputs<'a>
    ensures { result ≡ record { users = request.now.users; libs = request.now.libs } }
{
    Inputs {
        users: request.users,
        libs: request.libs,
    }
}

// The change that a request asks for, where it asks for one.
fn change_asked<'a>(request: &Request<'a>) -> Option<Asked<'a>>
    requires { (ws : List (List ℕ)) × asked_words.Asks ws request.now }
    ensures some { IfSome result (λ a. (ws : List (List ℕ)) → asked_words.Asks ws request.now → Asks ws (request_of a)) }
    ensures none { IfNone result (request.now.command ≢ commands.Generalize) }
{
    let named = request.generalize()?;
    Some(Asked {
        want: Want::Become {
            out: named.out,
            ty: named.ty,
        },
        file: named.file,
        line: named.line,
        col: named.col,
        inputs: inputs_in(request),
    })
}

// The types that a request asks for, where it asks for such.
fn types_asked<'a>(request: &Request<'a>) -> Option<Asked<'a>>
    requires { (ws : List (List ℕ)) × asked_words.Asks ws request.now }
    ensures some { IfSome result (λ a. (ws : List (List ℕ)) → asked_words.Asks ws request.now → Asks ws (request_of a)) }
    ensures none { IfNone result (request.now.command ≢ commands.Allowed) }
{
    let named = request.allowed()?;
    Some(Asked {
        want: Want::Types,
        file: named.file,
        line: named.line,
        col: named.col,
        inputs: inputs_in(request),
    })
}

// The extraction that a request asks for, where it asks for one.
fn extract_asked<'a>(request: &Request<'a>) -> Option<AskedExtract<'a>>
    requires { (ws : List (List ℕ)) × asked_words.Asks ws request.now }
    ensures some { IfSome result (λ q. (ws : List (List ℕ)) → asked_words.Asks ws request.now → AsksExtract ws (extract_of q)) }
    ensures none { IfNone result (request.now.command ≢ commands.ExtractInterface) }
{
    let named = request.extract()?;
    Some(AskedExtract {
        out: named.out,
        class: named.class,
        name: named.name,
        methods: named.methods,
        inputs: inputs_in(request),
    })
}

// The words behind the first.
fn behind_first(words: &[String]) -> &[String]
    ensures { map string_bytes result.now ≡ drop 1 (map string_bytes words.now) }
{
    match words {
        [_, rest @ ..] => rest,
        [] => words,
    }
}

// The run of a request's own words, where they are such. Behind CLASS stands nothing, or `=` and the arguments.
fn run_of<'a>(request: &Request<'a>) -> Option<AskedRun<'a>>
    ensures words { IfSome result (AreRunWords (map string_bytes request.now.own.now)) }
    ensures inputs { IfSome result (λ r. r.inputs ≡ record { users = request.now.users; libs = request.now.libs }) }
    ensures none { IfNone result (HasRunWords (map string_bytes request.now.own.now) → ⊥) }
{
    match request.own {
        [steps, class, more @ ..] => Some(AskedRun {
            steps: number(steps.as_str())?,
            class: class.as_str(),
            args: behind_first(more),
            inputs: inputs_in(request),
        }),
        _ => None,
    }
}

// The run that a request asks for, where it asks for one.
fn run_asked<'a>(request: &Request<'a>) -> Option<AskedRun<'a>>
    requires { (ws : List (List ℕ)) × asked_words.Asks ws request.now }
    ensures some { IfSome result (λ r. (ws : List (List ℕ)) → asked_words.Asks ws request.now → AsksRunOf ws r) }
    ensures none { IfNone result (request.now.command ≢ commands.Run) }
{
    match request.command {
        Command::Run => run_of(request),
        _ => None,
    }
}

fn is_check(command: Command) -> bool
    ensures yes { result ≡ true → command ≡ commands.Check }
    ensures no { result ≡ false → command ≢ commands.Check }
{
    matches!(command, Command::Check)
}

/// What a request asks for, where it is about a place, an extraction, a check or a run.
pub fn task_of<'a>(request: &Request<'a>) -> Option<Task<'a>>
    requires { (ws : List (List ℕ)) × asked_words.Asks ws request.now }
    ensures some { IfSome result (λ t. (ws : List (List ℕ)) → asked_words.Asks ws request.now → AsksTask ws t) }
    ensures no_change { IfNone result (request.now.command ≢ commands.Generalize) }
    ensures no_types { IfNone result (request.now.command ≢ commands.Allowed) }
    ensures no_check { IfNone result (request.now.command ≢ commands.Check) }
    ensures no_run { IfNone result (request.now.command ≢ commands.Run) }
    ensures no_extraction { IfNone result (request.now.command ≢ commands.ExtractInterface) }
{
    if is_check(request.command) {
        return Some(Task::Check(inputs_in(request)));
    }
    if let Some(q) = run_asked(request) {
        return Some(Task::Run(q));
    }
    if let Some(q) = types_asked(request) {
        return Some(Task::Place(q));
    }
    if let Some(q) = extract_asked(request) {
        return Some(Task::Extract(q));
    }
    match change_asked(request) {
        Some(q) => Some(Task::Place(q)),
        None => None,
    }
}

// Puts copies of names behind those of a list.
fn add_names(alloc: Global, names: &mut Items<String>, more: &[String]) -> Result<(), NoMemory>
    ensures { OnOk result (map string_bytes names.new ≡ map string_bytes names.old ++ map string_bytes more.now) }
{
    for name in more {
        names.push(String::from_str(alloc, name.as_str())?)?;
    }
    Ok(())
}

/// The names of all files, in the order of the words.
pub fn names_of(alloc: Global, files: &Inputs<'_>) -> Result<Items<String>, NoMemory>
    ensures { IfOk result (λ names. map string_bytes names ≡ inputs (files_of files.now)) }
{
    let mut names = Items::new(alloc);
    add_names(alloc, &mut names, files.users)?;
    add_names(alloc, &mut names, files.libs)?;
    Ok(names)
}
