//! Both programs, from their files to their comparison.

ghost use Rattle.std.specs.Prelude.{◌≡◌, ◌++◌, map, IfOk, IfSome, OnOk};
ghost use Rattle.std.specs.String.{string_bytes};
ghost use Rattle.running_code.specs.Running.{IsReady};
ghost use Rattle.checked_files.specs.Checked.{AreAsked};

use crate::asked::Asked;
use crate::maps::{Named, map_by_names};
use alike_programs::{Difference, first_difference};
use alike_trees::Unlike;
use checked_files::{CheckedFiles, check_texts};
use edit_writer::{Place, place_at};
use java_tree::tree::Node;
use java_tree::{Items, NoMemory};
use node_places::first_byte;
use running_code::{Running, prepare};
use source_files::read_files;
use std::alloc::Global;
use tool_files::Files;

/// The most files of a program.
const MOST_FILES: usize = 256;

/// The most bytes of a file.
const MOST_OF_ONE: usize = 1_048_576;

/// Why nothing is compared.
#[derive(Clone, Copy, Debug)]
pub enum Stop {
    /// The files of the old program, or of the new one, can't be had or are no checked program.
    Old,
    New,
    NoMemory,
}

/// A checked program with the texts of its files.
#[derive(Drop)]
pub struct Program {
    texts: Items<Items<u8>>,
    checked: CheckedFiles,
}

/// Where two programs differ first, with the number of the old file and the place in it.
#[derive(Clone, Copy, Debug)]
pub enum Answer {
    Alike,
    Differs(Difference),
    At {
        file: usize,
        place: Place,
        call: bool,
    },
}

// Puts copies of names behind those of a list.
fn add_names(alloc: Global, names: &mut Items<String>, more: &[String]) -> Result<(), NoMemory>
    ensures { OnOk result (map string_bytes names.new ≡ map string_bytes names.old ++ map string_bytes more.now) }
{
    for name in more {
        names.push(String::from_str(alloc, name.as_str())?)?;
    }
    Ok(())
}

fn names_of(
    alloc: Global,
    files: &[String],
    libraries: &[String],
) -> Result<Items<String>, NoMemory>
    ensures { IfOk result (λ names. map string_bytes names ≡ map string_bytes files.now ++ map string_bytes libraries.now) }
{
    let mut names = Items::new(alloc);
    add_names(alloc, &mut names, files)?;
    add_names(alloc, &mut names, libraries)?;
    Ok(names)
}

// The texts of a program's files, and the checked program that they are.
fn program_of<F: Files>(
    alloc: Global,
    files: &[String],
    libraries: &[String],
    from: &mut F,
) -> Option<Program>
    ensures { IfSome result (λ p. AreAsked p.checked) }
{
    let Ok(names) = names_of(alloc, files, libraries) else {
        return None;
    };
    if names.len() > MOST_FILES {
        return None;
    }
    let Ok(texts) = read_files(alloc, names.as_slice(), from) else {
        return None;
    };
    match check_texts(alloc, texts.as_slice(), files.len()) {
        Ok(checked) => Some(Program { texts, checked }),
        Err(_) => None,
    }
}

fn running(alloc: Global, program: &Program) -> Result<Running<'_>, NoMemory>
    requires { AreAsked program.now.checked }
    ensures { IfOk result (λ g. IsReady g) }
{
    let checked = &program.checked;
    prepare(
        alloc,
        &checked.declared.world,
        &checked.names,
        &checked.checked.core,
        &checked.declared.members,
    )
}

fn named(program: &Program) -> Named<'_> {
    Named {
        world: &program.checked.declared.world,
        names: &program.checked.names,
    }
}

// The place of a node of a program.
fn place_of(program: &Program, node: Node, call: bool) -> Option<Answer> {
    let found = first_byte(program.checked.units.as_slice(), node.id)?;
    let file = found.file;
    let text = program.texts.get(file)?.as_slice();
    let at = found.at as usize;
    if text.len() > MOST_OF_ONE || at > text.len() {
        return None;
    }
    let place = place_at(text, at);
    Some(Answer::At { file, place, call })
}

fn told(program: &Program, difference: Difference) -> Answer {
    let place = match difference {
        Difference::Tree(Unlike::Node(node)) => place_of(program, node, false),
        Difference::Tree(Unlike::Call { node, .. }) => place_of(program, node, true),
        _ => None,
    };
    place.unwrap_or(Answer::Differs(difference))
}

// Compares two programs.
fn answer_of(alloc: Global, old: &Program, new: &Program, strict: bool) -> Result<Answer, NoMemory>
    requires old { AreAsked old.now.checked }
    requires new { AreAsked new.now.checked }
{
    let map = map_by_names(alloc, named(old), named(new))?;
    let before = running(alloc, old)?;
    let after = running(alloc, new)?;
    match first_difference(alloc, &before, &after, &map, strict)? {
        None => Ok(Answer::Alike),
        Some(difference) => Ok(told(old, difference)),
    }
}

/// Compares the programs of files.
pub fn compared<F: Files>(alloc: Global, asked: &Asked<'_>, files: &mut F) -> Result<Answer, Stop> {
    let Some(old) = program_of(alloc, asked.old, asked.libraries, files) else {
        return Err(Stop::Old);
    };
    let Some(new) = program_of(alloc, asked.new, asked.libraries, files) else {
        return Err(Stop::New);
    };
    match answer_of(alloc, &old, &new, asked.strict) {
        Ok(answer) => Ok(answer),
        Err(NoMemory) => Err(Stop::NoMemory),
    }
}
