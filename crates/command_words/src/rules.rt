//! The rules U2 to U8.

ghost use Rattle.std.specs.Prelude.{◌≡◌, ◌≢◌, ◌++◌, ◌↔◌, ℕ, List, length, map, IsTrue, IfOk, IfSome, IfNone, MatchOption};
ghost use Rattle.std.specs.String.{string_bytes};
ghost use Rattle.java_tree.specs.Names.{AreDistinct};
ghost use Rattle.command_words.specs.Names as names;
ghost use Rattle.command_words.specs.Names.{IsPath};
ghost use Rattle.command_words.specs.Table.{role_of};
ghost use Rattle.command_words.specs.Rules as rule;
ghost use Rattle.command_words.specs.Scan.{AllFrom, AreAllPaths, IsWritten, IsCreated, Spares, members_of, MeetsFound};
ghost use Rattle.command_words.specs.Asked.{parts_in};
ghost use Rattle.command_words.specs.declared.table.Role.TheVariants as roles;

use crate::names::{is_identifier, is_path, number, place_number};
use crate::table::{Command, Role, Sections, split_at_mark};
use crate::word_set::WordSet;
use java_tree::NoMemory;
use std::alloc::Global;

fn fits_length(command: Command, len: usize) -> bool
    ensures { IsTrue result ↔ rule.FitsLength command len }
{
    let least = command.first_roles().len();
    len == least || (least < len && command.more_role().is_some())
}

fn has_equals(command: Command, own: &[String]) -> bool
    ensures { IsTrue result ↔ rule.HasEquals command (map string_bytes own.now) }
{
    match (command, own) {
        (Command::Run, [_, _, word, ..]) => word.as_str() == "=",
        _ => true,
    }
}

fn has_shape(command: Command, words: &Sections<'_>) -> bool
    ensures { IsTrue result ↔ rule.HasShape command (parts_in words.now) }
{
    fits_length(command, words.own.len())
        && has_equals(command, words.own)
        && words.dashed == command.takes_files()
}

fn fits_number(role: Role, word: &str) -> bool
    ensures { IsTrue result ↔ rule.FitsNumber role word.now }
{
    match role {
        Role::Count => number(word).is_some(),
        Role::Number => place_number(word).is_some(),
        _ => true,
    }
}

fn has_numbers(command: Command, own: &[String]) -> bool
    ensures { IsTrue result ↔ AllFrom (λ i w. rule.FitsNumber (role_of command i) w) 0 (map string_bytes own.now) }
{
    for (at, word) in own.iter().enumerate() {
        if !fits_number(command.role(at), word.as_str()) {
            return false;
        }
    }
    true
}

fn has_users(command: Command, words: &Sections<'_>) -> bool
    ensures { IsTrue result ↔ rule.HasUsers command (parts_in words.now) }
{
    !command.takes_files() || !words.users.is_empty()
}

fn fits_out(role: Role, word: &str) -> bool
    ensures { IsTrue result ↔ rule.FitsOut role word.now }
{
    match role {
        Role::Out => is_path(word),
        _ => true,
    }
}

fn has_out_path(command: Command, own: &[String]) -> bool
    ensures { IsTrue result ↔ AllFrom (λ i w. rule.FitsOut (role_of command i) w) 0 (map string_bytes own.now) }
{
    for (at, word) in own.iter().enumerate() {
        if !fits_out(command.role(at), word.as_str()) {
            return false;
        }
    }
    true
}

fn are_paths(names: &[String]) -> bool
    ensures { IsTrue result ↔ AllFrom (λ i w. IsPath w) 0 (map string_bytes names.now) }
{
    for (at, name) in names.iter().enumerate() {
        if !is_path(name.as_str()) {
            return false;
        }
    }
    true
}

fn are_all_paths(command: Command, words: &Sections<'_>) -> bool
    ensures { IsTrue result ↔ AreAllPaths command (parts_in words.now) }
{
    has_out_path(command, words.own) && are_paths(words.users) && are_paths(words.libs)
}

/// Whether no word stands twice in two lists.
fn are_distinct(alloc: Global, first: &[String], second: &[String]) -> Result<bool, NoMemory>
    ensures { IfOk result (λ b. IsTrue b ↔ AreDistinct (map string_bytes first.now ++ map string_bytes second.now)) }
{
    let mut words = WordSet::new(alloc);
    let new = words.add_new(first)?;
    if !new {
        return Ok(false);
    }
    let all_new = words.add_new(second)?;
    Ok(all_new)
}

fn has_paths(alloc: Global, command: Command, words: &Sections<'_>) -> Result<bool, NoMemory>
    ensures { IfOk result (λ b. IsTrue b ↔ rule.HasPaths command (parts_in words.now)) }
{
    if !are_all_paths(command, words) {
        return Ok(false);
    }
    let distinct = are_distinct(alloc, words.users, words.libs)?;
    Ok(distinct)
}

fn out_word<'a>(command: Command, own: &'a [String]) -> Option<&'a [u8]>
    ensures some { IfSome result (λ out. rule.IsIn command (map string_bytes own.now) roles.Out out.now) }
    ensures only { (w : List ℕ) → rule.IsIn command (map string_bytes own.now) roles.Out w → MatchOption result ⊥ (λ out. w ≡ out.now) }
{
    match command {
        Command::Generalize
        | Command::ExtractInterface
        | Command::PullUp
        | Command::InferTypeArguments => Some(own.first()?.as_bytes()),
        _ => None,
    }
}

fn new_name<'a>(command: Command, own: &'a [String]) -> Option<&'a [u8]>
    ensures some { IfSome result (λ new. rule.IsIn command (map string_bytes own.now) roles.NewName new.now) }
    ensures only { (w : List ℕ) → rule.IsIn command (map string_bytes own.now) roles.NewName w → MatchOption result ⊥ (λ new. w ≡ new.now) }
{
    match command {
        Command::ExtractInterface => match own {
            [_, _, new_name, ..] => Some(new_name.as_bytes()),
            _ => None,
        },
        _ => None,
    }
}

/// What stands behind the front of a name.
fn behind<'a>(name: &'a [u8], front: &[u8]) -> Option<&'a [u8]>
    ensures some { IfSome result (λ rest. name.now ≡ front.now ++ rest.now) }
    ensures none { IfNone result ((rest : List ℕ) → name.now ≢ front.now ++ rest) }
{
    name.strip_prefix(front)
}

/// What stands before the end of a name.
fn before<'a>(name: &'a [u8], end: &[u8]) -> Option<&'a [u8]>
    ensures some { IfSome result (λ rest. name.now ≡ rest.now ++ end.now) }
    ensures none { IfNone result ((rest : List ℕ) → name.now ≢ rest ++ end.now) }
{
    name.strip_suffix(end)
}

/// The name in the folder OUT, where a name is one there.
fn inner<'a>(name: &'a [u8], out: &[u8]) -> Option<&'a [u8]>
    ensures some { IfSome result (λ rest. name.now ≡ names.within out.now rest.now) }
    ensures none { IfNone result ((rest : List ℕ) → name.now ≢ names.within out.now rest) }
{
    behind(behind(name, out)?, b"/")
}

/// The folder in which a name is the new file's.
fn folder_in<'a>(name: &'a [u8], new_name: &[u8]) -> Option<&'a [u8]>
    ensures some { IfSome result (λ rest. name.now ≡ rest.now ++ names.source_name new_name.now) }
    ensures none { IfNone result ((rest : List ℕ) → name.now ≢ rest ++ names.source_name new_name.now) }
{
    before(before(name, b".java")?, new_name)
}

/// Whether no input is a user file's output.
fn none_is_written(inputs: &[String], out: &[u8], files: &WordSet<'_>) -> bool
    ensures { IsTrue result ↔ AllFrom (λ i w. IsWritten out.now files.now w → ⊥) 0 (map string_bytes inputs.now) }
{
    for (at, input) in inputs.iter().enumerate() {
        if is_written(input.as_bytes(), out, files) {
            return false;
        }
    }
    true
}

fn is_written(name: &[u8], out: &[u8], files: &WordSet<'_>) -> bool
    ensures { IsTrue result ↔ IsWritten out.now files.now name.now }
{
    match inner(name, out) {
        Some(rest) => files.contains(rest),
        None => false,
    }
}

fn is_created(name: &[u8], out: &[u8], new_name: &[u8], folders: &WordSet<'_>) -> bool
    ensures { IsTrue result ↔ IsCreated out.now new_name.now folders.now name.now }
{
    match inner(name, out) {
        Some(rest) => match folder_in(rest, new_name) {
            Some(folder) => folders.contains(folder),
            None => false,
        },
        None => false,
    }
}

/// Whether no input is the new file in the folder of a user file.
fn none_is_created(inputs: &[String], out: &[u8], new_name: &[u8], folders: &WordSet<'_>) -> bool
    ensures { IsTrue result ↔ AllFrom (λ i w. IsCreated out.now new_name.now folders.now w → ⊥) 0 (map string_bytes inputs.now) }
{
    for (at, input) in inputs.iter().enumerate() {
        if is_created(input.as_bytes(), out, new_name, folders) {
            return false;
        }
    }
    true
}

fn writes_no_input(alloc: Global, words: &Sections<'_>, out: &[u8]) -> Result<bool, NoMemory>
    ensures { IfOk result (λ b. IsTrue b ↔ Spares (IsWritten out.now (parts_in words.now).users) (parts_in words.now)) }
{
    let files = WordSet::of(alloc, words.users)?;
    if !none_is_written(words.users, out, &files) {
        return Ok(false);
    }
    let spared = none_is_written(words.libs, out, &files);
    Ok(spared)
}

fn creates_no_input(
    alloc: Global,
    words: &Sections<'_>,
    out: &[u8],
    new_name: &[u8],
) -> Result<bool, NoMemory>
    ensures { IfOk result (λ b. IsTrue b ↔ Spares (IsCreated out.now new_name.now (map names.folder_of (parts_in words.now).users)) (parts_in words.now)) }
{
    let folders = WordSet::of_folders(alloc, words.users)?;
    if !none_is_created(words.users, out, new_name, &folders) {
        return Ok(false);
    }
    let spared = none_is_created(words.libs, out, new_name, &folders);
    Ok(spared)
}

fn keeps_inputs(alloc: Global, command: Command, words: &Sections<'_>) -> Result<bool, NoMemory>
    ensures { IfOk result (λ b. IsTrue b ↔ rule.KeepsInputs command (parts_in words.now)) }
{
    let Some(out) = out_word(command, words.own) else {
        return Ok(true);
    };
    let written = writes_no_input(alloc, words, out)?;
    if !written {
        return Ok(false);
    }
    let Some(new_name) = new_name(command, words.own) else {
        return Ok(true);
    };
    let spared = creates_no_input(alloc, words, out, new_name)?;
    Ok(spared)
}

fn fits_identifier(role: Role, word: &str) -> bool
    ensures { IsTrue result ↔ rule.FitsIdentifier role word.now }
{
    match role {
        Role::Identifier | Role::NewName | Role::Member => is_identifier(word),
        _ => true,
    }
}

fn has_identifiers(command: Command, own: &[String]) -> bool
    ensures { IsTrue result ↔ AllFrom (λ i w. rule.FitsIdentifier (role_of command i) w) 0 (map string_bytes own.now) }
{
    for (at, word) in own.iter().enumerate() {
        if !fits_identifier(command.role(at), word.as_str()) {
            return false;
        }
    }
    true
}

fn fits_file(users: &[String], role: Role, word: &str) -> bool
    ensures { IsTrue result ↔ rule.FitsFile (map string_bytes users.now) role word.now }
{
    match role {
        Role::File => split_at_mark(users, word).found,
        _ => true,
    }
}

fn has_user_file(command: Command, words: &Sections<'_>) -> bool
    ensures { IsTrue result ↔ AllFrom (λ i w. rule.FitsFile (parts_in words.now).users (role_of command i) w) 0 (parts_in words.now).own }
{
    for (at, word) in words.own.iter().enumerate() {
        if !fits_file(words.users, command.role(at), word.as_str()) {
            return false;
        }
    }
    true
}

fn members<'a>(command: Command, own: &'a [String]) -> &'a [String]
    ensures { map string_bytes result.now ≡ members_of command (map string_bytes own.now) }
{
    match command {
        Command::ExtractInterface | Command::PullUp => own.get(3..).unwrap_or(&[]),
        _ => &[],
    }
}

fn names_places(alloc: Global, command: Command, words: &Sections<'_>) -> Result<bool, NoMemory>
    ensures { IfOk result (λ b. IsTrue b ↔ rule.NamesPlaces command (parts_in words.now)) }
{
    if !has_user_file(command, words) {
        return Ok(false);
    }
    let distinct = are_distinct(alloc, members(command, words.own), &[])?;
    Ok(distinct)
}

/// The lowest rule from U2 on that the words break.
pub fn lowest_broken(
    alloc: Global,
    command: Command,
    words: &Sections<'_>,
) -> Result<Option<u8>, NoMemory>
    ensures { IfOk result (λ found. MeetsFound command (parts_in words.now) found) }
{
    if !has_shape(command, words) {
        return Ok(Some(2));
    }
    if !has_numbers(command, words.own) {
        return Ok(Some(3));
    }
    if !has_users(command, words) {
        return Ok(Some(4));
    }
    let paths = has_paths(alloc, command, words)?;
    if !paths {
        return Ok(Some(5));
    }
    let kept = keeps_inputs(alloc, command, words)?;
    if !kept {
        return Ok(Some(6));
    }
    if !has_identifiers(command, words.own) {
        return Ok(Some(7));
    }
    let places = names_places(alloc, command, words)?;
    if !places {
        return Ok(Some(8));
    }
    Ok(None)
}
