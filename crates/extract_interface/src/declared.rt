//! The declaration of the class, and the file that is created beside it.

ghost use Rattle.std.specs.Prelude.{◌≡◌, ◌↔◌, IsTrue, map, Contains, IfOk, IfSome};
ghost use Rattle.std.specs.String.{string_bytes};
ghost use Rattle.extract_interface.specs.Asked as spec;
ghost use Rattle.extract_interface.specs.Asked.{IsDeclared};

use command_words::folder;
use generalize_declared::CheckedSource;
use java_core::{CoreClass, CoreFile};
use java_tree::NoMemory;
use std::alloc::Global;

/// The declaration of a type, and the number of its file.
#[derive(Clone, Copy)]
pub(crate) struct Declaration<'a> {
    pub file: usize,
    pub core: &'a CoreClass,
}

fn class_in(file: &CoreFile, number: u32) -> Option<&CoreClass>
    ensures { IfSome result (λ c. Contains file.now.classes c.now × (c.now.number ≡ number)) }
{
    for class in file.classes.as_slice() {
        if class.number == number {
            return Some(class);
        }
    }
    None
}

/// The declaration of a type, where a file has it.
pub(crate) fn declaration_of<'a>(source: &CheckedSource<'a>, number: u32) -> Option<Declaration<'a>>
    ensures { IfSome result (λ d. IsDeclared source.now number d.file d.core.now) }
{
    let files = source.core.files.as_slice();
    for file in 0..files.len() {
        if let Some(core) = class_in(&files[file], number) {
            return Some(Declaration { file, core });
        }
    }
    None
}

/// The name of the file of a new type beside another file.
pub(crate) fn created_name(alloc: Global, file: &str, word: &str) -> Result<String, NoMemory>
    ensures { IfOk result (λ r. string_bytes r ≡ spec.created_name file.now word.now) }
{
    // A folder ends behind a `/` and is text too.
    let Ok(folder) = str::from_utf8(folder(file.as_bytes())) else {
        return Err(NoMemory);
    };
    let mut name = String::from_str(alloc, folder)?;
    name.push_str(word)?;
    name.push_str(".java")?;
    Ok(name)
}

fn is_text(text: &String, name: &str) -> bool
    ensures { IsTrue result ↔ (string_bytes text.now ≡ name.now) }
{
    text.as_str() == name
}

/// Whether one of the files has the name.
pub(crate) fn is_file(files: &[String], name: &str) -> bool
    ensures { IsTrue result ↔ Contains (map string_bytes files.now) name.now }
{
    for file in files {
        if is_text(file, name) {
            return true;
        }
    }
    false
}
