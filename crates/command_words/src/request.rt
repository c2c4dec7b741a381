//! What a command line asks for, or the lowest rule that it breaks.

ghost use Rattle.std.specs.Prelude.{◌≡◌, ◌≢◌, ◌∷◌, ℕ, map, IfOk, IfSome, IfNone};
ghost use Rattle.std.specs.String.{string_bytes};
ghost use Rattle.command_words.specs.Rules.{HasShape, HasNumbers, NamesCommand};
ghost use Rattle.command_words.specs.Table.{word_of};
ghost use Rattle.command_words.specs.declared.table.Command.TheVariants as commands;
ghost use Rattle.command_words.specs.Asked.{AreExtractWords, ArePlaceWords, Asks, AreNamed, MeetsReading, parts};

use crate::names::place_number;
use crate::rules::lowest_broken;
use crate::table::{Command, Sections};
use java_tree::NoMemory;
use std::alloc::Global;

/// What words ask for, or the number of the lowest rule that they break.
#[derive(Clone, Copy)]
pub enum Reading<'a> {
    Usage(u8),
    Asked(Request<'a>),
}

/// A command with its own words, the user files and the library files.
#[derive(Clone, Copy)]
pub struct Request<'a> {
    pub command: Command,
    pub own: &'a [String],
    pub users: &'a [String],
    pub libs: &'a [String],
}

/// The own words of `generalize`, by name.
#[derive(Clone, Copy)]
pub struct Generalize<'a> {
    pub out: &'a str,
    pub file: &'a str,
    pub line: u64,
    pub col: u64,
    pub ty: &'a str,
}

/// The own words of `allowed`, by name.
#[derive(Clone, Copy)]
pub struct PlaceWords<'a> {
    pub file: &'a str,
    pub line: u64,
    pub col: u64,
}

/// The own words of `extract-interface`, by name.
#[derive(Clone, Copy)]
pub struct ExtractWords<'a> {
    pub out: &'a str,
    pub class: &'a str,
    pub name: &'a str,
    pub methods: &'a [String],
}

/// Reads the words of a command line.
pub fn read_words<'a>(alloc: Global, words: &'a [String]) -> Result<Reading<'a>, NoMemory>
    ensures { IfOk result (λ r. MeetsReading (map string_bytes words.now) r) }
{
    let Some((command, rest)) = named(words) else {
        return Ok(Reading::Usage(1));
    };
    let sections = Sections::of(rest);
    let broken = lowest_broken(alloc, command, &sections)?;
    match broken {
        Some(rule) => Ok(Reading::Usage(rule)),
        None => Ok(Reading::Asked(Request {
            command,
            own: sections.own,
            users: sections.users,
            libs: sections.libs,
        })),
    }
}

/// The command that the first word names, and the other words.
fn named<'a>(words: &'a [String]) -> Option<(Command, &'a [String])>
    ensures some { IfSome result (λ p. map string_bytes words.now ≡ word_of p.0 ∷ map string_bytes p.1.now) }
    ensures none { IfNone result (NamesCommand (map string_bytes words.now) → ⊥) }
{
    let (first, rest) = words.split_first()?;
    let command = Command::named(first.as_str())?;
    Some((command, rest))
}

impl<'a> Request<'a> {
    /// The own words of `generalize` by name, where the request has the words and the numbers are such.
    pub fn generalize(&self) -> Option<Generalize<'a>>
        ensures some { IfSome result (λ g. (self.now.command ≡ commands.Generalize) × AreNamed (map string_bytes self.now.own.now) g) }
        ensures none { IfNone result (self.now.command ≡ commands.Generalize → HasShape commands.Generalize (parts self.now) → HasNumbers commands.Generalize (parts self.now) → ⊥) }
    {
        match (self.command, self.own) {
            (Command::Generalize, [out, file, line, col, ty]) => Some(Generalize {
                out: out.as_str(),
                file: file.as_str(),
                line: place_number(line.as_str())?,
                col: place_number(col.as_str())?,
                ty: ty.as_str(),
            }),
            _ => None,
        }
    }

    /// The own words of `allowed` by name, where the request has the words and the numbers are such.
    pub fn allowed(&self) -> Option<PlaceWords<'a>>
        ensures some { IfSome result (λ g. (self.now.command ≡ commands.Allowed) × ArePlaceWords (map string_bytes self.now.own.now) g) }
        ensures none { IfNone result (self.now.command ≡ commands.Allowed → HasShape commands.Allowed (parts self.now) → HasNumbers commands.Allowed (parts self.now) → ⊥) }
    {
        match (self.command, self.own) {
            (Command::Allowed, [file, line, col]) => Some(PlaceWords {
                file: file.as_str(),
                line: place_number(line.as_str())?,
                col: place_number(col.as_str())?,
            }),
            _ => None,
        }
    }

    /// The own words of `extract-interface` by name, where the request has the words.
    pub fn extract(&self) -> Option<ExtractWords<'a>>
        ensures some { IfSome result (λ g. (self.now.command ≡ commands.ExtractInterface) × AreExtractWords (map string_bytes self.now.own.now) g) }
        ensures none { IfNone result (self.now.command ≡ commands.ExtractInterface → HasShape commands.ExtractInterface (parts self.now) → ⊥) }
    {
        match (self.command, self.own) {
            (Command::ExtractInterface, [out, class, name, methods @ ..]) => Some(ExtractWords {
                out: out.as_str(),
                class: class.as_str(),
                name: name.as_str(),
                methods,
            }),
            _ => None,
        }
    }
}
