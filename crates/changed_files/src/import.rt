//! The import of a type in a file that does not see it (JLS 7.5.1).

ghost use Rattle.std.specs.Prelude.{◌≡◌, ◌<◌, ◌^◌, ◌++◌, List, length, IfOk};
ghost use Rattle.java_tree.specs.View.{unit_plain};
ghost use Rattle.java_tree.specs.declared.tree.Token as tokens;
ghost use Rattle.java_lexer.specs.Lexing.{Lexes};
ghost use Rattle.changed_files.specs.FileEdits as spec;

use edit_writer::Edit;
use java_lexer::{LexFault, lex};
use java_tree::tree::{Kind, Name, SourceUnit, Token};
use java_tree::{Items, NoMemory};
use std::alloc::Global;

// The byte at an offset, and 0 behind the end.
fn byte_at(text: &[u8], at: u32) -> u8
    ensures { result ≡ spec.byte_at text.now at }
{
    match text.get(at as usize) {
        Some(byte) => *byte,
        None => 0,
    }
}

fn is_semicolon(text: &[u8], token: Token) -> bool
    ensures { result ≡ spec.is_semicolon text.now token }
{
    matches!(token.kind, Kind::Op) && byte_at(text, token.span.from) == b';'
}

fn semicolon_end(text: &[u8], tokens: &[Token]) -> Option<u32>
    ensures { result ≡ spec.semicolon_end text.now tokens.now }
{
    for token in tokens {
        if is_semicolon(text, *token) {
            return Some(token.span.to);
        }
    }
    None
}

// The offset behind the first `;` of a text.
fn package_end(alloc: Global, text: &[u8]) -> Result<Option<u32>, NoMemory>
    requires { length text.now < 2 ^ 27 }
    ensures { (ts : List tokens.Token) → Lexes text.now ts → IfOk result (λ at. at ≡ spec.semicolon_end text.now ts) }
{
    match lex(alloc, text) {
        Ok(tokens) => Ok(semicolon_end(text, tokens.as_slice())),
        Err(LexFault::Bad { .. }) => Ok(None),
        Err(LexFault::NoMemory) => Err(NoMemory),
    }
}

// An edit that puts a name between two texts at an offset.
fn put_at(
    alloc: Global,
    at: u32,
    before: &[u8],
    name: &[u8],
    behind: &[u8],
) -> Result<Edit, NoMemory>
    ensures { IfOk result (λ e. e ≡ spec.put_at at (before.now ++ (name.now ++ behind.now))) }
{
    let mut text = Vec::from_slice(alloc, before)?;
    text.extend_from_slice(name)?;
    text.extend_from_slice(behind)?;
    Ok(Edit {
        from: at,
        to: at,
        text: Items::from_vec(text),
    })
}

fn line_behind(alloc: Global, full_name: &[u8], at: u32) -> Result<Edit, NoMemory>
    ensures { IfOk result (λ e. e ≡ spec.line_behind full_name.now at) }
{
    put_at(alloc, at, b"\nimport ", full_name, b";")
}

fn first_line(alloc: Global, full_name: &[u8]) -> Result<Edit, NoMemory>
    ensures { IfOk result (λ e. e ≡ spec.first_line full_name.now) }
{
    put_at(alloc, 0, b"import ", full_name, b";\n")
}

// The import where a file has no other.
fn package_edit(
    alloc: Global,
    text: &[u8],
    package: &[Name],
    full_name: &[u8],
) -> Result<Option<Edit>, NoMemory>
    requires { length text.now < 2 ^ 27 }
    ensures { (ts : List tokens.Token) → Lexes text.now ts → IfOk result (λ e. e ≡ spec.package_edit text.now ts «package».now full_name.now) }
{
    if package.is_empty() {
        return Ok(Some(first_line(alloc, full_name)?));
    }
    match package_end(alloc, text)? {
        Some(at) => Ok(Some(line_behind(alloc, full_name, at)?)),
        None => Ok(None),
    }
}

/// The edit that imports a type by its full name in a file with this tree: a line behind the last import, or else behind the package, or else
/// the first line. There is `None` where the text has a package and no `;`, as no text of a tree has.
pub fn import_edit(
    alloc: Global,
    text: &[u8],
    unit: &SourceUnit,
    full_name: &[u8],
) -> Result<Option<Edit>, NoMemory>
    requires { length text.now < 2 ^ 27 }
    ensures { (ts : List tokens.Token) → Lexes text.now ts → IfOk result (λ e. e ≡ spec.import_edit text.now ts (unit_plain unit.now) full_name.now) }
{
    match unit.imports.as_slice().last() {
        Some(import) => Ok(Some(line_behind(alloc, full_name, import.node.span.to)?)),
        None => package_edit(alloc, text, unit.package.as_slice(), full_name),
    }
}
