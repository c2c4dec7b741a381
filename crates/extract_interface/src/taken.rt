//! Whether the new name is taken.

ghost use Rattle.std.specs.Prelude.{◌≡◌, ◌⊎◌, ℕ, ◌↔◌, IsTrue, Contains};
ghost use Rattle.java_tree.specs.declared.tree.SourceUnit.{SourceUnit};
ghost use Rattle.class_world.specs.declared.world.TypeInfo.{TypeInfo};
ghost use Rattle.extract_interface.specs.Asked.{IsFirst, IsTaken, TakesName};

use class_world::{TypeInfo, World};
use generalize_declared::CheckedSource;
use interface_text::name_text;
use java_tree::Names;
use java_tree::tree::{Name, SourceUnit};

// Whether a package's first identifier is the word.
fn is_first(names: &Names, word: &str, path: &[Name]) -> bool
    ensures { IsTrue result ↔ IsFirst names.now word.now path.now }
{
    match path.split_first() {
        None => false,
        Some((first, _)) => name_text(names, *first) == word,
    }
}

fn takes_name(names: &Names, word: &str, info: &TypeInfo) -> bool
    ensures { IsTrue result ↔ TakesName names.now word.now info.now }
{
    name_text(names, info.name) == word || is_first(names, word, info.package.as_slice())
}

// Whether a type or its package has the word.
fn is_of_type(names: &Names, word: &str, types: &[TypeInfo]) -> bool
    ensures { IsTrue result ↔ ((i : TypeInfo) × Contains types.now i × TakesName names.now word.now i) }
{
    for info in types {
        if takes_name(names, word, info) {
            return true;
        }
    }
    false
}

// Whether a file's package begins with the word.
fn is_of_file(names: &Names, word: &str, units: &[SourceUnit]) -> bool
    ensures { IsTrue result ↔ ((u : SourceUnit) × Contains units.now u × IsFirst names.now word.now u.«package») }
{
    for unit in units {
        if is_first(names, word, unit.package.as_slice()) {
            return true;
        }
    }
    false
}

/// Whether a type or a package of the program has the word.
pub(crate) fn is_taken(w: &World, source: &CheckedSource<'_>, word: &str) -> bool
    ensures { IsTrue result ↔ IsTaken w.now source.now word.now }
{
    is_of_type(source.names, word, w.types.as_slice())
        || is_of_file(source.names, word, source.units)
}
