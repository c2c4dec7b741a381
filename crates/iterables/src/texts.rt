//! Names and types by their texts.

ghost use Rattle.std.specs.Prelude.{◌↔◌, IsTrue, IfSome, IfNone, [], ◌∷◌, codes, ◌≡◌};
ghost use Rattle.java_tree.specs.declared.tree.Name as spec_names;
ghost use Rattle.iterables.specs.Walks.{HasText, IsGeneric, IsIterable, IsIterator, IsPackage};

use class_world::{TypeInfo, World};
use java_tree::Names;
use java_tree::tree::Name;

/// The name with this text, if the table has one.
pub(crate) fn name_of(names: &Names, text: &str) -> Option<Name>
    ensures some { IfSome result (λ n. HasText names.now text.now n) }
    ensures one { IfSome result (λ n. (k : spec_names.Name) → HasText names.now text.now k → k ≡ n) }
    ensures none { IfNone result ((k : spec_names.Name) → HasText names.now text.now k → ⊥) }
{
    // With its length the table tells that no text stands in it twice.
    let _length = names.len();
    names.find(text)
}

fn has_text(names: &Names, name: Name, text: &str) -> bool
    ensures { IsTrue result ↔ HasText names.now text.now name }
{
    match name_of(names, text) {
        Some(found) => found == name,
        None => false,
    }
}

/// Whether a package's name is of two identifiers with these texts.
fn is_package(names: &Names, home: &[Name], first: &str, second: &str) -> bool
    ensures { IsTrue result ↔ IsPackage names.now (first.now ∷ second.now ∷ []) home.now }
{
    match home {
        [a, b] => has_text(names, *a, first) && has_text(names, *b, second),
        _ => false,
    }
}

/// Whether a type is an interface of one parameter with this name, in the package of `java` and this word.
fn is_generic(names: &Names, info: &TypeInfo, word: &str, name: &str) -> bool
    ensures { IsTrue result ↔ IsGeneric names.now (codes "java" ∷ word.now ∷ []) name.now info.now }
{
    info.interface
        && info.params == 1
        && has_text(names, info.name, name)
        && is_package(names, info.package.as_slice(), "java", word)
}

/// Whether the type `c` is java.lang.Iterable, from a library file.
pub(crate) fn is_iterable(names: &Names, w: &World, c: u32) -> bool
    ensures { IsTrue result ↔ IsIterable names.now w.now c }
{
    match w.types.get(c as usize) {
        Some(info) => !info.user && is_generic(names, info, "lang", "Iterable"),
        None => false,
    }
}

/// Whether the type `c` is java.util.Iterator.
pub(crate) fn is_iterator(names: &Names, w: &World, c: u32) -> bool
    ensures { IsTrue result ↔ IsIterator names.now w.now c }
{
    match w.types.get(c as usize) {
        Some(info) => is_generic(names, info, "util", "Iterator"),
        None => false,
    }
}
