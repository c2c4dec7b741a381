//! The class and its methods that are asked for.

ghost use Rattle.std.specs.Prelude.{◌≡◌, ◌<◌, ◌^◌, ◌↔◌, IsTrue, ℕ, length, true, false, IfSome, IfNone};
ghost use Rattle.class_world.specs.declared.world.TypeInfo.{TypeInfo};
ghost use Rattle.interface_text.specs.Names.{text_of};
ghost use Rattle.extract_interface.specs.Asked.{IsUserClass};

use class_world::{TypeInfo, World};
use interface_text::name_text;
use java_tree::Names;

/// A class by its simple name, the name of the new interface, the names of the methods that it gets, and the names of all files, user files before library files.
#[derive(Clone, Copy)]
pub struct Wish<'a> {
    pub class: &'a str,
    pub name: &'a str,
    pub methods: &'a [String],
    pub files: &'a [String],
}

/// A type of the world, by its number.
#[derive(Clone, Copy)]
pub(crate) struct Class<'a> {
    pub number: u32,
    pub info: &'a TypeInfo,
}

// Whether a type is a class of a user file with this name.
fn is_named_class(names: &Names, word: &str, info: &TypeInfo) -> bool
    ensures { IsTrue result ↔ ((info.now.user ≡ true) × (info.now.interface ≡ false) × (text_of names.now info.now.name ≡ word.now)) }
{
    info.user && !info.interface && name_text(names, info.name) == word
}

/// The class of this name that a user file declares.
pub(crate) fn class_named<'a>(w: &'a World, names: &Names, word: &str) -> Option<Class<'a>>
    requires { length w.now.types < 2 ^ 32 }
    ensures some { IfSome result (λ k. IsUserClass w.now names.now word.now k.number k.info.now) }
    ensures none { IfNone result ((c : ℕ) (i : TypeInfo) → IsUserClass w.now names.now word.now c i → ⊥) }
{
    for (at, info) in w.types.as_slice().iter().enumerate() {
        if is_named_class(names, word, info) {
            return Some(Class {
                number: at as u32,
                info,
            });
        }
    }
    None
}
