//! The class that is run.

ghost use Rattle.std.specs.Prelude.{◌≡◌, ℕ, map, option_and_then, take};
ghost use Rattle.std.specs.List.{find};
ghost use Rattle.std.specs.Option.{option_copied, option_map};
ghost use Rattle.java_core.specs.View.{class_plain, file_plain};
ghost use Rattle.core_meaning.specs.Code.{classes_of};
ghost use Rattle.core_meaning.specs.Runs as spec;
ghost use Rattle.running_code.specs.Running.{IsReady, Tells};

use java_core::{CoreClass, CoreFile};
use running_code::{Running, main_of, text_of};

fn is_named(g: &Running<'_>, name: &str, class: &CoreClass) -> bool
    requires { IsReady g.now }
    ensures { Tells g.now result (λ c. spec.is_named c name.now (class_plain class.now)) }
{
    match g.world.types.get(class.number as usize) {
        None => name.is_empty(),
        Some(info) => text_of(g.names, info.name) == name,
    }
}

// The first of these classes with this name, by its number.
fn named_among(g: &Running<'_>, name: &str, classes: &[CoreClass]) -> Option<u32>
    requires { IsReady g.now }
    ensures { Tells g.now result (λ c. option_map (λ x. x.number) (find (spec.is_named c name.now) (map class_plain classes.now))) }
{
    for class in classes {
        if is_named(g, name, class) {
            return Some(class.number);
        }
    }
    None
}

// The first class of these files with this name, by its number.
fn named_in(g: &Running<'_>, name: &str, files: &[CoreFile]) -> Option<u32>
    requires { IsReady g.now }
    ensures { Tells g.now result (λ c. option_map (λ x. x.number) (find (spec.is_named c name.now) (classes_of (map file_plain files.now)))) }
{
    for file in files {
        let found = named_among(g, name, file.classes.as_slice());
        if found.is_some() {
            return found;
        }
    }
    None
}

// The first files, so many.
fn first_files(files: &[CoreFile], count: usize) -> &[CoreFile]
    ensures { result.now ≡ take count files.now }
{
    if count < files.len() {
        &files[..count]
    } else {
        files
    }
}

// A class, where it declares a main method.
fn with_main(g: &Running<'_>, class: Option<u32>) -> Option<u32>
    requires { IsReady g.now }
    ensures { Tells g.now result (λ c. option_and_then (λ n. option_map (λ (m : ℕ). n) (spec.main_of c n)) class) }
{
    let class = class?;
    match main_of(g, class) {
        None => None,
        Some(_) => Some(class),
    }
}

/// The user's class of a name, where it declares a main method, by its number. The first `users` files are the user's.
pub(crate) fn main_class(g: &Running<'_>, users: usize, name: &str) -> Option<u32>
    requires { IsReady g.now }
    ensures { Tells g.now result (λ c. spec.main_class c users name.now) }
{
    let files = first_files(g.core.files.as_slice(), users);
    with_main(g, named_in(g, name, files))
}
