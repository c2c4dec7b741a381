//! The place and the type that are asked for.

ghost use Rattle.std.specs.Prelude.{◌≡◌, ◌<◌, ◌^◌, ℕ, length, slice_get, IfOk, IfSome, IfNone};
ghost use Rattle.std.specs.Option.{option_copied};
ghost use Rattle.java_tree.specs.Names.{AreDistinct};
ghost use Rattle.source_files.specs.Held.{AreSmall};
ghost use Rattle.type_facts.specs.Facts.{AreFacts, Facts, IsReady};
ghost use Rattle.generalize_declared.specs.Asked as spec;
ghost use Rattle.generalize_declared.specs.Asked.{PlaceIs};

use class_world::{JavaType, TypeInfo, World};
use edit_writer::{Place, offset_at};
use java_core::CoreProgram;
use java_tree::tree::{Mod, Name, SourceUnit};
use java_tree::{Items, Names, NoMemory};
use std::alloc::Global;
use type_facts::Questions;
use type_facts::asks::is_below;
use type_kinds::kinds::has;
use type_places::{TypePlace, place_in};
use unchecked_ops::Operation;

/// A checked program as a change sees it: texts and trees of all files, of which the first `users` are the user's, names, core and unchecked operations.
#[derive(Clone, Copy)]
pub struct CheckedSource<'a> {
    pub texts: &'a [Items<u8>],
    pub units: &'a [SourceUnit],
    pub users: usize,
    pub names: &'a Names,
    pub core: &'a CoreProgram,
    pub operations: &'a [Operation],
}

/// The head of a declared type, by its file and the line and column of its first byte (both from 1, columns in bytes).
#[derive(Clone, Copy)]
pub struct Wish {
    pub file: usize,
    pub line: u64,
    pub col: u64,
}

// Lines and columns of texts are numbers of 32 bits.
fn place_of(wish: Wish) -> Option<Place>
    ensures { spec.IsPlaceOf wish result }
{
    let line = u32::try_from(wish.line).ok()?;
    let col = u32::try_from(wish.col).ok()?;
    Some(Place { line, col })
}

/// The item at a place of a list.
pub(crate) fn item_at<T>(items: &[T], at: usize) -> Option<&T>
    ensures { option_copied result ≡ slice_get items.now at }
{
    items.get(at)
}

/// The place that is asked for, where a declared type begins there that can change.
pub(crate) fn place_asked(
    alloc: Global,
    w: &World,
    source: &CheckedSource<'_>,
    wish: Wish,
) -> Result<Option<TypePlace>, NoMemory>
    requires { AreSmall source.now.texts.now }
    ensures { IfOk result (PlaceIs w.now source.now wish) }
{
    let Some(place) = place_of(wish) else {
        return Ok(None);
    };
    let Some(text) = item_at(source.texts, wish.file) else {
        return Ok(None);
    };
    let Some(file) = item_at(source.core.files.as_slice(), wish.file) else {
        return Ok(None);
    };
    match offset_at(text.as_slice(), place) {
        Some(at) => place_in(alloc, w, file, at as u32),
        None => Ok(None),
    }
}

fn is_same_path(a: &[Name], b: &[Name]) -> bool
    ensures { result ≡ spec.is_same_path a.now b.now }
{
    match a.split_first() {
        None => b.is_empty(),
        Some((x, rest)) => match b.split_first() {
            None => false,
            Some((y, more)) => x.0 == y.0 && is_same_path(rest, more),
        },
    }
}

/// Whether a type has no type parameters and is open to the files of a package (JLS 6.6.1).
pub(crate) fn is_open(info: &TypeInfo, home: &[Name]) -> bool
    ensures { result ≡ spec.is_open home.now info.now }
{
    info.params == 0
        && (has(Mod::Public, info.mods.as_slice()) || is_same_path(info.package.as_slice(), home))
}

fn is_target(info: &TypeInfo, home: &[Name], name: Name) -> bool
    ensures { result ≡ spec.is_target home.now name.0 info.now }
{
    info.name.0 == name.0 && is_open(info, home)
}

fn target_among(w: &World, home: &[Name], name: Name) -> Option<u32>
    requires { length w.now.types < 2 ^ 32 }
    ensures some { IfSome result (λ k. spec.IsTargetAt w.now home.now name.0 k) }
    ensures none { IfNone result ((k : ℕ) → spec.IsTargetAt w.now home.now name.0 k → ⊥) }
{
    let at = w
        .types
        .as_slice()
        .iter()
        .position(|info| is_target(info, home, name))?;
    Some(at as u32)
}

/// The type of this name to which a place of a file may go by its name alone (JLS 6.6.1): it has no type parameters and is public or of the file's package.
pub(crate) fn target_of(
    w: &World,
    source: &CheckedSource<'_>,
    file: usize,
    name: &str,
) -> Option<u32>
    requires few { length w.now.types < 2 ^ 32 }
    requires distinct { AreDistinct source.now.names.now }
    ensures some { IfSome result (λ k. spec.IsTarget w.now source.now file name.now k) }
    ensures none { IfNone result ((k : ℕ) → spec.IsTarget w.now source.now file name.now k → ⊥) }
{
    let Some(unit) = item_at(source.units, file) else {
        return None;
    };
    let Some(name) = source.names.find(name) else {
        return None;
    };
    target_among(w, unit.package.as_slice(), name)
}

/// Whether a type is another one and above it (JLS 4.10), both by number and without arguments.
pub(crate) fn is_above(alloc: Global, q: &Questions<'_>, new: u32, old: u32) -> bool
    requires { IsReady q.now }
    ensures { (f : Facts) → AreFacts q.now f → result ≡ spec.is_above f new old }
{
    let below = JavaType::Class(old, Items::new(alloc));
    let above = JavaType::Class(new, Items::new(alloc));
    new != old && is_below(q, &below, &above)
}
