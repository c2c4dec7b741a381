//! The types to which a place may go.

ghost use Rattle.std.specs.Prelude.{◌≡◌, ◌<◌, ◌^◌, ◌+◌, ◌++◌, [], ℕ, length, map, slice_get, IfOk, OnOk};
ghost use Rattle.std.specs.Option.{option_copied};
ghost use Rattle.std.specs.String.{string_bytes};
ghost use Rattle.source_files.specs.Held.{AreSmall};
ghost use Rattle.type_facts.specs.Facts.{AreFacts, Facts, IsReady};
ghost use Rattle.generalize_declared.specs.Allowed as spec;
ghost use Rattle.generalize_declared.specs.Plans.{AreSourceFacts};

use crate::asked::{CheckedSource, Wish, is_above, is_open, item_at, place_asked};
use crate::command::Against;
use crate::names::name_text;
use crate::tried::try_change;
use class_world::{TypeInfo, World};
use java_tree::tree::{Name, SourceUnit};
use java_tree::{Items, Names, NoMemory};
use std::alloc::Global;
use type_facts::Questions;
use type_places::TypePlace;

/// What stands against any change, or the names of the types to which the place may go: classes, then interfaces, each in the order of their declarations.
#[derive(Drop)]
pub enum TypesAnswer {
    Against(Against),
    Types(Items<String>),
}

// The package of a file.
fn home_of(unit: Option<&SourceUnit>) -> &[Name]
    ensures { result.now ≡ spec.home_of (option_copied unit.entry) }
{
    match unit {
        None => &[],
        Some(unit) => unit.package.as_slice(),
    }
}

fn is_of_kind(info: &TypeInfo, interface: bool) -> bool
    ensures { result ≡ spec.is_of_kind interface info.now }
{
    if interface {
        info.interface
    } else {
        !info.interface
    }
}

// Whether a type is of the kind, may be named, and stands above the place's own.
fn is_candidate(
    alloc: Global,
    q: &Questions<'_>,
    home: &[Name],
    place: &TypePlace,
    interface: bool,
    number: u32,
) -> bool
    requires { IsReady q.now }
    ensures { (f : Facts) → AreFacts q.now f → result ≡ spec.is_candidate f home.now place.now interface number (slice_get q.now.world.now.types number) }
{
    let Some(info) = item_at(q.world.types.as_slice(), number as usize) else {
        return false;
    };
    is_of_kind(info, interface) && is_open(info, home) && is_above(alloc, q, number, place.old)
}

// Whether a place may go to a type.
fn may_go(
    alloc: Global,
    q: &Questions<'_>,
    source: &CheckedSource<'_>,
    home: &[Name],
    place: &TypePlace,
    interface: bool,
    number: u32,
) -> Result<bool, NoMemory>
    requires ready { IsReady q.now }
    requires some { 0 < length source.now.units.now }
    ensures { (fs : ℕ → Facts) → AreSourceFacts q.now source.now fs
        → IfOk result (spec.Goes (fs 0) source.now home.now place.now interface number) }
{
    let first = Questions { file: 0, ..*q };
    if !is_candidate(alloc, &first, home, place, interface, number) {
        return Ok(false);
    }
    let tried = try_change(alloc, q, source, place, number)?;
    match tried.unmet {
        None => Ok(true),
        Some(_unmet) => Ok(false),
    }
}

// Puts a type where the place may go to it.
fn push_type(
    alloc: Global,
    q: &Questions<'_>,
    source: &CheckedSource<'_>,
    home: &[Name],
    place: &TypePlace,
    interface: bool,
    number: u32,
    types: &mut Items<u32>,
) -> Result<(), NoMemory>
    requires ready { IsReady q.now }
    requires some { 0 < length source.now.units.now }
    ensures { (fs : ℕ → Facts) → AreSourceFacts q.now source.now fs → spec.AreListed (fs 0) source.now home.now place.now interface number types.old
        → OnOk result (spec.AreListed (fs 0) source.now home.now place.now interface (number + 1) types.new) }
{
    let goes = may_go(alloc, q, source, home, place, interface, number)?;
    if goes {
        types.push(number)?;
    }
    Ok(())
}

// The types of a kind to which a place may go.
fn types_of(
    alloc: Global,
    q: &Questions<'_>,
    source: &CheckedSource<'_>,
    home: &[Name],
    place: &TypePlace,
    interface: bool,
) -> Result<Items<u32>, NoMemory>
    requires ready { IsReady q.now }
    requires some { 0 < length source.now.units.now }
    requires few { length q.now.world.now.types < 2 ^ 32 }
    ensures { (fs : ℕ → Facts) → AreSourceFacts q.now source.now fs
        → IfOk result (spec.AreListed (fs 0) source.now home.now place.now interface (length q.now.world.now.types)) }
{
    let count = q.world.types.len() as u32;
    let mut types = Items::new(alloc);
    for number in 0..count {
        push_type(alloc, q, source, home, place, interface, number, &mut types)?;
    }
    Ok(types)
}

// The name of a type, by number.
fn type_word(alloc: Global, names: &Names, w: &World, number: u32) -> Result<String, NoMemory>
    ensures { IfOk result (λ r. string_bytes r ≡ spec.type_word names.now (slice_get w.now.types number)) }
{
    match item_at(w.types.as_slice(), number as usize) {
        None => Ok(String::new(alloc)),
        Some(info) => Ok(String::from_str(alloc, name_text(names, info.name))?),
    }
}

// Puts the names of types.
fn push_words(
    alloc: Global,
    names: &Names,
    w: &World,
    types: &[u32],
    words: &mut Items<String>,
) -> Result<(), NoMemory>
    ensures { OnOk result (map string_bytes words.new ≡ map string_bytes words.old ++ map (spec.word_of names.now w.now) types.now) }
{
    for number in types {
        words.push(type_word(alloc, names, w, *number)?)?;
    }
    Ok(())
}

// The names of the types to which a place of a file may go.
fn words_at(
    alloc: Global,
    q: &Questions<'_>,
    source: &CheckedSource<'_>,
    wish: Wish,
    place: &TypePlace,
) -> Result<Items<String>, NoMemory>
    requires ready { IsReady q.now }
    requires some { 0 < length source.now.units.now }
    requires few { length q.now.world.now.types < 2 ^ 32 }
    ensures { (fs : ℕ → Facts) → AreSourceFacts q.now source.now fs
        → IfOk result (λ r. spec.AreAllowed (fs 0) source.now wish place.now (map string_bytes r)) }
{
    let home = home_of(item_at(source.units, wish.file));
    let classes = types_of(alloc, q, source, home, place, false)?;
    let interfaces = types_of(alloc, q, source, home, place, true)?;
    let mut words = Items::new(alloc);
    push_words(alloc, source.names, q.world, classes.as_slice(), &mut words)?;
    push_words(
        alloc,
        source.names,
        q.world,
        interfaces.as_slice(),
        &mut words,
    )?;
    Ok(words)
}

// The types of a program without unchecked operations.
fn on_clean(
    alloc: Global,
    q: &Questions<'_>,
    source: &CheckedSource<'_>,
    wish: Wish,
) -> Result<TypesAnswer, NoMemory>
    requires ready { IsReady q.now }
    requires small { AreSmall source.now.texts.now }
    requires some { 0 < length source.now.units.now }
    requires few { length q.now.world.now.types < 2 ^ 32 }
    requires clean { source.now.operations.now ≡ [] }
    ensures { (fs : ℕ → Facts) → AreSourceFacts q.now source.now fs → IfOk result (spec.Answers (fs 0) source.now wish) }
{
    let place = place_asked(alloc, q.world, source, wish)?;
    match place {
        None => Ok(TypesAnswer::Against(Against::NoPlace)),
        Some(place) => Ok(TypesAnswer::Types(words_at(alloc, q, source, wish, &place)?)),
    }
}

/// What becomes of `allowed` of a checked program: the types to which the head of the declared type at a place of a user file may go. The questions are those of its
/// first file.
pub fn allowed_types(
    alloc: Global,
    q: &Questions<'_>,
    source: &CheckedSource<'_>,
    wish: Wish,
) -> Result<TypesAnswer, NoMemory>
    requires ready { IsReady q.now }
    requires small { AreSmall source.now.texts.now }
    requires some { 0 < length source.now.units.now }
    ensures { (fs : ℕ → Facts) → AreSourceFacts q.now source.now fs → IfOk result (spec.Answers (fs 0) source.now wish) }
{
    if u32::try_from(q.world.types.len()).is_err() {
        return Err(NoMemory);
    }
    match source.operations {
        [first, ..] => Ok(TypesAnswer::Against(Against::Unchecked(first.node.id))),
        [] => on_clean(alloc, q, source, wish),
    }
}
