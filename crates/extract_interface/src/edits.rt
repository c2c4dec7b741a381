//! The edits of the files: places that change to the new interface, and the class that implements it.

ghost use Rattle.std.specs.Prelude.{◌≡◌, ℕ, ◌<◌, ◌≤◌, ◌++◌, true, length, slice_get, IfOk};
ghost use Rattle.std.specs.List.Sorted.{IsStrictlyIncreasing};
ghost use Rattle.std.specs.Option.{option_copied};
ghost use Rattle.changed_files.specs.FileEdits.{put_at};
ghost use Rattle.extract_interface.specs.Plans as spec;
ghost use Rattle.extract_interface.specs.Plans.{AreFileEdits, HasEdits};

use crate::plan::Plan;
use changed_files::add_heads;
use class_places::{ClassPlace, places_in};
use edit_writer::Edit;
use interface_text::is_among;
use java_core::{CoreClass, CoreFile, CoreType};
use java_tree::tree::Span;
use java_tree::{Items, NoMemory};
use std::alloc::Global;

// The heads of the places that are not kept.
fn changed_heads(
    alloc: Global,
    kept: &[u32],
    places: &[ClassPlace],
) -> Result<Items<Span>, NoMemory>
    requires { IsStrictlyIncreasing kept.now }
    ensures { IfOk result (λ r. r ≡ spec.changed_heads kept.now places.now) }
{
    let mut heads = Items::new(alloc);
    for place in places {
        if !is_among(kept, place.node) {
            heads.push(place.head)?;
        }
    }
    Ok(heads)
}

fn heads_in(
    alloc: Global,
    class: u32,
    kept: &[u32],
    file: Option<&CoreFile>,
) -> Result<Items<Span>, NoMemory>
    requires { IsStrictlyIncreasing kept.now }
    ensures { IfOk result (λ r. r ≡ spec.heads_in class kept.now (option_copied file.entry)) }
{
    let Some(file) = file else {
        return Ok(Items::new(alloc));
    };
    let places = places_in(alloc, class, file)?;
    changed_heads(alloc, kept, places.as_slice())
}

fn last_of(types: &[CoreType]) -> Option<&CoreType>
    ensures { option_copied result ≡ spec.last_of types.now }
{
    types.last()
}

fn end_of(ty: Option<&CoreType>, other: u32) -> u32
    ensures { result ≡ spec.end_of (option_copied ty.entry) other }
{
    match ty {
        None => other,
        Some(ty) => ty.node.span.to,
    }
}

// What is put at an offset: words, and then a name.
fn put_at(alloc: Global, at: u32, words: &str, name: &str) -> Result<Edit, NoMemory>
    ensures { IfOk result (λ e. e ≡ put_at at (words.now ++ name.now)) }
{
    let mut text = Vec::new(alloc);
    text.extend_from_slice(words.as_bytes())?;
    text.extend_from_slice(name.as_bytes())?;
    Ok(Edit {
        from: at,
        to: at,
        text: Items::from_vec(text),
    })
}

fn implements_edit(alloc: Global, class: &CoreClass, word: &str) -> Result<Edit, NoMemory>
    ensures { IfOk result (λ e. e ≡ spec.implements_edit class.now word.now) }
{
    match last_of(class.implements.as_slice()) {
        Some(ty) => put_at(alloc, ty.node.span.to, ", ", word),
        None => {
            let end = end_of(last_of(class.extends.as_slice()), class.name_end);
            put_at(alloc, end, " implements ", word)
        }
    }
}

// How many of the heads, from the first on, begin before an offset.
fn count_before(heads: &[Span], at: u32) -> usize
    ensures { result ≤ length heads.now }
{
    for (count, head) in heads.iter().enumerate() {
        if at <= head.from {
            return count;
        }
    }
    heads.len()
}

fn class_edits(
    alloc: Global,
    word: &str,
    class: &CoreClass,
    heads: &[Span],
) -> Result<Items<Edit>, NoMemory>
    ensures { IfOk result (AreFileEdits word.now true class.now heads.now) }
{
    let added = implements_edit(alloc, class, word)?;
    let (before, behind) = heads.split_at(count_before(heads, added.from));
    let mut edits = Items::new(alloc);
    add_heads(alloc, word.as_bytes(), before, &mut edits)?;
    edits.push(added)?;
    add_heads(alloc, word.as_bytes(), behind, &mut edits)?;
    Ok(edits)
}

// The edits of a file with these heads, which may have the class.
fn file_edits(
    alloc: Global,
    word: &str,
    here: bool,
    class: &CoreClass,
    heads: &[Span],
) -> Result<Items<Edit>, NoMemory>
    ensures { IfOk result (AreFileEdits word.now here class.now heads.now) }
{
    if here {
        return class_edits(alloc, word, class, heads);
    }
    let mut edits = Items::new(alloc);
    add_heads(alloc, word.as_bytes(), heads, &mut edits)?;
    Ok(edits)
}

/// The edits of each of the first files, so many.
pub(crate) fn all_edits(
    alloc: Global,
    word: &str,
    plan: &Plan<'_>,
    kept: &[u32],
    files: &[CoreFile],
    count: usize,
) -> Result<Items<Items<Edit>>, NoMemory>
    requires { IsStrictlyIncreasing kept.now }
    ensures count { IfOk result (λ r. length r ≡ count) }
    ensures edits { IfOk result (λ r. (i : ℕ) → i < count → HasEdits word.now plan.now kept.now i (slice_get files.now i) (slice_get r i)) }
{
    let mut all = Items::new(alloc);
    for file in 0..count {
        let heads = heads_in(alloc, plan.class.number, kept, files.get(file))?;
        let here = file == plan.declared.file;
        let class = plan.declared.core;
        all.push(file_edits(alloc, word, here, class, heads.as_slice())?)?;
    }
    Ok(all)
}
