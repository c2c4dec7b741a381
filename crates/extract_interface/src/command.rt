//! The command: what stands against it, or the new files.

ghost use Rattle.std.specs.Prelude.{◌≡◌, ◌≤◌, ◌<◌, ◌^◌, [], length, map, IfOk};
ghost use Rattle.std.specs.List.Sorted.{IsStrictlyIncreasing};
ghost use Rattle.std.specs.String.{string_bytes};
ghost use Rattle.java_tree.specs.Names.{AreDistinct};
ghost use Rattle.source_files.specs.Held.{AreSmall};
ghost use Rattle.type_facts.specs.Facts.{IsReady};
ghost use Rattle.extract_interface.specs.Asked.{IsTaken, IsUserClass};
ghost use Rattle.extract_interface.specs.Plans.{AreChanged, Answers, IsFound, IsOpen, IsPlanned, place_of};

use crate::asked::{Class, Wish, class_named};
use crate::created::keeps_created;
use crate::declared::{created_name, declaration_of, is_file};
use crate::edits::all_edits;
use crate::methods::{all_public, has_all, is_ascending, none_static, wanted};
use crate::plan::{Plan, places_of};
use crate::taken::is_taken;
use changed_files::{NewFiles, edited_files};
use extract_constraints::links_of;
use generalize_declared::CheckedSource;
use interface_text::{Extraction, interface_text};
use java_tree::{Items, NoMemory};
use kept_places::{Kept, kept_places};
use std::alloc::Global;
use type_facts::Questions;

/// What stands against an extraction, with the number of its node, that of the class's declaration: an unchecked operation (S21, at the operation); that there is no such class
/// (E1); that the class declares no method of a name (E3); that a type or package has the new name (E2); a method that is not public (E4) or static (E5); that a file has the new
/// file's name (E6); or that the new files would break a rule or behave otherwise (KEEP).
#[derive(Clone, Copy, Debug, PartialEq, Eq)]
pub enum Against {
    Unchecked(u32),
    NoClass,
    NoMethod(Option<u32>),
    NameTaken(Option<u32>),
    NotPublic(Option<u32>),
    Static(Option<u32>),
    FileTaken(Option<u32>),
    Kept(Option<u32>),
}

/// The new files of a program, the name and the text of the created one, and the places that are kept, ascending by node, each with the first link of its chain.
#[derive(Drop)]
pub struct Extracted {
    pub new: NewFiles,
    pub name: String,
    pub text: Items<u8>,
    pub kept: Items<Kept>,
}

#[derive(Drop)]
pub enum Answer {
    Against(Against),
    Extracted(Extracted),
}

// What becomes of an extraction whose new files are made. The places are the numbers of those that are kept.
fn on_changed(
    alloc: Global,
    q: &Questions<'_>,
    source: &CheckedSource<'_>,
    wish: &Wish<'_>,
    plan: &Plan<'_>,
    name: String,
    kept: Items<Kept>,
    places: &[u32],
    new: NewFiles,
) -> Result<Answer, NoMemory>
    requires ready { IsReady q.now }
    requires methods { IsStrictlyIncreasing plan.now.methods.now }
    requires places { places.now ≡ map place_of kept }
    requires ascending { IsStrictlyIncreasing places.now }
    requires planned { IsPlanned q.now.world.now source.now wish.now plan.now (string_bytes name) }
    requires changed { AreChanged q.now.world.now source.now wish.now plan.now kept new }
    ensures { IfOk result (Answers q.now.world.now source.now wish.now) }
{
    let extraction = Extraction {
        world: q.world,
        names: source.names,
        class: plan.class.number,
        methods: plan.methods,
        new_name: wish.name,
        kept: places,
    };
    let created = interface_text(alloc, &extraction, plan.declared.core)?;
    let methods = plan.methods.len();
    if !keeps_created(
        alloc,
        q,
        source,
        methods,
        created.as_slice(),
        new.texts.as_slice(),
    )? {
        return Ok(Answer::Against(Against::Kept(plan.class.info.node)));
    }
    let text = Items::from_vec(created);
    Ok(Answer::Extracted(Extracted {
        new,
        name,
        text,
        kept,
    }))
}

// What becomes of an extraction against which nothing stands but what its new files do.
fn on_planned(
    alloc: Global,
    q: &Questions<'_>,
    source: &CheckedSource<'_>,
    wish: &Wish<'_>,
    plan: &Plan<'_>,
    name: String,
) -> Result<Answer, NoMemory>
    requires ready { IsReady q.now }
    requires texts { length source.now.texts.now ≡ length source.now.units.now }
    requires methods { IsStrictlyIncreasing plan.now.methods.now }
    requires planned { IsPlanned q.now.world.now source.now wish.now plan.now (string_bytes name) }
    ensures { IfOk result (Answers q.now.world.now source.now wish.now) }
{
    let links = links_of(
        alloc,
        q,
        source.core,
        source.users,
        plan.class.number,
        plan.methods,
    )?;
    let kept = kept_places(alloc, links.as_slice())?;
    let places = places_of(alloc, kept.as_slice())?;
    let edits = all_edits(
        alloc,
        wish.name,
        plan,
        places.as_slice(),
        source.core.files.as_slice(),
        source.units.len(),
    )?;
    match edited_files(alloc, source.texts, edits)? {
        None => Ok(Answer::Against(Against::Kept(plan.class.info.node))),
        Some(new) => on_changed(
            alloc,
            q,
            source,
            wish,
            plan,
            name,
            kept,
            places.as_slice(),
            new,
        ),
    }
}

// What becomes of the extraction of methods that are public and not static.
fn on_open(
    alloc: Global,
    q: &Questions<'_>,
    source: &CheckedSource<'_>,
    wish: &Wish<'_>,
    class: &Class<'_>,
    methods: &[u32],
) -> Result<Answer, NoMemory>
    requires ready { IsReady q.now }
    requires texts { length source.now.texts.now ≡ length source.now.units.now }
    requires open { IsOpen q.now.world.now source.now wish.now class.now.number class.now.info.now methods.now }
    ensures { IfOk result (Answers q.now.world.now source.now wish.now) }
{
    // No checked program comes here: methods are numbered in order, and each class stands in a file.
    if !is_ascending(methods) {
        return Err(NoMemory);
    }
    let Some(declared) = declaration_of(source, class.number) else {
        return Err(NoMemory);
    };
    let Some(file) = wish.files.get(declared.file) else {
        return Err(NoMemory);
    };
    let name = created_name(alloc, file.as_str(), wish.name)?;
    if is_file(wish.files, name.as_str()) {
        return Ok(Answer::Against(Against::FileTaken(class.info.node)));
    }
    let plan = Plan {
        class: *class,
        methods,
        declared,
    };
    on_planned(alloc, q, source, wish, &plan, name)
}

// What becomes of the extraction of methods of a class, by a name that is free.
fn on_free(
    alloc: Global,
    q: &Questions<'_>,
    source: &CheckedSource<'_>,
    wish: &Wish<'_>,
    class: &Class<'_>,
) -> Result<Answer, NoMemory>
    requires ready { IsReady q.now }
    requires texts { length source.now.texts.now ≡ length source.now.units.now }
    requires found { IsFound q.now.world.now source.now wish.now class.now.number class.now.info.now }
    requires free { IsTaken q.now.world.now source.now wish.now.name.now → ⊥ }
    ensures { IfOk result (Answers q.now.world.now source.now wish.now) }
{
    let names = source.names;
    let own = class.info.methods.as_slice();
    let methods = wanted(alloc, q.world, names, wish.methods, own)?;
    if !all_public(q.world, methods.as_slice()) {
        return Ok(Answer::Against(Against::NotPublic(class.info.node)));
    }
    if !none_static(q.world, methods.as_slice()) {
        return Ok(Answer::Against(Against::Static(class.info.node)));
    }
    on_open(alloc, q, source, wish, class, methods.as_slice())
}

// What becomes of the extraction from a class.
fn on_class(
    alloc: Global,
    q: &Questions<'_>,
    source: &CheckedSource<'_>,
    wish: &Wish<'_>,
    class: &Class<'_>,
) -> Result<Answer, NoMemory>
    requires ready { IsReady q.now }
    requires texts { length source.now.texts.now ≡ length source.now.units.now }
    requires clean { source.now.operations.now ≡ [] }
    requires class { IsUserClass q.now.world.now source.now.names.now wish.now.class.now class.now.number class.now.info.now }
    ensures { IfOk result (Answers q.now.world.now source.now wish.now) }
{
    let own = class.info.methods.as_slice();
    if !has_all(q.world, source.names, own, wish.methods) {
        return Ok(Answer::Against(Against::NoMethod(class.info.node)));
    }
    if is_taken(q.world, source, wish.name) {
        return Ok(Answer::Against(Against::NameTaken(class.info.node)));
    }
    on_free(alloc, q, source, wish, class)
}

// What becomes of an extraction from a program without unchecked operations.
fn on_clean(
    alloc: Global,
    q: &Questions<'_>,
    source: &CheckedSource<'_>,
    wish: &Wish<'_>,
) -> Result<Answer, NoMemory>
    requires ready { IsReady q.now }
    requires texts { length source.now.texts.now ≡ length source.now.units.now }
    requires types { length q.now.world.now.types < 2 ^ 32 }
    requires clean { source.now.operations.now ≡ [] }
    ensures { IfOk result (Answers q.now.world.now source.now wish.now) }
{
    match class_named(q.world, source.names, wish.class) {
        None => Ok(Answer::Against(Against::NoClass)),
        Some(class) => on_class(alloc, q, source, wish, &class),
    }
}

/// What becomes of `extract-interface` of a checked program. The questions are those of one of its files.
pub fn extract_interface(
    alloc: Global,
    q: &Questions<'_>,
    source: &CheckedSource<'_>,
    wish: &Wish<'_>,
) -> Result<Answer, NoMemory>
    requires ready { IsReady q.now }
    requires small { AreSmall source.now.texts.now }
    requires distinct { AreDistinct source.now.names.now }
    requires texts { length source.now.texts.now ≡ length source.now.units.now }
    requires users { source.now.users ≤ length source.now.units.now }
    ensures { IfOk result (Answers q.now.world.now source.now wish.now) }
{
    if u32::try_from(q.world.types.len()).is_err() {
        return Err(NoMemory);
    }
    match source.operations {
        [first, ..] => Ok(Answer::Against(Against::Unchecked(first.node.id))),
        [] => on_clean(alloc, q, source, wish),
    }
}
