//! Classes below two parameterizations of one class (JLS 3rd edition, 8.1.5), in a world whose order may be broken.

ghost use Rattle.std.specs.Prelude.{◌≡◌, ℕ, ◌<◌, ◌^◌, List, Some, true, length, map, nat_lt, slice_get, IsTrue, IfOk, OnOk, IfNone};
ghost use Rattle.class_world.specs.Types.{variables};
ghost use Rattle.class_world.specs.Sound.{HaveClassSupers};
ghost use Rattle.class_world.specs.declared.world.TypeInfo.{TypeInfo};
ghost use Rattle.class_world.specs.Merged.{HasPlaces};
ghost use Rattle.class_world.specs.Graphs.{AreClassesOf, IsSuperGraph};
ghost use Rattle.class_world.specs.Climbs.{Climbs, Collide, FlagBases, HasOneWay, IsClassType};
ghost use Rattle.class_world.specs.Ordered.{IsClassBelowTwo, IsFirstBelowTwo, IsSingleClass};
ghost use Rattle.class_world.specs.DirectSupers.{IsDirectSuper};
ghost use Rattle.class_world.specs.Meets.{AreClassRows, ArePaths, MarkDoubled};
ghost use Rattle.class_world.specs.declared.world.JavaType.TheVariants as ty;

use crate::class_rows::{ClassRows, class_rows};
use crate::joins::is_single_join;
use crate::paths::Paths;
use crate::sequence::{Sorted, sort};
use crate::supers::{declared_super, supers_of};
use crate::table::{add, class_of, is_marked, listed};
use crate::world::{JavaType, World};
use java_tree::{Items, NoMemory};
use std::alloc::Global;
use type_reach::{Graph, reaching};

/// The first class, by number, that is below two parameterizations of one class.
///
/// Takes time for the types and their declared supertypes, and memory for a bit for each pair of classes. Each declared supertype takes that of as many words as there are classes by 64; at a class that joins two ways up to generic classes it takes that again for each class where its way up first meets an earlier one, up to sixteen of them. Each step up to such a meet is gone once for a class and a meet.
///
/// It goes over the declared supertypes of all that is above a class for a join that has more meets, that is below a raw type, or for whose steps there is no room left, which is for 64 of them a class; for each class that declares a supertype of a class that is below two; and where a class is above itself, for each class that is generic or below a generic one.
pub fn first_below_two(alloc: Global, w: &World) -> Result<Option<u32>, NoMemory>
    requires supers { HaveClassSupers w.now }
    requires few { length w.now.types < 2 ^ 32 }
    ensures { IfOk result (λ o. IsFirstBelowTwo w.now o) }
{
    first_doubled(alloc, w)
}

/// The same, for callers that want to know more where there is none.
pub(crate) fn first_doubled(alloc: Global, w: &World) -> Result<Option<u32>, NoMemory>
    requires supers { HaveClassSupers w.now }
    requires few { length w.now.types < 2 ^ 32 }
    ensures first { IfOk result (λ o. IsFirstBelowTwo w.now o) }
    ensures single { IfOk result (λ o. IfNone o ((c : ℕ) → IsSingleClass w.now c)) }
{
    let flags = base_flags(alloc, w)?;
    let flags = flags.as_slice();
    match sort(alloc, w)? {
        Sorted::AboveItself(_) => search(alloc, w, flags),
        Sorted::Sequence(listed) => {
            let rows = class_rows(alloc, w, flags, listed)?;
            let doubled = doubled_classes(alloc, w, flags, &rows)?;
            Ok(first_marked(w, doubled.as_slice()))
        }
    }
}

/// For each class whether it is generic or below a generic one.
fn base_flags(alloc: Global, w: &World) -> Result<Vec<bool>, NoMemory>
    requires { HaveClassSupers w.now }
    ensures { IfOk result (λ v. FlagBases w.now v.items) }
{
    let graph = super_graph(alloc, w)?;
    let generic = generic_classes(alloc, w)?;
    let flags = reaching(alloc, &graph, generic.as_slice())?;
    Ok(flags)
}

/// For each class whether it is below two parameterizations of one class. Where its declared supertypes' classes are not, it takes more than one way up to be so.
fn doubled_classes(
    alloc: Global,
    w: &World,
    flags: &[bool],
    rows: &ClassRows,
) -> Result<Vec<bool>, NoMemory>
    requires supers { HaveClassSupers w.now }
    requires flags { FlagBases w.now flags.now }
    requires rows { AreClassRows w.now rows.now }
    ensures { IfOk result (λ v. MarkDoubled w.now v.items) }
{
    let mut paths = Paths::new(alloc);
    let mut places = vec![in alloc; 0usize; w.types.len()]?;
    let places = places.as_mut_slice();
    let mut doubled = vec![in alloc; false; w.types.len()]?;
    for c in rows.listed.as_slice() {
        if !is_known_single(alloc, w, flags, rows, &mut paths, doubled.as_slice(), *c)?
            && is_below_two(alloc, w, places, *c)?
        {
            doubled[*c as usize] = true;
        }
    }
    Ok(doubled)
}

/// A quick test, right where it says yes: the class is below at most one parameterization of each class.
fn is_known_single(
    alloc: Global,
    w: &World,
    flags: &[bool],
    rows: &ClassRows,
    paths: &mut Paths,
    doubled: &[bool],
    c: u32,
) -> Result<bool, NoMemory>
    requires supers { HaveClassSupers w.now }
    requires flags { FlagBases w.now flags.now }
    requires rows { AreClassRows w.now rows.now }
    requires paths { ArePaths w.now paths.old }
    requires told { (g : ℕ) (args : List JavaType) → IsDirectSuper w.now c (ty.Class g args) → (slice_get doubled.now g ≡ Some true → ⊥) → IsSingleClass w.now g }
    ensures single { IfOk result (λ r. IsTrue r → IsSingleClass w.now c) }
    ensures paths { OnOk result (ArePaths w.now paths.new) }
{
    if has_marked_super(w, doubled, c) {
        return Ok(false);
    }
    if !joins(w, flags, c) {
        return Ok(true);
    }
    let single = is_single_join(alloc, w, rows, paths, c)?;
    Ok(single)
}

fn has_marked_super(w: &World, marks: &[bool], c: u32) -> bool
    ensures { (IsTrue result → ⊥) → (g : ℕ) (args : List JavaType) → IsDirectSuper w.now c (ty.Class g args) → slice_get marks.now g ≡ Some true → ⊥ }
{
    for d in supers_of(w, c) {
        if is_marked(marks, class_of(d)) {
            return true;
        }
    }
    false
}

/// The first class that is marked, by number.
fn first_marked(w: &World, doubled: &[bool]) -> Option<u32>
    requires few { length w.now.types < 2 ^ 32 }
    requires doubled { MarkDoubled w.now doubled.now }
    ensures first { IsFirstBelowTwo w.now result }
    ensures single { IfNone result ((c : ℕ) → IsSingleClass w.now c) }
{
    for c in 0..w.types.len() as u32 {
        if is_marked(doubled, c) {
            return Some(c);
        }
    }
    None
}

/// Whether the flags of more than one declared supertype's class are set.
fn joins(w: &World, flags: &[bool], c: u32) -> bool
    ensures { (IsTrue result → ⊥) → HasOneWay w.now flags.now c }
{
    let mut found = false;
    for d in supers_of(w, c) {
        if is_marked(flags, class_of(d)) {
            if found {
                return true;
            }
            found = true;
        }
    }
    false
}

/// Searches above each class whose flag is set.
fn search(alloc: Global, w: &World, flags: &[bool]) -> Result<Option<u32>, NoMemory>
    requires supers { HaveClassSupers w.now }
    requires few { length w.now.types < 2 ^ 32 }
    requires flags { FlagBases w.now flags.now }
    ensures first { IfOk result (λ o. IsFirstBelowTwo w.now o) }
    ensures single { IfOk result (λ o. IfNone o ((c : ℕ) → IsSingleClass w.now c)) }
{
    let count = w.types.len();
    let mut places = vec![in alloc; 0usize; count]?;
    let places = places.as_mut_slice();
    for c in 0..count as u32 {
        if is_marked(flags, c) && is_below_two(alloc, w, places, c)? {
            return Ok(Some(c));
        }
    }
    Ok(None)
}

/// The graph of the classes, from each to those of its declared supertypes.
fn super_graph(alloc: Global, w: &World) -> Result<Graph, NoMemory>
    ensures { IfOk result (λ g. IsSuperGraph w.now g) }
{
    let mut graph = Items::new(alloc);
    for info in w.types.as_slice() {
        graph.push(super_classes(alloc, info.supers.as_slice())?)?;
    }
    Ok(graph)
}

fn super_classes(alloc: Global, supers: &[JavaType]) -> Result<Items<u32>, NoMemory>
    ensures { IfOk result (λ row. AreClassesOf supers.now row) }
{
    let mut classes = Items::new(alloc);
    for d in supers {
        classes.push(class_of(d))?;
    }
    Ok(classes)
}

/// For each class whether it has parameters.
fn generic_classes(alloc: Global, w: &World) -> Result<Vec<bool>, NoMemory>
    ensures { IfOk result (λ v. v.items ≡ map (λ (info : TypeInfo). nat_lt 0 info.params) w.now.types) }
{
    let infos = w.types.as_slice().iter();
    Ok(infos.map(|info| 0 < info.params).collect(alloc)?)
}

/// Whether a class with its own variables is below two parameterizations of one class. Lists what is above it until two of them come together: of each class at most the type without arguments and one with some.
fn is_below_two(alloc: Global, w: &World, places: &mut [usize], c: u32) -> Result<bool, NoMemory>
    requires supers { HaveClassSupers w.now }
    requires size { length places.old ≡ length w.now.types }
    ensures two { IfOk result (λ r. IsTrue r → IsClassBelowTwo w.now c) }
    ensures single { IfOk result (λ r. (IsTrue r → ⊥) → IsSingleClass w.now c) }
{
    let Some(info) = w.types.get(c as usize) else {
        return Ok(false);
    };
    let own = JavaType::Class(c, own_variables(alloc, info.params)?);
    let mut found = listed(alloc, places, own)?;
    let mut next = 0;
    while next < found.len() {
        if !add_supers(alloc, w, &mut found, places, next)? {
            return Ok(true);
        }
        next += 1;
    }
    Ok(false)
}

/// Adds the declared supertypes of the type at a place of the list, those that it doesn't cover. `false` where two parameterizations of one class come together.
fn add_supers(
    alloc: Global,
    w: &World,
    found: &mut Vec<JavaType>,
    places: &mut [usize],
    at: usize,
) -> Result<bool, NoMemory>
    requires supers { HaveClassSupers w.now }
    requires class { (t : JavaType) × (slice_get found.old.items at ≡ Some t) × IsClassType w.now t }
    requires size { length places.old ≡ length w.now.types }
    requires placed { HasPlaces found.old.items places.old }
    ensures placed { IfOk result (λ r. IsTrue r → HasPlaces found.new.items places.new) }
    ensures climbs { IfOk result (λ r. IsTrue r → (t : JavaType) → slice_get found.old.items at ≡ Some t → Climbs w.now t found.old.items found.new.items) }
    ensures collide { IfOk result (λ r. (IsTrue r → ⊥) → (t : JavaType) → slice_get found.old.items at ≡ Some t → Collide w.now t found.old.items) }
{
    for d in supers_of(w, class_of(&found[at])) {
        let u = declared_super(alloc, w, &found[at], d)?;
        if !add(found, places, u)? {
            return Ok(false);
        }
    }
    Ok(true)
}

/// The variables of a class of so many parameters.
fn own_variables(alloc: Global, params: u32) -> Result<Items<JavaType>, NoMemory>
    ensures { IfOk result (λ vs. vs ≡ variables 0 params) }
{
    let mut vs = Items::new(alloc);
    for k in 0..params {
        vs.push(JavaType::Var(k))?;
    }
    Ok(vs)
}
