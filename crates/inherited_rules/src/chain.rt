//! The results of methods of one signature, kept in the order of their types.

ghost use Rattle.std.specs.Prelude.{◌≡◌, ◌↔◌, IsTrue, IfOk, Option};
ghost use Rattle.class_world.specs.declared.world.World as worlds;
ghost use Rattle.class_world.specs.declared.world.JavaType as types;
ghost use Rattle.class_world.specs.Sound.{IsSound};
ghost use Rattle.inherited_rules.specs.Parts.{IsResult};
ghost use Rattle.inherited_rules.specs.Chains.{AreKept, AreResults, HasUnlike, IsAdded, IsAmong, IsAnyUnlike, IsBare, IsChain, IsChainOf, IsFirstAbove, IsFirstNotBelow, IsOther, IsPlace, IsPut, IsSide, IsUnlikeOne};

use crate::fit::{fits_result, is_below, is_same_result};
use class_world::{JavaType, World};
use java_tree::NoMemory;
use std::alloc::Global;

/// Results, each once, in two chains: the class types without arguments, which are raw types and those of classes without parameters, and all the others. Each of a chain is a subtype of those after it, so that no two of one chain are unlike.
#[derive(Drop)]
pub(crate) struct Results {
    bare: Vec<Option<JavaType>>,
    others: Vec<Option<JavaType>>,
}

/// Where a result stands beside another.
enum Side {
    Same,
    Below,
    Above,
    Apart,
}

/// Where a result stands in a chain: it is there, it can be put at a place, or it has no place, since one of the chain is neither below nor above it.
enum Place {
    There,
    At(usize),
    Nowhere,
}

impl Results {
    pub(crate) fn new(alloc: Global) -> Results
        ensures none { (r : Option types.JavaType) → IsAmong result r → ⊥ }
        ensures kept { (w : worlds.World) → AreKept w result }
    {
        Results {
            bare: Vec::new(alloc),
            others: Vec::new(alloc),
        }
    }

    /// Tells whether the chain of the result's sort has one that is unlike it, and else adds it there. Takes at most three comparisons for each time that the chain can be halved: between two of one sort no unchecked conversion helps (JLS 5.1.9), so that they are unlike where neither is a subtype.
    pub(crate) fn add(&mut self, w: &World, r: Option<JavaType>) -> Result<bool, NoMemory>
        requires sound { IsSound w.now }
        requires result { IsResult w.now r }
        requires kept { AreKept w.now self.old }
        ensures { IfOk result (λ unlike. IsAdded w.now self.old self.new r unlike) }
    {
        if is_bare(&r) {
            put_in(w, &mut self.bare, r)
        } else {
            put_in(w, &mut self.others, r)
        }
    }

    /// Whether two of the results are unlike. For each class type without arguments it takes two comparisons for each time that the others can be halved, and two more.
    pub(crate) fn has_unlike(&self, w: &World) -> bool
        requires sound { IsSound w.now }
        requires kept { AreKept w.now self.now }
        ensures { IsTrue result ↔ HasUnlike w.now self.now }
    {
        is_any_unlike(w, self.bare.as_slice(), self.others.as_slice())
    }
}

/// Whether it is a class type without arguments.
fn is_bare(r: &Option<JavaType>) -> bool
    ensures { IsTrue result ↔ IsBare r.now }
{
    match r {
        Some(JavaType::Class(_, args)) => args.is_empty(),
        _ => false,
    }
}

/// Puts a result at its place in a chain, if it is not there; tells whether it has none.
fn put_in(
    w: &World,
    chain: &mut Vec<Option<JavaType>>,
    r: Option<JavaType>,
) -> Result<bool, NoMemory>
    requires sound { IsSound w.now }
    requires result { IsResult w.now r }
    requires results { AreResults w.now chain.old.items }
    requires chain { IsChain w.now chain.old.items }
    ensures { IfOk result (λ apart. IsPut w.now chain.old.items chain.new.items r apart) }
{
    match place_in(w, chain.as_slice(), &r) {
        Place::There => Ok(false),
        Place::At(at) => {
            chain.insert(at, r)?;
            Ok(false)
        }
        Place::Nowhere => Ok(true),
    }
}

/// Looks for a result in a chain; halves it at each step.
fn place_in(w: &World, chain: &[Option<JavaType>], r: &Option<JavaType>) -> Place
    requires sound { IsSound w.now }
    requires result { IsResult w.now r.now }
    requires results { AreResults w.now chain.now }
    requires chain { IsChain w.now chain.now }
    ensures { IsPlace w.now chain.now r.now result }
{
    let mut low = 0;
    let mut high = chain.len();
    while low < high {
        let middle = low + (high - low) / 2;
        match side_of(w, r, &chain[middle]) {
            Side::Same => return Place::There,
            Side::Below => high = middle,
            Side::Above => low = middle + 1,
            Side::Apart => return Place::Nowhere,
        }
    }
    Place::At(low)
}

fn side_of(w: &World, r: &Option<JavaType>, q: &Option<JavaType>) -> Side
    requires sound { IsSound w.now }
    requires types { IsResult w.now r.now × IsResult w.now q.now }
    ensures { IsSide w.now r.now q.now result }
{
    if is_same_result(r, q) {
        Side::Same
    } else if is_below(w, r, q) {
        Side::Below
    } else if is_below(w, q, r) {
        Side::Above
    } else {
        Side::Apart
    }
}

/// Whether one of the class types without arguments and one of the others are unlike.
fn is_any_unlike(w: &World, bare: &[Option<JavaType>], others: &[Option<JavaType>]) -> bool
    requires sound { IsSound w.now }
    requires bare { IsChainOf w.now IsBare bare.now }
    requires others { IsChainOf w.now IsOther others.now }
    ensures { IsTrue result ↔ IsAnyUnlike w.now bare.now others.now }
{
    for r in bare {
        if is_unlike_one(w, r, others) {
            return true;
        }
    }
    false
}

/// Whether a class type without arguments is unlike one of the others. Those of the chain that are neither below it nor above it stand together, and it has to fit each by an unchecked conversion. If it fits the first, it is below the raw types of all of them; and if it fits the last, it is below no parameterization of one of them, since a parameterization of the last's class would be above that. So it is asked of these two alone.
fn is_unlike_one(w: &World, r: &Option<JavaType>, chain: &[Option<JavaType>]) -> bool
    requires sound { IsSound w.now }
    requires result { IsResult w.now r.now }
    requires bare { IsBare r.now }
    requires others { IsChainOf w.now IsOther chain.now }
    ensures { IsTrue result ↔ IsUnlikeOne w.now r.now chain.now }
{
    let start = first_not_below(w, chain, r);
    let end = first_above(w, chain, r);
    if end <= start {
        return false;
    }
    let last = end - 1;
    if !fits_result(w, r, &chain[start]) {
        return true;
    }
    !fits_result(w, r, &chain[last])
}

/// The place in the chain before which each is below the result, and from which on none is.
fn first_not_below(w: &World, chain: &[Option<JavaType>], r: &Option<JavaType>) -> usize
    requires sound { IsSound w.now }
    requires result { IsResult w.now r.now }
    requires results { AreResults w.now chain.now }
    requires chain { IsChain w.now chain.now }
    ensures { IsFirstNotBelow w.now chain.now r.now result }
{
    let mut low = 0;
    let mut high = chain.len();
    while low < high {
        let middle = low + (high - low) / 2;
        if is_below(w, &chain[middle], r) {
            low = middle + 1;
        } else {
            high = middle;
        }
    }
    low
}

/// The place in the chain before which the result is below none, and from which on it is below each.
fn first_above(w: &World, chain: &[Option<JavaType>], r: &Option<JavaType>) -> usize
    requires sound { IsSound w.now }
    requires result { IsResult w.now r.now }
    requires results { AreResults w.now chain.now }
    requires chain { IsChain w.now chain.now }
    ensures { IsFirstAbove w.now chain.now r.now result }
{
    let mut low = 0;
    let mut high = chain.len();
    while low < high {
        let middle = low + (high - low) / 2;
        if is_below(w, r, &chain[middle]) {
            high = middle;
        } else {
            low = middle + 1;
        }
    }
    low
}
