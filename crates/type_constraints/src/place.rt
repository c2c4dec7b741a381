//! What the constraints are asked of, and its answers.

ghost use Rattle.std.specs.Prelude.{◌≡◌, ◌==◌, ◌↔◌, ◌<◌, IsTrue, length};
ghost use Rattle.class_world.specs.declared.access.Declared.TheVariants as declared;
ghost use Rattle.type_facts.specs.Facts.{IsReady};
ghost use Rattle.type_constraints.specs.Asked.{Gives, Tells};

use class_world::{Declared, JavaType, World};
use java_tree::NoMemory;
use java_tree::tree::Name;
use std::alloc::Global;
use type_facts::{Questions, asks};
use type_places::Changes;

/// Where code stands: in which program, under which change, in which class and in which method's body, both by number. `main` is the name main, where a file has it.
#[derive(Clone, Copy)]
pub(crate) struct Place<'a> {
    pub q: Questions<'a>,
    pub change: &'a Changes,
    pub main: Option<Name>,
    pub class: u32,
    pub method: Option<u32>,
}

/// Whether a value of one type can be assigned to a variable of the other (JLS 5.2).
pub(crate) fn fits(at: &Place<'_>, s: &JavaType, t: &JavaType) -> bool
    requires { IsReady at.now.q }
    ensures { Tells at.now result (λ a. a.facts.fits s.now t.now) }
{
    asks::may_assign(&at.q, s, t)
}

/// Whether a type is a subtype of another (JLS 4.10).
pub(crate) fn is_below(at: &Place<'_>, s: &JavaType, t: &JavaType) -> bool
    requires { IsReady at.now.q }
    ensures { Tells at.now result (λ a. a.facts.sub s.now t.now) }
{
    asks::is_below(&at.q, s, t)
}

/// The supertype of a type with a class (JLS 4.10.2).
pub(crate) fn super_as(
    alloc: Global,
    at: &Place<'_>,
    t: &JavaType,
    class: u32,
) -> Result<Option<JavaType>, NoMemory>
    requires { IsReady at.now.q }
    ensures { Gives at.now result (λ a. a.facts.super_as t.now class) }
{
    asks::super_as(alloc, &at.q, t, class)
}

/// The field that a name means in a type (JLS 8.3).
pub(crate) fn field_named(at: &Place<'_>, t: &JavaType, name: Name) -> Option<u32>
    requires { IsReady at.now.q }
    ensures { Tells at.now result (λ a. a.facts.field t.now name) }
{
    asks::field_named(&at.q, t, name)
}

/// The methods of a class with a name and so many parameters.
pub(crate) fn methods_named<'a>(at: &Place<'a>, class: u32, name: Name, arity: usize) -> &'a [u32]
    requires { IsReady at.now.q }
    ensures { Tells at.now result.now (λ a. a.facts.methods class name arity) }
{
    asks::methods_named(&at.q, class, name, arity)
}

/// Whether the class around has access to a method (JLS 6.6).
pub(crate) fn sees(at: &Place<'_>, method: u32) -> bool
    ensures { Tells at.now result (λ a. a.facts.sees a.class (declared.Method method)) }
{
    asks::has_access(&at.q, at.class, Declared::Method(method))
}

/// Whether two numbers are the same.
pub(crate) fn is_equal(k: u32, m: u32) -> bool
    ensures { result ≡ (k == m) }
{
    k == m
}

/// Whether a method overrides another one (JLS 8.4.8.1).
pub(crate) fn overrides(at: &Place<'_>, method: u32, other: u32) -> bool
    requires { IsReady at.now.q }
    ensures { Tells at.now result (λ a. a.ties.overrides method other) }
{
    at.q.members.overrides(method, other)
}

fn is_known(w: &World, method: u32) -> bool
    ensures { IsTrue result ↔ (method < length w.now.methods) }
{
    (method as usize) < w.methods.len()
}

/// The methods that overriding ties to a method, its own number among them, ascending.
pub(crate) fn family<'a>(at: &Place<'a>, method: u32) -> &'a [u32]
    requires { IsReady at.now.q }
    ensures { Tells at.now result.now (λ a. a.ties.family method) }
{
    if is_known(at.q.world, method) {
        at.q.members.family(method)
    } else {
        &[]
    }
}

/// The methods with its name and number of parameters that some type has together with a method, its own number among them, ascending.
pub(crate) fn group<'a>(at: &Place<'a>, method: u32) -> &'a [u32]
    requires { IsReady at.now.q }
    ensures { Tells at.now result.now (λ a. a.ties.group method) }
{
    if is_known(at.q.world, method) {
        at.q.members.group(method)
    } else {
        &[]
    }
}
