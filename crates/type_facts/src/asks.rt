//! Questions of a check, each answered as any facts of the program would.

ghost use Rattle.std.specs.Prelude.{◌≡◌, ◌↔◌, IsTrue, IfOk};
ghost use Rattle.class_world.specs.Sound.{IsKnown};
ghost use Rattle.type_facts.specs.Facts.{AreFacts, Facts, IsReady};

use crate::questions::Questions;
use class_world::{Declared, JavaType, World, sees};
use java_tree::NoMemory;
use java_tree::tree::Name;
use std::alloc::Global;
use type_kinds::{casts, of_world};

/// The number of the type that a simple name means in the file (JLS 6.5.5.1).
pub fn mean(q: &Questions, name: Name) -> Option<u32>
    ensures { (f : Facts) → AreFacts q.now f → result ≡ f.mean name }
{
    q.names.meant(q.file, name)
}

/// Whether a value of one type can be assigned to a variable of the other (JLS 5.2).
#[tactic(auto, using(crate::proofs::Orders::same_test))]
pub fn may_assign(q: &Questions, s: &JavaType, t: &JavaType) -> bool
    requires { IsReady q.now }
    ensures { (f : Facts) → AreFacts q.now f → result ≡ f.fits s.now t.now }
{
    of_world::may_assign(q.world, s, t)
}

/// Whether a type is a subtype of another (JLS 4.10).
#[tactic(auto, using(crate::proofs::Orders::same_test))]
pub fn is_below(q: &Questions, s: &JavaType, t: &JavaType) -> bool
    requires { IsReady q.now }
    ensures { (f : Facts) → AreFacts q.now f → result ≡ f.sub s.now t.now }
{
    of_world::is_below(q.world, s, t)
}

/// Whether a type fits another by an unchecked conversion alone (JLS 5.1.9).
#[tactic(auto, using(crate::proofs::Orders::same_test))]
pub fn is_unchecked_alone(q: &Questions, s: &JavaType, t: &JavaType) -> bool
    requires { IsReady q.now }
    ensures { (f : Facts) → AreFacts q.now f → result ≡ f.unchecked s.now t.now }
{
    of_world::is_unchecked_alone(q.world, s, t)
}

/// Whether a value of one reference type can be cast to another (JLS 5.5). Takes no memory.
#[tactic(auto, using(crate::proofs::Orders::same_test))]
pub fn may_cast(alloc: Global, q: &Questions, s: &JavaType, t: &JavaType) -> bool
    requires { IsReady q.now }
    ensures { (f : Facts) → AreFacts q.now f → result ≡ f.castable s.now t.now }
{
    casts::may_cast(alloc, q.world, s, t)
}

/// The supertype of a type with this class (JLS 4.10.2).
#[tactic(auto, using(crate::proofs::Orders::same_super))]
pub fn super_as(
    alloc: Global,
    q: &Questions,
    t: &JavaType,
    g: u32,
) -> Result<Option<JavaType>, NoMemory>
    requires { IsReady q.now }
    ensures { (f : Facts) → AreFacts q.now f → IfOk result (λ r. r ≡ f.super_as t.now g) }
{
    of_world::super_of(alloc, q.world, t, g)
}

/// The number of the field that a name means in a type (JLS 8.3, 9.3).
#[tactic(auto, using(crate::proofs::Orders::same_field))]
pub fn field_named(q: &Questions, t: &JavaType, name: Name) -> Option<u32>
    requires { IsReady q.now }
    ensures { (f : Facts) → AreFacts q.now f → result ≡ f.field t.now name }
{
    q.members.field(q.world, t, name)
}

fn is_known(w: &World, c: u32) -> bool
    ensures { IsTrue result ↔ IsKnown w.now c }
{
    w.types.get(c as usize).is_some()
}

/// The numbers of the methods that a class has under a name with so many parameters and that count for a call, ascending (JLS 8.4.8.4, 15.12.2.1).
#[tactic(auto, using(crate::proofs::Orders::same_methods, crate::proofs::Orders::no_methods))]
pub fn methods_named<'a>(q: &Questions<'a>, c: u32, name: Name, arity: usize) -> &'a [u32]
    requires { IsReady q.now }
    ensures { (f : Facts) → AreFacts q.now f → result.now ≡ f.methods c name arity }
{
    if is_known(q.world, c) {
        q.members.methods(c, name, arity)
    } else {
        &[]
    }
}

/// Whether a class has access to a member (JLS 6.6).
#[tactic(auto, using(crate::proofs::Orders::same_test))]
pub fn has_access(q: &Questions, c: u32, member: Declared) -> bool
    ensures { (f : Facts) → AreFacts q.now f → result ≡ f.sees c member }
{
    sees(q.world, c, &member, None)
}
