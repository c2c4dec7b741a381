//! Access to members (JLS 3rd edition, 6.6).

ghost use Rattle.std.specs.Prelude.{◌≡◌, ◌↔◌, IsTrue, Some, slice_get, true, List};
ghost use Rattle.std.specs.Option.{option_map};
ghost use Rattle.std.specs.List.{Contains};
ghost use Rattle.java_tree.specs.declared.tree.Mod.TheVariants as mods;
ghost use Rattle.class_world.specs.Access.{AreOfOnePackage, IsAccessibleFrom, IsInterface, Sees};

use crate::world::{JavaType, World};
use java_tree::tree::Mod;

/// A declared member, by its number among the world's methods or fields.
#[derive(Clone, Copy, Debug, PartialEq, Eq)]
pub enum Declared {
    Method(u32),
    Field(u32),
}

/// Whether a member is accessible in a class. `through` is the type by which it is used: `None` for a static member and for a use by `super` or `this`, written or not. It says nothing yet, since user files are of one package.
pub fn sees(w: &World, class: u32, member: &Declared, through: Option<&JavaType>) -> bool
    ensures { IsTrue result ↔ Sees w.now class member.now (option_map (λ t. t.now) through.entry) }
{
    let _ = through;
    match member {
        Declared::Method(m) => match w.methods.get(*m as usize) {
            Some(info) => is_accessible(w, class, info.owner, info.mods.as_slice()),
            None => false,
        },
        Declared::Field(f) => match w.fields.get(*f as usize) {
            Some(info) => is_accessible(w, class, info.owner, info.mods.as_slice()),
            None => false,
        },
    }
}

fn is_accessible(w: &World, class: u32, owner: u32, mods: &[Mod]) -> bool
    ensures { IsTrue result ↔ IsAccessibleFrom w.now class owner mods.now }
{
    class == owner
        || mods.contains(&Mod::Public)
        || is_interface(w, owner)
        || (!mods.contains(&Mod::Private) && are_of_one_package(w, class, owner))
}

/// Whether a type is an interface.
fn is_interface(w: &World, c: u32) -> bool
    ensures { IsTrue result ↔ IsInterface w.now c }
{
    match w.types.get(c as usize) {
        Some(info) => info.interface,
        None => false,
    }
}

fn are_of_one_package(w: &World, c: u32, d: u32) -> bool
    ensures { IsTrue result ↔ AreOfOnePackage w.now c d }
{
    let Some(a) = w.types.get(c as usize) else {
        return false;
    };
    let Some(b) = w.types.get(d as usize) else {
        return false;
    };
    a.package.as_slice() == b.package.as_slice()
}
