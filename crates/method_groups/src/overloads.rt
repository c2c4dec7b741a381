//! Overloads: the member methods of a type with one name and one number of parameters (JLS 3rd edition, 8.4.9).

ghost use Rattle.std.specs.Prelude.{◌↔◌, ℕ, IsTrue};
ghost use Rattle.std.specs.List.{Contains};
ghost use Rattle.std.specs.List.Sorted.{IsStrictlyIncreasing};
ghost use Rattle.member_methods.specs.Methods.{HoldsMethods};
ghost use Rattle.method_groups.specs.Beside.{AreAlike, AreBeside};

use class_world::World;
use member_methods::MethodLists;

/// The member methods of the type `member_of` with the name and the number of parameters of the method `method`.
#[derive(Clone, Copy, Debug, PartialEq, Eq)]
pub(crate) struct Overloads {
    pub(crate) member_of: u32,
    pub(crate) method: u32,
}

/// The numbers of the methods, ascending.
pub(crate) fn methods_of<'a>(w: &World, lists: &'a MethodLists, x: Overloads) -> &'a [u32]
    requires { HoldsMethods w.now lists.now }
    ensures has { AreBeside w.now x.member_of x.method x.method → (k : ℕ) → Contains result.now k ↔ AreBeside w.now x.member_of x.method k }
    ensures ascending { IsStrictlyIncreasing result.now }
{
    match w.methods.get(x.method as usize) {
        Some(info) => lists.named(x.member_of, info.name, info.params.len()),
        None => &[],
    }
}

/// Whether two methods have one name and one number of parameters.
pub(crate) fn are_alike(w: &World, m: u32, k: u32) -> bool
    ensures { IsTrue result ↔ AreAlike w.now m k }
{
    let Some(i) = w.methods.get(m as usize) else {
        return false;
    };
    let Some(j) = w.methods.get(k as usize) else {
        return false;
    };
    i.name == j.name && i.params.len() == j.params.len()
}
