//! What a look-up asks of each method.

ghost use Rattle.std.specs.Prelude.{◌↔◌, IsTrue, IfOk};
ghost use Rattle.signature_numbers.specs.Numbers.{AreApart};
ghost use Rattle.found_methods.specs.Callees.{AreCallees, IsCallee, IsFixedBy, IsNumbered, KeepsNumbers};

use class_world::{MethodInfo, World};
use java_tree::NoMemory;
use java_tree::tree::{Mod, Name};
use seen_methods::are_closed;
use signature_numbers::SignatureNumbers;
use std::alloc::Global;

/// A method: its owner, its name, how many parameters it has, whether no object's class chooses it, and the number of its parameter types where these hold no type variable.
#[derive(Clone, Copy)]
pub(crate) struct Callee {
    pub(crate) owner: u32,
    pub(crate) name: Name,
    pub(crate) arity: usize,
    pub(crate) fixed: bool,
    pub(crate) params: Option<u32>,
}

/// All methods, by number.
pub(crate) fn callees_of(alloc: Global, w: &World) -> Result<Vec<Callee>, NoMemory>
    ensures { IfOk result (λ v. AreCallees w.now v.items) }
{
    let mut numbers = SignatureNumbers::new(alloc);
    let mut callees = Vec::new(alloc);
    for info in w.methods.as_slice() {
        let callee = callee_of(&mut numbers, info)?;
        callees.push(callee)?;
    }
    Ok(callees)
}

fn callee_of(numbers: &mut SignatureNumbers, info: &MethodInfo) -> Result<Callee, NoMemory>
    requires apart { AreApart numbers.old }
    ensures apart { AreApart numbers.new }
    ensures kept { KeepsNumbers numbers.old numbers.new }
    ensures callee { IfOk result (λ x. IsCallee numbers.new info.now x) }
{
    Ok(Callee {
        owner: info.owner,
        name: info.name,
        arity: info.params.len(),
        fixed: is_fixed(info),
        params: params_of(numbers, info)?,
    })
}

/// Whether the method is a constructor, static or private.
fn is_fixed(info: &MethodInfo) -> bool
    ensures { IsTrue result ↔ IsFixedBy info.now }
{
    let mods = info.mods.as_slice();
    info.constructor || mods.contains(&Mod::Static) || mods.contains(&Mod::Private)
}

/// The number of a method's parameter types. Whatever its name is: methods of one family have one.
fn params_of(numbers: &mut SignatureNumbers, info: &MethodInfo) -> Result<Option<u32>, NoMemory>
    requires apart { AreApart numbers.old }
    ensures apart { AreApart numbers.new }
    ensures kept { KeepsNumbers numbers.old numbers.new }
    ensures numbered { IfOk result (λ n. IsNumbered numbers.new info.now n) }
{
    let params = info.params.as_slice();
    if info.constructor || !are_closed(params) {
        return Ok(None);
    }
    Ok(Some(numbers.number(Name(0), params)?))
}
