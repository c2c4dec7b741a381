//! What is in scope in a body (JLS 6.3 and 14.4.2).

ghost use Rattle.std.specs.Prelude.{◌≡◌, ◌++◌, [], ◌∷◌, length, take, IfOk, OnOk, OnErr};
ghost use Rattle.std.specs.Option.{option_copied};
ghost use Rattle.class_world.specs.Types.{variables};
ghost use Rattle.type_facts.specs.Scopes as spec;

use class_world::JavaType;
use java_tree::tree::Name;
use java_tree::{Items, NoMemory};
use std::alloc::{AllocError, Global};
use std::marker::Model;

/// A local or parameter (JLS 4.12.3), with the number of its slot.
#[derive(Drop)]
pub struct LocalVar {
    pub name: Name,
    pub slot: u32,
    pub ty: JavaType,
    pub is_final: bool,
}

/// The locals in scope, the last declared last (JLS 14.4.2).
#[derive(Drop)]
pub struct Locals {
    items: Vec<LocalVar>,
}

impl Model for Locals {
    ghost use Rattle.std.specs.Prelude.{List};
    ghost use Rattle.type_facts.specs.declared.scope.LocalVar as declared;
    ghost use Rattle.class_world.specs.contracts.world.JavaType as java_type;
    ghost use Rattle.std.specs.Coded.{codes};

    ghost Value = { List declared.LocalVar };

    ghost coded = { Prim.hlevel (codes, java_type.the_row.coded) };

    ghost view = { λ a. a.items.items };
}

impl Locals {
    pub fn new(alloc: Global) -> Locals
        ensures { result ≡ [] }
    {
        Locals {
            items: Vec::new(alloc),
        }
    }

    pub fn len(&self) -> usize
        ensures { result ≡ length self.now }
    {
        self.items.len()
    }

    /// The locals in scope, the last declared last.
    pub fn as_slice(&self) -> &[LocalVar]
        ensures { result.now ≡ self.now }
    {
        self.items.as_slice()
    }

    /// The local or parameter of a name (JLS 6.5.6.1): the one that was declared last.
    pub fn find(&self, name: Name) -> Option<&LocalVar>
        ensures { option_copied result ≡ spec.find_local self.now name }
    {
        let mut found = None;
        for local in &self.items {
            if local.name.0 == name.0 {
                found = Some(local);
            }
        }
        found
    }

    pub fn push(&mut self, local: LocalVar) -> Result<(), AllocError>
        ensures ok { OnOk result (self.new ≡ self.old ++ local ∷ []) }
        ensures err { OnErr result (self.new ≡ self.old) }
    {
        self.items.push(local)?;
        Ok(())
    }

    /// Takes off the locals that were declared since there were so many.
    pub fn truncate(&mut self, len: usize)
        ensures { self.new ≡ take len self.old }
    {
        self.items.truncate(len);
    }
}

/// What is around a body: the number of the class, the names of its type parameters, whether there is no `this` (JLS 15.8.3), whether it is in a static member, the class's final instance fields without a value by number (JLS 8.3.1.2), and the result of the method, `None` where there is none.
#[derive(Drop)]
pub struct Place {
    pub class: u32,
    pub vars: Items<Name>,
    pub is_static: bool,
    pub in_static: bool,
    pub blanks: Items<u32>,
    pub result: Option<JavaType>,
}

/// The type variables of a class of so many parameters.
fn own_variables(alloc: Global, params: u32) -> Result<Items<JavaType>, NoMemory>
    ensures { IfOk result (λ vs. vs ≡ variables 0 params) }
{
    let mut vs = Items::new(alloc);
    for k in 0..params {
        vs.push(JavaType::Var(k))?;
    }
    Ok(vs)
}

/// The type of `this`: the class with its own type variables (JLS 8.1.2, 15.8.3). More than 2^32 - 1 parameters are want of memory.
pub fn own_type(alloc: Global, place: &Place) -> Result<JavaType, NoMemory>
    ensures { IfOk result (λ t. t ≡ spec.own_type place.now) }
{
    let count = place.vars.len();
    if count > u32::MAX as usize {
        return Err(NoMemory);
    }
    let vars = own_variables(alloc, count as u32)?;
    Ok(JavaType::Class(place.class, vars))
}
