//! The table of the member fields.

ghost use Rattle.std.specs.Prelude.{◌≡◌, ℕ, IfOk};
ghost use Rattle.class_world.specs.declared.world.World.{World};
ghost use Rattle.class_world.specs.Inheritance.{FieldIs, holder};
ghost use Rattle.class_world.specs.Sound.{IsSound};
ghost use Rattle.member_fields.specs.Fields.{HoldsFields, field_in};

use crate::build::Build;
use crate::own::{name_limit, own_fields};
use class_world::{JavaType, World, supers_first};
use java_tree::tree::Name;
use java_tree::{Items, NoMemory};
use shared_maps::{Map, SharedMaps};
use std::alloc::Global;

/// The member fields of all types, by type and name.
#[derive(Drop)]
pub struct FieldTable {
    maps: SharedMaps,
    members: Items<Map>,
}

impl FieldTable {
    /// The table of a world. `NoMemory` also where it has 2^32 - 1 fields or more, or a name of that number.
    ///
    /// Takes time for the types, their fields and, for each of several types directly above one, the names that it does not share with all others, times how often their number can be halved; all times the bits of the largest name.
    pub fn of(alloc: Global, w: &World) -> Result<FieldTable, NoMemory>
        requires sound { IsSound w.now }
        ensures { IfOk result (λ t. HoldsFields w.now t) }
    {
        if w.fields.len() >= u32::MAX as usize {
            return Err(NoMemory);
        }
        let own = own_fields(alloc, w)?;
        let order = supers_first(alloc, w)?;
        let mut build = Build::new(alloc, name_limit(w)?, own.len())?;
        build.add_all(alloc, w, own.as_slice(), order.as_slice())?;
        let Build {
            maps,
            members,
            handed: _,
        } = build;
        Ok(FieldTable {
            maps,
            members: Items::from_vec(members),
        })
    }

    /// The number of the field that a name means in a type: of its only member field of that name. Takes no memory, and looks at as many nodes as the largest name of a field has bits, and one more.
    pub fn get(&self, t: &JavaType, name: Name) -> Option<u32>
        ensures { (w : World) → HoldsFields w self.now → FieldIs w t.now name result }
    {
        self.found(t, name)
    }

    fn found(&self, t: &JavaType, name: Name) -> Option<u32>
        ensures { result ≡ field_in self.now t.now name }
    {
        let map = self.members.get(holder_of(t)? as usize)?;
        match self.maps.get(*map, name.0)? {
            0 => None,
            value => Some(value - 1),
        }
    }
}

/// The declared type whose members a reference type has.
fn holder_of(t: &JavaType) -> Option<u32>
    ensures { result ≡ holder t.now }
{
    match t {
        JavaType::Prim(_) | JavaType::Null => None,
        JavaType::Class(c, _) => Some(*c),
        JavaType::Var(_) | JavaType::Array(_) => Some(0),
    }
}
