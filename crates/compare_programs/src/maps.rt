//! The map from one program to another one by names: types by their full names, and their methods and fields by their places in their types. What both programs declare
//! has to stand in one order; the new one may declare more.

use class_world::{TypeInfo, World};
use java_tree::tree::Name;
use java_tree::{Items, Names, NoMemory};
use program_maps::{Map, Numbers};
use running_code::text_of;
use std::alloc::Global;

/// A program's world, and the texts of its names.
#[derive(Clone, Copy)]
pub struct Named<'a> {
    pub world: &'a World,
    pub names: &'a Names,
}

fn same_name(old: Named<'_>, new: Named<'_>, a: Name, b: Name) -> bool {
    text_of(old.names, a) == text_of(new.names, b)
}

fn same_package(old: Named<'_>, new: Named<'_>, a: &[Name], b: &[Name]) -> bool {
    if a.len() != b.len() {
        return false;
    }
    for (x, y) in a.iter().zip(b) {
        if !same_name(old, new, *x, *y) {
            return false;
        }
    }
    true
}

fn same_type(old: Named<'_>, new: Named<'_>, a: &TypeInfo, b: &TypeInfo) -> bool {
    same_name(old, new, a.name, b.name)
        && same_package(old, new, a.package.as_slice(), b.package.as_slice())
}

// Numbers of which so many are to be mapped, and among so many.
fn unmapped(alloc: Global, old: usize, new: usize) -> Result<Numbers, NoMemory> {
    let mut to = Items::new(alloc);
    for _ in 0..old {
        to.push(u32::MAX)?;
    }
    let mut back = Items::new(alloc);
    for _ in 0..new {
        back.push(None)?;
    }
    Ok(Numbers { to, back })
}

// The map of which nothing is known yet.
fn empty_map(alloc: Global, old: &World, new: &World) -> Result<Map, NoMemory> {
    let types = unmapped(alloc, old.types.len(), new.types.len())?;
    let methods = unmapped(alloc, old.methods.len(), new.methods.len())?;
    let fields = unmapped(alloc, old.fields.len(), new.fields.len())?;
    Ok(Map {
        types,
        methods,
        fields,
    })
}

fn set(numbers: &mut Numbers, from: u32, to: u32) {
    if (from as usize) < numbers.to.len() && (to as usize) < numbers.back.len() {
        *numbers.to.at_mut(from as usize) = to;
        *numbers.back.at_mut(to as usize) = Some(from);
    }
}

fn set_all(numbers: &mut Numbers, from: &[u32], to: &[u32]) {
    for (a, b) in from.iter().zip(to) {
        set(numbers, *a, *b);
    }
}

// Maps a type, and its methods and fields.
fn set_type(map: &mut Map, from: u32, to: u32, before: &TypeInfo, after: &TypeInfo) {
    set(&mut map.types, from, to);
    set_all(
        &mut map.methods,
        before.methods.as_slice(),
        after.methods.as_slice(),
    );
    set_all(
        &mut map.fields,
        before.fields.as_slice(),
        after.fields.as_slice(),
    );
}

/// The map by names. Where a type has no counterpart, it goes to no number of the new program, and the programs differ.
pub fn map_by_names(alloc: Global, old: Named<'_>, new: Named<'_>) -> Result<Map, NoMemory> {
    let mut map = empty_map(alloc, old.world, new.world)?;
    let mut from: u32 = 0;
    for (number, after) in new.world.types.as_slice().iter().enumerate() {
        let (Some(before), Ok(to)) = (old.world.types.get(from as usize), u32::try_from(number))
        else {
            break;
        };
        if same_type(old, new, before, after) {
            set_type(&mut map, from, to, before, after);
            from = from.saturating_add(1);
        }
    }
    Ok(map)
}
