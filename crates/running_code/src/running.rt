//! The program as it runs.

ghost use Rattle.std.specs.Prelude.{◌≡◌, IfOk};
ghost use Rattle.class_world.specs.Sound.{IsSound};
ghost use Rattle.member_table.specs.Table.{HoldsMembers};
ghost use Rattle.running_code.specs.Running.{IsMadeOf, IsReady};

use crate::entries::{Classes, classes_of};
use crate::types::{Types, types_of};
use class_world::World;
use java_core::CoreProgram;
use java_tree::{Names, NoMemory};
use member_table::Members;
use std::alloc::Global;

/// A checked program, with tables for what its run looks up by number.
#[derive(Drop)]
pub struct Running<'a> {
    pub world: &'a World,
    pub names: &'a Names,
    pub core: &'a CoreProgram,
    pub members: &'a Members,
    pub(crate) classes: Classes<'a>,
    pub(crate) types: Types,
}

/// A program with its tables. Takes time for the declarations of its world and its files.
pub fn prepare<'a>(
    alloc: Global,
    world: &'a World,
    names: &'a Names,
    core: &'a CoreProgram,
    members: &'a Members,
) -> Result<Running<'a>, NoMemory>
    requires sound { IsSound world.now }
    requires members { HoldsMembers world.now members.now }
    ensures ready { IfOk result (λ g. IsReady g) }
    ensures same { IfOk result (λ g. IsMadeOf g world.now names.now core.now members.now) }
{
    let classes = classes_of(alloc, core)?;
    let types = types_of(alloc, world)?;
    Ok(Running {
        world,
        names,
        core,
        members,
        classes,
        types,
    })
}
