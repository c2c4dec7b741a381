//! The check of a program.

ghost use Rattle.std.specs.Prelude.{◌≡◌, Bool, IfOk, map};
ghost use Rattle.java_tree.specs.Names.{AreDistinct};
ghost use Rattle.java_tree.specs.View.{unit_plain};
ghost use Rattle.class_world.specs.declared.world.JavaType.{JavaType};
ghost use Rattle.class_world.specs.Sound.{IsSound};
ghost use Rattle.decl_table.specs.Judged.{IsProgram};
ghost use Rattle.decl_table.specs.Program.{Program};
ghost use Rattle.java_core.specs.View.{program_plain};
ghost use Rattle.member_table.specs.Table.{HoldsMembers};
ghost use Rattle.thrown_exceptions.specs.Thrown.{IsOrder};
ghost use Rattle.type_facts.specs.Facts.{IsReady};
ghost use Rattle.checker.specs.Checking.{IsCheckedBy};
ghost use Rattle.checker.specs.Flows as flows;

use crate::fault::{CheckFault, type_fault};
use crate::words::{java_names, length_name};
use check_program::check_program;
use class_world::World;
use definite_assignment::unassigned;
use java_core::CoreProgram;
use java_tree::tree::SourceUnit;
use java_tree::{Items, Names, NoMemory};
use member_table::Members;
use reachability::{Flaw, earlier, unreached};
use std::alloc::Global;
use thrown_exceptions::unhandled;
use type_facts::Questions;
use type_names::TypeNames;
use unchecked_ops::{Operation, program_operations};

/// A program that breaks no rule: its core, and its unchecked operations as they stand in the files.
#[derive(Drop)]
pub struct CheckedProgram {
    pub core: CoreProgram,
    pub operations: Items<Operation>,
}

/// The first broken rule on flow, F1 to F12.
fn first_flaw(alloc: Global, world: &World, program: &CoreProgram) -> Result<Option<Flaw>, NoMemory>
    requires { IsSound world.now }
    ensures { (below : JavaType → JavaType → Bool) → IsOrder world.now below → IfOk result (λ r. r ≡ flows.first_flaw world.now below (program_plain program.now)) }
{
    let unassigned = unassigned(alloc, world, program)?;
    let unhandled = unhandled(alloc, world, program)?;
    Ok(earlier(unreached(program), earlier(unassigned, unhandled)))
}

/// A core that breaks no rule on types, with its unchecked operations, or the first broken rule on flow.
fn flowing(
    alloc: Global,
    q: &Questions<'_>,
    core: CoreProgram,
) -> Result<CheckedProgram, CheckFault>
    requires ready { IsReady q.now }
    ensures { flows.IsJudged q.now (program_plain core) result }
{
    match first_flaw(alloc, q.world, &core)? {
        Some(Flaw { node, rule }) => Err(CheckFault::Flow { node, rule }),
        None => {
            let operations = program_operations(alloc, q, &core)?;
            Ok(CheckedProgram { core, operations })
        }
    }
}

/// Checks the program of these user files and library files, whose declarations have this world and these members: its core with its unchecked operations, or the
/// first broken rule. The table has the names that the built-in types need.
pub fn check_files(
    alloc: Global,
    world: &World,
    members: &Members,
    names: &Names,
    user: &[SourceUnit],
    lib: &[SourceUnit],
) -> Result<CheckedProgram, CheckFault>
    requires sound { IsSound world.now }
    requires members { HoldsMembers world.now members.now }
    requires distinct { AreDistinct names.now }
    requires program { (p : Program) × IsProgram names.now (map unit_plain user.now) (map unit_plain lib.now) p }
    ensures { (p : Program) → IsProgram names.now (map unit_plain user.now) (map unit_plain lib.now) p → IsCheckedBy p world.now result }
{
    let meant = TypeNames::of(alloc, java_names(names), user, lib)?;
    let questions = Questions {
        world,
        members,
        names: &meant,
        file: 0,
        length_name: length_name(names),
    };
    match check_program(alloc, &questions, user, lib) {
        Ok(core) => flowing(alloc, &questions, core),
        Err(stop) => Err(type_fault(stop)),
    }
}
