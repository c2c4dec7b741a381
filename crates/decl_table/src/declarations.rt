//! The DR rules over all files of a program.

ghost use Rattle.std.specs.Prelude.{◌≡◌, ℕ, ◌<◌, ◌^◌, Bool, List, map, length, IfOk};
ghost use Rattle.java_tree.specs.View.{unit_plain};
ghost use Rattle.rule_order.specs.First.{IsFirst};
ghost use Rattle.type_names.specs.Known.{files_of};
ghost use Rattle.type_names.specs.Rules.{Among};
ghost use Rattle.type_names.specs.Tables.{StandsFor, files_in};
ghost use Rattle.decl_rules.specs.DeclaredRules.{BreaksDeclared};
ghost use Rattle.class_world.specs.declared.world.TypeInfo as spec_world;
ghost use Rattle.class_world.specs.Sound.{HaveClassSupers};
ghost use Rattle.type_headers.specs.Declared.{headers};
ghost use Rattle.decl_table.specs.Clashes.{IsFirstClash};
ghost use Rattle.decl_table.specs.Program.{RuleBreaches};

use class_world::{MethodInfo, TypeInfo, World, first_below_two};
use decl_rules::first_declared;
use declared_types::first_declared_breach;
use java_tree::NoMemory;
use java_tree::tree::SourceUnit;
use method_rules::first_repeated;
use rule_order::{Breach, earlier};
use std::alloc::Global;
use super_rules::first_super_breach;
use type_names::{JavaNames, TypeNames};

/// The first of DR1 to DR12 but DR4 that is broken, in a program whose types have these headers and which has these methods.
pub(crate) fn first_rule_breach(
    alloc: Global,
    java: JavaNames,
    meant: &TypeNames,
    types: &[TypeInfo],
    methods: &[MethodInfo],
    user: &[SourceUnit],
    lib: &[SourceUnit],
) -> Result<Option<Breach>, NoMemory>
    ensures { (built : List spec_world.TypeInfo) → length built ≡ 19 → StandsFor meant.now java (files_of (map unit_plain user.now) (map unit_plain lib.now))
        → types.now ≡ headers built (files_of (map unit_plain user.now) (map unit_plain lib.now))
        → IfOk result (λ r. IsFirst (RuleBreaches java (files_of (map unit_plain user.now) (map unit_plain lib.now)) types.now methods.now) r) }
{
    let in_methods = first_repeated(alloc, methods)?;
    let in_supers = first_super_breach(alloc, meant, types, user, lib)?;
    let in_types = first_declared_breach(alloc, meant, types, user, lib)?;
    let in_imports = meant.first_import_breach(java, user, lib);
    let in_files = first_in_files(alloc, user, lib)?;
    let of_supers = earlier(in_supers, in_methods);
    let of_types = earlier(in_types, of_supers);
    let of_imports = earlier(in_imports, of_types);
    Ok(earlier(in_files, of_imports))
}

/// DR4: the first declared type that is below two parameterizations of one type.
pub(crate) fn first_clash(alloc: Global, world: &World) -> Result<Option<Breach>, NoMemory>
    requires supers { HaveClassSupers world.now }
    requires few { length world.now.types < 2 ^ 32 }
    ensures { IfOk result (λ r. IsFirstClash world.now r) }
{
    let Some(number) = first_below_two(alloc, world)? else {
        return Ok(None);
    };
    // A built-in type is below none that is parameterized, so this one has a node.
    let node = match world.types.get(number as usize) {
        Some(info) => info.node,
        None => None,
    };
    Ok(match node {
        Some(node) => Some(Breach { node, rule: 4 }),
        None => None,
    })
}

/// The first of DR5, DR8 to DR11, and DR12 on fields that the files break.
fn first_in_files(
    alloc: Global,
    user: &[SourceUnit],
    lib: &[SourceUnit],
) -> Result<Option<Breach>, NoMemory>
    ensures { IfOk result (λ r. IsFirst (Among (λ f. BreaksDeclared f.unit) (files_of (map unit_plain user.now) (map unit_plain lib.now))) r) }
{
    let in_user = first_in_units(alloc, user)?;
    let in_lib = first_in_units(alloc, lib)?;
    Ok(earlier(in_user, in_lib))
}

fn first_in_units(alloc: Global, units: &[SourceUnit]) -> Result<Option<Breach>, NoMemory>
    ensures { (user : Bool) → IfOk result (λ r. IsFirst (Among (λ f. BreaksDeclared f.unit) (files_in user (map unit_plain units.now))) r) }
{
    let mut first = None;
    for unit in units {
        first = earlier(first, first_declared(alloc, unit)?);
    }
    Ok(first)
}
