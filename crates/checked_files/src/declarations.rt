//! The declarations of a program's files.

ghost use Rattle.std.specs.Prelude.{◌≡◌, ◌≤◌, ◌<◌, ◌^◌, length, map, OnOk};
ghost use Rattle.java_tree.specs.Names.{IsFront};
ghost use Rattle.java_tree.specs.View.{unit_plain};
ghost use Rattle.built_in_types.specs.BuiltIns.{with_words};
ghost use Rattle.checked_files.specs.Judged.{AreJudged};

use class_world::World;
use decl_table::build;
use java_tree::tree::SourceUnit;
use java_tree::{Fault, Names};
use member_table::{Members, tabulate};
use std::alloc::Global;

/// What the declarations of a program say.
#[derive(Drop)]
pub struct Declared {
    pub world: World,
    pub members: Members,
}

/// Judges the declarations of a program whose first files, so many, are the user's, and whose others are those of libraries: `Ok` where no rule is
/// broken. Node numbers are those of the trees. The table gets the names that the built-in types need behind its own.
pub fn judge_declarations(
    alloc: Global,
    users: usize,
    units: &[SourceUnit],
    names: &mut Names,
) -> Result<Declared, Fault>
    requires users { users ≤ length units.now }
    requires few { length names.old < 2 ^ 31 }
    ensures kept { IsFront names.old names.new }
    ensures table { OnOk result (names.new ≡ with_words names.old) }
    ensures judged { AreJudged users names.old (map unit_plain units.now) result }
{
    let (user, lib) = units.split_at(users);
    let world = build(alloc, user, lib, names)?;
    let members = tabulate(alloc, &world)?;
    Ok(Declared { world, members })
}
