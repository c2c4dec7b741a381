//! The table of members, or the first broken rule on them.

ghost use Rattle.std.specs.Prelude.{IfOk};
ghost use Rattle.rule_order.specs.First.{IsFirst};
ghost use Rattle.class_world.specs.Sound.{IsSound};
ghost use Rattle.class_world.specs.Typed.{HaveTypes};
ghost use Rattle.member_methods.specs.Methods.{HoldsMethods};
ghost use Rattle.method_ties.specs.Ties.{HoldsTies};
ghost use Rattle.overrides.specs.Overrides.{HoldsOverrides};
ghost use Rattle.member_table.specs.Table.{HoldsMembers, IsTabling, MemberBreaches};
ghost use Rattle.member_table.specs.Judged.{IsJudged};

use crate::members::Members;
use class_world::World;
use counted_methods::CountedMethods;
use found_methods::FoundMethods;
use inherited_rules::first_inherited_breach;
use java_tree::{Broken, Family, Fault, NoMemory};
use member_fields::FieldTable;
use member_methods::MethodLists;
use method_groups::MethodGroups;
use method_ties::MethodTies;
use override_rules::first_override_breach;
use overrides::Overrides;
use rule_order::{Breach, earlier};
use std::alloc::Global;

/// The members, or the broken rule that is named.
pub(crate) enum Judged {
    Tabled(Members),
    Refused(Breach),
}

/// The members of all types of a program, or the first of DR13 to DR20 that is broken: the one at the first node, and there the one with the lowest number. The node is the number of a method's or type's declaration. `NoMemory` also where there are 2^32 types or methods, 2^32 - 1 fields, or a field's name of that number, and where a class has two superclasses, which no program says.
///
/// Takes the time that the parts take: for the types, their methods and fields, and what each type has from others than the first one directly above it, each times the bits of a number; for the members of each type and those that it has from its superinterfaces; for the pairs of one signature that a class has from both sides; and for all that each method overrides, in some rounds, mostly two or three. The rules are looked at before the tables that they do not need are made.
pub fn tabulate(alloc: Global, w: &World) -> Result<Members, Fault>
    requires sound { IsSound w.now }
    requires typed { HaveTypes w.now }
    ensures { IsTabling w.now result }
{
    match judge(alloc, w) {
        Ok(Judged::Tabled(members)) => Ok(members),
        Ok(Judged::Refused(breach)) => Err(Fault::Broken(Broken {
            family: Family::DR,
            number: breach.rule,
            node: Some(breach.node),
        })),
        Err(NoMemory) => Err(Fault::NoMemory),
    }
}

fn judge(alloc: Global, w: &World) -> Result<Judged, NoMemory>
    requires sound { IsSound w.now }
    requires typed { HaveTypes w.now }
    ensures { IfOk result (IsJudged w.now) }
{
    let lists = MethodLists::of(alloc, w)?;
    let ties = MethodTies::of(alloc, w, &lists)?;
    let overrides = Overrides::of(alloc, w, &ties)?;
    match first_breach(alloc, w, &lists, &ties, &overrides)? {
        Some(breach) => Ok(Judged::Refused(breach)),
        None => Ok(Judged::Tabled(members_of(alloc, w, lists, overrides)?)),
    }
}

/// The first of DR13 to DR20 that is broken.
fn first_breach(
    alloc: Global,
    w: &World,
    lists: &MethodLists,
    ties: &MethodTies,
    overrides: &Overrides,
) -> Result<Option<Breach>, NoMemory>
    requires sound { IsSound w.now }
    requires typed { HaveTypes w.now }
    requires lists { HoldsMethods w.now lists.now }
    requires ties { HoldsTies w.now ties.now }
    requires overrides { HoldsOverrides w.now overrides.now }
    ensures { IfOk result (λ o. IsFirst (MemberBreaches w.now) o) }
{
    let of_overriding = first_override_breach(alloc, w, ties)?;
    let of_members = first_inherited_breach(alloc, w, lists, overrides)?;
    Ok(earlier(of_overriding, of_members))
}

/// The tables that no rule needs, with those that are there.
fn members_of(
    alloc: Global,
    w: &World,
    lists: MethodLists,
    overrides: Overrides,
) -> Result<Members, NoMemory>
    requires sound { IsSound w.now }
    requires lists { HoldsMethods w.now lists }
    requires overrides { HoldsOverrides w.now overrides }
    ensures { IfOk result (λ t. HoldsMembers w.now t) }
{
    let counted = CountedMethods::of(alloc, w, &lists)?;
    let groups = MethodGroups::of(alloc, w, &lists)?;
    let found = FoundMethods::of(alloc, w, &overrides)?;
    Ok(Members {
        fields: FieldTable::of(alloc, w)?,
        lists,
        counted,
        overrides,
        groups,
        found,
    })
}
