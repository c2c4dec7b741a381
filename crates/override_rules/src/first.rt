//! DR13 to DR17.

ghost use Rattle.std.specs.Prelude.{IfOk};
ghost use Rattle.rule_order.specs.First.{IsFirst};
ghost use Rattle.class_world.specs.Sound.{IsSound};
ghost use Rattle.method_ties.specs.Ties.{HoldsTies};
ghost use Rattle.override_rules.specs.Rules.{OverrideBreaches};
ghost use Rattle.class_world.specs.Typed.{HaveTypes};

use crate::declared::first_declared;
use crate::inherited::first_inherited;
use class_world::World;
use java_tree::NoMemory;
use method_ties::MethodTies;
use rule_order::{Breach, earlier};
use std::alloc::Global;

/// The first of DR13 to DR17 that is broken, with the number behind the DR: at the first node, and there the lowest number. Of a method that overrides or hides another, or does where a class has both, the result suits the other's (JLS 8.4.5), it is accessible as far (8.4.8.3), its throws clause names no more checked classes (8.4.8.3), the other is not final (8.4.3.3), and both are static or none is (8.4.8.1, 8.4.8.2).
///
/// Where no rule is broken it takes time for each method and those whose place it takes at once, for the pairs that classes have from both sides, and for sorting the methods. Where one is broken it also takes time, for each method, for all whose place it takes through methods that break one; it is `NoMemory` also where there are more than 2^32 types or methods.
pub fn first_override_breach(
    alloc: Global,
    w: &World,
    ties: &MethodTies,
) -> Result<Option<Breach>, NoMemory>
    requires sound { IsSound w.now }
    requires typed { HaveTypes w.now }
    requires ties { HoldsTies w.now ties.now }
    ensures { IfOk result (λ o. IsFirst (OverrideBreaches w.now) o) }
{
    let declared = first_declared(alloc, w, ties)?;
    let inherited = first_inherited(alloc, w, ties)?;
    Ok(earlier(declared, inherited))
}
