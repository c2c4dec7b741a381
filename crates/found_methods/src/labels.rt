//! Labels of methods, by which families are known.

ghost use Rattle.std.specs.Prelude.{◌≡◌, length, IfOk};
ghost use Rattle.overrides.specs.Overrides.{HoldsOverrides};
ghost use Rattle.overrides.specs.Families.{AreLabels};

use class_world::World;
use java_tree::NoMemory;
use overrides::Overrides;
use std::alloc::Global;

/// For each method the first one of its family.
pub(crate) fn labels_of(
    alloc: Global,
    w: &World,
    overrides: &Overrides,
    count: u32,
) -> Result<Vec<u32>, NoMemory>
    requires overrides { HoldsOverrides w.now overrides.now }
    requires count { count ≡ length w.now.methods }
    ensures { IfOk result (λ v. AreLabels w.now v.items) }
{
    let mut labels = Vec::new(alloc);
    for m in 0..count {
        labels.push(overrides.family(m)[0])?;
    }
    Ok(labels)
}
