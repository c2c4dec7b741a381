//! Methods that labels take into their groups, each once.

ghost use Rattle.std.specs.Prelude.{◌≡◌, ◌<◌, ◌↔◌, ◌⊎◌, ℕ, OnOk, length};
ghost use Rattle.std.specs.List.{Contains};
ghost use Rattle.method_groups.specs.Taking.{AreTaken, KeepsTakers};

use java_tree::NoMemory;

/// Takes those of the methods that the label has not taken yet. Takes time for the methods given, and memory for those that are taken.
///
/// `takers` tells of each method which label took it last, so that none is taken twice and nothing is cleared for the next label.
pub(crate) fn take_all(
    methods: &[u32],
    label: u32,
    takers: &mut Vec<u32>,
    taken: &mut Vec<u32>,
) -> Result<(), NoMemory>
    requires within { (k : ℕ) → Contains methods.now k → k < length takers.old.items }
    requires taken { AreTaken takers.old.items label taken.old.items }
    ensures taken { OnOk result (AreTaken takers.new.items label taken.new.items) }
    ensures adds { OnOk result ((k : ℕ) → Contains taken.new.items k ↔ (Contains taken.old.items k ⊎ Contains methods.now k)) }
    ensures kept { OnOk result (KeepsTakers takers.old.items takers.new.items label) }
{
    for m in methods {
        take(*m, label, takers, taken)?;
    }
    Ok(())
}

/// Takes a method, unless the label has taken it.
fn take(m: u32, label: u32, takers: &mut Vec<u32>, taken: &mut Vec<u32>) -> Result<(), NoMemory>
    requires within { m < length takers.old.items }
    requires taken { AreTaken takers.old.items label taken.old.items }
    ensures taken { OnOk result (AreTaken takers.new.items label taken.new.items) }
    ensures adds { OnOk result ((k : ℕ) → Contains taken.new.items k ↔ (Contains taken.old.items k ⊎ (k ≡ m))) }
    ensures kept { OnOk result (KeepsTakers takers.old.items takers.new.items label) }
{
    if takers[m as usize] == label {
        return Ok(());
    }
    takers[m as usize] = label;
    taken.push(m)?;
    Ok(())
}
