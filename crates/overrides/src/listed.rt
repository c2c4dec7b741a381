//! The numbers of each label, listed.

ghost use Rattle.std.specs.Prelude.{◌≡◌, ℕ, ◌<◌, ◌^◌, Some, length, slice_get, IfOk};
ghost use Rattle.overrides.specs.Families.{AreFamilies};

use java_tree::{Items, NoMemory};
use std::alloc::Global;

/// For each label the list of its numbers, ascending; empty for what is no label. Takes time for the numbers.
pub(crate) fn lists_of(alloc: Global, labels: &[u32]) -> Result<Vec<Items<u32>>, NoMemory>
    requires few { length labels.now < 2 ^ 32 }
    requires within { (m l : ℕ) → slice_get labels.now m ≡ Some l → l < length labels.now }
    ensures { IfOk result (λ v. AreFamilies labels.now v.items) }
{
    let mut lists = Vec::new(alloc);
    for _ in 0..labels.len() {
        lists.push(Items::new(alloc))?;
    }
    for (m, label) in labels.iter().enumerate() {
        lists[*label as usize].push(m as u32)?;
    }
    Ok(lists)
}
