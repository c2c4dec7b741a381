//! Ascending lists of methods.

ghost use Rattle.std.specs.Prelude.{◌↔◌, IsTrue, ℕ};
ghost use Rattle.std.specs.List.{Contains};
ghost use Rattle.std.specs.List.Sorted.{IsStrictlyIncreasing};

/// Whether the number is one of the ascending list; halves the list at each step.
pub(crate) fn is_among(xs: &[u32], x: u32) -> bool
    requires { IsStrictlyIncreasing xs.now }
    ensures { IsTrue result ↔ Contains xs.now x }
{
    xs.binary_search(&x).is_ok()
}

/// The numbers, ascending and each once.
pub(crate) fn ascending(mut xs: Vec<u32>) -> Vec<u32>
    ensures has { (x : ℕ) → Contains result.items x ↔ Contains xs.items x }
    ensures ascending { IsStrictlyIncreasing result.items }
{
    xs.sort_unstable();
    xs.dedup();
    xs
}
