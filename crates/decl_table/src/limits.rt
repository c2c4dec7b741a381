//! The limits on how many types, and how many methods and constructors, files declare (L6 and L7).

ghost use Rattle.std.specs.Prelude.{◌≡◌, ℕ, ◌+◌, ◌-◌, ◌^◌, ◌<◌, ◌≤◌, min, map, length, IfSome, IfNone};
ghost use Rattle.java_tree.specs.View.{unit_plain};
ghost use Rattle.decl_rules.specs.DeclaredRules.{declared_types, declared_methods};
ghost use Rattle.decl_table.specs.Program.{sum, IsLimitOver};

use decl_rules::{Counts, count};
use java_tree::tree::SourceUnit;

/// The most types that the files of a program declare.
const MOST_TYPES: u64 = 4096;
/// The most methods and constructors that they write.
const MOST_METHODS: u64 = 65536;

/// The first limit that the files go past: 6 for types, else 7 for methods and constructors.
pub(crate) fn broken_limit(user: &[SourceUnit], lib: &[SourceUnit]) -> Option<u8>
    ensures { IsLimitOver (sum declared_types (map unit_plain user.now) + sum declared_types (map unit_plain lib.now)) (sum declared_methods (map unit_plain user.now) + sum declared_methods (map unit_plain lib.now)) result }
{
    let none = Counts {
        types: 0,
        methods: 0,
    };
    let counts = count_units(count_units(none, user), lib);
    if counts.types > MOST_TYPES {
        Some(6)
    } else if counts.methods > MOST_METHODS {
        Some(7)
    } else {
        None
    }
}

fn count_units(mut counts: Counts, units: &[SourceUnit]) -> Counts
    ensures types { result.types ≡ min (counts.types + sum declared_types (map unit_plain units.now)) (2 ^ 64 - 1) }
    ensures methods { result.methods ≡ min (counts.methods + sum declared_methods (map unit_plain units.now)) (2 ^ 64 - 1) }
{
    for unit in units {
        counts = count(counts, unit);
    }
    counts
}
