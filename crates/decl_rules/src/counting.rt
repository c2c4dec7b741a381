//! How many declarations files have (L6, L7).

ghost use Rattle.std.specs.Prelude.{◌≡◌, ◌+◌, ◌-◌, ◌^◌, min, length, map};
ghost use Rattle.java_tree.specs.View.{member_plain, decl_plain, unit_plain};
ghost use Rattle.decl_rules.specs.DeclaredRules as rule;

use java_tree::Items;
use java_tree::tree::{Member, SourceUnit, TypeDecl};

/// How many types files declare, and how many methods and constructors they write. Each stops at the greatest u64.
#[derive(Clone, Copy, Debug, PartialEq, Eq)]
pub struct Counts {
    pub types: u64,
    pub methods: u64,
}

/// The counts with one more file.
pub fn count(before: Counts, unit: &SourceUnit) -> Counts
    ensures types { result.types ≡ min (before.types + rule.declared_types (unit_plain unit.now)) (2 ^ 64 - 1) }
    ensures methods { result.methods ≡ min (before.methods + rule.declared_methods (unit_plain unit.now)) (2 ^ 64 - 1) }
{
    Counts {
        types: before.types.saturating_add(unit.types.len() as u64),
        methods: count_methods(before.methods, &unit.types),
    }
}

fn count_methods(mut methods: u64, types: &Items<TypeDecl>) -> u64
    ensures { result ≡ min (methods + rule.methods_of (map decl_plain types.now)) (2 ^ 64 - 1) }
{
    for d in types.as_slice() {
        methods = count_members(methods, &d.members);
    }
    methods
}

fn count_members(mut methods: u64, members: &Items<Member>) -> u64
    ensures { result ≡ min (methods + rule.methods_among (map member_plain members.now)) (2 ^ 64 - 1) }
{
    for m in members.as_slice() {
        match m {
            Member::Field { .. } => (),
            Member::Method { .. } => methods = methods.saturating_add(1),
        }
    }
    methods
}
