//! The labels of a switch.

ghost use Rattle.std.specs.Prelude.{◌≡◌, is_some, map, not};
ghost use Rattle.std.specs.List.{list_any};
ghost use Rattle.java_core.specs.View.{group_plain, group_row};
ghost use Rattle.reachability.specs.Reached as spec;

use java_core::CoreGroup;

fn is_default(labels: &[Option<i32>]) -> bool
    ensures { result ≡ list_any (λ l. not (is_some l)) labels.now }
{
    for label in labels {
        if label.is_none() {
            return true;
        }
    }
    false
}

#[tactic(auto, using(crate::proofs::Statements::group_at))]
fn is_default_group(group: &CoreGroup) -> bool
    ensures { result ≡ spec.is_default_group (group_plain group.now) }
{
    is_default(group.labels.as_slice())
}

/// Whether a switch has a label `default` (JLS 14.11).
pub fn has_default(groups: &[CoreGroup]) -> bool
    ensures { result ≡ spec.has_default (group_row (map group_plain groups.now)) }
{
    for group in groups {
        if is_default_group(group) {
            return true;
        }
    }
    false
}
