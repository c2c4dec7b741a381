//! Which of several broken rules is named: the one at the first node, and there the one with the lowest number.
#![tactic(auto)]

ghost use Rattle.std.specs.Prelude.{◌≡◌};
ghost use Rattle.rule_order.specs.First.{IsEarlier};
ghost use Rattle.rule_order.specs.Noted as spec;

use java_tree::tree::Node;

/// A broken rule: the number of the node at which it is broken, and the number behind the rule's letter.
#[derive(Clone, Copy, Debug, PartialEq, Eq)]
pub struct Breach {
    pub node: u32,
    pub rule: u8,
}

/// The one of two that is named. So two searches for the first broken rule make one.
pub fn earlier(a: Option<Breach>, b: Option<Breach>) -> Option<Breach>
    ensures { IsEarlier a b result }
{
    match (a, b) {
        (Some(x), Some(y)) if (y.node, y.rule) < (x.node, x.rule) => Some(y),
        (Some(x), _) => Some(x),
        (None, other) => other,
    }
}

/// The first broken rule so far, where this one is next, and broken if `holds` says so.
#[tactic(auto, using(crate::proofs::Adding::earlier_same))]
pub fn noted(first: Option<Breach>, rule: u8, node: Node, holds: bool) -> Option<Breach>
    ensures { result ≡ spec.noted first rule node holds }
{
    if !holds {
        return first;
    }
    let next = Breach {
        node: node.id,
        rule,
    };
    earlier(first, Some(next))
}
