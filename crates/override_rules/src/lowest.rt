//! The lowest number of a broken rule, and the breach at a node.

ghost use Rattle.std.specs.Prelude.{◌≡◌};
ghost use Rattle.override_rules.specs.Judged.{breach_of, lower_of};

use rule_order::Breach;

/// The lower of two numbers, if there is one.
pub(crate) fn lower(a: Option<u8>, b: Option<u8>) -> Option<u8>
    ensures { result ≡ lower_of a b }
{
    match a {
        None => b,
        Some(x) => match b {
            None => Some(x),
            Some(y) => Some(x.min(y)),
        },
    }
}

/// The breach of this rule at this node; `None` where one of them is missing.
pub(crate) fn breach_at(node: Option<u32>, rule: Option<u8>) -> Option<Breach>
    ensures { result ≡ breach_of node rule }
{
    match node {
        None => None,
        Some(node) => match rule {
            None => None,
            Some(rule) => Some(Breach { node, rule }),
        },
    }
}
