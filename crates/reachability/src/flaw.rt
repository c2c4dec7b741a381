//! The first broken rule on flow.

ghost use Rattle.std.specs.Prelude.{◌≡◌};
ghost use Rattle.reachability.specs.Flaws as spec;
ghost use Rattle.reachability.specs.Reached.{flaw_unless as unless};

/// A broken rule on flow, F and its number, with the number of its node.
#[derive(Clone, Copy, Debug, PartialEq, Eq)]
pub struct Flaw {
    pub node: u32,
    pub rule: u8,
}

fn is_before(a: Flaw, b: Flaw) -> bool
    ensures { result ≡ spec.is_before a b }
{
    a.node < b.node || (a.node == b.node && a.rule < b.rule)
}

/// The one of two that comes first, by node and then by rule.
pub fn earlier(a: Option<Flaw>, b: Option<Flaw>) -> Option<Flaw>
    ensures { result ≡ spec.earlier a b }
{
    match (a, b) {
        (None, _) => b,
        (_, None) => a,
        (Some(x), Some(y)) => if is_before(y, x) { b } else { a },
    }
}

/// What is first once a rule turned out to be broken at a node.
pub fn noted(node: u32, rule: u8, first: Option<Flaw>) -> Option<Flaw>
    ensures { result ≡ spec.noted node rule first }
{
    earlier(first, Some(Flaw { node, rule }))
}

/// What is first once it turned out whether a node keeps a rule.
pub fn flaw_unless(holds: bool, node: u32, rule: u8, first: Option<Flaw>) -> Option<Flaw>
    ensures { result ≡ unless holds node rule first }
{
    if holds {
        first
    } else {
        noted(node, rule, first)
    }
}
