//! The first constraint that is not met.

ghost use Rattle.std.specs.Prelude.{◌≡◌};
ghost use Rattle.type_constraints.specs.Unmets as spec;

/// What a constraint is on: a value that goes to a place; a method and a field that a value has; an overridden method; the choice of a method; the result and the exceptions
/// of a method; and the arms of a conditional.
#[derive(Clone, Copy, Debug, PartialEq, Eq)]
pub enum Constraint {
    Assign,
    Member,
    Field,
    Override,
    Overload,
    Result,
    Throws,
    Arm,
}

/// A constraint that is not met, with the number of its node.
#[derive(Clone, Copy, Debug, PartialEq, Eq)]
pub struct Unmet {
    pub kind: Constraint,
    pub node: u32,
}

fn rank(kind: Constraint) -> u8
    ensures { result ≡ spec.rank kind }
{
    match kind {
        Constraint::Assign => 0,
        Constraint::Member => 1,
        Constraint::Field => 2,
        Constraint::Override => 3,
        Constraint::Overload => 4,
        Constraint::Result => 5,
        Constraint::Throws => 6,
        Constraint::Arm => 7,
    }
}

fn is_before(a: Unmet, b: Unmet) -> bool
    ensures { result ≡ spec.is_before a b }
{
    a.node < b.node || (a.node == b.node && rank(a.kind) < rank(b.kind))
}

/// The one of two that comes first, by node and then by kind.
fn earlier(a: Option<Unmet>, b: Option<Unmet>) -> Option<Unmet>
    ensures { result ≡ spec.earlier a b }
{
    match (a, b) {
        (None, _) => b,
        (_, None) => a,
        (Some(x), Some(y)) => { if is_before(y, x) { b } else { a } }
    }
}

/// What is first once a constraint turned out not to be met at a node.
pub(crate) fn noted(node: u32, kind: Constraint, first: Option<Unmet>) -> Option<Unmet>
    ensures { result ≡ spec.noted node kind first }
{
    earlier(first, Some(Unmet { kind, node }))
}

/// What is first once it turned out whether a constraint is met at a node.
pub(crate) fn unless(met: bool, node: u32, kind: Constraint, first: Option<Unmet>) -> Option<Unmet>
    ensures { result ≡ spec.unless met node kind first }
{
    if met { first } else { noted(node, kind, first) }
}
