//! Links between places, and their order.

ghost use Rattle.std.specs.Prelude.{◌≡◌};
ghost use Rattle.kept_places.specs.Kept as spec;

/// What a link is on, in the order that counts for ties.
#[derive(Clone, Copy)]
pub enum Kind {
    Assign,
    Member,
    Field,
    Override,
    Overload,
    Result,
    Throws,
    Arm,
    Argument,
}

/// A constraint on places, which have the node numbers of their declared types. A step: if the place `from` changes, the place `to` does too. A need, where `to` is
/// `None`: `from` can't change. It stands at the node with the number `node`.
#[derive(Clone, Copy)]
pub struct Link {
    pub from: u32,
    pub node: u32,
    pub kind: Kind,
    pub to: Option<u32>,
}

/// A place that can't change, by its node number, and the first link of its chain: the node number and the kind of the link, and the place to which it steps, where it
/// is no need.
#[derive(Clone, Copy)]
pub struct Kept {
    pub place: u32,
    pub node: u32,
    pub kind: Kind,
    pub next: Option<u32>,
}

fn rank(kind: Kind) -> u8
    ensures { result ≡ spec.rank kind }
{
    match kind {
        Kind::Assign => 0,
        Kind::Member => 1,
        Kind::Field => 2,
        Kind::Override => 3,
        Kind::Overload => 4,
        Kind::Result => 5,
        Kind::Throws => 6,
        Kind::Arm => 7,
        Kind::Argument => 8,
    }
}

/// Whether a link is the same as or before another by node, kind and next place.
pub(crate) fn is_not_after(a: Link, b: Link) -> bool
    ensures { result ≡ spec.is_not_after a b }
{
    if a.node != b.node {
        return a.node < b.node;
    }
    if rank(a.kind) != rank(b.kind) {
        return rank(a.kind) < rank(b.kind);
    }
    a.to.unwrap_or(0) <= b.to.unwrap_or(0)
}
