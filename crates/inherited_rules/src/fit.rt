//! Whether one result fits another. A result is a type, or `None` for void.

ghost use Rattle.std.specs.Prelude.{◌≡◌, ◌↔◌, IsTrue};
ghost use Rattle.class_world.specs.Sound.{IsSound};
ghost use Rattle.inherited_rules.specs.Rules.{FitsResult};
ghost use Rattle.inherited_rules.specs.Parts.{IsResult, IsUnlike};
ghost use Rattle.inherited_rules.specs.Chains.{IsBelow};

use class_world::{JavaType, World, fits, is_same, is_sub};
use seen_methods::is_reference;

/// Whether one result may stand where the other is wanted.
pub(crate) fn fits_result(w: &World, r: &Option<JavaType>, q: &Option<JavaType>) -> bool
    requires sound { IsSound w.now }
    requires types { IsResult w.now r.now × IsResult w.now q.now }
    ensures { IsTrue result ↔ FitsResult w.now r.now q.now }
{
    match r {
        None => q.is_none(),
        Some(s) => match q {
            None => false,
            Some(t) => is_same(s, t) || (is_reference(s) && is_reference(t) && fits(w, s, t)),
        },
    }
}

/// Whether neither result fits the other.
pub(crate) fn is_unlike(w: &World, r: &Option<JavaType>, q: &Option<JavaType>) -> bool
    requires sound { IsSound w.now }
    requires types { IsResult w.now r.now × IsResult w.now q.now }
    ensures { IsTrue result ↔ IsUnlike w.now r.now q.now }
{
    !fits_result(w, r, q) && !fits_result(w, q, r)
}

/// Whether it is the same or a subtype, so that it fits without an unchecked conversion.
pub(crate) fn is_below(w: &World, r: &Option<JavaType>, q: &Option<JavaType>) -> bool
    requires sound { IsSound w.now }
    requires types { IsResult w.now r.now × IsResult w.now q.now }
    ensures { IsTrue result ↔ IsBelow w.now r.now q.now }
{
    match r {
        None => q.is_none(),
        Some(s) => match q {
            None => false,
            Some(t) => is_same(s, t) || (is_reference(s) && is_reference(t) && is_sub(w, s, t)),
        },
    }
}

pub(crate) fn is_same_result(r: &Option<JavaType>, q: &Option<JavaType>) -> bool
    ensures { IsTrue result ↔ (r.now ≡ q.now) }
{
    match r {
        None => q.is_none(),
        Some(s) => match q {
            None => false,
            Some(t) => is_same(s, t),
        },
    }
}
