//! Families of methods (JLS 8.4.8.1), and parameter types without type variables.

ghost use Rattle.std.specs.Prelude.{◌≡◌, ℕ, ◌<◌, ◌↔◌, IsTrue, IfSome};
ghost use Rattle.std.specs.List.{Contains};
ghost use Rattle.class_world.specs.Overriding.{HaveOneParameterList, IsFamily};
ghost use Rattle.running_code.specs.Running.{IsReady};
ghost use Rattle.alike_lookups.specs.Families.{IsLike};

use class_world::{JavaType, World, is_same};
use running_code::Running;
use seen_methods::{are_closed, method_of};

fn are_same(xs: &[JavaType], ys: &[JavaType]) -> bool
    ensures { IsTrue result ↔ (xs.now ≡ ys.now) }
{
    match xs.split_first() {
        None => ys.is_empty(),
        Some((x, xs)) => match ys.split_first() {
            None => false,
            Some((y, ys)) => is_same(x, y) && are_same(xs, ys),
        },
    }
}

fn have_one_list(w: &World, m: u32, k: u32) -> bool
    ensures { IsTrue result → HaveOneParameterList w.now m k }
{
    let Some(info) = method_of(w, m) else {
        return false;
    };
    let Some(other) = method_of(w, k) else {
        return false;
    };
    are_same(info.params.as_slice(), other.params.as_slice()) && are_closed(info.params.as_slice())
}

/// Whether each method of the list is the first one, or has its parameter types, which hold no type variable.
pub(crate) fn are_like(w: &World, methods: &[u32], first: u32) -> bool
    ensures { IsTrue result → (k : ℕ) → Contains methods.now k → IsLike w.now k first }
{
    for method in methods {
        if *method != first && !have_one_list(w, *method, first) {
            return false;
        }
    }
    true
}

/// The first method of a method's family, by number.
fn first_of(g: &Running<'_>, m: u32) -> Option<u32>
    requires { IsReady g.now }
    ensures { IfSome result (λ f. IsFamily g.now.world.now m f) }
{
    if m as usize >= g.world.methods.len() {
        return None;
    }
    g.members.family(m).first().copied()
}

/// Whether two methods are of one family.
pub(crate) fn are_of_one_family(g: &Running<'_>, m: u32, k: u32) -> bool
    requires { IsReady g.now }
    ensures { IsTrue result → IsFamily g.now.world.now m k }
{
    match first_of(g, m) {
        Some(first) => match first_of(g, k) {
            Some(other) => first == other,
            None => false,
        },
        None => false,
    }
}

/// Whether a method is of the family of one with a lower number.
pub(crate) fn is_later(g: &Running<'_>, m: u32) -> bool
    requires { IsReady g.now }
    ensures { IsTrue result → (f : ℕ) × (f < m) × IsFamily g.now.world.now m f }
{
    match first_of(g, m) {
        Some(first) => first < m,
        None => false,
    }
}
