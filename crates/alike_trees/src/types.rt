//! Types and methods compared.

ghost use Rattle.std.specs.Prelude.{◌≡◌, ◌↔◌, ℕ, [], false, IsTrue, MatchOption, Some, is_some, slice_get};
ghost use Rattle.std.specs.Option.{option_map};
ghost use Rattle.class_world.specs.Types.{erased};
ghost use Rattle.class_world.specs.declared.world.JavaType.TheVariants as ty;
ghost use Rattle.type_kinds.specs.Kinds as kinds;
ghost use Rattle.program_maps.specs.Ways.{goes_to};
ghost use Rattle.program_maps.specs.Pairs.{CallAlike, CastAlike, FitAlike, ImpliedAlike, IsClassBelow};
ghost use Rattle.alike_trees.specs.Compared.{IsReady, pair};

use crate::sides::{Sides, Unlike};
use class_world::JavaType;
use java_tree::Items;
use java_tree::tree::Node;
use program_maps::{Numbers, goes, gone, is_moved_by_erasure};
use type_kinds::kinds::{class_number, element, primitive};
use type_kinds::of_world::is_below;

/// Whether one of two types is primitive where the other is, and the same then.
pub(crate) fn is_fit(s: &JavaType, t: &JavaType) -> bool
    ensures { IsTrue result ↔ FitAlike s.now t.now }
{
    primitive(t) == primitive(s)
}

/// Whether both are array types, or neither is.
pub(crate) fn is_array_as(s: &JavaType, t: &JavaType) -> bool
    ensures { IsTrue result ↔ (is_some (kinds.element t.now) ≡ is_some (kinds.element s.now)) }
{
    element(t).is_some() == element(s).is_some()
}

/// Whether the class of a type goes to that of another one. Types of no class do so.
pub(crate) fn is_class_moved(types: &Numbers, s: &JavaType, t: &JavaType) -> bool
    ensures { IsTrue result ↔ (kinds.class_number t.now ≡ option_map (goes_to types.now) (kinds.class_number s.now)) }
{
    match class_number(s) {
        None => class_number(t).is_none(),
        Some(c) => match class_number(t) {
            None => false,
            Some(d) => goes(types, c, d),
        },
    }
}

/// The class that the erasure of a type is (JLS 4.6).
fn erased_class(t: &JavaType) -> Option<u32>
    ensures { MatchOption result ((c : ℕ) → erased t.now ≡ ty.Class c [] → ⊥) (λ c. erased t.now ≡ ty.Class c []) }
{
    match t {
        JavaType::Class(c, _) => Some(*c),
        JavaType::Var(_) => Some(0),
        _ => None,
    }
}

/// Whether a class of the old program is, in the new one, below another.
fn is_class_below(sides: &Sides<'_>, c: u32, d: u32) -> bool
    requires { IsReady sides.now }
    ensures { IsTrue result ↔ IsClassBelow (pair sides.now) c d }
{
    match gone(&sides.map.types, c) {
        None => false,
        Some(c) => {
            let below = JavaType::Class(c, Items::new(sides.alloc));
            let above = JavaType::Class(d, Items::new(sides.alloc));
            is_below(sides.world, &below, &above)
        }
    }
}

/// Whether the erasures of two types are classes, and the first is below the second in the new program.
fn is_erasure_below(sides: &Sides<'_>, s: &JavaType, t: &JavaType) -> bool
    requires { IsReady sides.now }
    ensures { IsTrue result ↔ ((c : ℕ) × (d : ℕ) × (erased s.now ≡ ty.Class c []) × (erased t.now ≡ ty.Class d []) × IsClassBelow (pair sides.now) c d) }
{
    match erased_class(s) {
        None => false,
        Some(c) => match erased_class(t) {
            None => false,
            Some(d) => is_class_below(sides, c, d),
        },
    }
}

/// Whether implied casts to two types are alike.
pub(crate) fn is_cast_alike(sides: &Sides<'_>, s: &JavaType, t: &JavaType) -> bool
    requires { IsReady sides.now }
    ensures { IsTrue result ↔ CastAlike (pair sides.now) s.now t.now }
{
    is_moved_by_erasure(&sides.map.types, s, t) || (!sides.strict && is_erasure_below(sides, s, t))
}

/// The same, where flags say whether there is a cast.
pub(crate) fn is_implied_alike(
    sides: &Sides<'_>,
    implied: bool,
    new_implied: bool,
    s: &JavaType,
    t: &JavaType,
) -> bool
    requires { IsReady sides.now }
    ensures { IsTrue result ↔ ImpliedAlike (pair sides.now) implied new_implied s.now t.now }
{
    new_implied == implied && (!implied || is_cast_alike(sides, s, t))
}

fn is_call_alike(sides: &Sides<'_>, old: u32, new: u32) -> bool
    ensures { IsTrue result ↔ CallAlike (pair sides.now) old new }
{
    goes(&sides.map.methods, old, new) || is_other(sides.others, old, new)
}

fn is_other(others: &Items<Option<u32>>, old: u32, new: u32) -> bool
    ensures { IsTrue result ↔ (slice_get others.now old ≡ Some (Some new)) }
{
    match others.get(old as usize) {
        None => false,
        Some(None) => false,
        Some(Some(method)) => *method == new,
    }
}

/// Whether one instance method may be called in the place of another.
pub(crate) fn method_alike(sides: &Sides<'_>, node: Node, old: u32, new: u32) -> Result<(), Unlike>
    ensures { (result ≡ Ok tt) ↔ CallAlike (pair sides.now) old new }
{
    if is_call_alike(sides, old, new) {
        Ok(())
    } else {
        Err(Unlike::Call { node, old, new })
    }
}
