//! The bodies and fields of two programs, member by member.

ghost use Rattle.std.specs.Prelude.{length, OnOk};
ghost use Rattle.running_code.specs.Running.{IsReady};
ghost use Rattle.alike_trees.specs.Compared as compared;
ghost use Rattle.alike_programs.specs.Alike.{AllFieldsTold, AreBodiesBelow, AreFieldsBelow, BodyTold, ClassFieldsTold};

use crate::difference::Difference;
use alike_trees::{Sides, body_alike, fields_alike};
use java_tree::tree::{Node, Span};
use program_maps::gone;
use running_code::{Running, all_fields, body_of, fields_of, method_owner};

// The node with a number, or the first one: at it a difference is told that no body or field has a node for.
fn node_of(number: Option<u32>) -> Node {
    Node {
        id: number.unwrap_or(0),
        span: Span { from: 0, to: 0 },
    }
}

fn method_node(g: &Running<'_>, method: u32) -> Node {
    match g.world.methods.get(method as usize) {
        Some(info) => node_of(info.node),
        None => node_of(None),
    }
}

fn type_node(g: &Running<'_>, class: u32) -> Node {
    match g.world.types.get(class as usize) {
        Some(info) => node_of(info.node),
        None => node_of(None),
    }
}

/// Whether a method or constructor does what the one does that it goes to.
pub(crate) fn body_at(
    sides: &Sides<'_>,
    old: &Running<'_>,
    new: &Running<'_>,
    method: u32,
) -> Result<(), Difference>
    requires old { IsReady old.now }
    requires new { IsReady new.now }
    requires sides { compared.IsReady sides.now }
    ensures { OnOk result (BodyTold (compared.pair sides.now) old.now new.now method) }
{
    let Some(owner) = method_owner(old, method) else {
        return Ok(());
    };
    let Some(class) = gone(&sides.map.types, owner) else {
        return Err(Difference::Tables);
    };
    let Some(moved) = gone(&sides.map.methods, method) else {
        return Err(Difference::Tables);
    };
    let node = method_node(old, method);
    let before = body_of(old, owner, method);
    let after = body_of(new, class, moved);
    body_alike(sides, node, before, after).map_err(Difference::Tree)
}

/// Whether the fields that a type declares are those of the type that it goes to.
pub(crate) fn fields_at(
    sides: &Sides<'_>,
    old: &Running<'_>,
    new: &Running<'_>,
    class: u32,
) -> Result<(), Difference>
    requires old { IsReady old.now }
    requires new { IsReady new.now }
    requires sides { compared.IsReady sides.now }
    ensures { OnOk result (ClassFieldsTold (compared.pair sides.now) old.now new.now class) }
{
    let Some(moved) = gone(&sides.map.types, class) else {
        return Err(Difference::Tables);
    };
    let node = type_node(old, class);
    let before = fields_of(old, class);
    let after = fields_of(new, moved);
    fields_alike(sides, node, before, after).map_err(Difference::Tree)
}

fn bodies_alike(sides: &Sides<'_>, old: &Running<'_>, new: &Running<'_>) -> Result<(), Difference>
    requires old { IsReady old.now }
    requires new { IsReady new.now }
    requires sides { compared.IsReady sides.now }
    ensures { OnOk result (AreBodiesBelow (compared.pair sides.now) old.now new.now (length old.now.world.now.methods)) }
{
    let Ok(count) = u32::try_from(old.world.methods.len()) else {
        return Err(Difference::Tables);
    };
    for method in 0..count {
        body_at(sides, old, new, method)?;
    }
    Ok(())
}

fn class_fields_alike(
    sides: &Sides<'_>,
    old: &Running<'_>,
    new: &Running<'_>,
) -> Result<(), Difference>
    requires old { IsReady old.now }
    requires new { IsReady new.now }
    requires sides { compared.IsReady sides.now }
    ensures { OnOk result (AreFieldsBelow (compared.pair sides.now) old.now new.now (length old.now.world.now.types)) }
{
    let Ok(count) = u32::try_from(old.world.types.len()) else {
        return Err(Difference::Tables);
    };
    for class in 0..count {
        fields_at(sides, old, new, class)?;
    }
    Ok(())
}

fn all_fields_alike(
    sides: &Sides<'_>,
    old: &Running<'_>,
    new: &Running<'_>,
) -> Result<(), Difference>
    requires old { IsReady old.now }
    requires new { IsReady new.now }
    requires sides { compared.IsReady sides.now }
    ensures { OnOk result (AllFieldsTold (compared.pair sides.now) old.now new.now) }
{
    let before = all_fields(old);
    let after = all_fields(new);
    fields_alike(sides, node_of(None), before, after).map_err(Difference::Tree)
}

/// Whether all methods and constructors do the same, and all fields are alike, type by type and in all.
pub(crate) fn members_alike(
    sides: &Sides<'_>,
    old: &Running<'_>,
    new: &Running<'_>,
) -> Result<(), Difference>
    requires old { IsReady old.now }
    requires new { IsReady new.now }
    requires sides { compared.IsReady sides.now }
    ensures bodies { OnOk result (AreBodiesBelow (compared.pair sides.now) old.now new.now (length old.now.world.now.methods)) }
    ensures fields { OnOk result (AreFieldsBelow (compared.pair sides.now) old.now new.now (length old.now.world.now.types)) }
    ensures all { OnOk result (AllFieldsTold (compared.pair sides.now) old.now new.now) }
{
    bodies_alike(sides, old, new)?;
    class_fields_alike(sides, old, new)?;
    all_fields_alike(sides, old, new)
}
