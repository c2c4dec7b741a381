//! New objects (JLS 12.5, 15.9.4).

ghost use Rattle.std.specs.Prelude.{◌≡◌, ◌++◌, OnOk, length};
ghost use Rattle.core_meaning.specs.Code as code;
ghost use Rattle.running_code.specs.Types as spec;
ghost use Rattle.running_code.specs.Running.{IsReady, Makes};

use crate::running::Running;
use crate::types::{own_in, superclass_in};
use core_meaning::{Held, Thing, Value};
use java_tree::{Items, NoMemory};
use std::alloc::Global;

fn push_all(held: &[Held], out: &mut Items<Held>) -> Result<(), NoMemory>
    ensures { OnOk result (out.new ≡ out.old ++ held.now) }
{
    for field in held {
        out.push(*field)?;
    }
    Ok(())
}

/// What the instance fields of a class and the classes above it hold at first, of which at most n are looked at.
fn push_held(
    g: &Running<'_>,
    n: usize,
    class: Option<u32>,
    out: &mut Items<Held>,
) -> Result<(), NoMemory>
    requires { IsReady g.now }
    ensures { OnOk result (out.new ≡ out.old ++ spec.held_above n g.now.world.now class) }
{
    if n == 0 {
        return Ok(());
    }
    let Some(class) = class else {
        return Ok(());
    };
    push_held(g, n - 1, superclass_in(&g.types, class), out)?;
    push_all(own_in(&g.types, class), out)
}

/// A new object of a class: its fields, those of superclasses first, with the values that they have at first.
pub fn new_object(alloc: Global, g: &Running<'_>, class: u32) -> Result<Thing, NoMemory>
    requires { IsReady g.now }
    ensures { Makes g.now result (λ c. code.new_object c class) }
{
    let mut fields = Items::new(alloc);
    push_held(g, g.world.types.len(), Some(class), &mut fields)?;
    Ok(Thing::Object {
        class,
        fields,
        message: Value::Null,
    })
}
