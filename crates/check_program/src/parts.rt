//! Written types and parameters of declarations.

ghost use Rattle.std.specs.Prelude.{◌≡◌, ◌+◌, map, length, IfOk};
ghost use Rattle.std.specs.Option.{option_map};
ghost use Rattle.java_tree.specs.View as view;
ghost use Rattle.java_core.specs.View as core;
ghost use Rattle.java_core.specs.View.{param_plain, written};
ghost use Rattle.checked.specs.Checked.{Meets};
ghost use Rattle.type_facts.specs.Facts.{AreFacts, Facts, IsReady};
ghost use Rattle.check_program.specs.Classes as spec;

use check_stmt::scopes::with_levels;
use checked::Stop;
use class_world::{JavaType, copied};
use java_core::{CoreParam, CoreType};
use java_tree::tree::{Param, TypeExpr};
use java_tree::{Boxed, Items, NoMemory};
use operator_rules::writtens::written;
use std::alloc::Global;
use type_facts::Questions;
use type_facts::scope::Place;

/// What written types say, each in turn.
#[tactic(auto, using(crate::proofs::Steps::written_step, crate::proofs::Steps::written_stop, crate::proofs::Steps::written_end))]
pub fn all_written(
    alloc: Global,
    q: &Questions<'_>,
    place: &Place,
    xs: &[TypeExpr],
) -> Result<Items<CoreType>, Stop>
    requires ready { IsReady q.now }
    ensures { (f : Facts) → AreFacts q.now f → Meets (map written) result (spec.all_written f place.now (map view.type_plain xs.now)) }
{
    let mut done = Items::new(alloc);
    for x in xs {
        done.push(written(alloc, q, place, x)?)?;
    }
    Ok(done)
}

/// What a result's type says; `void` says none.
pub fn maybe_written(
    alloc: Global,
    q: &Questions<'_>,
    place: &Place,
    x: &Option<TypeExpr>,
) -> Result<Option<CoreType>, Stop>
    requires ready { IsReady q.now }
    ensures { (f : Facts) → AreFacts q.now f → Meets (option_map written) result (spec.maybe_written f place.now (option_map view.type_plain x.now)) }
{
    match x {
        None => Ok(None),
        Some(x) => Ok(Some(written(alloc, q, place, x)?)),
    }
}

#[tactic(auto, using(java_core::proofs::Views::type_out))]
fn param_made(alloc: Global, x: &Param, slot: u32, written: CoreType) -> Result<CoreParam, NoMemory>
    ensures { IfOk result (λ r. param_plain r ≡ spec.param_made (view.param_plain x.now) slot (core.written written)) }
{
    Ok(CoreParam {
        node: x.node,
        is_final: x.is_final,
        name: x.name,
        slot,
        ty: with_levels(alloc, copied(alloc, &written.ty)?, x.dims)?,
        written,
    })
}

/// The parameters of a method, each in the slot of its position. `NoMemory` also where there are 2^32.
#[tactic(auto, using(crate::proofs::Steps::param_step, crate::proofs::Steps::param_stop, crate::proofs::Steps::param_end))]
pub fn params_of(
    alloc: Global,
    q: &Questions<'_>,
    place: &Place,
    xs: &[Param],
) -> Result<Items<CoreParam>, Stop>
    requires ready { IsReady q.now }
    ensures { (f : Facts) → AreFacts q.now f → Meets (map param_plain) result (spec.params_from f place.now 0 (map view.param_plain xs.now)) }
{
    let mut done = Items::new(alloc);
    for x in xs {
        let Ok(slot) = u32::try_from(done.len()) else {
            return Err(Stop::NoMemory);
        };
        let ty = written(alloc, q, place, &x.ty)?;
        done.push(param_made(alloc, x, slot, ty)?)?;
    }
    Ok(done)
}
