//! Rows that are given numbers, part by part.

ghost use Rattle.std.specs.Prelude.{◌≡◌, Some, IfOk};
ghost use Rattle.std.specs.List.{flat_map};
ghost use Rattle.signature_numbers.specs.Codes.{parts};
ghost use Rattle.signature_numbers.specs.Steps.{HasSteps, Keeps, next_in, reached};

use crate::codes::{Part, Step, primitive};
use class_world::JavaType;
use java_tree::NoMemory;
use std::collections::HashMap;

/// The number of a row with one more part.
pub(crate) fn add_step(
    steps: &mut HashMap<Step, u32>,
    after: u32,
    part: Part,
) -> Result<u32, NoMemory>
    requires { HasSteps steps.old.entries }
    ensures good { HasSteps steps.new.entries }
    ensures kept { Keeps steps.old.entries steps.new.entries }
    ensures found { IfOk result (λ n. next_in steps.new.entries after part ≡ Some n) }
{
    let step = Step { after, part };
    if let Some(number) = steps.get(&step) {
        return Ok(*number);
    }
    let Ok(number) = u32::try_from(steps.len() + 1) else {
        return Err(NoMemory);
    };
    steps.insert(step, number)?;
    Ok(number)
}

/// The number of a row with the parts of one more type.
#[cycle(add)]
fn add_type(steps: &mut HashMap<Step, u32>, after: u32, t: &JavaType) -> Result<u32, NoMemory>
    requires { HasSteps steps.old.entries }
    ensures good { HasSteps steps.new.entries }
    ensures kept { Keeps steps.old.entries steps.new.entries }
    ensures found { IfOk result (λ n. reached (next_in steps.new.entries) (Some after) (parts t.now) ≡ Some n) }
{
    match t {
        JavaType::Prim(p) => add_step(steps, after, primitive(*p)),
        JavaType::Null => add_step(steps, after, Part::Null),
        JavaType::Class(c, args) => {
            let next = add_step(steps, after, Part::Class(*c, args.len()))?;
            add_types(steps, next, args.as_slice())
        }
        JavaType::Var(k) => add_step(steps, after, Part::Var(*k)),
        JavaType::Array(element) => {
            let next = add_step(steps, after, Part::Level)?;
            add_type(steps, next, element.get())
        }
    }
}

/// The number of a row with the parts of some more types.
#[cycle(add)]
pub(crate) fn add_types(
    steps: &mut HashMap<Step, u32>,
    after: u32,
    ts: &[JavaType],
) -> Result<u32, NoMemory>
    requires { HasSteps steps.old.entries }
    ensures good { HasSteps steps.new.entries }
    ensures kept { Keeps steps.old.entries steps.new.entries }
    ensures found { IfOk result (λ n. reached (next_in steps.new.entries) (Some after) (flat_map parts ts.now) ≡ Some n) }
{
    match ts.split_first() {
        None => Ok(after),
        Some((t, others)) => {
            let next = add_type(steps, after, t)?;
            add_types(steps, next, others)
        }
    }
}
