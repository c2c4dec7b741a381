//! Rows that are looked up, part by part.

ghost use Rattle.std.specs.Prelude.{◌≡◌, Some};
ghost use Rattle.std.specs.List.{flat_map};
ghost use Rattle.signature_numbers.specs.Codes.{parts};
ghost use Rattle.signature_numbers.specs.Steps.{next_in, reached};

use crate::codes::{Part, Step, primitive};
use class_world::JavaType;
use std::collections::HashMap;

pub(crate) fn find_step(steps: &HashMap<Step, u32>, after: u32, part: Part) -> Option<u32>
    ensures { result ≡ next_in steps.now.entries after part }
{
    steps.get(&Step { after, part }).copied()
}

#[cycle(find)]
fn find_type(steps: &HashMap<Step, u32>, after: u32, t: &JavaType) -> Option<u32>
    ensures { result ≡ reached (next_in steps.now.entries) (Some after) (parts t.now) }
{
    match t {
        JavaType::Prim(p) => find_step(steps, after, primitive(*p)),
        JavaType::Null => find_step(steps, after, Part::Null),
        JavaType::Class(c, args) => {
            let next = find_step(steps, after, Part::Class(*c, args.len()))?;
            find_types(steps, next, args.as_slice())
        }
        JavaType::Var(k) => find_step(steps, after, Part::Var(*k)),
        JavaType::Array(element) => {
            let next = find_step(steps, after, Part::Level)?;
            find_type(steps, next, element.get())
        }
    }
}

#[cycle(find)]
pub(crate) fn find_types(steps: &HashMap<Step, u32>, after: u32, ts: &[JavaType]) -> Option<u32>
    ensures { result ≡ reached (next_in steps.now.entries) (Some after) (flat_map parts ts.now) }
{
    match ts.split_first() {
        None => Some(after),
        Some((t, others)) => {
            let next = find_type(steps, after, t)?;
            find_types(steps, next, others)
        }
    }
}
