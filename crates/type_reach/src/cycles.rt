//! Which nodes lead to themselves.

ghost use Rattle.std.specs.Prelude.{◌≡◌, ℕ, ◌<◌, length, map, slice_get, Some, true, ◌↔◌, IfOk};
ghost use Rattle.type_reach.specs.Reach.{Leads, IsFirstOnCycle};
ghost use Rattle.type_reach.specs.Paths.{is_on_cycle};

use crate::Graph;
use crate::search::{Search, Stage};
use java_tree::NoMemory;
use std::alloc::Global;

/// For each node whether a way of one or more edges leads from it to itself. Takes time for the nodes and the edges.
pub fn on_cycles(alloc: Global, graph: &Graph) -> Result<Vec<bool>, NoMemory>
    ensures len { IfOk result (λ r. length r.items ≡ length graph.now) }
    ensures cycles { IfOk result (λ r. (a : ℕ) → (slice_get r.items a ≡ Some true) ↔ Leads graph.now a a) }
{
    let mut search = Search::new(alloc, graph)?;
    for node in 0..graph.len() {
        search.visit(graph, node)?;
    }
    answers_of(alloc, search.stages.as_slice())
}

fn answers_of(alloc: Global, stages: &[Stage]) -> Result<Vec<bool>, NoMemory>
    ensures { IfOk result (λ v. v.items ≡ map is_on_cycle stages.now) }
{
    let mut answers = Vec::new(alloc);
    for stage in stages {
        answers.push(matches!(stage, Stage::Done(true)))?;
    }
    Ok(answers)
}

/// The first node, by number, from which a way leads back to itself. `NoMemory` also where that number is 2^32 or more.
pub fn first_on_cycle(alloc: Global, graph: &Graph) -> Result<Option<u32>, NoMemory>
    ensures { IfOk result (IsFirstOnCycle graph.now) }
{
    let answers = on_cycles(alloc, graph)?;
    for (node, on_cycle) in answers.iter().enumerate() {
        if *on_cycle {
            return match u32::try_from(node) {
                Ok(node) => Ok(Some(node)),
                Err(_) => Err(NoMemory),
            };
        }
    }
    Ok(None)
}
