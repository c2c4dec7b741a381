//! Which nodes lead to marked ones.

ghost use Rattle.std.specs.Prelude.{◌≡◌, ℕ, ◌<◌, length, slice_get, Some, true, ◌↔◌, IfOk, Contains};
ghost use Rattle.type_reach.specs.Reach.{Reaches};

use crate::Graph;
use crate::sources::reversed;
use java_tree::NoMemory;
use std::alloc::Global;

/// For each node whether it is marked or leads to a marked one. A node that `marks` lacks is not marked. Takes time for the nodes and the edges.
pub fn reaching(alloc: Global, graph: &Graph, marks: &[bool]) -> Result<Vec<bool>, NoMemory>
    ensures len { IfOk result (λ r. length r.items ≡ length graph.now) }
    ensures reach { IfOk result (λ r. (a : ℕ) → a < length graph.now → (slice_get r.items a ≡ Some true) ↔ Reaches graph.now marks.now a) }
{
    let sources = reversed(alloc, graph)?;
    let mut reached = vec![in alloc; false; graph.len()]?;
    let mut waiting = marked_nodes(alloc, marks)?;
    while let Some(node) = waiting.pop() {
        if node < reached.len() && !reached[node] {
            reached[node] = true;
            waiting.extend_from_slice(sources[node].as_slice())?;
        }
    }
    Ok(reached)
}

fn marked_nodes(alloc: Global, marks: &[bool]) -> Result<Vec<usize>, NoMemory>
    ensures { IfOk result (λ v. (a : ℕ) → Contains v.items a ↔ (slice_get marks.now a ≡ Some true)) }
{
    let mut nodes = Vec::new(alloc);
    for (node, mark) in marks.iter().enumerate() {
        if *mark {
            nodes.push(node)?;
        }
    }
    Ok(nodes)
}
