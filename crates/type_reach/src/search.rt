//! A search that finds which nodes lead to each other.

ghost use Rattle.std.specs.Prelude.{◌≡◌, ℕ, ◌<◌, ◌≤◌, ◌⊎◌, ◌↔◌, List, [], ◌∷◌, ◌++◌, length, slice_get, slice_set, Some, false, IsTrue, IfOk, OnOk};
ghost use Rattle.type_reach.specs.Paths.{IsCycle, IsSearch, IsSet, KeepsMet, Searches, work};
ghost use Rattle.type_reach.specs.declared.search.Stage.TheVariants as stage;

use crate::Graph;
use java_tree::NoMemory;
use std::alloc::Global;

/// How far a search has come with a node: not met; open, with its place in the path; or done, and on a cycle or not.
#[derive(Clone, Copy)]
pub(crate) enum Stage {
    New,
    Open(usize),
    Done(bool),
}

/// A part of the path, whose nodes lead to each other: the place of its first node in the path, and of its first target among those that are still to be followed.
#[derive(Clone, Copy)]
pub(crate) struct Part {
    pub(crate) node: usize,
    pub(crate) target: usize,
}

/// The open nodes in order are a path: each leads to those behind it. The path is cut into parts, and so are the targets that its nodes still have to follow.
#[derive(Drop)]
pub(crate) struct Search {
    pub(crate) stages: Vec<Stage>,
    pub(crate) path: Vec<usize>,
    pub(crate) targets: Vec<u32>,
    pub(crate) parts: Vec<Part>,
}

impl Search {
    pub(crate) fn new(alloc: Global, graph: &Graph) -> Result<Search, NoMemory>
        ensures search { IfOk result (Searches graph.now) }
        ensures rests { IfOk result (λ s. s.parts.items ≡ []) }
    {
        Ok(Search {
            stages: vec![in alloc; Stage::New; graph.len()]?,
            path: Vec::new(alloc),
            targets: Vec::new(alloc),
            parts: Vec::new(alloc),
        })
    }

    /// Finishes a node and all to which it leads.
    pub(crate) fn visit(&mut self, graph: &Graph, node: usize) -> Result<(), NoMemory>
        requires search { Searches graph.now self.old }
        requires rests { self.old.parts.items ≡ [] }
        ensures search { OnOk result (Searches graph.now self.new) }
        ensures rests { OnOk result (self.new.parts.items ≡ []) }
        ensures kept { OnOk result (KeepsMet self.old.stages.items self.new.stages.items) }
        ensures met { OnOk result (slice_get self.new.stages.items node ≡ Some stage.New → ⊥) }
    {
        if let Stage::New = self.stage_of(node) {
            self.enter(graph, node)?;
            while let Some(part) = self.parts.pop() {
                self.follow(graph, part)?;
            }
        }
        Ok(())
    }

    fn stage_of(&self, node: usize) -> Stage
        ensures { (slice_get self.now.stages.items node ≡ Some result) ⊎ ((length self.now.stages.items ≤ node) × (result ≡ stage.Done false)) }
    {
        match self.stages.get(node) {
            Some(stage) => *stage,
            None => Stage::Done(false),
        }
    }

    /// Opens a node, as a part of its own.
    fn enter(&mut self, graph: &Graph, node: usize) -> Result<(), NoMemory>
        requires { node < length self.old.stages.items }
        ensures stages { OnOk result (self.new.stages.items ≡ slice_set self.old.stages.items node (stage.Open (length self.old.path.items))) }
        ensures path { OnOk result (self.new.path.items ≡ self.old.path.items ++ node ∷ []) }
        ensures targets { OnOk result ((row : List ℕ) → slice_get graph.now node ≡ Some row → self.new.targets.items ≡ self.old.targets.items ++ row) }
        ensures parts { OnOk result (self.new.parts.items ≡ self.old.parts.items ++ record { node = length self.old.path.items; target = length self.old.targets.items } ∷ []) }
    {
        self.parts.push(Part {
            node: self.path.len(),
            target: self.targets.len(),
        })?;
        self.stages[node] = Stage::Open(self.path.len());
        self.path.push(node)?;
        if let Some(targets) = graph.get(node) {
            self.targets.extend_from_slice(targets.as_slice())?;
        }
        Ok(())
    }

    /// One step with the last part, which has been taken from the parts: it follows a target, joins the part before it, or is finished.
    fn follow(&mut self, graph: &Graph, part: Part) -> Result<(), NoMemory>
        requires { IsSearch graph.now self.old.stages.items self.old.path.items self.old.targets.items (self.old.parts.items ++ part ∷ []) }
        ensures search { OnOk result (Searches graph.now self.new) }
        ensures kept { OnOk result (KeepsMet self.old.stages.items self.new.stages.items) }
        ensures less { OnOk result (work graph.now self.new ≤ work graph.now self.old) }
    {
        if self.targets.len() <= part.target {
            self.close(graph, part);
            return Ok(());
        }
        let Some(target) = self.targets.pop() else {
            return Ok(());
        };
        match self.stage_of(target as usize) {
            Stage::New => {
                self.parts.push(part)?;
                self.enter(graph, target as usize)?;
            }
            Stage::Open(at) if at < part.node => self.targets.push(target)?,
            _ => self.parts.push(part)?,
        }
        Ok(())
    }

    /// Finishes the nodes of the last part, which has been taken from the parts. They lead to no other open node.
    fn close(&mut self, graph: &Graph, part: Part)
        requires search { IsSearch graph.now self.old.stages.items self.old.path.items self.old.targets.items (self.old.parts.items ++ part ∷ []) }
        requires followed { length self.old.targets.items ≤ part.target }
        ensures search { Searches graph.now self.new }
        ensures kept { KeepsMet self.old.stages.items self.new.stages.items }
        ensures less { work graph.now self.new ≤ work graph.now self.old }
    {
        let nodes = &self.path[part.node..];
        let on_cycle = is_cycle(graph, nodes);
        set_all(nodes, &mut self.stages, on_cycle);
        self.path.truncate(part.node);
    }
}

/// Whether nodes that lead to each other are on cycles: there are two, or there is one that is its own target.
fn is_cycle(graph: &Graph, nodes: &[usize]) -> bool
    ensures { IsTrue result ↔ IsCycle graph.now nodes.now }
{
    let [node] = nodes else {
        return nodes.len() > 1;
    };
    match graph.get(*node) {
        Some(targets) => targets.as_slice().iter().any(|b| *b as usize == *node),
        None => false,
    }
}

fn set_all(nodes: &[usize], stages: &mut Vec<Stage>, on_cycle: bool)
    ensures { IsSet stages.old.items stages.new.items (stage.Done on_cycle) nodes.now }
{
    for node in nodes {
        if *node < stages.len() {
            stages[*node] = Stage::Done(on_cycle);
        }
    }
}
