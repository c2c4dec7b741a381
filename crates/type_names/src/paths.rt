//! Packages that are found by their paths.

ghost use Rattle.std.specs.Prelude.{◌≡◌, ◌↔◌, List, [], ◌∷◌, ◌++◌, length, Some, IsTrue, IfOk, OnOk};
ghost use Rattle.java_tree.specs.declared.tree.Name as spec_name;
ghost use Rattle.type_names.specs.Paths.{number_in, HasPath, HasSteps, Keeps, IsTree, next_in, reached};

use java_tree::tree::Name;
use java_tree::{Items, NoMemory};
use std::alloc::Global;
use std::collections::HashMap;
use std::marker::Model;

/// Some packages, one of them more than once where more than one file is in it.
#[derive(Drop)]
pub(crate) struct Packages {
    paths: Items<Items<Name>>,
    tree: Tree,
}

impl Model for Packages {
    ghost use Rattle.std.specs.Prelude.{List};
    ghost use Rattle.java_tree.specs.declared.tree.Name.{Name};

    ghost Value = { List (List Name) };

    ghost use Rattle.type_names.specs.Paths.{IsTree};

    ghost view = { λ p. p.paths };

    ghost invariant = { λ p. IsTree p.paths p.tree };
}

impl Packages {
    /// Takes time for the names of the paths.
    pub(crate) fn of(alloc: Global, paths: Items<Items<Name>>) -> Result<Packages, NoMemory>
        ensures { IfOk result (λ ps. ps ≡ paths) }
    {
        let tree = Tree::of(alloc, paths.as_slice())?;
        Ok(Packages { paths, tree })
    }

    /// The number of a package, which is its first place, `None` where it is none of these. Takes no memory, and a look-up for each name of the path.
    pub(crate) fn number_of(&self, path: &[Name]) -> Option<usize>
        ensures { result ≡ number_in self.now path.now }
    {
        self.tree.place_of(path)
    }

    /// Whether this is one of the packages. Takes no memory, and a look-up for each name of the path.
    pub(crate) fn has(&self, path: &[Name]) -> bool
        ensures { IsTrue result ↔ HasPath self.now path.now }
    {
        self.number_of(path).is_some()
    }
}

/// A name behind the path that ends at a node.
#[derive(Clone, Copy, Debug, PartialEq, Eq, Hash)]
pub(crate) struct Step {
    pub(crate) after: u32,
    pub(crate) name: u32,
}

/// A tree of the names of some paths. The empty path ends at node 0, and no two paths end at one node.
#[derive(Drop)]
pub(crate) struct Tree {
    /// The node at which a path with one more name ends.
    steps: HashMap<Step, u32>,
    /// The first place of the path that ends at a node, if it is one of the paths.
    places: HashMap<u32, usize>,
}

impl Tree {
    fn of(alloc: Global, paths: &[Items<Name>]) -> Result<Tree, NoMemory>
        ensures { IfOk result (λ t. IsTree paths.now t) }
    {
        let mut tree = Tree {
            steps: HashMap::new(alloc),
            places: HashMap::new(alloc),
        };
        for (place, path) in paths.iter().enumerate() {
            tree.note(place, path.as_slice())?;
        }
        Ok(tree)
    }

    /// Takes in one path more, whose place is behind the others.
    fn note(&mut self, place: usize, path: &[Name]) -> Result<(), NoMemory>
        requires { HasSteps self.old.steps.entries }
        ensures { OnOk result ((ps : List (List spec_name.Name)) → length ps ≡ place → IsTree ps self.old → IsTree (ps ++ path.now ∷ []) self.new) }
    {
        let end = add_path(&mut self.steps, path)?;
        if !self.places.contains_key(&end) {
            self.places.insert(end, place)?;
        }
        Ok(())
    }

    /// The first place of a path, `None` where it is none of them.
    fn place_of(&self, path: &[Name]) -> Option<usize>
        ensures { (ps : List (List spec_name.Name)) → IsTree ps self.now → result ≡ number_in ps path.now }
    {
        let end = end_of(&self.steps, path)?;
        self.places.get(&end).copied()
    }
}

/// The end of a path, to which steps are added where there are none.
fn add_path(steps: &mut HashMap<Step, u32>, path: &[Name]) -> Result<u32, NoMemory>
    requires { HasSteps steps.old.entries }
    ensures good { OnOk result (HasSteps steps.new.entries) }
    ensures kept { OnOk result (Keeps steps.old.entries steps.new.entries) }
    ensures found { IfOk result (λ n. reached (next_in steps.new.entries) (Some 0) path.now ≡ Some n) }
{
    let mut end = 0;
    for name in path {
        end = add_step(steps, end, name.0)?;
    }
    Ok(end)
}

/// The end of a path with one more name.
fn add_step(steps: &mut HashMap<Step, u32>, after: u32, name: u32) -> Result<u32, NoMemory>
    requires { HasSteps steps.old.entries }
    ensures good { OnOk result (HasSteps steps.new.entries) }
    ensures kept { OnOk result (Keeps steps.old.entries steps.new.entries) }
    ensures found { IfOk result (λ n. next_in steps.new.entries after name ≡ Some n) }
{
    let step = Step { after, name };
    if let Some(node) = steps.get(&step) {
        return Ok(*node);
    }
    let Ok(node) = u32::try_from(steps.len() + 1) else {
        return Err(NoMemory);
    };
    steps.insert(step, node)?;
    Ok(node)
}

/// The end of a path, `None` where it has none.
fn end_of(steps: &HashMap<Step, u32>, path: &[Name]) -> Option<u32>
    ensures { result ≡ reached (next_in steps.now.entries) (Some 0) path.now }
{
    let mut end = 0;
    for name in path {
        end = find_step(steps, end, name.0)?;
    }
    Some(end)
}

fn find_step(steps: &HashMap<Step, u32>, after: u32, name: u32) -> Option<u32>
    ensures { result ≡ next_in steps.now.entries after name }
{
    steps.get(&Step { after, name }).copied()
}
