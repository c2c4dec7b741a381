//! What is read, with the place after it.

ghost use Rattle.std.specs.Prelude.{◌≡◌, [], ◌∷◌, ◌++◌, None, Err, IfOk, OnOk};

use java_tree::{Boxed, Items};
use std::alloc::{AllocError, Global};

/// What was read, and the place after its tokens.
#[derive(Drop)]
pub struct Got<T> {
    pub tree: T,
    pub next: usize,
}

impl<T> Got<Items<T>> {
    /// No trees yet.
    pub fn none(alloc: Global, at: usize) -> Got<Items<T>>
        ensures { result ≡ record { tree = []; next = at } }
    {
        Got {
            tree: Items::new(alloc),
            next: at,
        }
    }
}

impl<T: Drop> Got<Items<T>> {
    /// A list of one tree.
    pub fn one(alloc: Global, first: Got<Boxed<T>>) -> Result<Got<Items<T>>, AllocError>
        ensures { IfOk result (λ g. g ≡ record { tree = first.tree ∷ []; next = first.next }) }
    {
        let Got { tree, next } = first;
        let tree = Items::one(alloc, tree.into_inner())?;
        Ok(Got { tree, next })
    }

    /// One tree more.
    pub fn add(&mut self, one: Got<Boxed<T>>) -> Result<(), AllocError>
        ensures { OnOk result (self.new ≡ record { tree = self.old.tree ++ one.tree ∷ []; next = one.next }) }
    {
        let Got { tree, next } = one;
        self.tree.push(tree.into_inner())?;
        self.next = next;
        Ok(())
    }
}

/// What stands in the box, if there is one.
pub fn unboxed<T>(found: Option<Boxed<T>>) -> Option<T>
    ensures { result ≡ found }
{
    match found {
        Some(tree) => Some(tree.into_inner()),
        None => None,
    }
}
