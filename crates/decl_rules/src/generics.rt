//! Which names mean generic types (S12).

ghost use Rattle.std.specs.Prelude.{◌≡◌, Bool};
ghost use Rattle.java_tree.specs.declared.tree.Name.{Name};
ghost use Rattle.decl_rules.specs.Generic.{Told};
ghost use Rattle.decl_rules.specs.Walk as spec;

use java_tree::tree::{Head, Name};

/// The simple names that mean generic types in a file, outside the types that have type parameters of these names.
pub trait GenericNames {
    /// What may be answered of a name.
    ghost answers: { Self → Name → Bool → Type 0 };

    /// Whether a name is among them. Asked only of names that the file writes.
    fn has(&self, name: Name) -> bool
        ensures { answers self.now name result };
}

/// The names that mean generic types in the file, and the type parameters of the type around, which shadow them.
#[derive(Drop)]
pub(crate) struct Generics<'a, G> {
    pub names: &'a G,
    pub vars: &'a [Name],
}

impl<G: GenericNames> Generics<'_, G> {
    /// Whether a head is the simple name of a generic type.
    pub(crate) fn names_generic(&self, head: &Head) -> bool
        ensures { (generic : Name → Bool) → Told (G.answers self.now.names.now) generic → result ≡ spec.names_generic generic self.now.vars.now head.now }
    {
        match head {
            Head::Prim(_) => false,
            Head::Path(names) => match names.as_slice() {
                [name] => self.names.has(*name) && !self.vars.contains(name),
                _ => false,
            },
        }
    }
}
