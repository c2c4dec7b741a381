//! What a change of declared types says of each declaration.

ghost use Rattle.std.specs.Prelude.{◌≡◌};
ghost use Rattle.type_places.specs.Changes as spec;

use java_tree::{Items, Span};

/// A change of the heads of declared types from one type to another, both by number. Flags stand by the number of the world: of fields; of methods whose result type
/// changes; and of methods whose parameter at `index` (from 0) changes. Locals change in one body alone, that of the method `body`, and there in the bytes of `scope` (offsets in their file); their flags stand by slot, and outside of the scope the
/// slots may be those of others.
#[derive(Drop)]
pub struct Changes {
    pub old: u32,
    pub new: u32,
    pub fields: Items<bool>,
    pub results: Items<bool>,
    pub params: Items<bool>,
    pub index: u32,
    pub body: Option<u32>,
    pub scope: Span,
    pub slots: Items<bool>,
}

fn is_flagged(flags: &[bool], number: u32) -> bool
    ensures { result ≡ spec.is_flagged flags.now number }
{
    match flags.get(number as usize) {
        Some(flag) => *flag,
        None => false,
    }
}

impl Changes {
    /// Whether the declared type of a field changes.
    pub fn is_field(&self, field: u32) -> bool
        ensures { result ≡ spec.is_field self.now field }
    {
        is_flagged(self.fields.as_slice(), field)
    }

    /// Whether the declared result type of a method changes.
    pub fn is_result(&self, method: u32) -> bool
        ensures { result ≡ spec.is_result self.now method }
    {
        is_flagged(self.results.as_slice(), method)
    }

    /// Whether the declared type of a parameter changes, by its place from 0.
    pub fn is_param(&self, method: u32, index: u32) -> bool
        ensures { result ≡ spec.is_param self.now method index }
    {
        index == self.index && is_flagged(self.params.as_slice(), method)
    }

    // Whether a byte of a body is in the scope of the locals that change.
    fn is_in_scope(&self, method: u32, at: u32) -> bool
        ensures { result ≡ spec.is_in_scope self.now method at }
    {
        match self.body {
            Some(body) => body == method && self.scope.from <= at && at < self.scope.to,
            None => false,
        }
    }

    /// Whether the declared type of what has a slot at a byte (the first of its use, an offset in its file) of the body of a method changes. Parameters have the slots of their places.
    pub fn is_slot(&self, method: u32, slot: u32, at: u32) -> bool
        ensures { result ≡ spec.is_slot self.now method slot at }
    {
        self.is_param(method, slot)
            || self.is_in_scope(method, at) && is_flagged(self.slots.as_slice(), slot)
    }
}
