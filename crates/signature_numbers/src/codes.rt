//! Signatures written as rows of parts.

ghost use Rattle.std.specs.Prelude.{◌≡◌};
ghost use Rattle.signature_numbers.specs.Codes as spec;

use java_tree::tree::Primitive;

/// A part of a signature: its name first, then of each parameter type what stands at its top, before what stands below. A class has the number of its arguments, which follow; a level of an array stands before its element.
#[derive(Clone, Copy, PartialEq, Eq, Hash)]
pub(crate) enum Part {
    Named(u32),
    Int,
    Long,
    Char,
    Boolean,
    Null,
    Class(u32, usize),
    Var(u32),
    Level,
}

/// A part after the row with a number; that of the empty row is 0.
#[derive(Clone, Copy, PartialEq, Eq, Hash)]
pub(crate) struct Step {
    pub(crate) after: u32,
    pub(crate) part: Part,
}

pub(crate) fn primitive(p: Primitive) -> Part
    ensures { result ≡ spec.primitive p }
{
    match p {
        Primitive::Int => Part::Int,
        Primitive::Long => Part::Long,
        Primitive::Char => Part::Char,
        Primitive::Boolean => Part::Boolean,
    }
}
