//! What names mean where a written type stands.

ghost use Rattle.std.specs.Prelude.{◌≡◌};
ghost use Rattle.written_types.specs.Places.{Place, IsPlace};
ghost use Rattle.written_types.specs.Types.{variable};
ghost use Rattle.written_types.specs.Types as types;
ghost use Rattle.written_types.specs.Walk as spec;

use class_world::TypeInfo;
use java_tree::tree::{Head, Name, Primitive};
use type_names::TypeNames;

/// Where a written type stands: the number of its file (user files before library files), the types of the program by number, and the type parameters of the class around.
#[derive(Clone, Copy)]
pub struct Scope<'a> {
    pub names: &'a TypeNames,
    pub file: u32,
    pub types: &'a [TypeInfo],
    pub vars: &'a [Name],
}

/// What the head of a written type names: a type parameter by its place, a type by its number.
#[derive(Clone, Copy)]
pub enum Named {
    Primitive(Primitive),
    Variable(usize),
    Type(u32),
    Nothing,
}

/// The first place of a name.
fn place_of(name: Name, vars: &[Name]) -> Option<usize>
    ensures { result ≡ variable name vars.now }
{
    for (at, var) in vars.iter().enumerate() {
        if *var == name {
            return Some(at);
        }
    }
    None
}

impl Scope<'_> {
    /// What a head names: a primitive type, a type parameter of the class around, which shadows a type of its name, or the type that a simple name means in the file (JLS 6.3.1, 6.5.5).
    pub fn head_named(&self, head: &Head) -> Named
        ensures { (p : Place) → IsPlace self.now p → result ≡ spec.head_named p head.now }
    {
        match head {
            Head::Prim(p) => Named::Primitive(*p),
            Head::Path(path) => self.path_named(path.as_slice()),
        }
    }

    fn path_named(&self, path: &[Name]) -> Named
        ensures { (p : Place) → IsPlace self.now p → result ≡ spec.path_named p path.now }
    {
        match path {
            [name] => self.named(*name),
            _ => Named::Nothing,
        }
    }

    fn named(&self, name: Name) -> Named
        ensures { (p : Place) → IsPlace self.now p → result ≡ spec.named_by (variable name p.vars) (p.mean name) }
    {
        if let Some(at) = place_of(name, self.vars) {
            return Named::Variable(at);
        }
        match self.names.meant(self.file, name) {
            Some(number) => Named::Type(number),
            None => Named::Nothing,
        }
    }

    /// How many type parameters the type of a number has, `None` where there is no such type.
    pub(crate) fn params(&self, number: u32) -> Option<u32>
        ensures { (p : Place) → IsPlace self.now p → result ≡ p.params number }
    {
        let info = self.types.get(number as usize)?;
        Some(info.params)
    }

    /// Whether a type stands without arguments or with as many as it has parameters.
    fn takes(&self, number: u32, arguments: usize) -> bool
        ensures { (p : Place) → IsPlace self.now p → result ≡ types.takes (p.params number) arguments }
    {
        if arguments == 0 {
            return true;
        }
        match self.params(number) {
            None => false,
            Some(params) => params as usize == arguments,
        }
    }

    /// Whether what is named is a type with so many arguments.
    #[tactic(auto, using(crate::proofs::Places::no_arguments))]
    pub(crate) fn is_well_named(&self, named: Named, arguments: usize) -> bool
        ensures { (p : Place) → IsPlace self.now p → result ≡ spec.well_by p named arguments }
    {
        match named {
            Named::Primitive(_) | Named::Variable(_) => arguments == 0,
            Named::Type(number) => self.takes(number, arguments),
            Named::Nothing => false,
        }
    }
}
