//! Types spelled as rows of signs: two that say a type say the same exactly if they are spelled alike.

ghost use Rattle.std.specs.Prelude.{◌≡◌, ◌++◌, map, OnOk};
ghost use Rattle.java_tree.specs.View as view;
ghost use Rattle.java_tree.specs.View.{type_plain};
ghost use Rattle.written_types.specs.Places.{Place, IsPlace};
ghost use Rattle.declared_types.specs.Spelling as spec;

use java_tree::NoMemory;
use java_tree::tree::{Primitive, TypeExpr};
use written_types::{Named, Scope};

/// A sign of a spelled type: its array levels, what its head names, or how many arguments follow.
#[derive(Clone, Copy, PartialEq, Eq, Hash)]
pub(crate) enum Sign {
    Levels(u32),
    Int,
    Long,
    Char,
    Boolean,
    Variable(usize),
    Type(u32),
    Nothing,
    Arguments(usize),
}

fn head_sign(named: Named) -> Sign
    ensures { result ≡ spec.head_sign named }
{
    match named {
        Named::Primitive(Primitive::Int) => Sign::Int,
        Named::Primitive(Primitive::Long) => Sign::Long,
        Named::Primitive(Primitive::Char) => Sign::Char,
        Named::Primitive(Primitive::Boolean) => Sign::Boolean,
        Named::Variable(at) => Sign::Variable(at),
        Named::Type(number) => Sign::Type(number),
        Named::Nothing => Sign::Nothing,
    }
}

/// Appends the signs of a type: array levels, head and number of arguments, and then its arguments.
#[cycle(spell)]
pub(crate) fn spell(scope: &Scope<'_>, x: &TypeExpr, signs: &mut Vec<Sign>) -> Result<(), NoMemory>
    ensures { OnOk result ((p : Place) → IsPlace scope.now p → signs.new.items ≡ signs.old.items ++ spec.spelled p (type_plain x.now)) }
{
    let head = head_sign(scope.head_named(&x.head));
    signs.extend_from_slice(&[Sign::Levels(x.dims), head, Sign::Arguments(x.args.len())])?;
    spell_all(scope, x.args.as_slice(), signs)?;
    Ok(())
}

#[cycle(spell)]
fn spell_all(scope: &Scope<'_>, xs: &[TypeExpr], signs: &mut Vec<Sign>) -> Result<(), NoMemory>
    ensures { OnOk result ((p : Place) → IsPlace scope.now p → signs.new.items ≡ signs.old.items ++ spec.all_spelled p (view.types (map type_plain xs.now))) }
{
    for x in xs {
        spell(scope, x, signs)?;
    }
    Ok(())
}
