//! What methods and constructors do, and what fields begin with, compared.

ghost use Rattle.std.specs.Prelude.{◌≡◌, ◌↔◌, IsTrue, map};
ghost use Rattle.std.specs.Option.{option_map};
ghost use Rattle.java_core.specs.View.{field_plain};
ghost use Rattle.program_maps.specs.Trees.{FieldAlike, FieldsAlike, FirstAlike, BodyAlike, OptBodyAlike};
ghost use Rattle.running_code.specs.Bodies.{body_plain};
ghost use Rattle.alike_trees.specs.Compared.{IsReady, pair};

use crate::exprs::optional_alike;
use crate::sides::{Sides, Unlike, check};
use crate::stmts::stmt_alike;
use java_core::CoreField;
use java_tree::tree::Node;
use program_maps::goes;
use running_code::CodeBody;

/// Whether fields of the old program and of the new are alike, one by one (JLS 8.3.2, 12.4.2): else the first difference, at this node where one has more.
pub fn fields_alike(
    sides: &Sides<'_>,
    node: Node,
    old: &[&CoreField],
    new: &[&CoreField],
) -> Result<(), Unlike>
    requires { IsReady sides.now }
    ensures { (result ≡ Ok tt) ↔ FieldsAlike (pair sides.now) (map (λ x. field_plain x.now) old.now) (map (λ x. field_plain x.now) new.now) }
{
    for (at, x) in old.iter().enumerate() {
        let Some(y) = new.get(at) else {
            return Err(Unlike::Node(node));
        };
        field_alike(sides, x, y)?;
    }
    check(node, new.len() == old.len())
}

/// Whether a field of the old program goes to one of the new, and their initialisers are alike.
pub fn field_alike(sides: &Sides<'_>, old: &CoreField, new: &CoreField) -> Result<(), Unlike>
    requires { IsReady sides.now }
    ensures { (result ≡ Ok tt) ↔ FieldAlike (pair sides.now) (field_plain old.now) (field_plain new.now) }
{
    check(old.node, goes(&sides.map.fields, old.field, new.field))?;
    optional_alike(sides, old.node, &old.init, &new.init)
}

/// Whether what a method or constructor of the old program does and what one of the new does are alike (JLS 8.4.7, 8.8.7): else the first difference, at this node where
/// it is none within a body.
pub fn body_alike(
    sides: &Sides<'_>,
    node: Node,
    old: Option<CodeBody<'_>>,
    new: Option<CodeBody<'_>>,
) -> Result<(), Unlike>
    requires { IsReady sides.now }
    ensures { (result ≡ Ok tt) ↔ OptBodyAlike (pair sides.now) (option_map body_plain old.entry) (option_map body_plain new.entry) }
{
    match old {
        None => check(node, new.is_none()),
        Some(old) => match new {
            None => Err(Unlike::Node(node)),
            Some(new) => code_alike(sides, node, old, new),
        },
    }
}

fn code_alike(
    sides: &Sides<'_>,
    node: Node,
    old: CodeBody<'_>,
    new: CodeBody<'_>,
) -> Result<(), Unlike>
    requires { IsReady sides.now }
    ensures { (result ≡ Ok tt) ↔ BodyAlike (pair sides.now) (body_plain old.entry) (body_plain new.entry) }
{
    match old {
        CodeBody::Default { first } => match new {
            CodeBody::Default { first: to } => check(node, goes(&sides.map.methods, first, to)),
            CodeBody::Written { .. } => Err(Unlike::Node(node)),
        },
        CodeBody::Written { first, body } => match new {
            CodeBody::Default { .. } => Err(Unlike::Node(node)),
            CodeBody::Written {
                first: new_first,
                body: new_body,
            } => {
                check(node, is_first_alike(sides, first, new_first))?;
                stmt_alike(sides, body, new_body)
            }
        },
    }
}

/// Whether the constructor that runs unsaid goes to the other, or there is none (JLS 8.8.7).
fn is_first_alike(sides: &Sides<'_>, old: Option<u32>, new: Option<u32>) -> bool
    ensures { IsTrue result ↔ FirstAlike (pair sides.now) old new }
{
    match old {
        None => new.is_none(),
        Some(old) => match new {
            None => false,
            Some(new) => goes(&sides.map.methods, old, new),
        },
    }
}
