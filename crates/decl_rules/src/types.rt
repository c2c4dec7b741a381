//! The walk over written types, and over what declares variables with them (S12, S13, S17).

ghost use Rattle.std.specs.Prelude.{◌≡◌, Bool, map};
ghost use Rattle.std.specs.Option.{option_map};
ghost use Rattle.java_tree.specs.View as view;
ghost use Rattle.java_tree.specs.View.{type_plain, var_plain};
ghost use Rattle.java_tree.specs.declared.tree.Name.{Name};
ghost use Rattle.decl_rules.specs.Generic.{Told};
ghost use Rattle.decl_rules.specs.Walk as spec;

use crate::generics::{GenericNames, Generics};
use java_tree::Items;
use java_tree::tree::{Head, TypeExpr, Var};
use rule_order::{Breach, noted};

/// Whether a head is a path of two or more names.
fn is_qualified(head: &Head) -> bool
    ensures { result ≡ spec.is_qualified head.now }
{
    match head {
        Head::Prim(_) => false,
        Head::Path(names) => names.len() > 1,
    }
}

/// Whether a type has type arguments.
fn has_args(x: &TypeExpr) -> bool
    ensures { result ≡ spec.has_args (type_plain x.now) }
{
    !x.args.is_empty()
}

/// The first broken rule so far, where a type is an array's element type if `is` says so.
pub(crate) fn walk_element(is: bool, x: &TypeExpr, first: Option<Breach>) -> Option<Breach>
    ensures { result ≡ spec.element is (type_plain x.now) first }
{
    noted(first, 17, x.node, is && has_args(x))
}

// The first broken rule so far, where some of these arguments may be arrays or generic types.
fn note_nested<G: GenericNames>(
    generics: &Generics<'_, G>,
    args: &Items<TypeExpr>,
    mut first: Option<Breach>,
) -> Option<Breach>
    ensures { (generic : Name → Bool) → Told (G.answers generics.now.names.now) generic → result ≡ spec.nested (spec.is_nested generic generics.now.vars.now) (view.types (map type_plain args.now)) first }
{
    for x in args.as_slice() {
        first = noted(first, 12, x.node, is_nested(generics, x));
    }
    first
}

fn is_nested<G: GenericNames>(generics: &Generics<'_, G>, x: &TypeExpr) -> bool
    ensures { (generic : Name → Bool) → Told (G.answers generics.now.names.now) generic → result ≡ spec.is_nested generic generics.now.vars.now (type_plain x.now) }
{
    x.dims > 0 || generics.names_generic(&x.head)
}

/// A type and its arguments.
#[cycle(types)]
pub(crate) fn walk_type<G: GenericNames>(
    generics: &Generics<'_, G>,
    x: &TypeExpr,
    first: Option<Breach>,
) -> Option<Breach>
    ensures { (generic : Name → Bool) → Told (G.answers generics.now.names.now) generic → result ≡ spec.type (spec.is_nested generic generics.now.vars.now) (type_plain x.now) first }
{
    let first = noted(first, 13, x.node, is_qualified(&x.head));
    let first = walk_element(x.dims > 0, x, first);
    let first = note_nested(generics, &x.args, first);
    walk_types(generics, &x.args, first)
}

/// Each of a list.
#[cycle(types)]
pub(crate) fn walk_types<G: GenericNames>(
    generics: &Generics<'_, G>,
    xs: &Items<TypeExpr>,
    mut first: Option<Breach>,
) -> Option<Breach>
    ensures { (generic : Name → Bool) → Told (G.answers generics.now.names.now) generic → result ≡ spec.types (spec.is_nested generic generics.now.vars.now) (view.types (map type_plain xs.now)) first }
{
    for x in xs.as_slice() {
        first = walk_type(generics, x, first);
    }
    first
}

/// A type, if there is one.
pub(crate) fn walk_maybe_type<G: GenericNames>(
    generics: &Generics<'_, G>,
    x: &Option<TypeExpr>,
    first: Option<Breach>,
) -> Option<Breach>
    ensures { (generic : Name → Bool) → Told (G.answers generics.now.names.now) generic → result ≡ spec.maybe_type (spec.is_nested generic generics.now.vars.now) (option_map type_plain x.now) first }
{
    match x {
        None => first,
        Some(x) => walk_type(generics, x, first),
    }
}

/// Whether one of the variables has brackets behind its name.
pub(crate) fn has_brackets(vars: &Items<Var>) -> bool
    ensures { result ≡ spec.has_brackets (map var_plain vars.now) }
{
    for v in vars.as_slice() {
        if v.dims > 0 {
            return true;
        }
    }
    false
}
