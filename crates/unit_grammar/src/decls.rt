//! Files, imports and types.

ghost use Rattle.std.specs.Prelude.{◌≡◌, ◌+◌, ◌<◌, ◌^◌, length, map};
ghost use Rattle.java_tree.specs.View.{decl_plain, unit_plain};
ghost use Rattle.unit_grammar.specs.Numbers as numbers;
ghost use Rattle.unit_grammar.specs.Sizes as size;

use crate::members::number_members;
use crate::parts::number_types;
use java_tree::Items;
use java_tree::tree::{Import, SourceUnit, TypeDecl};

/// Numbers a file and all trees in it from `first` on, and gives the next number.
pub fn number_unit(unit: &mut SourceUnit, first: u32) -> u32
    requires { first + size.unit (unit_plain unit.old) < 2 ^ 32 }
    ensures count { result ≡ first + size.unit (unit_plain unit.old) }
    ensures tree { (unit_plain unit.new, result) ≡ numbers.unit (unit_plain unit.old) first }
{
    unit.node.id = first;
    let next = number_imports(&mut unit.imports, first + 1);
    number_decls(&mut unit.types, next)
}

fn number_imports(xs: &mut Items<Import>, first: u32) -> u32
    requires { first + length xs.old < 2 ^ 32 }
    ensures count { result ≡ first + length xs.old }
    ensures tree { (xs.new, result) ≡ numbers.imports xs.old first }
{
    let mut next = first;
    for i in 0..xs.len() {
        xs.at_mut(i).node.id = next;
        next += 1;
    }
    next
}

fn number_decl(x: &mut TypeDecl, first: u32) -> u32
    requires { first + size.decl (decl_plain x.old) < 2 ^ 32 }
    ensures count { result ≡ first + size.decl (decl_plain x.old) }
    ensures tree { (decl_plain x.new, result) ≡ numbers.decl (decl_plain x.old) first }
{
    x.node.id = first;
    let next = number_types(&mut x.extends, first + 1);
    let next = number_types(&mut x.implements, next);
    number_members(&mut x.members, next)
}

fn number_decls(xs: &mut Items<TypeDecl>, first: u32) -> u32
    requires { first + size.decls (map decl_plain xs.old) < 2 ^ 32 }
    ensures count { result ≡ first + size.decls (map decl_plain xs.old) }
    ensures tree { (map decl_plain xs.new, result) ≡ numbers.decls (map decl_plain xs.old) first }
{
    let mut next = first;
    for i in 0..xs.len() {
        next = number_decl(xs.at_mut(i), next);
    }
    next
}
