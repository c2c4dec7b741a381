//! The DR rules on declarations that need no types of names.

ghost use Rattle.std.specs.Prelude.{◌≡◌, map, not, ◌&&◌, None, nat_eq, is_some, IfOk, if◌then◌else◌};
ghost use Rattle.std.specs.Option.{option_map};
ghost use Rattle.java_tree.specs.declared.tree.Mod.TheVariants as mod_;
ghost use Rattle.java_tree.specs.View.{stmt_plain, var_plain, member_plain, decl_plain, unit_plain};
ghost use Rattle.rule_order.specs.First.{IsFirst};
ghost use Rattle.decl_rules.specs.DeclaredRules as rule;
ghost use Rattle.decl_rules.specs.Looks as look;
ghost use Rattle.decl_rules.specs.DeclaredLooks as spec;

use crate::modifiers::{are_wrong_for_field, are_wrong_for_method, are_wrong_for_type, has};
use crate::repeats::{note_fields, note_params, note_type_params};
use java_tree::tree::{Member, Mod, Name, SourceUnit, Stmt, TypeDecl, Var};
use java_tree::{Items, NoMemory};
use rule_order::{Breach, noted};
use std::alloc::Global;

/// The first of DR5, DR8, DR9, DR10, DR11, and of DR12 on fields, that a file breaks: at the first node, and there the rule with the lowest number. Node numbers
/// are those of the tree. `NoMemory` comes where memory runs out.
pub fn first_declared(alloc: Global, unit: &SourceUnit) -> Result<Option<Breach>, NoMemory>
    ensures { IfOk result (IsFirst (rule.BreaksDeclared (unit_plain unit.now))) }
{
    look_at_types(alloc, &unit.types)
}

fn look_at_types(alloc: Global, types: &Items<TypeDecl>) -> Result<Option<Breach>, NoMemory>
    ensures { IfOk result (λ r. r ≡ spec.wrong_types (map decl_plain types.now) None) }
{
    let mut first = None;
    for d in types.as_slice() {
        first = look_at_type(alloc, d, first)?;
    }
    Ok(first)
}

fn look_at_type(
    alloc: Global,
    d: &TypeDecl,
    first: Option<Breach>,
) -> Result<Option<Breach>, NoMemory>
    ensures { IfOk result (λ r. r ≡ spec.wrong_type (decl_plain d.now) first) }
{
    let first = note_fields(alloc, &d.members, first)?;
    let first = note_type_params(alloc, &d.params, d.node, first)?;
    let first = noted(first, 9, d.node, are_wrong_for_type(d.interface, &d.mods));
    look_at_members(alloc, d, first)
}

fn look_at_members(
    alloc: Global,
    d: &TypeDecl,
    mut first: Option<Breach>,
) -> Result<Option<Breach>, NoMemory>
    ensures { IfOk result (λ r. r ≡ spec.wrong_members (decl_plain d.now) (map member_plain d.now.members) first) }
{
    for m in d.members.as_slice() {
        first = look_at_member(alloc, m, d, first)?;
    }
    Ok(first)
}

fn look_at_member(
    alloc: Global,
    m: &Member,
    d: &TypeDecl,
    first: Option<Breach>,
) -> Result<Option<Breach>, NoMemory>
    ensures { IfOk result (λ r. r ≡ spec.wrong_member (decl_plain d.now) (member_plain m.now) first) }
{
    match m {
        Member::Field {
            node,
            mods,
            vars,
            ..
        } => {
            let first = noted(first, 9, *node, are_wrong_for_field(d.interface, mods));
            Ok(look_at_vars(d.interface, vars, first))
        }
        Member::Method {
            node,
            mods,
            constructor,
            name,
            params,
            body,
            ..
        } => {
            let first = note_params(alloc, params, first)?;
            let wrong = are_wrong_for_method(d.interface, *constructor, mods);
            let first = noted(first, 9, *node, wrong);
            let is_abstract = is_abstract(*constructor, mods);
            let in_abstract = has(Mod::Abstract, &d.mods);
            let wrong = is_wrong_body(d.interface, in_abstract, is_abstract, has_body(body));
            let first = noted(first, 10, *node, wrong);
            Ok(noted(first, 11, *node, is_misnamed(*constructor, *name, d.name)))
        }
    }
}

fn is_abstract(constructor: bool, mods: &Items<Mod>) -> bool
    ensures { result ≡ (not constructor && look.has mod_.Abstract mods.now) }
{
    !constructor && has(Mod::Abstract, mods)
}

fn has_body(body: &Option<Stmt>) -> bool
    ensures { result ≡ is_some (option_map stmt_plain body.now) }
{
    body.is_some()
}

// Whether a body is there or missing against the rule, or an abstract method stands in a class that is not abstract.
fn is_wrong_body(interface: bool, in_abstract: bool, is_abstract: bool, there: bool) -> bool
    ensures { result ≡ spec.wrong_body interface in_abstract is_abstract there }
{
    if interface {
        there
    } else if is_abstract {
        there || !in_abstract
    } else {
        !there
    }
}

fn is_misnamed(constructor: bool, name: Name, class: Name) -> bool
    ensures { result ≡ (constructor && not (nat_eq name.0 class.0)) }
{
    constructor && name != class
}

// The variables of a field, which is an interface's or a class's.
fn look_at_vars(interface: bool, vars: &Items<Var>, mut first: Option<Breach>) -> Option<Breach>
    ensures { result ≡ (if interface then spec.lacking_vars (map var_plain vars.now) first else first) }
{
    if !interface {
        return first;
    }
    for v in vars.as_slice() {
        first = noted(first, 12, v.node, v.init.is_none());
    }
    first
}
