//! Names that are declared twice (DR5, DR8).

ghost use Rattle.std.specs.Prelude.{◌≡◌, ◌++◌, [], map, IfOk, OnOk};
ghost use Rattle.java_tree.specs.View.{var_plain, param_plain, member_plain};
ghost use Rattle.decl_rules.specs.DeclaredRules.{field_vars};
ghost use Rattle.decl_rules.specs.DeclaredLooks as spec;

use indexmap::IndexSet;
use java_tree::tree::{Member, Name, Node, Param, Var};
use java_tree::{Items, NoMemory};
use rule_order::{Breach, noted};
use std::alloc::Global;

/// A declared name, and the node at which a repetition is named.
#[derive(Clone, Copy)]
pub(crate) struct Named {
    name: Name,
    node: Node,
}

/// The first broken rule so far, where the rule is broken at each name that stands before too.
fn note_again(
    alloc: Global,
    rule: u8,
    items: &[Named],
    mut first: Option<Breach>,
) -> Result<Option<Breach>, NoMemory>
    ensures { IfOk result (λ r. r ≡ spec.again rule [] items.now first) }
{
    let mut seen = IndexSet::new(alloc);
    for item in items {
        let is_new = seen.insert(item.name.0)?;
        first = noted(first, rule, item.node, !is_new);
    }
    Ok(first)
}

fn push_vars(vars: &Items<Var>, list: &mut Vec<Named>) -> Result<(), NoMemory>
    ensures { OnOk result (list.new.items ≡ list.old.items ++ map spec.named_var (map var_plain vars.now)) }
{
    for v in vars.as_slice() {
        let item = Named {
            name: v.name,
            node: v.node,
        };
        list.push(item)?;
    }
    Ok(())
}

fn push_fields(members: &Items<Member>, list: &mut Vec<Named>) -> Result<(), NoMemory>
    ensures { OnOk result (list.new.items ≡ list.old.items ++ map spec.named_var (field_vars (map member_plain members.now))) }
{
    for m in members.as_slice() {
        match m {
            Member::Field { vars, .. } => push_vars(vars, list)?,
            Member::Method { .. } => (),
        }
    }
    Ok(())
}

/// DR5, for the members of a type.
pub(crate) fn note_fields(
    alloc: Global,
    members: &Items<Member>,
    first: Option<Breach>,
) -> Result<Option<Breach>, NoMemory>
    ensures { IfOk result (λ r. r ≡ spec.again 5 [] (map spec.named_var (field_vars (map member_plain members.now))) first) }
{
    let mut list = Vec::new(alloc);
    push_fields(members, &mut list)?;
    note_again(alloc, 5, &list, first)
}

/// DR8, for the parameters of a method.
pub(crate) fn note_params(
    alloc: Global,
    params: &Items<Param>,
    first: Option<Breach>,
) -> Result<Option<Breach>, NoMemory>
    ensures { IfOk result (λ r. r ≡ spec.again 8 [] (map spec.named_param (map param_plain params.now)) first) }
{
    let mut list = Vec::new(alloc);
    for p in params.as_slice() {
        list.push(Named {
            name: p.name,
            node: p.node,
        })?;
    }
    note_again(alloc, 8, &list, first)
}

/// DR8, for the type parameters of the type at a node.
pub(crate) fn note_type_params(
    alloc: Global,
    params: &Items<Name>,
    node: Node,
    first: Option<Breach>,
) -> Result<Option<Breach>, NoMemory>
    ensures { IfOk result (λ r. r ≡ spec.again 8 [] (map (spec.named_at node) params.now) first) }
{
    let mut list = Vec::new(alloc);
    for name in params.as_slice() {
        list.push(Named { name: *name, node })?;
    }
    note_again(alloc, 8, &list, first)
}
