//! The S rules on what a file writes, by what it writes and by which names mean generic types in it.

ghost use Rattle.std.specs.Prelude.{◌≡◌, Bool, map, slice_get, option_copied, not, ◌&&◌};
ghost use Rattle.java_tree.specs.declared.tree.Name.{Name};
ghost use Rattle.java_tree.specs.declared.tree.Mod.TheVariants as mod_;
ghost use Rattle.java_tree.specs.View.{param_plain, member_plain, decl_plain, unit_plain};
ghost use Rattle.rule_order.specs.First.{IsFirst};
ghost use Rattle.decl_rules.specs.Generic.{Told};
ghost use Rattle.decl_rules.specs.PlainRules as rule;
ghost use Rattle.decl_rules.specs.Looks as spec;

use crate::generics::GenericNames;
use crate::members::walk_decls;
use crate::modifiers::has;
use java_tree::tree::{Member, Mod, Name, Param, SourceUnit, TypeDecl};
use java_tree::{Items, Names};
use rule_order::{Breach, noted};

/// The first of S10, S12, S13, S17, S18 and S19 that a file breaks: at the first node, and there the rule with the lowest number. `user` says whether it is a
/// user's file (S10) or one of a library (S18), and `generics` has the names that mean generic types in it (S12). Node numbers are those of the tree.
pub fn first_plain<G: GenericNames>(
    unit: &SourceUnit,
    user: bool,
    names: &Names,
    generics: &G,
) -> Option<Breach>
    ensures { (generic : Name → Bool) → Told (G.answers generics.now) generic → IsFirst (rule.BreaksPlain (unit_plain unit.now) user names.now generic) result }
{
    let first = walk_decls(generics, &unit.types, None);
    look_at_types(&unit.types, user, names, first)
}

fn look_at_types(
    types: &Items<TypeDecl>,
    user: bool,
    names: &Names,
    mut first: Option<Breach>,
) -> Option<Breach>
    ensures { result ≡ spec.plain_types user names.now (map decl_plain types.now) first }
{
    for d in types.as_slice() {
        first = look_at_type(d, user, names, first);
    }
    first
}

fn look_at_type(d: &TypeDecl, user: bool, names: &Names, first: Option<Breach>) -> Option<Breach>
    ensures { result ≡ spec.plain_type user names.now (decl_plain d.now) first }
{
    let first = noted(first, 10, d.node, user && !has_none(&d.params));
    let mut first = noted(first, 18, d.node, is_protected(user, &d.mods));
    for m in d.members.as_slice() {
        first = look_at_member(m, d, user, names, first);
    }
    first
}

fn has_none(names: &Items<Name>) -> bool
    ensures { result ≡ spec.is_nil names.now }
{
    names.is_empty()
}

// Whether the modifiers of a library file's declaration have `protected`.
fn is_protected(user: bool, mods: &Items<Mod>) -> bool
    ensures { result ≡ (not user && spec.has mod_.Protected mods.now) }
{
    !user && has(Mod::Protected, mods)
}

#[tactic(auto, using(crate::proofs::Deciding::nil_mapped))]
fn is_alone(params: &Items<Param>) -> bool
    ensures { result ≡ spec.is_nil (map param_plain params.now) }
{
    params.is_empty()
}

fn look_at_member(
    m: &Member,
    d: &TypeDecl,
    user: bool,
    names: &Names,
    first: Option<Breach>,
) -> Option<Breach>
    ensures { result ≡ spec.plain_member user names.now (decl_plain d.now) (member_plain m.now) first }
{
    match m {
        Member::Field { node, mods, .. } => noted(first, 18, *node, is_protected(user, mods)),
        Member::Method {
            node,
            mods,
            constructor,
            name,
            params,
            ..
        } => {
            let first = noted(first, 18, *node, is_protected(user, mods));
            let takes = !*constructor && is_left_out(is_alone(params), text_of(names, *name));
            noted(first, 19, *node, takes)
        }
    }
}

/// The text of a name, if the table has one.
fn text_of(names: &Names, name: Name) -> Option<&str>
    ensures { option_copied result ≡ slice_get names.now name.0 }
{
    if (name.0 as usize) < names.len() {
        Some(names.text(name))
    } else {
        None
    }
}

// Whether a method has a name that no method of a program has; `alone` says that it has no parameters.
fn is_left_out(alone: bool, text: Option<&str>) -> bool
    ensures { result ≡ spec.is_left_out alone (option_copied text.entry) }
{
    match text {
        None => false,
        Some(text) => {
            text == "wait"
                || alone
                    && matches!(
                        text,
                        "getClass" | "notify" | "notifyAll" | "clone" | "finalize"
                    )
        }
    }
}
