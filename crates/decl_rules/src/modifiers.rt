//! Lists of modifiers (DR9).

ghost use Rattle.std.specs.Prelude.{◌≡◌, if◌then◌else◌};
ghost use Rattle.decl_rules.specs.Looks as look;
ghost use Rattle.decl_rules.specs.DeclaredRules as rule;
ghost use Rattle.decl_rules.specs.DeclaredLooks as spec;

use java_tree::Items;
use java_tree::tree::Mod;

/// Whether a modifier is among some.
pub(crate) fn has(m: Mod, mods: &Items<Mod>) -> bool
    ensures { result ≡ look.has m mods.now }
{
    mods.as_slice().contains(&m)
}

// Whether a modifier stands twice. Of seven modifiers two are the same, so no call of itself is deeper than that.
fn repeats(mods: &[Mod]) -> bool
    ensures { result ≡ spec.repeats mods.now }
{
    match mods.split_first() {
        None => false,
        Some((m, rest)) => rest.contains(m) || repeats(rest),
    }
}

fn has_both(a: Mod, b: Mod, mods: &Items<Mod>) -> bool
    ensures { result ≡ spec.both a b mods.now }
{
    has(a, mods) && has(b, mods)
}

fn contradict(mods: &Items<Mod>) -> bool
    ensures { result ≡ spec.contradict mods.now }
{
    has_both(Mod::Public, Mod::Protected, mods)
        || has_both(Mod::Public, Mod::Private, mods)
        || has_both(Mod::Protected, Mod::Private, mods)
        || has_both(Mod::Abstract, Mod::Final, mods)
        || has_both(Mod::Abstract, Mod::Private, mods)
        || has_both(Mod::Abstract, Mod::Static, mods)
}

fn has_other(allowed: &[Mod], mods: &Items<Mod>) -> bool
    ensures { result ≡ spec.has_other allowed.now mods.now }
{
    for m in mods.as_slice() {
        if !allowed.contains(m) {
            return true;
        }
    }
    false
}

fn are_wrong(allowed: &[Mod], mods: &Items<Mod>) -> bool
    ensures { result ≡ spec.are_wrong allowed.now mods.now }
{
    repeats(mods.as_slice()) || contradict(mods) || has_other(allowed, mods)
}

/// Whether the modifiers of a type break DR9.
pub(crate) fn are_wrong_for_type(interface: bool, mods: &Items<Mod>) -> bool
    ensures { result ≡ spec.are_wrong (rule.type_mods interface) mods.now }
{
    if interface {
        are_wrong(&[Mod::Public, Mod::Abstract], mods)
    } else {
        are_wrong(&[Mod::Public, Mod::Abstract, Mod::Final], mods)
    }
}

/// Whether those of a field do.
pub(crate) fn are_wrong_for_field(interface: bool, mods: &Items<Mod>) -> bool
    ensures { result ≡ spec.are_wrong (rule.field_mods interface) mods.now }
{
    if interface {
        are_wrong(&[Mod::Public, Mod::Static, Mod::Final], mods)
    } else {
        let allowed = [
            Mod::Public,
            Mod::Protected,
            Mod::Private,
            Mod::Static,
            Mod::Final,
        ];
        are_wrong(&allowed, mods)
    }
}

/// Whether those of a method or constructor do.
pub(crate) fn are_wrong_for_method(interface: bool, constructor: bool, mods: &Items<Mod>) -> bool
    ensures { result ≡ spec.are_wrong (if constructor then rule.constructor_mods else rule.method_mods interface) mods.now }
{
    if constructor {
        return are_wrong(&[Mod::Public, Mod::Protected, Mod::Private], mods);
    }
    if interface {
        return are_wrong(&[Mod::Public, Mod::Abstract], mods);
    }
    let allowed = [
        Mod::Public,
        Mod::Protected,
        Mod::Private,
        Mod::Abstract,
        Mod::Static,
        Mod::Final,
    ];
    are_wrong(&allowed, mods)
}
