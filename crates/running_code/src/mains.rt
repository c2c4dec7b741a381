//! The method with which a program begins (JLS 12.1.4).

ghost use Rattle.std.specs.Prelude.{◌≡◌, Some};
ghost use Rattle.std.specs.List.{find};
ghost use Rattle.core_meaning.specs.Runs as runs;
ghost use Rattle.running_code.specs.Running.{IsReady, Tells};

use crate::names::text_of;
use crate::running::Running;
use class_world::{JavaType, MethodInfo};
use java_tree::tree::Mod;
use type_kinds::kinds::{element, has, is_string};

fn is_string_array(params: &[JavaType]) -> bool
    ensures { result ≡ runs.is_one_array params.now }
{
    match params {
        [only] => match element(only) {
            None => false,
            Some(item) => is_string(item),
        },
        _ => false,
    }
}

fn is_main_method(g: &Running<'_>, info: &MethodInfo) -> bool
    requires { IsReady g.now }
    ensures { Tells g.now result (λ c. runs.is_main_method c (Some info.now)) }
{
    !info.constructor
        && text_of(g.names, info.name) == "main"
        && has(Mod::Public, info.mods.as_slice())
        && has(Mod::Static, info.mods.as_slice())
        && info.result.is_none()
        && is_string_array(info.params.as_slice())
}

fn is_main(g: &Running<'_>, method: u32) -> bool
    requires { IsReady g.now }
    ensures { Tells g.now result (λ c. runs.is_main c method) }
{
    match g.world.methods.get(method as usize) {
        None => false,
        Some(info) => is_main_method(g, info),
    }
}

fn first_main(g: &Running<'_>, methods: &[u32]) -> Option<u32>
    requires { IsReady g.now }
    ensures { Tells g.now result (λ c. find (runs.is_main c) methods.now) }
{
    for method in methods {
        if is_main(g, *method) {
            return Some(*method);
        }
    }
    None
}

/// The main method that a class declares.
pub fn main_of(g: &Running<'_>, class: u32) -> Option<u32>
    requires { IsReady g.now }
    ensures { Tells g.now result (λ c. runs.main_of c class) }
{
    match g.world.types.get(class as usize) {
        None => None,
        Some(info) => first_main(g, info.methods.as_slice()),
    }
}
