//! What methods and constructors do.

ghost use Rattle.std.specs.Prelude.{◌≡◌, Some, slice_get};
ghost use Rattle.std.specs.Option.{option_copied, option_map};
ghost use Rattle.java_core.specs.View.{method_plain};
ghost use Rattle.core_meaning.specs.Code as code;
ghost use Rattle.running_code.specs.Bodies.{body_plain, method_in};
ghost use Rattle.running_code.specs.Entries.{IsEntry, class_of};
ghost use Rattle.running_code.specs.Running.{IsReady, Tells};

use crate::entries::{Entry, entry_at};
use crate::places::place;
use crate::running::Running;
use java_core::{CoreMethod, CoreStmt, Implied};
use java_tree::Items;

/// What a method or constructor of a file does: what is written, behind the constructor of the superclass that runs unsaid, if one does; or what the default constructor
/// of a class does (JLS 8.8.7, 8.8.9).
#[derive(Clone, Copy)]
pub enum CodeBody<'a> {
    Written {
        first: Option<u32>,
        body: &'a CoreStmt,
    },
    Default {
        first: u32,
    },
}

fn method_at<'a>(methods: &Items<&'a CoreMethod>, at: usize) -> Option<&'a CoreMethod>
    ensures { result ≡ slice_get methods.now at }
{
    match methods.get(at) {
        Some(method) => Some(*method),
        None => None,
    }
}

#[tactic(auto, using(crate::proofs::Lists::method_found, crate::proofs::Lists::method_missing))]
fn method_of<'a>(entry: &Entry<'a>, method: u32) -> Option<&'a CoreMethod>
    requires { IsEntry entry.now }
    ensures { option_map method_plain (option_copied result) ≡ method_in method (class_of entry.now) }
{
    match place(&entry.places, method) {
        Some(at) => method_at(&entry.methods, at),
        None => None,
    }
}

fn constructor_of(implied: Option<Implied>) -> Option<u32>
    ensures { result ≡ code.constructor_of implied }
{
    match implied {
        None => None,
        Some(implied) => Some(implied.constructor),
    }
}

fn written_body(method: &CoreMethod) -> Option<CodeBody<'_>>
    ensures { option_map body_plain result ≡ code.body_by (Some (method_plain method.now)) None }
{
    let body = method.body.as_ref()?;
    let first = constructor_of(method.implied);
    Some(CodeBody::Written { first, body })
}

fn default_body<'a>(default: Option<Implied>) -> Option<CodeBody<'a>>
    ensures { option_map body_plain result ≡ code.default_body default }
{
    let first = constructor_of(default)?;
    Some(CodeBody::Default { first })
}

fn body_in<'a>(entry: &Entry<'a>, method: u32) -> Option<CodeBody<'a>>
    requires { IsEntry entry.now }
    ensures { option_map body_plain result ≡ code.body_in method (class_of entry.now) }
{
    match method_of(entry, method) {
        None => default_body(entry.class.default),
        Some(method) => written_body(method),
    }
}

/// The body of a method or constructor of a class (JLS 8.4.7, 8.8.7): none where it is abstract or built in.
pub fn body_of<'a>(g: &Running<'a>, class: u32, method: u32) -> Option<CodeBody<'a>>
    requires { IsReady g.now }
    ensures { Tells g.now (option_map body_plain result) (λ c. code.body_of c class method) }
{
    let entry = entry_at(&g.classes, class)?;
    body_in(entry, method)
}
