//! Whose member is used, and what stands before a dot.

ghost use Rattle.std.specs.Prelude.{◌≡◌, IfOk};
ghost use Rattle.member_uses.specs.Receivers.{receiver};
ghost use Rattle.member_uses.specs.Targets as spec;

use class_world::{JavaType, copied};
use java_core::CoreExpr;
use java_tree::tree::Node;
use java_tree::{Boxed, Items, NoMemory};
use std::alloc::Global;
use type_facts::scope::{Place, own_type};

/// Whose member is used (JLS 15.11, 15.12.1): that of `this`, with nothing written before; of a value; of a type that is named, by number; by `super`, of the type above.
#[derive(Drop)]
pub enum Receiver {
    This,
    Value(Boxed<CoreExpr>),
    Type(Node, u32),
    Super(JavaType),
}

/// What stands before a dot (JLS 6.5.2): a value, a type by number, or a name that means neither.
#[derive(Clone, Copy, Debug, PartialEq, Eq)]
pub enum Dotted {
    Value,
    Type(Node, u32),
    Unknown(Node),
}

/// The type whose member is used.
#[tactic(auto, using(java_core::proofs::Views::plain_at))]
pub fn receiver_type(alloc: Global, place: &Place, of: &Receiver) -> Result<JavaType, NoMemory>
    ensures { IfOk result (λ t. t ≡ spec.receiver_type place.now (receiver of.now)) }
{
    match of {
        Receiver::This => own_type(alloc, place),
        Receiver::Value(x) => copied(alloc, &x.get().ty),
        Receiver::Type(_, c) => Ok(JavaType::Class(*c, Items::new(alloc))),
        Receiver::Super(t) => copied(alloc, t),
    }
}
