//! DR6 and DR7.

ghost use Rattle.std.specs.Prelude.{IfOk};
ghost use Rattle.rule_order.specs.First.{IsFirst};
ghost use Rattle.method_rules.specs.Repeats.{RepeatsMethod, BreaksAt};

use crate::read::are_read;
use crate::signatures::signature_of;
use class_world::MethodInfo;
use java_tree::NoMemory;
use rule_order::{Breach, earlier};
use std::alloc::Global;
use std::collections::HashSet;

/// The first method or constructor, of those of all types, whose type has an earlier one with its name and, after erasure, its parameter types: DR6 at a method, DR7 at a constructor. One without a node, or with a parameter whose written type says none, is not named. The order is that of the nodes' numbers; the earlier one is one that stands before in the list.
pub fn first_repeated(alloc: Global, methods: &[MethodInfo]) -> Result<Option<Breach>, NoMemory>
    ensures { IfOk result (λ r. IsFirst (RepeatsMethod methods.now) r) }
{
    let mut seen = HashSet::new(alloc);
    let mut first = None;
    for m in methods {
        let is_new = seen.insert(signature_of(alloc, m)?)?;
        if !is_new {
            first = earlier(first, breach_at(m));
        }
    }
    Ok(first)
}

/// The rule that is broken at the later one of two.
fn breach_at(m: &MethodInfo) -> Option<Breach>
    ensures { IsFirst (BreaksAt m.now) result }
{
    let node = m.node?;
    if !are_read(m.params.as_slice()) {
        return None;
    }
    let rule = if m.constructor { 7 } else { 6 };
    Some(Breach { node, rule })
}
