//! How far a walk through a body has come.

ghost use Rattle.std.specs.Prelude.{◌≡◌, [], OnOk};
ghost use Rattle.thrown_exceptions.specs.Thrown as spec;

use java_tree::{Items, NoMemory};
use reachability::{Flaw, flaw_unless};
use std::alloc::Global;
use std::mem;

/// A checked exception that can be thrown at a node, by the number of its class.
#[derive(Clone, Copy, Debug, PartialEq, Eq)]
pub struct Raised {
    pub node: u32,
    pub class: u32,
}

/// What can be thrown so far and is not caught, and the first broken rule so far.
#[derive(Drop)]
pub struct State {
    pub raised: Items<Raised>,
    pub first: Option<Flaw>,
}

/// Before a body.
pub(crate) fn start(alloc: Global, first: Option<Flaw>) -> State
    ensures { result ≡ spec.start first }
{
    State {
        raised: Items::new(alloc),
        first,
    }
}

/// Takes out what can be thrown so far, so that a part of a `try` begins with nothing.
pub(crate) fn take_raised(alloc: Global, state: &mut State) -> Items<Raised>
    ensures taken { result ≡ state.old.raised }
    ensures left { state.new ≡ spec.with_raised [] state.old }
{
    mem::replace(&mut state.raised, Items::new(alloc))
}

/// Puts what was taken out before what the part can throw.
pub(crate) fn put_before(mut raised: Items<Raised>, state: &mut State) -> Result<(), NoMemory>
    ensures { OnOk result (state.new ≡ spec.after raised state.old) }
{
    let later = state.raised.as_slice();
    for exception in later {
        raised.push(*exception)?;
    }
    state.raised = raised;
    Ok(())
}

/// The same behind a finally block: where it cannot complete normally, nothing that came to it goes on (JLS 11.2.2).
pub(crate) fn let_through(
    completes: bool,
    raised: Items<Raised>,
    state: &mut State,
) -> Result<(), NoMemory>
    ensures { OnOk result (state.new ≡ spec.let_through completes raised state.old) }
{
    if !completes {
        return Ok(());
    }
    put_before(raised, state)
}

/// F9: the value of a field throws no checked exception.
pub(crate) fn none_raised(node: u32, state: &State) -> Option<Flaw>
    ensures { result ≡ spec.none_raised node state.now }
{
    flaw_unless(state.raised.is_empty(), node, 9, state.first)
}
