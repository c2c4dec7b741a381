//! How far a walk through a body has come.

ghost use Rattle.std.specs.Prelude.{◌≡◌, ◌&&◌, not};
ghost use Rattle.java_core.specs.View.{plain};
ghost use Rattle.reachability.specs.Reached as spec;

use crate::constants::is_constant;
use crate::flaw::{Flaw, flaw_unless};
use java_core::CoreExpr;
use java_tree::tree::Node;

/// Before a statement `alive` says whether it is reachable, behind it whether it can complete normally. `breaks` says whether a reachable `break` so far leaves the loop or switch around, and `continues` whether a reachable `continue` goes on with the loop around. `first` is the first broken rule so far.
#[derive(Clone, Copy, Debug, PartialEq, Eq)]
pub struct Ways {
    pub alive: bool,
    pub breaks: bool,
    pub continues: bool,
    pub first: Option<Flaw>,
}

/// Whether something is alive behind what may stop it.
pub(crate) fn unless(alive: bool, stopped: bool) -> bool
    ensures { result ≡ (alive && not stopped) }
{
    alive && !stopped
}

/// At the head of a body.
pub(crate) fn start(first: Option<Flaw>) -> Ways
    ensures { result ≡ spec.start first }
{
    Ways {
        alive: true,
        breaks: false,
        continues: false,
        first,
    }
}

/// The same ways, alive or not.
pub(crate) fn at(alive: bool, w: Ways) -> Ways
    ensures { result ≡ spec.at alive w }
{
    Ways { alive, ..w }
}

/// At a statement: rule F1.
pub(crate) fn reached(node: Node, w: Ways) -> Ways
    ensures { result ≡ spec.reached node w }
{
    Ways {
        first: flaw_unless(w.alive, node.id, 1, w.first),
        ..w
    }
}

/// In a body whose jumps are told apart from those before it.
pub(crate) fn inside(alive: bool, w: Ways) -> Ways
    ensures { result ≡ spec.inside alive w }
{
    Ways {
        alive,
        breaks: false,
        continues: false,
        first: w.first,
    }
}

/// Behind a loop that ends where its test says so, or by a `break`.
pub(crate) fn behind_loop(w: Ways, ends: bool, body: Ways) -> Ways
    ensures { result ≡ spec.behind_loop w ends body }
{
    Ways {
        alive: ends || body.breaks,
        first: body.first,
        ..w
    }
}

/// Behind a `do`, whose test is reached where its body completes normally or goes on by `continue`.
pub(crate) fn behind_do(w: Ways, test: &CoreExpr, body: Ways) -> Ways
    ensures { result ≡ spec.behind_do w (plain test.now) body }
{
    let tested = body.alive || body.continues;
    behind_loop(w, unless(tested, is_constant(true, test)), body)
}

/// Before the groups of a switch, whose breaks are its own.
pub(crate) fn in_switch(w: Ways) -> Ways
    ensures { result ≡ spec.in_switch w }
{
    Ways {
        alive: false,
        breaks: false,
        ..w
    }
}

/// Behind a switch, which may be skipped where it has no `default`.
pub(crate) fn behind_switch(w: Ways, has_default: bool, body: Ways) -> Ways
    ensures { result ≡ spec.behind_switch w has_default body }
{
    let skipped = unless(w.alive, has_default);
    Ways {
        alive: body.alive || body.breaks || skipped,
        breaks: w.breaks,
        continues: body.continues,
        first: body.first,
    }
}

/// In the catches of a try: the jumps of its block wait until the finally block is known.
pub(crate) fn in_catches(w: Ways, block: Ways) -> Ways
    ensures { result ≡ spec.in_catches w block }
{
    Ways {
        alive: block.alive,
        first: block.first,
        ..w
    }
}

/// Behind a try. Where its finally block cannot complete normally, the jumps of its block go nowhere.
pub(crate) fn behind_try(block: Ways, ends: bool, last: Ways) -> Ways
    ensures { result ≡ spec.behind_try block ends last }
{
    Ways {
        alive: ends && last.alive,
        breaks: last.breaks || (block.breaks && last.alive),
        continues: last.continues || (block.continues && last.alive),
        first: last.first,
    }
}

/// The same ways, alive also where something else is.
pub(crate) fn or_alive(alive: bool, w: Ways) -> Ways
    ensures { result ≡ spec.or_alive alive w }
{
    at(alive || w.alive, w)
}

/// Behind a `break`.
pub(crate) fn broken(w: Ways) -> Ways
    ensures { result ≡ spec.broken w }
{
    Ways {
        alive: false,
        breaks: w.breaks || w.alive,
        ..w
    }
}

/// Behind a `continue`.
pub(crate) fn continued(w: Ways) -> Ways
    ensures { result ≡ spec.continued w }
{
    Ways {
        alive: false,
        continues: w.continues || w.alive,
        ..w
    }
}
