//! The method or constructor that a call chooses.

ghost use Rattle.std.specs.Prelude.{◌≡◌, ◌<◌, IfSome, length, map, option_and_then, slice_get};
ghost use Rattle.java_core.specs.View.{plain};
ghost use Rattle.type_kinds.specs.Kinds.{ty_of};
ghost use Rattle.type_facts.specs.Facts.{AreFacts, Facts, IsReady};
ghost use Rattle.method_choice.specs.Choice as spec;

use class_world::JavaType;
use java_core::CoreExpr;
use java_tree::Items;
use type_facts::Questions;
use type_facts::asks::{is_below, may_assign};

/// The types of parameters.
pub type Params = Items<JavaType>;

/// A method or constructor that a call may choose, by its number in the world, with the types of its parameters as the call sees them.
#[derive(Drop)]
pub struct Candidate {
    pub method: u32,
    pub params: Params,
}

// Whether parameters of these types take the arguments by an assignment each (JLS 15.12.2.2).
#[cycle(take)]
#[tactic(auto, using(java_core::proofs::Views::plain_at))]
fn take(q: &Questions<'_>, args: &[CoreExpr], params: &[JavaType]) -> bool
    requires ready { IsReady q.now }
    ensures { (f : Facts) → AreFacts q.now f → result ≡ spec.pairwise f.fits (map ty_of (map plain args.now)) params.now }
{
    match args.split_first() {
        None => params.is_empty(),
        Some((arg, args)) => match params.split_first() {
            None => false,
            Some((param, params)) => may_assign(q, &arg.ty, param) && take(q, args, params),
        },
    }
}

// Whether each type is below the one at its place.
#[cycle(are_below)]
fn are_below(q: &Questions<'_>, ss: &[JavaType], ts: &[JavaType]) -> bool
    requires ready { IsReady q.now }
    ensures { (f : Facts) → AreFacts q.now f → result ≡ spec.pairwise f.sub ss.now ts.now }
{
    match ss.split_first() {
        None => ts.is_empty(),
        Some((s, ss)) => match ts.split_first() {
            None => false,
            Some((t, ts)) => is_below(q, s, t) && are_below(q, ss, ts),
        },
    }
}

fn applies(q: &Questions<'_>, args: &[CoreExpr], c: &Candidate) -> bool
    requires ready { IsReady q.now }
    ensures { (f : Facts) → AreFacts q.now f → result ≡ spec.applies f (map ty_of (map plain args.now)) c.now }
{
    take(q, args, c.params.as_slice())
}

// Whether the first is as specific as the second, where the second takes the arguments (JLS 15.12.2.5).
fn is_ahead(q: &Questions<'_>, args: &[CoreExpr], c: &Candidate, d: &Candidate) -> bool
    requires ready { IsReady q.now }
    ensures { (f : Facts) → AreFacts q.now f → result ≡ spec.is_ahead f (map ty_of (map plain args.now)) c.now d.now }
{
    if applies(q, args, d) {
        are_below(q, c.params.as_slice(), d.params.as_slice())
    } else {
        true
    }
}

// Whether a candidate is as specific as each that takes the arguments.
fn is_most_specific(
    q: &Questions<'_>,
    args: &[CoreExpr],
    candidates: &[Candidate],
    c: &Candidate,
) -> bool
    requires ready { IsReady q.now }
    ensures { (f : Facts) → AreFacts q.now f → result ≡ spec.is_most_specific f (map ty_of (map plain args.now)) candidates.now c.now }
{
    for d in candidates {
        if !is_ahead(q, args, c, d) {
            return false;
        }
    }
    true
}

fn is_best(q: &Questions<'_>, args: &[CoreExpr], candidates: &[Candidate], c: &Candidate) -> bool
    requires ready { IsReady q.now }
    ensures { (f : Facts) → AreFacts q.now f → result ≡ spec.is_best f (map ty_of (map plain args.now)) candidates.now c.now }
{
    if applies(q, args, c) {
        is_most_specific(q, args, candidates, c)
    } else {
        false
    }
}

/// The place of the candidate that a call with these arguments chooses: the one that takes them and is as specific as each other that does (JLS 15.12.2.2, 15.12.2.5). `None` where no candidate is that, or more than one.
pub fn chosen(q: &Questions<'_>, args: &[CoreExpr], candidates: &[Candidate]) -> Option<usize>
    requires ready { IsReady q.now }
    ensures is { (f : Facts) → AreFacts q.now f → option_and_then (λ i. slice_get candidates.now i) result ≡ spec.chosen f (map ty_of (map plain args.now)) candidates.now }
    ensures within { IfSome result (λ i. i < length candidates.now) }
{
    let mut found = None;
    for (at, c) in candidates.iter().enumerate() {
        if is_best(q, args, candidates, c) {
            if found.is_some() {
                return None;
            }
            found = Some(at);
        }
    }
    found
}
