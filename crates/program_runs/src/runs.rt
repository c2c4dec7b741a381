//! The run of a class.

ghost use Rattle.std.specs.Prelude.{◌≡◌, ◌+◌, [], ◌∷◌, Some, IfSome, count_by, map};
ghost use Rattle.std.specs.String.{string_bytes};
ghost use Rattle.java_core.specs.View.{field_plain, plain};
ghost use Rattle.core_meaning.specs.declared.values.Value.TheVariants as v;
ghost use Rattle.core_meaning.specs.Outcome.{Gives, choose, with_some};
ghost use Rattle.core_meaning.specs.Code.{is_constant as constant};
ghost use Rattle.core_meaning.specs.Calls.{given};
ghost use Rattle.core_meaning.specs.Runs as spec;
ghost use Rattle.running_code.specs.Running.{IsReady};
ghost use Rattle.run_frames.specs.Frames.{nothing, valued};
ghost use Rattle.program_runs.specs.Pieces.{Pieces, Runs, begun};

use crate::ended::Ended;
use crate::starts::start;
use crate::steps::run_out;
use class_world::{TypeInfo, World};
use core_meaning::{State, Value};
use java_core::{CoreExpr, CoreField};
use java_tree::{Items, NoMemory};
use run_calls::enter;
use run_frames::run::evaluate;
use run_frames::{Answer, Focus, ForValue, Run, Stack};
use run_state::throws::misfit;
use running_code::{Running, all_fields, is_constant, main_of};
use std::alloc::Global;

/// Where pieces of a run begin: how many calls and initialisations may be open, and the class that is run.
#[derive(Clone, Copy)]
pub(crate) struct Base {
    pub depth: u64,
    pub class: u32,
}

// How a piece ended, with the state after it.
#[derive(Drop)]
pub(crate) struct Piece {
    pub ended: Ended,
    pub state: State,
}

fn begin<'a>(alloc: Global, base: Base, state: State) -> Run<'a>
    ensures { result ≡ record { state = state; stack = []; depth = base.depth; class = base.class } }
{
    Run {
        state,
        stack: Stack::new(alloc),
        depth: base.depth,
        class: base.class,
    }
}

// A constant field holds its literal.
fn give_constant<'a>(
    alloc: Global,
    g: &'a Running<'a>,
    base: Base,
    state: State,
    field: u32,
    init: &'a CoreExpr,
) -> Result<Piece, NoMemory>
    requires { IsReady g.now }
    ensures { Pieces g.now base result (λ p. nothing (given p field (Some (plain init.now)) state)) }
{
    let mut run = begin(alloc, base, state);
    let focus = evaluate(&mut run, init, ForValue::Given(field))?;
    let ended = run_out(alloc, g, &mut run, focus)?;
    let Run { state, .. } = run;
    Ok(Piece { ended, state })
}

// A field holds its literal, where it is a constant field.
fn give_field<'a>(
    alloc: Global,
    g: &'a Running<'a>,
    base: Base,
    state: State,
    field: &'a CoreField,
) -> Result<Piece, NoMemory>
    requires { IsReady g.now }
    ensures { Pieces g.now base result (λ p. nothing (choose (constant p.code field.now.field) (given p field.now.field (field_plain field.now).init) (λ s. Gives tt s) state)) }
{
    let done = Ended::Gave(Answer::Nothing);
    if !is_constant(g, field.field) {
        return Ok(Piece { ended: done, state });
    }
    match &field.init {
        None => Ok(Piece { ended: done, state }),
        Some(init) => give_constant(alloc, g, base, state, field.field, init),
    }
}

// Each constant field holds its literal before anything runs.
fn give_constants<'a>(
    alloc: Global,
    g: &'a Running<'a>,
    base: Base,
    state: State,
) -> Result<Piece, NoMemory>
    requires { IsReady g.now }
    ensures { Pieces g.now base result (λ p. nothing (spec.constants_given p (spec.all_fields p.code) state)) }
{
    let mut state = state;
    let fields = all_fields(g);
    for field in fields {
        let piece = give_field(alloc, g, base, state, field)?;
        match piece.ended {
            Ended::Gave(_) => state = piece.state,
            Ended::Threw(thrown) => {
                return Ok(Piece {
                    ended: Ended::Threw(thrown),
                    state: piece.state,
                });
            }
            Ended::Bound => {
                return Ok(Piece {
                    ended: Ended::Bound,
                    state: piece.state,
                });
            }
        }
    }
    Ok(Piece {
        ended: Ended::Gave(Answer::Nothing),
        state,
    })
}

// The class is initialised.
fn initialise<'a>(
    alloc: Global,
    g: &'a Running<'a>,
    base: Base,
    state: State,
) -> Result<Piece, NoMemory>
    requires { IsReady g.now }
    ensures { Pieces g.now base result (λ p. nothing (p.initialise base.class state)) }
{
    let mut run = begin(alloc, base, state);
    let ended = run_out(alloc, g, &mut run, Focus::Initialise(base.class))?;
    let Run { state, .. } = run;
    Ok(Piece { ended, state })
}

// A main method is entered.
fn enter_main<'a>(
    alloc: Global,
    g: &'a Running<'a>,
    base: Base,
    state: State,
    method: u32,
) -> Result<Piece, NoMemory>
    requires { IsReady g.now }
    ensures { Pieces g.now base result (λ p. valued (p.call method v.Null (v.Ref 1 ∷ []) state)) }
{
    let mut args = Items::new(alloc);
    args.push(Value::Ref(1))?;
    let mut run = begin(alloc, base, state);
    let focus = enter(alloc, g, &mut run, method, Value::Null, args)?;
    let ended = run_out(alloc, g, &mut run, focus)?;
    let Run { state, .. } = run;
    Ok(Piece { ended, state })
}

// The main method of a class, if it declares one.
fn run_body<'a>(
    alloc: Global,
    g: &'a Running<'a>,
    base: Base,
    state: State,
) -> Result<Piece, NoMemory>
    requires { IsReady g.now }
    ensures { Pieces g.now base result (λ p. valued (with_some (spec.main_of p.code base.class) state (λ m. p.call m v.Null (v.Ref 1 ∷ []) state))) }
{
    match main_of(g, base.class) {
        Some(method) => enter_main(alloc, g, base, state, method),
        None => {
            let mut state = state;
            let thrown = misfit(alloc, &mut state)?;
            Ok(Piece {
                ended: Ended::Threw(thrown),
                state,
            })
        }
    }
}

// The class is initialised, and then its main method runs.
fn run_from<'a>(
    alloc: Global,
    g: &'a Running<'a>,
    base: Base,
    state: State,
) -> Result<Piece, NoMemory>
    requires { IsReady g.now }
    ensures { Pieces g.now base result (λ p. valued (begun p base.class state)) }
{
    let piece = initialise(alloc, g, base, state)?;
    match piece.ended {
        Ended::Gave(_) => run_body(alloc, g, base, piece.state),
        ended => Ok(Piece {
            ended,
            state: piece.state,
        }),
    }
}

fn class_count(types: &[TypeInfo]) -> usize
    ensures { result ≡ count_by spec.is_class types.now }
{
    types.iter().filter(|info| !info.interface).count()
}

/// At least as many as the types that a run can initialise (JLS 12.4.1): the classes and, for interfaces, the fields. None where 64 bits do not hold it.
pub fn most_initialised(w: &World) -> Option<u64>
    ensures { IfSome result (λ n. n ≡ spec.most_initialised w.now) }
{
    let classes = class_count(w.types.as_slice()) as u64;
    classes.checked_add(w.fields.len() as u64)
}

// The depth in which a program runs for so many steps, if 64 bits hold it.
fn depth_of(w: &World, steps: u64) -> Option<u64>
    ensures { IfSome result (λ d. d ≡ steps + spec.most_initialised w.now) }
{
    steps.checked_add(most_initialised(w)?)
}

/// The run of a class with these arguments, within so many steps.
pub(crate) fn run_class<'a>(
    alloc: Global,
    g: &'a Running<'a>,
    class: u32,
    args: &[String],
    steps: u64,
) -> Result<Piece, NoMemory>
    requires { IsReady g.now }
    ensures { Runs g.now result (λ c. spec.run c class (map string_bytes args.now) steps) }
{
    let Some(depth) = depth_of(g.world, steps) else {
        return Err(NoMemory);
    };
    let base = Base { depth, class };
    let piece = give_constants(alloc, g, base, start(alloc, g, args, steps)?)?;
    match piece.ended {
        Ended::Gave(_) => run_from(alloc, g, base, piece.state),
        ended => Ok(Piece {
            ended,
            state: piece.state,
        }),
    }
}
