//! The state before a run.

ghost use Rattle.std.specs.Prelude.{◌≡◌, IfOk, map};
ghost use Rattle.std.specs.String.{string_bytes};
ghost use Rattle.core_meaning.specs.Runs as spec;
ghost use Rattle.core_meaning.specs.Texts.{units_of_bytes};
ghost use Rattle.running_code.specs.Running.{IsReady, Makes};
ghost use Rattle.program_runs.specs.Starts.{first_heap};

use class_world::{JavaType, TypeInfo, World};
use core_meaning::{Frame, Progress, State, Thing, Value};
use java_strings::units_of_bytes;
use java_tree::{Items, NoMemory};
use run_state::arrays::default_value;
use running_code::Running;
use std::alloc::Global;
use type_kinds::members::is_static_field;

/// The class of System.out, and that of strings, by number.
const PRINT_STREAM: u32 = 3;

const STRING: u32 = 1;

/// System.out, by the number of the field.
const OUT: usize = 0;

// The strings of the arguments.
fn argument_texts(alloc: Global, args: &[String]) -> Result<Items<Items<u16>>, NoMemory>
    ensures { IfOk result (λ r. r ≡ map units_of_bytes (map string_bytes args.now)) }
{
    let mut texts = Items::new(alloc);
    for arg in args {
        texts.push(units_of_bytes(alloc, arg.as_bytes())?)?;
    }
    Ok(texts)
}

// The values of so many arguments.
fn argument_values(alloc: Global, count: usize) -> Result<Items<Value>, NoMemory>
    ensures { IfOk result (λ r. r ≡ spec.arguments 0 count) }
{
    let mut values = Items::new(alloc);
    for number in 0..count {
        values.push(Value::Text(number as u64))?;
    }
    Ok(values)
}

// What a static field holds at first.
fn first_static(field: usize, ty: &JavaType) -> Value
    ensures { result ≡ spec.first_static field ty.now }
{
    if field == OUT {
        Value::Ref(0)
    } else {
        default_value(ty)
    }
}

fn statics_of(alloc: Global, w: &World) -> Result<Items<Option<Value>>, NoMemory>
    ensures { IfOk result (λ r. r ≡ spec.statics_from w.now 0 w.now.fields) }
{
    let mut statics = Items::new(alloc);
    let fields = w.fields.as_slice();
    for field in 0..fields.len() {
        let info = &fields[field];
        if is_static_field(w, info) {
            statics.push(Some(first_static(field, &info.ty)))?;
        } else {
            statics.push(None)?;
        }
    }
    Ok(statics)
}

fn first_progress(info: &TypeInfo) -> Progress
    ensures { result ≡ spec.first_progress info.now }
{
    if info.node.is_some() {
        Progress::Untouched
    } else {
        Progress::Done
    }
}

fn progress_of(alloc: Global, types: &[TypeInfo]) -> Result<Items<Progress>, NoMemory>
    ensures { IfOk result (λ r. r ≡ map spec.first_progress types.now) }
{
    let mut progress = Items::new(alloc);
    for info in types {
        progress.push(first_progress(info))?;
    }
    Ok(progress)
}

// System.out, and the array of the arguments.
fn first_heap(alloc: Global, count: usize) -> Result<Items<Thing>, NoMemory>
    ensures { IfOk result (λ r. r ≡ first_heap count) }
{
    let mut heap = Items::new(alloc);
    heap.push(Thing::Object {
        class: PRINT_STREAM,
        fields: Items::new(alloc),
        message: Value::Null,
    })?;
    heap.push(Thing::Array {
        element: JavaType::Class(STRING, Items::new(alloc)),
        items: argument_values(alloc, count)?,
    })?;
    Ok(heap)
}

/// The state in which a program starts with these arguments, and with so many steps.
pub(crate) fn start(
    alloc: Global,
    g: &Running<'_>,
    args: &[String],
    steps: u64,
) -> Result<State, NoMemory>
    requires { IsReady g.now }
    ensures { Makes g.now result (λ c. spec.start c (map string_bytes args.now) steps) }
{
    Ok(State {
        left: steps,
        heap: first_heap(alloc, args.len())?,
        texts: argument_texts(alloc, args)?,
        literals: Items::new(alloc),
        statics: statics_of(alloc, g.world)?,
        progress: progress_of(alloc, g.world.types.as_slice())?,
        frame: Frame {
            this: Value::Null,
            slots: Items::new(alloc),
        },
        printed: Items::new(alloc),
        entered: Items::new(alloc),
        wrong: false,
    })
}
