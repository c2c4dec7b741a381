//! Written types in bodies (JLS 4.3 to 4.5, 6.5.5).

ghost use Rattle.std.specs.Prelude.{◌≡◌, IfOk, map};
ghost use Rattle.java_tree.specs.View.{type_plain};
ghost use Rattle.java_tree.specs.View as tree;
ghost use Rattle.java_core.specs.View.{written as written_view};
ghost use Rattle.checked.specs.Checked.{Meets, same};
ghost use Rattle.written_types.specs.Types.{arrays, variable};
ghost use Rattle.type_facts.specs.Facts.{AreFacts, Facts};
ghost use Rattle.operator_rules.specs.Writtens as spec;

use checked::Stop;
use class_world::{JavaType, World, copied};
use java_core::CoreType;
use java_tree::tree::{Head, Name, Node, Span, TypeExpr};
use java_tree::{Boxed, Items, NoMemory};
use std::alloc::Global;
use type_facts::Questions;
use type_facts::asks::mean;
use type_facts::scope::Place;
use written_types::Named;

/// The first place of a name.
fn place_of(name: Name, vars: &[Name]) -> Option<usize>
    ensures { result ≡ variable name vars.now }
{
    for (at, var) in vars.iter().enumerate() {
        if *var == name {
            return Some(at);
        }
    }
    None
}

fn named(q: &Questions, place: &Place, name: Name) -> Named
    ensures { (f : Facts) → AreFacts q.now f → result ≡ spec.named_by (variable name place.now.vars) (f.mean name) }
{
    if let Some(at) = place_of(name, place.vars.as_slice()) {
        return Named::Variable(at);
    }
    match mean(q, name) {
        Some(number) => Named::Type(number),
        None => Named::Nothing,
    }
}

fn path_named(q: &Questions, place: &Place, path: &[Name]) -> Named
    ensures { (f : Facts) → AreFacts q.now f → result ≡ spec.path_named f place.now path.now }
{
    match path.split_first() {
        None => Named::Nothing,
        Some((name, rest)) => {
            if rest.is_empty() {
                named(q, place, *name)
            } else {
                Named::Nothing
            }
        }
    }
}

/// What a head names: a primitive type, a type parameter of the class around, which shadows a type of its name, or the type that a simple name means in the file (JLS 6.3.1, 6.5.5).
fn head_named(q: &Questions, place: &Place, head: &Head) -> Named
    ensures { (f : Facts) → AreFacts q.now f → result ≡ spec.head_named f place.now head.now }
{
    match head {
        Head::Prim(p) => Named::Primitive(*p),
        Head::Path(path) => path_named(q, place, path.as_slice()),
    }
}

#[tactic(auto, using(crate::proofs::TypeSteps::takes_none, crate::proofs::TypeSteps::takes_many))]
fn takes(w: &World, number: u32, arguments: usize) -> bool
    ensures { result ≡ spec.takes (spec.params_at w.now number) arguments }
{
    if arguments == 0 {
        return true;
    }
    match w.types.get(number as usize) {
        None => false,
        Some(info) => info.params as usize == arguments,
    }
}

/// The first rule that is broken at the written type itself, where it has so many arguments.
#[tactic(auto, using(crate::proofs::TypeSteps::takes_none, crate::proofs::TypeSteps::takes_no))]
fn well_named(
    q: &Questions,
    place: &Place,
    node: u32,
    named: Named,
    arguments: usize,
) -> Result<Named, Stop>
    ensures { (f : Facts) → AreFacts q.now f → Meets same result (spec.well_named f place.now node named arguments) }
{
    match named {
        Named::Primitive(_) => {
            if arguments != 0 {
                return Err(Stop::Broken { node, rule: 2 });
            }
            Ok(named)
        }
        Named::Variable(_) => {
            if arguments != 0 {
                return Err(Stop::Broken { node, rule: 2 });
            }
            if place.in_static {
                return Err(Stop::Broken { node, rule: 3 });
            }
            Ok(named)
        }
        Named::Type(number) => {
            if !takes(q.world, number, arguments) {
                return Err(Stop::Broken { node, rule: 2 });
            }
            Ok(named)
        }
        Named::Nothing => Err(Stop::Broken { node, rule: 1 }),
    }
}

/// The type that is named, with these arguments. `NoMemory` also where a type parameter stands behind 2^32 others.
fn said(named: Named, args: Items<JavaType>) -> Result<JavaType, NoMemory>
    ensures { IfOk result (λ r. r ≡ spec.said named args) }
{
    match named {
        Named::Primitive(p) => Ok(JavaType::Prim(p)),
        Named::Variable(at) => {
            let Ok(at) = u32::try_from(at) else {
                return Err(NoMemory);
            };
            Ok(JavaType::Var(at))
        }
        Named::Type(number) => Ok(JavaType::Class(number, args)),
        Named::Nothing => Ok(JavaType::Null),
    }
}

/// Array levels around a type.
fn with_levels(alloc: Global, ty: JavaType, levels: u32) -> Result<JavaType, NoMemory>
    ensures { IfOk result (λ r. r ≡ arrays levels ty) }
{
    let mut ty = ty;
    for _ in 0..levels {
        ty = JavaType::Array(Boxed::new(alloc, ty)?);
    }
    Ok(ty)
}

/// The types that written types say.
#[tactic(auto, using(crate::proofs::TypeSteps::type_of))]
fn types_said(alloc: Global, xs: &[CoreType]) -> Result<Items<JavaType>, NoMemory>
    ensures { IfOk result (λ r. r ≡ map spec.type_said (map written_view xs.now)) }
{
    let mut types = Items::new(alloc);
    for x in xs {
        types.push(copied(alloc, &x.ty)?)?;
    }
    Ok(types)
}

fn type_made(
    alloc: Global,
    named: Named,
    levels: u32,
    args: &[CoreType],
) -> Result<JavaType, NoMemory>
    ensures { IfOk result (λ r. r ≡ arrays levels (spec.said named (map spec.type_said (map written_view args.now)))) }
{
    let types = types_said(alloc, args)?;
    let ty = said(named, types)?;
    with_levels(alloc, ty, levels)
}

#[tactic(auto, using(java_core::proofs::Views::type_rolled))]
fn made(
    alloc: Global,
    node: Node,
    head: Span,
    levels: u32,
    named: Named,
    args: Items<CoreType>,
) -> Result<CoreType, NoMemory>
    ensures { IfOk result (λ r. written_view r ≡ spec.made node head levels named (map written_view args)) }
{
    let ty = type_made(alloc, named, levels, args.as_slice())?;
    Ok(CoreType {
        node,
        head,
        ty,
        args,
    })
}

/// A written type: each within it names a type, with no arguments or as many as that has parameters, and no type parameter stands in a static member (JLS 4.3 to 4.5, 6.5.5, 8.1.2).
#[cycle(written)]
#[tactic(auto, using(crate::proofs::TypeSteps::written_out))]
pub fn written(alloc: Global, q: &Questions, place: &Place, x: &TypeExpr) -> Result<CoreType, Stop>
    ensures { (f : Facts) → AreFacts q.now f → Meets written_view result (spec.written f place.now (type_plain x.now)) }
{
    let named = head_named(q, place, &x.head);
    let named = well_named(q, place, x.node.id, named, x.args.len())?;
    let args = writtens(alloc, q, place, x.args.as_slice())?;
    Ok(made(alloc, x.node, x.head_span, x.dims, named, args)?)
}

#[cycle(written)]
#[tactic(auto, using(crate::proofs::TypeSteps::row_end, crate::proofs::TypeSteps::row_step, crate::proofs::TypeSteps::row_stop))]
fn writtens(
    alloc: Global,
    q: &Questions,
    place: &Place,
    xs: &[TypeExpr],
) -> Result<Items<CoreType>, Stop>
    ensures { (f : Facts) → AreFacts q.now f → Meets (map written_view) result (spec.writtens f place.now (tree.types (map type_plain xs.now))) }
{
    let mut done = Items::new(alloc);
    for x in xs {
        done.push(written(alloc, q, place, x)?)?;
    }
    Ok(done)
}
