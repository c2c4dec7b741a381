//! Members as a type has them (JLS 4.5.2, 4.8).

ghost use Rattle.std.specs.Prelude.{◌≡◌, IfOk};
ghost use Rattle.java_core.specs.View.{plain, form_plain};
ghost use Rattle.class_world.specs.Types.{erased};
ghost use Rattle.java_core.specs.Plain as p;
ghost use Rattle.type_facts.specs.Facts.{AreFacts, Facts, IsReady};
ghost use Rattle.type_facts.specs.Members as spec;

use crate::asks::{is_below, super_as};
use crate::questions::Questions;
use class_world::{JavaType, World, erase, substituted};
use java_core::{CoreExpr, CoreForm};
use java_tree::tree::Node;
use java_tree::{Boxed, Items, NoMemory};
use std::alloc::Global;

/// How declared types are seen: erased, as members of a raw type are (JLS 4.8), or with arguments put for type variables (JLS 4.5.2).
#[derive(Drop)]
pub enum Seen {
    Erased,
    Put(Items<JavaType>),
}

fn params_of(w: &World, c: u32) -> u32
    ensures { result ≡ spec.params_at w.now c }
{
    match w.types.get(c as usize) {
        Some(info) => info.params,
        None => 0,
    }
}

fn through(alloc: Global, t: Option<JavaType>, params: u32) -> Seen
    ensures { result ≡ spec.through t params }
{
    match t {
        Some(JavaType::Class(_, args)) => {
            if args.is_empty() {
                if 0 < params {
                    return Seen::Erased;
                }
                return Seen::Put(args);
            }
            Seen::Put(args)
        }
        _ => Seen::Put(Items::new(alloc)),
    }
}

/// How a type sees what the class `o` declares (JLS 4.5.2, 4.8). A static member is seen as it is declared.
pub fn seen_by(
    alloc: Global,
    q: &Questions,
    t: &JavaType,
    o: u32,
    is_static: bool,
) -> Result<Seen, NoMemory>
    requires { IsReady q.now }
    ensures { (f : Facts) → AreFacts q.now f → IfOk result (λ r. r ≡ spec.seen_by f t.now o is_static) }
{
    if is_static {
        return Ok(Seen::Put(Items::new(alloc)));
    }
    let up = super_as(alloc, q, t, o)?;
    Ok(through(alloc, up, params_of(q.world, o)))
}

/// A declared type, as it is seen (JLS 4.5.2, 4.8).
pub fn as_seen(alloc: Global, seen: &Seen, t: &JavaType) -> Result<JavaType, NoMemory>
    ensures { IfOk result (λ r. r ≡ spec.as_seen seen.now t.now) }
{
    match seen {
        Seen::Erased => erase(alloc, t),
        Seen::Put(args) => substituted(alloc, args.as_slice(), t),
    }
}

fn is_below_erased(
    alloc: Global,
    q: &Questions,
    s: &JavaType,
    t: &JavaType,
) -> Result<bool, NoMemory>
    requires { IsReady q.now }
    ensures { (f : Facts) → AreFacts q.now f → IfOk result (λ r. r ≡ f.sub (erased s.now) (erased t.now)) }
{
    let s = erase(alloc, s)?;
    let t = erase(alloc, t)?;
    Ok(is_below(q, &s, &t))
}

#[tactic(auto, using(java_core::proofs::Views::plain_at))]
fn implied(
    alloc: Global,
    node: Node,
    declared: JavaType,
    ty: JavaType,
    form: CoreForm,
) -> Result<CoreExpr, NoMemory>
    ensures { IfOk result (λ r. plain r ≡ p.At node ty (p.Implied (p.At node declared (form_plain form)))) }
{
    let of = Boxed::new(
        alloc,
        CoreExpr {
            node,
            ty: declared,
            form,
        },
    )?;
    Ok(CoreExpr {
        node,
        ty,
        form: CoreForm::Implied(of),
    })
}

/// The value of a member of this declared type, where it is seen as another: cast to the erasure of that one where the erasure of the declared type is not below it (JLS 4.6, 15.11.1, 15.12.3).
#[tactic(auto, using(java_core::proofs::Views::plain_at))]
pub fn accessed(
    alloc: Global,
    q: &Questions,
    node: Node,
    declared: &JavaType,
    ty: JavaType,
    form: CoreForm,
) -> Result<CoreExpr, NoMemory>
    requires { IsReady q.now }
    ensures { (f : Facts) → AreFacts q.now f → IfOk result (λ r. plain r ≡ spec.accessed f node declared.now ty (form_plain form)) }
{
    if is_below_erased(alloc, q, declared, &ty)? {
        return Ok(CoreExpr { node, ty, form });
    }
    let declared = erase(alloc, declared)?;
    implied(alloc, node, declared, ty, form)
}
