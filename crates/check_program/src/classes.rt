//! Classes and their members.

ghost use Rattle.std.specs.Prelude.{◌≡◌, ◌+◌, ◌++◌, map, length, slice_get, IfOk, IfSome, OnOk};
ghost use Rattle.std.specs.List.{list_any};
ghost use Rattle.std.specs.Option.{option_map};
ghost use Rattle.java_tree.specs.View as view;
ghost use Rattle.java_core.specs.View.{class_plain, member_plain, written};
ghost use Rattle.checked.specs.Checked.{Meets, same};
ghost use Rattle.type_facts.specs.Facts.{AreFacts, Facts, IsReady};
ghost use Rattle.check_program.specs.Classes as spec;
ghost use Rattle.check_program.specs.Views as views;

use crate::circles::circular;
use crate::fields::field_member;
use crate::methods::{Declaration, implied_super, method_in};
use crate::parts::all_written;
use checked::Stop;
use class_world::{JavaType, TypeInfo, World, copied};
use java_core::{CoreClass, CoreMember, CoreType, Implied};
use java_tree::tree::{Member, Mod, Name, TypeDecl, Var};
use java_tree::{Items, NoMemory};
use std::alloc::Global;
use type_facts::Questions;
use type_facts::scope::Place;
use type_kinds::kinds::has;

/// Whether a field is static: each of an interface is (JLS 8.3.1.1, 9.3).
fn is_static_member(interface: bool, mods: &[Mod]) -> bool
    ensures { result ≡ spec.is_static_member interface mods.now }
{
    interface || has(Mod::Static, mods)
}

fn numbers(alloc: Global, xs: &[u32]) -> Result<Items<u32>, NoMemory>
    ensures { IfOk result (λ r. r ≡ xs.now) }
{
    Ok(Items::from_slice(alloc, xs)?)
}

/// The place in a member of the class around.
fn in_member(
    alloc: Global,
    place: &Place,
    is_static: bool,
    gives: Option<JavaType>,
) -> Result<Place, NoMemory>
    ensures { IfOk result (λ r. r ≡ spec.in_member place.now is_static gives) }
{
    let vars = Items::from_slice(alloc, place.vars.as_slice())?;
    Ok(Place {
        class: place.class,
        vars,
        is_static,
        in_static: is_static,
        blanks: numbers(alloc, place.blanks.as_slice())?,
        result: gives,
    })
}

/// The result of the method with this number.
fn result_of(alloc: Global, w: &World, method: u32) -> Result<Option<JavaType>, NoMemory>
    ensures { IfOk result (λ r. r ≡ spec.result_at w.now method) }
{
    let Some(info) = w.methods.get(method as usize) else {
        return Ok(None);
    };
    match &info.result {
        None => Ok(None),
        Some(ty) => Ok(Some(copied(alloc, ty)?)),
    }
}

fn member_in(
    alloc: Global,
    q: &Questions<'_>,
    place: &Place,
    interface: bool,
    field: u32,
    method: u32,
    m: &Member,
) -> Result<CoreMember, Stop>
    requires ready { IsReady q.now }
    ensures { (f : Facts) → AreFacts q.now f → Meets member_plain result (spec.member_in f place.now interface field method (view.member_plain m.now)) }
{
    match m {
        Member::Field {
            node,
            mods,
            ty,
            vars,
        } => {
            let is_static = is_static_member(interface, mods.as_slice());
            let place = in_member(alloc, place, is_static, None)?;
            field_member(alloc, q, &place, field, *node, ty, vars.as_slice())
        }
        Member::Method {
            node,
            mods,
            result,
            constructor,
            name: _,
            params,
            throws,
            body,
        } => {
            let m = Declaration {
                node: *node,
                constructor: *constructor,
                result,
                params: params.as_slice(),
                throws: throws.as_slice(),
                body,
            };
            let is_static = has(Mod::Static, mods.as_slice());
            method_member(alloc, q, place, is_static, method, &m)
        }
    }
}

fn method_member(
    alloc: Global,
    q: &Questions<'_>,
    place: &Place,
    is_static: bool,
    method: u32,
    m: &Declaration<'_>,
) -> Result<CoreMember, Stop>
    requires ready { IsReady q.now }
    ensures { (f : Facts) → AreFacts q.now f → Meets member_plain result (spec.method_member f place.now is_static method m.now.node m.now.constructor
        (option_map view.type_plain m.now.result.now) (map view.param_plain m.now.params.now) (map view.type_plain m.now.throws.now) (option_map view.stmt_plain m.now.body.now)) }
{
    let gives = result_of(alloc, q.world, method)?;
    let place = in_member(alloc, place, is_static, gives)?;
    let made = method_in(alloc, q, &place, method, m)?;
    Ok(CoreMember::Method(made))
}

/// The numbers of the first field and method behind a member; `None` where there are 2^32.
fn behind(field: u32, method: u32, m: &Member) -> Option<(u32, u32)>
    ensures { IfSome result (λ r. (r.0 ≡ spec.next_field field (view.member_plain m.now)) × (r.1 ≡ spec.next_method method (view.member_plain m.now))) }
{
    match m {
        Member::Field { vars, .. } => {
            let many = u32::try_from(vars.len()).ok()?;
            let field = field.checked_add(many)?;
            Some((field, method))
        }
        Member::Method { .. } => {
            let method = method.checked_add(1)?;
            Some((field, method))
        }
    }
}

/// The members of a class, whose first field and method have these numbers. `NoMemory` also where there are 2^32 fields or methods.
#[tactic(auto, using(crate::proofs::Steps::member_step, crate::proofs::Steps::member_stop, crate::proofs::Steps::member_end))]
fn members_of(
    alloc: Global,
    q: &Questions<'_>,
    place: &Place,
    interface: bool,
    field: u32,
    method: u32,
    ms: &[Member],
) -> Result<Items<CoreMember>, Stop>
    requires ready { IsReady q.now }
    ensures { (f : Facts) → AreFacts q.now f → Meets (map member_plain) result (spec.members_of f place.now interface field method (map view.member_plain ms.now)) }
{
    let mut done = Items::new(alloc);
    let mut field = field;
    let mut method = method;
    for m in ms {
        done.push(member_in(alloc, q, place, interface, field, method, m)?)?;
        match behind(field, method, m) {
            None => return Err(Stop::NoMemory),
            Some(next) => {
                field = next.0;
                method = next.1;
            }
        }
    }
    Ok(done)
}

fn is_constructor(m: &Member) -> bool
    ensures { result ≡ spec.is_constructor (view.member_plain m.now) }
{
    match m {
        Member::Field { .. } => false,
        Member::Method { constructor, .. } => *constructor,
    }
}

fn has_constructor(ms: &[Member]) -> bool
    ensures { result ≡ list_any spec.is_constructor (map view.member_plain ms.now) }
{
    for m in ms {
        if is_constructor(m) {
            return true;
        }
    }
    false
}

/// What the default constructor of a class calls, where it has one (JLS 8.8.9): T39, at the class.
fn default_of(
    alloc: Global,
    q: &Questions<'_>,
    place: &Place,
    d: &TypeDecl,
) -> Result<Option<Implied>, Stop>
    requires ready { IsReady q.now }
    ensures { (f : Facts) → AreFacts q.now f → Meets same result (spec.default_of f place.now (view.decl_plain d.now)) }
{
    if d.interface {
        return Ok(None);
    }
    if has_constructor(d.members.as_slice()) {
        return Ok(None);
    }
    implied_super(alloc, q, place, d.node)
}

// The core of a class without its members.
#[derive(Drop)]
struct Heading {
    default: Option<Implied>,
    extends: Items<CoreType>,
    implements: Items<CoreType>,
}

fn heading_of(
    alloc: Global,
    q: &Questions<'_>,
    place: &Place,
    d: &TypeDecl,
) -> Result<Heading, Stop>
    requires ready { IsReady q.now }
    ensures { (f : Facts) → AreFacts q.now f → Meets views.heading result (spec.heading f place.now (view.decl_plain d.now)) }
{
    let default = default_of(alloc, q, place, d)?;
    let extends = all_written(alloc, q, place, d.extends.as_slice())?;
    let implements = all_written(alloc, q, place, d.implements.as_slice())?;
    Ok(Heading {
        default,
        extends,
        implements,
    })
}

fn class_made(d: &TypeDecl, number: u32, heading: Heading, members: Items<CoreMember>) -> CoreClass
    ensures { class_plain result ≡ spec.class_made (view.decl_plain d.now) number (views.heading heading) (map member_plain members) }
{
    let Heading {
        default,
        extends,
        implements,
    } = heading;
    CoreClass {
        node: d.node,
        number,
        name_end: d.name_end,
        extends,
        implements,
        members,
        default,
    }
}

fn first_of(numbers: &[u32]) -> u32
    ensures { result ≡ spec.first_of numbers.now }
{
    match numbers.first() {
        None => 0,
        Some(number) => *number,
    }
}

fn class_in(
    alloc: Global,
    q: &Questions<'_>,
    place: &Place,
    info: &TypeInfo,
    d: &TypeDecl,
) -> Result<CoreClass, Stop>
    requires ready { IsReady q.now }
    ensures { (f : Facts) → AreFacts q.now f → Meets class_plain result (spec.class_in f place.now info.now (view.decl_plain d.now)) }
{
    let heading = heading_of(alloc, q, place, d)?;
    let field = first_of(info.fields.as_slice());
    let method = first_of(info.methods.as_slice());
    let members = members_of(
        alloc,
        q,
        place,
        d.interface,
        field,
        method,
        d.members.as_slice(),
    )?;
    without_circle(alloc, d, place.class, heading, members)
}

// T39: no constructor calls itself.
fn without_circle(
    alloc: Global,
    d: &TypeDecl,
    number: u32,
    heading: Heading,
    members: Items<CoreMember>,
) -> Result<CoreClass, Stop>
    ensures { Meets class_plain result (spec.without_circle (view.decl_plain d.now) number (views.heading heading) (map member_plain members)) }
{
    match circular(alloc, members.as_slice())? {
        None => Ok(class_made(d, number, heading, members)),
        Some(node) => Err(Stop::Broken { node, rule: 39 }),
    }
}

// Those of the variables without a value, by number.
#[tactic(auto, using(crate::proofs::Walks::blank_pushed, crate::proofs::Walks::blank_left))]
fn push_blank_vars(blanks: &mut Items<u32>, field: u32, vars: &[Var]) -> Result<(), NoMemory>
    ensures { OnOk result (blanks.new ≡ blanks.old ++ spec.blank_vars field (map view.var_plain vars.now)) }
{
    let mut number = field;
    for v in vars {
        if v.init.is_none() {
            blanks.push(number)?;
        }
        let Some(next) = number.checked_add(1) else {
            return Err(NoMemory);
        };
        number = next;
    }
    Ok(())
}

fn push_blanks(
    blanks: &mut Items<u32>,
    interface: bool,
    field: u32,
    m: &Member,
) -> Result<(), NoMemory>
    ensures { OnOk result (blanks.new ≡ blanks.old ++ spec.blanks_in interface field (view.member_plain m.now)) }
{
    match m {
        Member::Field { mods, vars, .. } => {
            if is_static_member(interface, mods.as_slice()) {
                return Ok(());
            }
            if !has(Mod::Final, mods.as_slice()) {
                return Ok(());
            }
            push_blank_vars(blanks, field, vars.as_slice())
        }
        Member::Method { .. } => Ok(()),
    }
}

/// The final instance fields of a class without a value, by number.
#[tactic(auto, using(crate::proofs::Walks::blanks_step))]
fn blanks_of(
    alloc: Global,
    interface: bool,
    field: u32,
    ms: &[Member],
) -> Result<Items<u32>, NoMemory>
    ensures { IfOk result (λ r. r ≡ spec.blanks_of interface field (map view.member_plain ms.now)) }
{
    let mut blanks = Items::new(alloc);
    let mut field = field;
    for m in ms {
        push_blanks(&mut blanks, interface, field, m)?;
        match behind(field, 0, m) {
            None => return Err(NoMemory),
            Some(next) => field = next.0,
        }
    }
    Ok(blanks)
}

fn place_of(alloc: Global, number: u32, info: &TypeInfo, d: &TypeDecl) -> Result<Place, NoMemory>
    ensures { IfOk result (λ r. r ≡ spec.place_of number info.now (view.decl_plain d.now)) }
{
    let vars = Items::from_slice(alloc, d.params.as_slice())?;
    let field = first_of(info.fields.as_slice());
    let blanks = blanks_of(alloc, d.interface, field, d.members.as_slice())?;
    Ok(Place {
        class: number,
        vars,
        is_static: false,
        in_static: false,
        blanks,
        result: None,
    })
}

/// The core of the type with this number, which the declaration declares.
pub fn class_of(
    alloc: Global,
    q: &Questions<'_>,
    number: u32,
    d: &TypeDecl,
) -> Result<CoreClass, Stop>
    requires ready { IsReady q.now }
    ensures { (f : Facts) → AreFacts q.now f → Meets class_plain result (spec.class_of f number (view.decl_plain d.now) (slice_get f.world.types number)) }
{
    match q.world.types.get(number as usize) {
        None => Err(Stop::Broken {
            node: d.node.id,
            rule: 1,
        }),
        Some(info) => {
            let place = place_of(alloc, number, info, d)?;
            class_in(alloc, q, &place, info, d)
        }
    }
}
