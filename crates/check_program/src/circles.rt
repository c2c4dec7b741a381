//! Constructors that call themselves by this(..) (JLS 8.8.7).

ghost use Rattle.std.specs.Prelude.{◌≡◌, map, IfOk};
ghost use Rattle.std.specs.Option.{option_map};
ghost use Rattle.java_core.specs.View.{member_plain, stmt_plain, stmts_plain};
ghost use Rattle.check_program.specs.Classes as spec;

use java_core::{CoreMember, CoreStmt, CoreStmtForm};
use java_tree::{Items, NoMemory};
use std::alloc::Global;

/// A call by this(..): the constructor in which it stands, the one that it calls, and its node.
#[derive(Clone, Copy, Debug, PartialEq, Eq)]
pub struct Link {
    pub from: u32,
    pub to: u32,
    pub node: u32,
}

// The call by this(..) with which a body begins.
fn link_of_body(method: u32, body: &Option<CoreStmt>) -> Option<Link>
    ensures { result ≡ spec.link_of_body method (option_map stmt_plain body.now) }
{
    let Some(body) = body else {
        return None;
    };
    match &body.form {
        CoreStmtForm::Block(ss) => link_in(method, ss.as_slice()),
        _ => None,
    }
}

fn link_in(method: u32, ss: &[CoreStmt]) -> Option<Link>
    ensures { result ≡ spec.link_in method (stmts_plain ss.now) }
{
    let Some(first) = ss.first() else {
        return None;
    };
    match &first.form {
        CoreStmtForm::ThisCall { constructor, .. } => Some(Link {
            from: method,
            to: *constructor,
            node: first.node.id,
        }),
        _ => None,
    }
}

fn link_of(m: &CoreMember) -> Option<Link>
    ensures { result ≡ spec.link_of (member_plain m.now) }
{
    match m {
        CoreMember::Fields { .. } => None,
        CoreMember::Method(m) => link_of_body(m.method, &m.body),
    }
}

#[tactic(auto, using(crate::proofs::Walks::link_pushed, crate::proofs::Walks::link_left))]
fn links_of(alloc: Global, ms: &[CoreMember]) -> Result<Items<Link>, NoMemory>
    ensures { IfOk result (λ r. r ≡ spec.links_of (map member_plain ms.now)) }
{
    let mut links = Items::new(alloc);
    for m in ms {
        if let Some(link) = link_of(m) {
            links.push(link)?;
        }
    }
    Ok(links)
}

// The constructor that one calls by this(..).
fn linked(links: &[Link], from: u32) -> Option<u32>
    ensures { result ≡ spec.linked links.now from }
{
    for link in links {
        if link.from == from {
            return Some(link.to);
        }
    }
    None
}

// Whether as many calls or fewer lead from a constructor to this one.
fn leads(links: &[Link], calls: usize, to: u32, from: Option<u32>) -> bool
    ensures { result ≡ spec.leads links.now calls to from }
{
    let mut from = from;
    for _ in 0..calls {
        match from {
            None => return false,
            Some(at) => {
                if at == to {
                    return true;
                }
                from = linked(links, at);
            }
        }
    }
    false
}

fn first_circle(links: &[Link], rest: &[Link]) -> Option<u32>
    ensures { result ≡ spec.circular links.now rest.now }
{
    for link in rest {
        if leads(links, links.len(), link.from, Some(link.to)) {
            return Some(link.node);
        }
    }
    None
}

/// The node of the first call by this(..) that leads back to its own constructor (JLS 8.8.7). Takes time for the calls of each.
pub fn circular(alloc: Global, ms: &[CoreMember]) -> Result<Option<u32>, NoMemory>
    ensures { IfOk result (λ r. r ≡ spec.circular (spec.links_of (map member_plain ms.now)) (spec.links_of (map member_plain ms.now))) }
{
    let links = links_of(alloc, ms)?;
    Ok(first_circle(links.as_slice(), links.as_slice()))
}
