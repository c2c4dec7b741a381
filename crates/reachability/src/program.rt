//! Bodies, classes and programs: rules F1 and F2.

ghost use Rattle.std.specs.Prelude.{◌≡◌, map};
ghost use Rattle.std.specs.Option.{option_map};
ghost use Rattle.java_core.specs.View.{class_plain, file_plain, member_plain, program_plain, stmt_plain};
ghost use Rattle.reachability.specs.Reached as spec;

use crate::flaw::{Flaw, flaw_unless};
use crate::stmts::walk;
use crate::ways::{Ways, start};
use java_core::{CoreClass, CoreFile, CoreMember, CoreProgram, CoreStmt};
use java_tree::tree::Node;

/// Whether a statement that is reached can complete normally (JLS 14.21).
pub fn completes(s: &CoreStmt) -> bool
    ensures { result ≡ spec.completes (stmt_plain s.now) }
{
    walk(s, start(None)).alive
}

/// At the end of a body: rule F2.
fn ended(gives: bool, node: Node, w: Ways) -> Option<Flaw>
    ensures { result ≡ spec.ended gives node w }
{
    flaw_unless(!(gives && w.alive), node.id, 2, w.first)
}

/// In the body of a method that gives a value or not.
fn in_body(gives: bool, node: Node, body: &Option<CoreStmt>, first: Option<Flaw>) -> Option<Flaw>
    ensures { result ≡ spec.in_body gives node (option_map stmt_plain body.now) first }
{
    match body {
        None => first,
        Some(body) => ended(gives, node, walk(body, start(first))),
    }
}

fn in_member(member: &CoreMember, first: Option<Flaw>) -> Option<Flaw>
    ensures { result ≡ spec.in_member (member_plain member.now) first }
{
    match member {
        CoreMember::Fields { .. } => first,
        CoreMember::Method(method) => {
            in_body(method.result.is_some(), method.node, &method.body, first)
        }
    }
}

fn in_members(members: &[CoreMember], mut first: Option<Flaw>) -> Option<Flaw>
    ensures { result ≡ spec.in_members (map member_plain members.now) first }
{
    for member in members {
        first = in_member(member, first);
    }
    first
}

fn in_classes(classes: &[CoreClass], mut first: Option<Flaw>) -> Option<Flaw>
    ensures { result ≡ spec.in_classes (map class_plain classes.now) first }
{
    for class in classes {
        first = in_members(class.members.as_slice(), first);
    }
    first
}

fn in_files(files: &[CoreFile], mut first: Option<Flaw>) -> Option<Flaw>
    ensures { result ≡ spec.in_files (map file_plain files.now) first }
{
    for file in files {
        first = in_classes(file.classes.as_slice(), first);
    }
    first
}

/// The first of F1 and F2 that a program breaks: a statement that is not reachable, or a body with a result that can complete normally (JLS 14.21, 8.4.7).
pub fn unreached(program: &CoreProgram) -> Option<Flaw>
    ensures { result ≡ spec.unreached (program_plain program.now) }
{
    in_files(program.files.as_slice(), None)
}
