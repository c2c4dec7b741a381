//! Types (JLS 4), as trees and by where they end.

ghost use Rattle.std.specs.Prelude.{◌≡◌, ◌+◌, ◌<◌, ◌≤◌, ◌^◌, ◌∷◌, [], ℕ, List, length, map, IfSome, IfOk};
ghost use Rattle.java_tree.specs.Plain as t;
ghost use Rattle.java_tree.specs.View.{type_plain};
ghost use Rattle.java_grammar.specs.Expressions.{SpellsType, GoesOn};
ghost use Rattle.java_grammar.specs.Heights.{type_depth};
ghost use Rattle.java_grammar.specs.Reads.{sort_at};
ghost use Rattle.java_parse_term.specs.Types as spec;
ghost use Rattle.java_parse_term.specs.Types.{Read};
ghost use Rattle.java_parse_term.specs.Parse.{type_read};
ghost use Rattle.java_parse_term.specs.Found.{IsFound};
ghost use Rattle.java_parse_term.specs.Seen.{Reads, same, seen, type_at_limit};
ghost use Rattle.java_parse_term.specs.Ready.{TypeNests};

use crate::fault::SyntaxFault;
use crate::marks::{after_infix, after_mark, after_word, dotted};
use crate::parsed::{Parsed, need, token_number};
use crate::signs::Standing;
use java_grammar::{Keyword, Mark, Sort, Tok, name_at, sort_at, span_of};
use java_tree::tree::{BinOp, Head, Name, Node, Primitive, TypeExpr};
use java_tree::{Boxed, Items};
use std::alloc::Global;

/// Where the reading of a type that takes no memory has come.
#[derive(Clone, Copy)]
pub struct Scan {
    /// How many type arguments stand open.
    pub nesting: usize,
    /// Whether a type has just ended; otherwise one begins.
    pub is_whole: bool,
    pub at: usize,
}

/// The depth of what stands above, if it is within the limit.
#[tactic(auto, unfolding(crate::specs::Types::rise))]
pub fn rise(limit: u32, depth: u32) -> Option<u32>
    ensures { result ≡ spec.rise limit depth }
{
    if depth < limit { Some(depth + 1) } else { None }
}

pub fn primitive_of(sort: Sort) -> Option<Primitive>
    ensures { result ≡ spec.primitive_of sort }
{
    match sort {
        Sort::Keyword(Keyword::Int) => Some(Primitive::Int),
        Sort::Keyword(Keyword::Long) => Some(Primitive::Long),
        Sort::Keyword(Keyword::Char) => Some(Primitive::Char),
        Sort::Keyword(Keyword::Boolean) => Some(Primitive::Boolean),
        _ => None,
    }
}

// Whether no type ends before the token.
fn goes_on(sort: Sort) -> bool
    ensures { result ≡ spec.goes_on sort }
{
    matches!(
        sort,
        Sort::Mark(Mark::Dot | Mark::LeftBracket) | Sort::Infix(BinOp::Less)
    )
}

fn is_path(head: &Head) -> bool
    ensures { result ≡ spec.is_path head.now }
{
    matches!(head, Head::Path(_))
}

/// Whether it is a primitive type, and no array.
pub fn is_primitive(ty: &TypeExpr) -> bool
    ensures { result ≡ spec.is_primitive (type_plain ty.now) }
{
    !is_path(&ty.head) && ty.dims == 0
}

/// Whether it is an array type.
pub fn has_brackets(ty: &TypeExpr) -> bool
    ensures { result ≡ spec.has_brackets (type_plain ty.now) }
{
    ty.dims > 0
}

/// Whether it is a class or interface, and no array.
pub fn names_class(ty: &TypeExpr) -> bool
    ensures { result ≡ spec.names_class (type_plain ty.now) }
{
    is_path(&ty.head) && ty.dims == 0
}

// Identifiers with dots between them.
#[tactic(auto, unfolding(crate::specs::Types::path))]
fn path(alloc: Global, toks: &[Tok], at: usize) -> Result<Parsed<Items<Name>>, SyntaxFault>
    ensures { Reads (seen same) (spec.path toks.now (length toks.now) [] at) result }
{
    let mut tree = Items::new(alloc);
    let mut here = at;
    for _turn in 0..toks.len() {
        let next = need(after_word(toks, here), here)?;
        tree.push(Name(name_at(toks, here)))?;
        match dotted(toks, next) {
            Some(name) => here = name,
            None => {
                return Ok(Parsed {
                    tree,
                    depth: 0,
                    next,
                });
            }
        }
    }
    Err(SyntaxFault::Bad {
        token: token_number(here),
    })
}

#[tactic(auto, using(crate::proofs::TokLemmas::nothing_past), unfolding(crate::specs::Types::type_head))]
fn head(alloc: Global, toks: &[Tok], at: usize) -> Result<Parsed<Head>, SyntaxFault>
    ensures { Reads (seen same) (spec.type_head toks.now at) result }
{
    if let Some(primitive) = primitive_of(sort_at(toks, at)) {
        return Ok(Parsed {
            tree: Head::Prim(primitive),
            depth: 0,
            next: at + 1,
        });
    }
    let Parsed { tree, next, .. } = path(alloc, toks, at)?;
    Ok(Parsed {
        tree: Head::Path(tree),
        depth: 0,
        next,
    })
}

// The place behind a pair of brackets.
#[tactic(auto, unfolding(crate::specs::Types::pair_end))]
fn pair_end(toks: &[Tok], at: usize) -> Option<usize>
    ensures { result ≡ spec.pair_end toks.now at }
{
    let inner = after_mark(toks, Mark::LeftBracket, at)?;
    after_mark(toks, Mark::RightBracket, inner)
}

/// How many pairs of brackets stand there, and the place behind them.
#[tactic(auto, unfolding(crate::specs::Types::brackets))]
pub fn brackets(toks: &[Tok], at: usize) -> Standing<u32>
    requires { length toks.now < 2 ^ 32 }
    ensures { result ≡ spec.brackets toks.now (length toks.now) 0 at }
{
    let mut here = at;
    let mut dims = 0;
    for _turn in 0..toks.len() {
        match pair_end(toks, here) {
            Some(next) => {
                here = next;
                dims += 1;
            }
            None => break,
        }
    }
    Standing {
        is: dims,
        next: here,
    }
}

// A type from its head to before `next`.
#[tactic(auto, using(java_tree::proofs::Views::type_rolled))]
fn written(
    alloc: Global,
    toks: &[Tok],
    at: usize,
    head: Parsed<Head>,
    args: Parsed<Items<TypeExpr>>,
) -> Result<Parsed<Boxed<TypeExpr>>, SyntaxFault>
    requires { length toks.now < 2 ^ 32 }
    ensures { Reads (seen type_plain) (Some (spec.written toks.now at (seen same head) (seen (map type_plain) args) (spec.brackets toks.now (length toks.now) 0 args.next))) result }
{
    let found = brackets(toks, args.next);
    let node = Node {
        id: 0,
        span: span_of(toks, at, found.next),
    };
    let head_span = span_of(toks, at, head.next);
    let Parsed { tree: head, .. } = head;
    let Parsed {
        tree: args,
        depth,
        ..
    } = args;
    let tree = TypeExpr {
        node,
        head,
        head_span,
        args,
        dims: found.is,
    };
    Ok(Parsed {
        tree: Boxed::new(alloc, tree)?,
        depth,
        next: found.next,
    })
}

/// A type without arguments.
#[tactic(auto, unfolding(crate::specs::Types::bare_type))]
pub fn bare_type(
    alloc: Global,
    toks: &[Tok],
    at: usize,
) -> Result<Parsed<Boxed<TypeExpr>>, SyntaxFault>
    requires { length toks.now < 2 ^ 32 }
    ensures { Reads (seen type_plain) (spec.bare_type toks.now at) result }
{
    let head = head(alloc, toks, at)?;
    let none = Parsed {
        tree: Items::new(alloc),
        depth: 0,
        next: head.next,
    };
    written(alloc, toks, at, head, none)
}

// Where the arguments of a type begin, behind its head.
#[tactic(auto, unfolding(crate::specs::Types::first_argument))]
fn first_argument(toks: &[Tok], path: bool, at: usize) -> Option<usize>
    ensures { result ≡ spec.first_argument toks.now path at }
{
    if path {
        after_infix(toks, BinOp::Less, at)
    } else {
        None
    }
}

/// Rules over tokens, for types of at most the depth `limit`; `below` reads those of less.
#[derive(Clone, Copy)]
pub struct TypeRules<'a, F> {
    pub alloc: Global,
    pub toks: &'a [Tok],
    pub limit: u32,
    pub below: F,
}

impl<F: Fn(Global, &[Tok], u32, usize) -> Result<Parsed<Boxed<TypeExpr>>, SyntaxFault>> TypeRules<
    '_,
    F,
> {
    #[tactic(auto, unfolding(crate::specs::Types::argument))]
    fn argument(&self, at: usize) -> Result<Parsed<Boxed<TypeExpr>>, SyntaxFault>
        requires { TypeNests self.now.toks.now self.now.limit (F.pre self.now.below) (F.post self.now.below) }
        ensures { Reads (seen type_plain) (type_at_limit spec.argument spec.read_type self.now.toks.now self.now.limit at) result }
    {
        let one = (self.below)(self.alloc, self.toks, self.limit, at)?;
        if is_primitive(one.tree.get()) {
            return Err(SyntaxFault::Bad {
                token: token_number(at),
            });
        }
        let depth = need(rise(self.limit, one.depth), at)?;
        let Parsed { tree, next, .. } = one;
        Ok(Parsed { tree, depth, next })
    }

    // The arguments behind the first.
    #[tactic(auto, unfolding(crate::specs::Types::more_types))]
    fn more(&self, first: Parsed<Boxed<TypeExpr>>) -> Result<Parsed<Items<TypeExpr>>, SyntaxFault>
        requires { TypeNests self.now.toks.now self.now.limit (F.pre self.now.below) (F.post self.now.below) }
        ensures { Reads (seen (map type_plain)) (type_at_limit spec.more_types spec.read_type self.now.toks.now self.now.limit (length self.now.toks.now) (type_plain first.tree ∷ []) first.depth first.next) result }
    {
        let Parsed {
            tree,
            mut depth,
            next: mut at,
        } = first;
        let mut tree = Items::one(self.alloc, tree.into_inner())?;
        for _turn in 0..self.toks.len() {
            if let Some(next) = after_infix(self.toks, BinOp::Greater, at) {
                return Ok(Parsed { tree, depth, next });
            }
            let behind = need(after_mark(self.toks, Mark::Comma, at), at)?;
            let one = self.argument(behind)?;
            tree.push(one.tree.into_inner())?;
            depth = depth.max(one.depth);
            at = one.next;
        }
        Err(SyntaxFault::Bad {
            token: token_number(at),
        })
    }

    #[tactic(auto, unfolding(crate::specs::Types::arguments))]
    fn arguments(&self, path: bool, at: usize) -> Result<Parsed<Items<TypeExpr>>, SyntaxFault>
        requires { TypeNests self.now.toks.now self.now.limit (F.pre self.now.below) (F.post self.now.below) }
        ensures { Reads (seen (map type_plain)) (type_at_limit spec.arguments spec.read_type self.now.toks.now self.now.limit path at) result }
    {
        match first_argument(self.toks, path, at) {
            Some(first) => {
                let one = self.argument(first)?;
                self.more(one)
            }
            None => Ok(Parsed {
                tree: Items::new(self.alloc),
                depth: 0,
                next: at,
            }),
        }
    }

    #[tactic(auto, unfolding(crate::specs::Types::type_rule))]
    fn type_expr(&self, at: usize) -> Result<Parsed<Boxed<TypeExpr>>, SyntaxFault>
        requires { TypeNests self.now.toks.now self.now.limit (F.pre self.now.below) (F.post self.now.below) }
        ensures { Reads (seen type_plain) (type_at_limit spec.type_rule spec.read_type self.now.toks.now self.now.limit at) result }
    {
        let head = head(self.alloc, self.toks, at)?;
        let args = self.arguments(is_path(&head.tree), head.next)?;
        written(self.alloc, self.toks, at, head, args)
    }
}

/// A type of less than the depth `limit`.
pub fn read_type(
    alloc: Global,
    toks: &[Tok],
    limit: u32,
    at: usize,
) -> Result<Parsed<Boxed<TypeExpr>>, SyntaxFault>
    requires { length toks.now < 2 ^ 32 }
    ensures { Reads (seen type_plain) (spec.read_type toks.now limit at) result }
{
    if limit == 0 {
        return Err(SyntaxFault::Bad {
            token: token_number(at),
        });
    }
    TypeRules {
        alloc,
        toks,
        limit: limit - 1,
        below: read_type,
    }
    .type_expr(at)
}

/// The type that begins at a token, of at most a depth. Nodes have the number 0, and a type's own node the depth 0.
///
/// # Errors
///
/// `Bad` where no such type stands before a token that ends it, and `NoMemory`.
pub fn type_at(
    alloc: Global,
    toks: &[Tok],
    at: usize,
    depth: u32,
) -> Result<Parsed<Boxed<TypeExpr>>, SyntaxFault>
    requires { length toks.now < 2 ^ 32 }
    ensures reads { Reads (seen type_plain) (type_read toks.now depth at) result }
    ensures found { IfOk result (λ r. (text : List ℕ) → SpellsType text toks.now (type_plain r.tree) at r.next × (type_depth (type_plain r.tree) ≤ depth)) }
    ensures only { (text : List ℕ) (x : t.TypeExpr) (j : ℕ) → SpellsType text toks.now x at j → type_depth x ≤ depth → (GoesOn text toks.now (sort_at toks.now j) → ⊥) → IsFound type_plain result x j }
{
    TypeRules {
        alloc,
        toks,
        limit: depth,
        below: read_type,
    }
    .type_expr(at)
}

// ---- how far a type goes

#[tactic(auto, unfolding(crate::specs::Types::path_end))]
fn path_end(toks: &[Tok], at: usize) -> Option<usize>
    ensures { result ≡ spec.path_end toks.now (length toks.now) at }
{
    let mut here = at;
    for _turn in 0..toks.len() {
        let next = after_word(toks, here)?;
        match dotted(toks, next) {
            Some(name) => here = name,
            None => return Some(next),
        }
    }
    None
}

// Whether the head of a type is a path, and its end.
#[tactic(auto, using(crate::proofs::TokLemmas::nothing_past), unfolding(crate::specs::Types::head_end))]
fn head_end(toks: &[Tok], at: usize) -> Option<Standing<bool>>
    ensures { result ≡ spec.head_end toks.now at }
{
    if primitive_of(sort_at(toks, at)).is_some() {
        return Some(Standing {
            is: false,
            next: at + 1,
        });
    }
    let next = path_end(toks, at)?;
    Some(Standing { is: true, next })
}

// Behind a head without arguments. An argument is no primitive type.
#[tactic(auto, unfolding(crate::specs::Types::head_only))]
fn head_only(nesting: usize, path: bool, found: Standing<u32>) -> Option<Scan>
    ensures value { result ≡ spec.head_only nesting path found }
    ensures within { IfSome result (λ x. x.nesting ≤ nesting + 1) }
{
    if nesting > 0 && !path && found.is == 0 {
        return None;
    }
    Some(Scan {
        nesting,
        is_whole: true,
        at: found.next,
    })
}

// From the front of a type.
#[tactic(auto, unfolding(crate::specs::Types::scan_type))]
fn scan_type(toks: &[Tok], nesting: usize, at: usize) -> Option<Scan>
    requires few { length toks.now < 2 ^ 32 }
    requires nesting { nesting < 2 ^ 33 }
    ensures value { result ≡ spec.scan_type toks.now nesting at }
    ensures within { IfSome result (λ x. x.nesting ≤ nesting + 1) }
{
    let head = head_end(toks, at)?;
    match first_argument(toks, head.is, head.next) {
        Some(first) => Some(Scan {
            nesting: nesting + 1,
            is_whole: false,
            at: first,
        }),
        None => head_only(nesting, head.is, brackets(toks, head.next)),
    }
}

// Behind an argument.
#[tactic(auto, unfolding(crate::specs::Types::scan_on))]
fn scan_on(toks: &[Tok], nesting: usize, at: usize) -> Option<Scan>
    requires few { length toks.now < 2 ^ 32 }
    requires nesting { 0 < nesting }
    ensures value { result ≡ spec.scan_on toks.now nesting at }
    ensures within { IfSome result (λ x. x.nesting ≤ nesting) }
{
    if let Some(first) = after_mark(toks, Mark::Comma, at) {
        return Some(Scan {
            nesting,
            is_whole: false,
            at: first,
        });
    }
    let next = after_infix(toks, BinOp::Greater, at)?;
    Some(Scan {
        nesting: nesting - 1,
        is_whole: true,
        at: brackets(toks, next).next,
    })
}

#[tactic(auto, unfolding(crate::specs::Types::type_end, crate::specs::Types::scan, crate::specs::Types::scan_step))]
fn end_of_type(toks: &[Tok], at: usize) -> Option<usize>
    requires { length toks.now < 2 ^ 32 }
    ensures { result ≡ spec.type_end toks.now at }
{
    let mut scan = Scan {
        nesting: 0,
        is_whole: false,
        at,
    };
    for _turn in 0..toks.len() + 2 {
        if scan.is_whole && scan.nesting == 0 {
            return if goes_on(sort_at(toks, scan.at)) {
                None
            } else {
                Some(scan.at)
            };
        }
        scan = if scan.is_whole {
            scan_on(toks, scan.nesting, scan.at)?
        } else {
            scan_type(toks, scan.nesting, scan.at)?
        };
    }
    None
}

/// Where the type that begins at a place ends, without reading it. There is none where the token behind would go on
/// with it.
pub fn type_end(toks: &[Tok], at: usize) -> Option<usize>
    requires { length toks.now < 2 ^ 32 }
    ensures value { result ≡ spec.type_end toks.now at }
    ensures found { IfSome result (λ j. (text : List ℕ) → (x : t.TypeExpr) × SpellsType text toks.now x at j × (GoesOn text toks.now (sort_at toks.now j) → ⊥)) }
    ensures only { (text : List ℕ) (x : t.TypeExpr) (j : ℕ) → SpellsType text toks.now x at j → (GoesOn text toks.now (sort_at toks.now j) → ⊥) → result ≡ Some j }
{
    end_of_type(toks, at)
}
