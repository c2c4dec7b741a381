//! Tests of trees, and a text with its tokens.

ghost use Rattle.std.specs.Prelude.{◌≡◌, ◌+◌, ◌<◌, ◌^◌, length};
ghost use Rattle.java_tree.specs.View.{plain, type_plain};
ghost use Rattle.java_grammar.specs.Reads.{sort_at};
ghost use Rattle.java_grammar.specs.Expressions.{node_of};
ghost use Rattle.java_grammar.specs.declared.token.Mark.TheVariants as m;
ghost use Rattle.java_parse_term.specs.Marks as marks;
ghost use Rattle.java_parse_term.specs.Types as types;
ghost use Rattle.java_parse_term.specs.Ready.{Readable};
ghost use Rattle.java_parse_term.specs.Seen.{Reads};
ghost use Rattle.java_parse_expr.specs.Parse as spec;
ghost use Rattle.java_parse_expr.specs.Seen.{seen};

use crate::got::Got;
use java_grammar::{Keyword, Mark, Sort, Tok, name_at, sort_at, span_of};
use java_parse_term::SyntaxFault;
use java_parse_term::marks::{after_keyword, after_word, is_keyword, is_mark};
use java_parse_term::terms::parse;
use java_parse_term::types::{read_type, type_end};
use java_tree::Boxed;
use java_tree::tree::{BinOp, Expr, ExprForm, Name, Node, TypeExpr, UnOp};
use std::alloc::Global;

/// Whether an expression may be a statement (JLS 14.8).
#[tactic(auto, unfolding(crate::specs::Parse::is_statement))]
pub fn is_statement(e: &Expr) -> bool
    ensures { result ≡ spec.is_statement (plain e.now) }
{
    match &e.form {
        ExprForm::Assign { .. }
        | ExprForm::Step { .. }
        | ExprForm::Call { .. }
        | ExprForm::SuperMethod { .. }
        | ExprForm::New { .. } => true,
        _ => false,
    }
}

#[tactic(auto, unfolding(crate::specs::Parse::is_constant))]
fn is_constant(e: &Expr) -> bool
    ensures { result ≡ spec.is_constant (plain e.now) }
{
    match &e.form {
        ExprForm::Number { long, .. } => !*long,
        ExprForm::Char(_) => true,
        _ => false,
    }
}

/// Whether an expression may stand behind `case`.
#[tactic(auto, unfolding(crate::specs::Parse::is_label_value))]
pub fn is_label_value(e: &Expr) -> bool
    ensures { result ≡ spec.is_label_value (plain e.now) }
{
    match &e.form {
        ExprForm::Unary {
            op: UnOp::Minus,
            of,
        } => is_constant(of.get()),
        _ => is_constant(e),
    }
}

fn equals_in(sort: Sort) -> bool
    ensures { result ≡ spec.equals_in sort }
{
    match sort {
        Sort::Assign(None) => true,
        _ => false,
    }
}

/// Whether an expression or initialiser ends before such a token.
pub fn ends_at(sort: Sort) -> bool
    ensures { result ≡ spec.ends_at sort }
{
    match sort {
        Sort::End
        | Sort::Mark(
            Mark::Close
            | Mark::RightBracket
            | Mark::RightBrace
            | Mark::Comma
            | Mark::Semicolon
            | Mark::Colon,
        ) => true,
        _ => false,
    }
}

/// Whether a type does not end before such a token.
pub fn goes_on(sort: Sort) -> bool
    ensures { result ≡ types.goes_on sort }
{
    match sort {
        Sort::Mark(Mark::Dot | Mark::LeftBracket) | Sort::Infix(BinOp::Less) => true,
        _ => false,
    }
}

/// A text and its tokens.
#[derive(Clone, Copy)]
pub struct Source<'a> {
    pub alloc: Global,
    pub text: &'a [u8],
    pub toks: &'a [Tok],
}

impl Source<'_> {
    /// The place after `=`.
    #[tactic(auto, unfolding(crate::specs::Parse::after_equals), using(crate::proofs::Past::nothing_past))]
    pub fn after_equals(&self, at: usize) -> Option<usize>
        ensures { result ≡ spec.after_equals self.now.text.now self.now.toks.now at }
    {
        if at >= self.toks.len() {
            return None;
        }
        if equals_in(sort_at(self.toks, at)) {
            Some(at + 1)
        } else {
            None
        }
    }

    /// Whether `(` stands behind the token at a place.
    #[tactic(auto, unfolding(java_parse_term::specs::Marks::is_mark), using(crate::proofs::Past::nothing_past_next))]
    pub fn opens_behind(&self, at: usize) -> bool
        ensures { result ≡ marks.is_mark self.now.toks.now m.Open (at + 1) }
    {
        if at < self.toks.len() {
            is_mark(self.toks, Mark::Open, at + 1)
        } else {
            false
        }
    }

    /// Whether `case` or `default` stands there.
    #[tactic(auto, unfolding(crate::specs::Parse::is_label))]
    pub fn is_label(&self, at: usize) -> bool
        ensures { result ≡ spec.is_label self.now.text.now self.now.toks.now at }
    {
        is_keyword(self.toks, Keyword::Case, at) || is_keyword(self.toks, Keyword::Default, at)
    }

    /// Whether the statements of a block or a group end there.
    #[tactic(auto, unfolding(crate::specs::Parse::is_stop))]
    pub fn is_stop(&self, at: usize) -> bool
        ensures { result ≡ spec.is_stop self.now.text.now self.now.toks.now at }
    {
        is_mark(self.toks, Mark::RightBrace, at) || self.is_label(at)
    }

    /// The place after `final`, if it stands there.
    #[tactic(auto, unfolding(crate::specs::Parse::after_final))]
    pub fn after_final(&self, at: usize) -> usize
        ensures { result ≡ spec.after_final self.now.text.now self.now.toks.now at }
    {
        match after_keyword(self.toks, Keyword::Final, at) {
            Some(next) => next,
            None => at,
        }
    }

    pub fn id_at(&self, at: usize) -> Name
        ensures { result ≡ types.id_at self.now.toks.now at }
    {
        Name(name_at(self.toks, at))
    }

    // The place after the type and the name of what is declared from a place on.
    #[tactic(auto, unfolding(crate::specs::Parse::after_name))]
    fn after_name(&self, at: usize) -> Option<usize>
        requires { Readable self.now.text.now self.now.toks.now }
        ensures { result ≡ spec.after_name self.now.text.now self.now.toks.now at }
    {
        let end = type_end(self.toks, self.after_final(at))?;
        after_word(self.toks, end)
    }

    /// Whether a type and a name stand there.
    #[tactic(auto, unfolding(crate::specs::Parse::is_declared))]
    pub fn is_declared(&self, at: usize) -> bool
        requires { Readable self.now.text.now self.now.toks.now }
        ensures { result ≡ spec.is_declared self.now.text.now self.now.toks.now at }
    {
        match self.after_name(at) {
            Some(_) => true,
            None => false,
        }
    }

    /// Whether a type, a name and `:` stand there.
    #[tactic(auto, unfolding(crate::specs::Parse::is_each))]
    pub fn is_each(&self, at: usize) -> bool
        requires { Readable self.now.text.now self.now.toks.now }
        ensures { result ≡ spec.is_each self.now.text.now self.now.toks.now at }
    {
        match self.after_name(at) {
            Some(next) => is_mark(self.toks, Mark::Colon, next),
            None => false,
        }
    }

    /// A node without its number.
    pub fn node(&self, at: usize, next: usize) -> Node
        ensures { result ≡ node_of self.now.text.now self.now.toks.now at next }
    {
        Node {
            id: 0,
            span: span_of(self.toks, at, next),
        }
    }

    /// A type of depth less than `limit`.
    #[tactic(auto, unfolding(crate::specs::Parse::type_under))]
    pub fn type_under(&self, limit: u32, at: usize) -> Result<Got<Boxed<TypeExpr>>, SyntaxFault>
        requires { Readable self.now.text.now self.now.toks.now }
        ensures { Reads (seen type_plain) (spec.type_under self.now.text.now self.now.toks.now limit at) result }
    {
        let found = read_type(self.alloc, self.toks, limit, at)?;
        Ok(Got {
            tree: found.tree,
            next: found.next,
        })
    }

    /// An expression of depth less than `limit`.
    #[tactic(auto, unfolding(crate::specs::Parse::expr_under))]
    pub fn expr_under(
        &self,
        limit: u32,
        level: u8,
        at: usize,
    ) -> Result<Got<Boxed<Expr>>, SyntaxFault>
        requires { Readable self.now.text.now self.now.toks.now }
        ensures { Reads (seen plain) (spec.expr_under self.now.text.now self.now.toks.now limit level at) result }
    {
        let found = parse(self.alloc, self.text, self.toks, limit, level, at)?;
        Ok(Got {
            tree: found.tree,
            next: found.next,
        })
    }
}
