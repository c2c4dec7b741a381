//! Expressions and initialisers (JLS 15, 8.3, 10.6). Each rule takes the parser of what is below as a parameter, so
//! that each is proved by itself.

ghost use Rattle.std.specs.Prelude.{◌≡◌, ◌+◌, ◌<◌, ◌≤◌, ◌^◌, ◌∷◌, [], ℕ, length, map, None, Some, IfOk};
ghost use Rattle.java_tree.specs.View.{plain, type_plain, form_plain, row};
ghost use Rattle.java_tree.specs.Plain as t;
ghost use Rattle.java_grammar.specs.Expressions.{Spells, EndsAt, word_at};
ghost use Rattle.java_grammar.specs.Reads.{sort_at};
ghost use Rattle.java_grammar.specs.Heights.{expr_depth};
ghost use Rattle.java_grammar.specs.declared.token.Sort.TheVariants as s;
ghost use Rattle.java_parse_term.specs.Parse as spec;
ghost use Rattle.java_parse_term.specs.Types.{id_at};
ghost use Rattle.java_parse_term.specs.Types as types;
ghost use Rattle.java_parse_term.specs.Seen.{Reads, same, seen, at_limit};
ghost use Rattle.java_parse_term.specs.Ready.{Nests, Readable, IsIn};
ghost use Rattle.java_parse_term.specs.Found.{IsFound};

use crate::fault::SyntaxFault;
use crate::marks::{after_keyword, after_mark, after_word, is_mark};
use crate::parsed::{Parsed, need, refuse};
use crate::signs::{
    Standing, assign_at, infix_at, is_begin, is_sign, level_at, looseness, prefix_of, step_of,
};
use crate::types::{
    bare_type, brackets, has_brackets, is_primitive, names_class, primitive_of, read_type, rise,
    type_end,
};
use java_grammar::{Keyword, Mark, Sort, Tok, from_at, name_at, sort_at, span_of, to_at};
use java_lexer::{character, integer, is_decimal, text_units};
use java_tree::tree::{BinOp, Expr, ExprForm, Name, Node, TypeExpr, UnOp};
use java_tree::{Boxed, Items};
use std::alloc::Global;

/// What stands in a row: values up to `)`, or items up to `}`.
#[derive(Clone, Copy)]
pub enum Row {
    Values,
    Items,
}

impl Row {
    fn closing(self) -> Mark
        ensures { result ≡ spec.closing self }
    {
        match self {
            Row::Values => Mark::Close,
            Row::Items => Mark::RightBrace,
        }
    }

    fn level(self) -> u8
        ensures { result ≡ spec.level_in_row self }
    {
        match self {
            Row::Values => 14,
            Row::Items => 15,
        }
    }
}

/// Whether it is a name, a field or an element, also in brackets (JLS 15.26).
pub fn is_variable(e: &Expr) -> bool
    ensures { result ≡ spec.is_variable (plain e.now) }
{
    match &e.form {
        ExprForm::Name(_) => true,
        ExprForm::Field { .. } => true,
        ExprForm::SuperField(_) => true,
        ExprForm::Index { .. } => true,
        ExprForm::Paren(of) => is_variable(of.get()),
        _ => false,
    }
}

fn is_creation(e: &Expr) -> bool
    ensures { result ≡ spec.is_creation (plain e.now) }
{
    matches!(
        &e.form,
        ExprForm::NewArray { .. } | ExprForm::NewFilled { .. }
    )
}

fn is_items(e: &Expr) -> bool
    ensures { result ≡ spec.is_items (plain e.now) }
{
    matches!(&e.form, ExprForm::Items(_))
}

/// Rules over the tokens of a text, for trees of at most the depth `limit`; `below` reads those of less.
#[derive(Clone, Copy)]
pub struct Grammar<'a, F> {
    pub alloc: Global,
    pub text: &'a [u8],
    pub toks: &'a [Tok],
    pub limit: u32,
    pub below: F,
}

impl<
    F: Fn(Global, &[u8], &[Tok], u32, u8, usize) -> Result<Parsed<Boxed<Expr>>, SyntaxFault>,
> Grammar<'_, F> {
    // What is made of a form between two places.
    fn made(
        &self,
        form: ExprForm,
        depth: u32,
        at: usize,
        next: usize,
    ) -> Result<Parsed<Boxed<Expr>>, SyntaxFault>
        ensures { Reads (seen plain) (Some (spec.made self.now.text.now self.now.toks.now (form_plain form) depth at next)) result }
    {
        let node = Node {
            id: 0,
            span: span_of(self.toks, at, next),
        };
        let tree = Boxed::new(self.alloc, Expr { node, form })?;
        Ok(Parsed { tree, depth, next })
    }

    fn rise(&self, depth: u32, at: usize) -> Result<u32, SyntaxFault>
        ensures { Reads same (types.rise self.now.limit depth) result }
    {
        need(rise(self.limit, depth), at)
    }

    fn below(&self, level: u8, at: usize) -> Result<Parsed<Boxed<Expr>>, SyntaxFault>
        requires { Nests self.now.text.now self.now.toks.now self.now.limit (F.pre self.now.below) (F.post self.now.below) }
        ensures { Reads (seen plain) (spec.parse self.now.text.now self.now.toks.now self.now.limit level at) result }
    {
        (self.below)(self.alloc, self.text, self.toks, self.limit, level, at)
    }

    fn name(&self, at: usize) -> Name
        ensures { result ≡ id_at self.now.toks.now at }
    {
        Name(name_at(self.toks, at))
    }

    // The bytes of a token.
    #[tactic(auto, unfolding(java_grammar::specs::Reads::span_of))]
    fn word(&self, at: usize) -> &[u8]
        requires { IsIn self.now.text.now self.now.toks.now at }
        ensures { result.now ≡ word_at self.now.text.now self.now.toks.now at }
    {
        let from = from_at(self.toks, at) as usize;
        let to = to_at(self.toks, at) as usize;
        &self.text[from..to]
    }

    // ---- values in a row

    fn trailing(&self, row: Row, at: usize) -> Option<usize>
        ensures { result ≡ spec.trailing self.now.text.now self.now.toks.now row at }
    {
        match row {
            Row::Values => None,
            Row::Items => {
                let comma = after_mark(self.toks, Mark::Comma, at)?;
                after_mark(self.toks, Mark::RightBrace, comma)
            }
        }
    }

    #[tactic(auto, unfolding(crate::specs::Parse::row_end))]
    fn row_end(&self, row: Row, at: usize) -> Option<usize>
        ensures { result ≡ spec.row_end self.now.text.now self.now.toks.now row at }
    {
        match after_mark(self.toks, row.closing(), at) {
            Some(next) => Some(next),
            None => self.trailing(row, at),
        }
    }

    #[tactic(auto, unfolding(crate::specs::Parse::member))]
    fn member(&self, row: Row, at: usize) -> Result<Parsed<Boxed<Expr>>, SyntaxFault>
        requires { Nests self.now.text.now self.now.toks.now self.now.limit (F.pre self.now.below) (F.post self.now.below) }
        ensures { Reads (seen plain) (at_limit spec.member self.now.text.now self.now.toks.now self.now.limit row at) result }
    {
        let one = self.below(row.level(), at)?;
        let depth = self.rise(one.depth, at)?;
        let Parsed { tree, next, .. } = one;
        Ok(Parsed { tree, depth, next })
    }

    // What is in the row behind the first.
    #[tactic(auto, unfolding(crate::specs::Parse::more))]
    fn more(&self, row: Row, first: Parsed<Boxed<Expr>>) -> Result<Parsed<Items<Expr>>, SyntaxFault>
        requires { Nests self.now.text.now self.now.toks.now self.now.limit (F.pre self.now.below) (F.post self.now.below) }
        ensures { Reads (seen (map plain)) (at_limit spec.more self.now.text.now self.now.toks.now self.now.limit row (length self.now.toks.now) (plain first.tree ∷ []) first.depth first.next) result }
    {
        let Parsed {
            tree,
            mut depth,
            next: mut at,
        } = first;
        let mut tree = Items::one(self.alloc, tree.into_inner())?;
        for _turn in 0..self.toks.len() {
            if let Some(next) = self.row_end(row, at) {
                return Ok(Parsed { tree, depth, next });
            }
            let behind = need(after_mark(self.toks, Mark::Comma, at), at)?;
            let one = self.member(row, behind)?;
            tree.push(one.tree.into_inner())?;
            depth = depth.max(one.depth);
            at = one.next;
        }
        refuse(at)
    }

    #[tactic(auto, unfolding(crate::specs::Parse::all_in))]
    fn all_in(&self, row: Row, at: usize) -> Result<Parsed<Items<Expr>>, SyntaxFault>
        requires { Nests self.now.text.now self.now.toks.now self.now.limit (F.pre self.now.below) (F.post self.now.below) }
        ensures { Reads (seen (map plain)) (at_limit spec.all_in self.now.text.now self.now.toks.now self.now.limit row at) result }
    {
        match self.row_end(row, at) {
            Some(next) => Ok(Parsed {
                tree: Items::new(self.alloc),
                depth: 0,
                next,
            }),
            None => {
                let one = self.member(row, at)?;
                self.more(row, one)
            }
        }
    }

    #[tactic(auto, unfolding(crate::specs::Parse::number))]
    fn number(&self, long: bool, at: usize) -> Result<Parsed<Boxed<Expr>>, SyntaxFault>
        requires nests { Nests self.now.text.now self.now.toks.now self.now.limit (F.pre self.now.below) (F.post self.now.below) }
        requires at { at < length self.now.toks.now }
        ensures { Reads (seen plain) (at_limit spec.number self.now.text.now self.now.toks.now self.now.limit long at) result }
    {
        let word = self.word(at);
        let value = need(integer(word), at)?;
        let form = ExprForm::Number {
            value,
            decimal: is_decimal(word),
            long,
        };
        self.made(form, 0, at, at + 1)
    }

    // A call without a target, whose values begin at `first`.
    #[tactic(auto, unfolding(crate::specs::Parse::call))]
    fn call(&self, at: usize, first: usize) -> Result<Parsed<Boxed<Expr>>, SyntaxFault>
        requires { Nests self.now.text.now self.now.toks.now self.now.limit (F.pre self.now.below) (F.post self.now.below) }
        ensures { Reads (seen plain) (at_limit spec.call self.now.text.now self.now.toks.now self.now.limit at first) result }
    {
        let Parsed { tree, depth, next } = self.all_in(Row::Values, first)?;
        let form = ExprForm::Call {
            of: None,
            name: self.name(at),
            args: tree,
        };
        self.made(form, depth, at, next)
    }

    #[tactic(auto, unfolding(crate::specs::Parse::named))]
    fn named(&self, at: usize) -> Result<Parsed<Boxed<Expr>>, SyntaxFault>
        requires nests { Nests self.now.text.now self.now.toks.now self.now.limit (F.pre self.now.below) (F.post self.now.below) }
        requires at { at < length self.now.toks.now }
        ensures { Reads (seen plain) (at_limit spec.named self.now.text.now self.now.toks.now self.now.limit at) result }
    {
        match after_mark(self.toks, Mark::Open, at + 1) {
            Some(first) => self.call(at, first),
            None => self.made(ExprForm::Name(self.name(at)), 0, at, at + 1),
        }
    }

    #[tactic(auto, unfolding(crate::specs::Parse::super_call))]
    fn super_call(
        &self,
        at: usize,
        name: usize,
        first: usize,
    ) -> Result<Parsed<Boxed<Expr>>, SyntaxFault>
        requires { Nests self.now.text.now self.now.toks.now self.now.limit (F.pre self.now.below) (F.post self.now.below) }
        ensures { Reads (seen plain) (at_limit spec.super_call self.now.text.now self.now.toks.now self.now.limit at name first) result }
    {
        let Parsed { tree, depth, next } = self.all_in(Row::Values, first)?;
        let form = ExprForm::SuperMethod {
            name: self.name(name),
            args: tree,
        };
        self.made(form, depth, at, next)
    }

    #[tactic(auto, unfolding(crate::specs::Parse::super_member))]
    fn super_member(&self, at: usize) -> Result<Parsed<Boxed<Expr>>, SyntaxFault>
        requires nests { Nests self.now.text.now self.now.toks.now self.now.limit (F.pre self.now.below) (F.post self.now.below) }
        requires at { at < length self.now.toks.now }
        ensures { Reads (seen plain) (at_limit spec.super_member self.now.text.now self.now.toks.now self.now.limit at) result }
    {
        let name = need(after_mark(self.toks, Mark::Dot, at + 1), at)?;
        let next = need(after_word(self.toks, name), name)?;
        match after_mark(self.toks, Mark::Open, next) {
            Some(first) => self.super_call(at, name, first),
            None => self.made(ExprForm::SuperField(self.name(name)), 0, at, next),
        }
    }

    #[tactic(auto, unfolding(crate::specs::Parse::paren))]
    fn paren(&self, at: usize) -> Result<Parsed<Boxed<Expr>>, SyntaxFault>
        requires nests { Nests self.now.text.now self.now.toks.now self.now.limit (F.pre self.now.below) (F.post self.now.below) }
        requires at { at < length self.now.toks.now }
        ensures { Reads (seen plain) (at_limit spec.paren self.now.text.now self.now.toks.now self.now.limit at) result }
    {
        let inner = self.below(14, at + 1)?;
        let next = need(after_mark(self.toks, Mark::Close, inner.next), inner.next)?;
        let depth = self.rise(inner.depth, at)?;
        let Parsed { tree, .. } = inner;
        self.made(ExprForm::Paren(tree), depth, at, next)
    }

    #[tactic(auto, unfolding(crate::specs::Parse::new_object))]
    fn new_object(
        &self,
        at: usize,
        ty: Parsed<Boxed<TypeExpr>>,
        first: usize,
    ) -> Result<Parsed<Boxed<Expr>>, SyntaxFault>
        requires { Nests self.now.text.now self.now.toks.now self.now.limit (F.pre self.now.below) (F.post self.now.below) }
        ensures { Reads (seen plain) (at_limit spec.new_object self.now.text.now self.now.toks.now self.now.limit at (seen type_plain ty) first) result }
    {
        if !names_class(ty.tree.get()) {
            return refuse(at);
        }
        let values = self.all_in(Row::Values, first)?;
        let depth = self.rise(ty.depth, at)?.max(values.depth);
        let form = ExprForm::New {
            ty: ty.tree.into_inner(),
            args: values.tree,
        };
        self.made(form, depth, at, values.next)
    }

    #[tactic(auto, unfolding(crate::specs::Parse::new_filled))]
    fn new_filled(
        &self,
        at: usize,
        ty: Parsed<Boxed<TypeExpr>>,
    ) -> Result<Parsed<Boxed<Expr>>, SyntaxFault>
        requires { Nests self.now.text.now self.now.toks.now self.now.limit (F.pre self.now.below) (F.post self.now.below) }
        ensures { Reads (seen plain) (at_limit spec.new_filled self.now.text.now self.now.toks.now self.now.limit at (seen type_plain ty)) result }
    {
        if !has_brackets(ty.tree.get()) {
            return refuse(at);
        }
        let filling = self.below(15, ty.next)?;
        if !is_items(filling.tree.get()) {
            return refuse(at);
        }
        let depth = self.rise(ty.depth.max(filling.depth), at)?;
        let form = ExprForm::NewFilled {
            ty: ty.tree.into_inner(),
            items: filling.tree,
        };
        self.made(form, depth, at, filling.next)
    }

    // The size of an array, in brackets.
    #[tactic(auto, unfolding(crate::specs::Parse::size))]
    fn size(&self, at: usize) -> Result<Parsed<Boxed<Expr>>, SyntaxFault>
        requires { Nests self.now.text.now self.now.toks.now self.now.limit (F.pre self.now.below) (F.post self.now.below) }
        ensures { Reads (seen plain) (at_limit spec.size self.now.text.now self.now.toks.now self.now.limit at) result }
    {
        let first = need(after_mark(self.toks, Mark::LeftBracket, at), at)?;
        let one = self.below(14, first)?;
        let next = need(
            after_mark(self.toks, Mark::RightBracket, one.next),
            one.next,
        )?;
        let depth = self.rise(one.depth, at)?;
        let Parsed { tree, .. } = one;
        Ok(Parsed { tree, depth, next })
    }

    // Whether a size of an array begins there: a bracket, which is none of a pair.
    #[tactic(auto, unfolding(crate::specs::Parse::opens_size))]
    fn opens_size(&self, at: usize) -> bool
        ensures { result ≡ spec.opens_size self.now.text.now self.now.toks.now at }
    {
        is_mark(self.toks, Mark::LeftBracket, at) && !is_mark(self.toks, Mark::RightBracket, at + 1)
    }

    // The sizes behind the first.
    #[tactic(auto, unfolding(crate::specs::Parse::more_sizes))]
    fn more_sizes(&self, first: Parsed<Boxed<Expr>>) -> Result<Parsed<Items<Expr>>, SyntaxFault>
        requires { Nests self.now.text.now self.now.toks.now self.now.limit (F.pre self.now.below) (F.post self.now.below) }
        ensures { Reads (seen (map plain)) (at_limit spec.more_sizes self.now.text.now self.now.toks.now self.now.limit (length self.now.toks.now) (plain first.tree ∷ []) first.depth first.next) result }
    {
        let Parsed {
            tree,
            mut depth,
            next: mut at,
        } = first;
        let mut tree = Items::one(self.alloc, tree.into_inner())?;
        for _turn in 0..self.toks.len() {
            if !self.opens_size(at) {
                return Ok(Parsed {
                    tree,
                    depth,
                    next: at,
                });
            }
            let one = self.size(at)?;
            tree.push(one.tree.into_inner())?;
            depth = depth.max(one.depth);
            at = one.next;
        }
        refuse(at)
    }

    #[tactic(auto, unfolding(crate::specs::Parse::sizes))]
    fn sizes(&self, at: usize) -> Result<Parsed<Items<Expr>>, SyntaxFault>
        requires { Nests self.now.text.now self.now.toks.now self.now.limit (F.pre self.now.below) (F.post self.now.below) }
        ensures { Reads (seen (map plain)) (at_limit spec.sizes self.now.text.now self.now.toks.now self.now.limit at) result }
    {
        let one = self.size(at)?;
        self.more_sizes(one)
    }

    #[tactic(auto, unfolding(crate::specs::Parse::new_array))]
    fn new_array(
        &self,
        at: usize,
        ty: Parsed<Boxed<TypeExpr>>,
    ) -> Result<Parsed<Boxed<Expr>>, SyntaxFault>
        requires { Nests self.now.text.now self.now.toks.now self.now.limit (F.pre self.now.below) (F.post self.now.below) }
        ensures { Reads (seen plain) (at_limit spec.new_array self.now.text.now self.now.toks.now self.now.limit at (seen type_plain ty)) result }
    {
        if has_brackets(ty.tree.get()) {
            return refuse(at);
        }
        let sizes = self.sizes(ty.next)?;
        let depth = self.rise(ty.depth, at)?.max(sizes.depth);
        let behind = brackets(self.toks, sizes.next);
        let form = ExprForm::NewArray {
            ty: ty.tree.into_inner(),
            sizes: sizes.tree,
            extra: behind.is,
        };
        self.made(form, depth, at, behind.next)
    }

    #[tactic(auto, unfolding(crate::specs::Parse::creation))]
    fn creation(&self, at: usize) -> Result<Parsed<Boxed<Expr>>, SyntaxFault>
        requires nests { Nests self.now.text.now self.now.toks.now self.now.limit (F.pre self.now.below) (F.post self.now.below) }
        requires at { at < length self.now.toks.now }
        ensures { Reads (seen plain) (at_limit spec.creation self.now.text.now self.now.toks.now self.now.limit at) result }
    {
        let ty = read_type(self.alloc, self.toks, self.limit, at + 1)?;
        if let Some(first) = after_mark(self.toks, Mark::Open, ty.next) {
            return self.new_object(at, ty, first);
        }
        if is_mark(self.toks, Mark::LeftBrace, ty.next) {
            self.new_filled(at, ty)
        } else {
            self.new_array(at, ty)
        }
    }

    fn keyword_operand(
        &self,
        keyword: Keyword,
        at: usize,
    ) -> Result<Parsed<Boxed<Expr>>, SyntaxFault>
        requires nests { Nests self.now.text.now self.now.toks.now self.now.limit (F.pre self.now.below) (F.post self.now.below) }
        requires at { at < length self.now.toks.now }
        ensures { Reads (seen plain) (at_limit spec.keyword_operand self.now.text.now self.now.toks.now self.now.limit keyword at) result }
    {
        match keyword {
            Keyword::True => self.made(ExprForm::Bool(true), 0, at, at + 1),
            Keyword::False => self.made(ExprForm::Bool(false), 0, at, at + 1),
            Keyword::Null => self.made(ExprForm::Null, 0, at, at + 1),
            Keyword::This => self.made(ExprForm::This, 0, at, at + 1),
            Keyword::Super => self.super_member(at),
            Keyword::New => self.creation(at),
            _ => refuse(at),
        }
    }

    fn character(&self, at: usize) -> Result<Parsed<Boxed<Expr>>, SyntaxFault>
        requires nests { Nests self.now.text.now self.now.toks.now self.now.limit (F.pre self.now.below) (F.post self.now.below) }
        requires at { at < length self.now.toks.now }
        ensures { Reads (seen plain) (at_limit spec.operand_by self.now.text.now self.now.toks.now self.now.limit s.Char at) result }
    {
        let value = character(self.word(at));
        self.made(ExprForm::Char(value), 0, at, at + 1)
    }

    fn text(&self, at: usize) -> Result<Parsed<Boxed<Expr>>, SyntaxFault>
        requires nests { Nests self.now.text.now self.now.toks.now self.now.limit (F.pre self.now.below) (F.post self.now.below) }
        requires at { at < length self.now.toks.now }
        ensures { Reads (seen plain) (at_limit spec.operand_by self.now.text.now self.now.toks.now self.now.limit s.Text at) result }
    {
        let units = text_units(self.alloc, self.word(at))?;
        self.made(ExprForm::Text(units), 0, at, at + 1)
    }

    #[tactic(auto, using(crate::proofs::TokLemmas::nothing_past), unfolding(crate::specs::Parse::operand))]
    fn operand(&self, at: usize) -> Result<Parsed<Boxed<Expr>>, SyntaxFault>
        requires { Nests self.now.text.now self.now.toks.now self.now.limit (F.pre self.now.below) (F.post self.now.below) }
        ensures { Reads (seen plain) (at_limit spec.operand self.now.text.now self.now.toks.now self.now.limit at) result }
    {
        if at >= self.toks.len() {
            return refuse(at);
        }
        match sort_at(self.toks, at) {
            Sort::Word => self.named(at),
            Sort::Number(long) => self.number(long, at),
            Sort::Char => self.character(at),
            Sort::Text => self.text(at),
            Sort::Keyword(keyword) => self.keyword_operand(keyword, at),
            Sort::Mark(Mark::Open) => self.paren(at),
            _ => refuse(at),
        }
    }

    #[tactic(auto, using(java_tree::proofs::Views::form_call_on), unfolding(crate::specs::Parse::call_on))]
    fn call_on(
        &self,
        at: usize,
        left: Parsed<Boxed<Expr>>,
        name: usize,
        first: usize,
    ) -> Result<Parsed<Boxed<Expr>>, SyntaxFault>
        requires { Nests self.now.text.now self.now.toks.now self.now.limit (F.pre self.now.below) (F.post self.now.below) }
        ensures { Reads (seen plain) (at_limit spec.call_on self.now.text.now self.now.toks.now self.now.limit at (seen plain left) name first) result }
    {
        let values = self.all_in(Row::Values, first)?;
        let depth = self.rise(left.depth, at)?.max(values.depth);
        let form = ExprForm::Call {
            of: Some(left.tree),
            name: self.name(name),
            args: values.tree,
        };
        self.made(form, depth, at, values.next)
    }

    #[tactic(auto, unfolding(crate::specs::Parse::field_of))]
    fn field_of(
        &self,
        at: usize,
        left: Parsed<Boxed<Expr>>,
        name: usize,
        next: usize,
    ) -> Result<Parsed<Boxed<Expr>>, SyntaxFault>
        requires { Nests self.now.text.now self.now.toks.now self.now.limit (F.pre self.now.below) (F.post self.now.below) }
        ensures { Reads (seen plain) (at_limit spec.field_of self.now.text.now self.now.toks.now self.now.limit at (seen plain left) name next) result }
    {
        let depth = self.rise(left.depth, at)?;
        let form = ExprForm::Field {
            of: left.tree,
            name: self.name(name),
        };
        self.made(form, depth, at, next)
    }

    // A field of what was read, or a call on it.
    #[tactic(auto, unfolding(crate::specs::Parse::selected))]
    fn selected(
        &self,
        at: usize,
        left: Parsed<Boxed<Expr>>,
    ) -> Result<Parsed<Boxed<Expr>>, SyntaxFault>
        requires { Nests self.now.text.now self.now.toks.now self.now.limit (F.pre self.now.below) (F.post self.now.below) }
        ensures { Reads (seen plain) (at_limit spec.selected self.now.text.now self.now.toks.now self.now.limit at (seen plain left)) result }
    {
        let name = need(after_mark(self.toks, Mark::Dot, left.next), left.next)?;
        let next = need(after_word(self.toks, name), name)?;
        match after_mark(self.toks, Mark::Open, next) {
            Some(first) => self.call_on(at, left, name, first),
            None => self.field_of(at, left, name, next),
        }
    }

    #[tactic(auto, unfolding(crate::specs::Parse::index))]
    fn index(
        &self,
        at: usize,
        left: Parsed<Boxed<Expr>>,
    ) -> Result<Parsed<Boxed<Expr>>, SyntaxFault>
        requires { Nests self.now.text.now self.now.toks.now self.now.limit (F.pre self.now.below) (F.post self.now.below) }
        ensures { Reads (seen plain) (at_limit spec.index self.now.text.now self.now.toks.now self.now.limit at (seen plain left)) result }
    {
        if is_creation(left.tree.get()) {
            return refuse(left.next);
        }
        let first = need(
            after_mark(self.toks, Mark::LeftBracket, left.next),
            left.next,
        )?;
        let inner = self.below(14, first)?;
        let next = need(
            after_mark(self.toks, Mark::RightBracket, inner.next),
            inner.next,
        )?;
        let depth = self.rise(left.depth.max(inner.depth), at)?;
        let form = ExprForm::Index {
            of: left.tree,
            at: inner.tree,
        };
        self.made(form, depth, at, next)
    }

    #[tactic(auto, unfolding(crate::specs::Parse::link))]
    fn link(&self, at: usize, left: Parsed<Boxed<Expr>>) -> Result<Parsed<Boxed<Expr>>, SyntaxFault>
        requires { Nests self.now.text.now self.now.toks.now self.now.limit (F.pre self.now.below) (F.post self.now.below) }
        ensures { Reads (seen plain) (at_limit spec.link self.now.text.now self.now.toks.now self.now.limit at (seen plain left)) result }
    {
        if is_mark(self.toks, Mark::Dot, left.next) {
            self.selected(at, left)
        } else {
            self.index(at, left)
        }
    }

    // Whether a `.` or a `[` there goes on with a primary.
    #[tactic(auto, unfolding(crate::specs::Parse::is_link))]
    fn is_link(&self, at: usize) -> bool
        ensures { result ≡ spec.is_link self.now.text.now self.now.toks.now at }
    {
        is_mark(self.toks, Mark::Dot, at) || is_mark(self.toks, Mark::LeftBracket, at)
    }

    #[tactic(auto, unfolding(crate::specs::Parse::chain))]
    fn chain(
        &self,
        at: usize,
        left: Parsed<Boxed<Expr>>,
    ) -> Result<Parsed<Boxed<Expr>>, SyntaxFault>
        requires { Nests self.now.text.now self.now.toks.now self.now.limit (F.pre self.now.below) (F.post self.now.below) }
        ensures { Reads (seen plain) (at_limit spec.chain self.now.text.now self.now.toks.now self.now.limit (self.now.limit + 1) at (seen plain left)) result }
    {
        let mut left = left;
        for _turn in 0..u64::from(self.limit) + 1 {
            if !self.is_link(left.next) {
                return Ok(left);
            }
            left = self.link(at, left)?;
        }
        refuse(at)
    }

    #[tactic(auto, unfolding(crate::specs::Parse::primary))]
    fn primary(&self, at: usize) -> Result<Parsed<Boxed<Expr>>, SyntaxFault>
        requires { Nests self.now.text.now self.now.toks.now self.now.limit (F.pre self.now.below) (F.post self.now.below) }
        ensures { Reads (seen plain) (at_limit spec.primary self.now.text.now self.now.toks.now self.now.limit at) result }
    {
        let left = self.operand(at)?;
        self.chain(at, left)
    }

    #[tactic(auto, unfolding(crate::specs::Parse::stepped))]
    fn stepped(
        &self,
        at: usize,
        left: Parsed<Boxed<Expr>>,
        up: bool,
    ) -> Result<Parsed<Boxed<Expr>>, SyntaxFault>
        requires nests { Nests self.now.text.now self.now.toks.now self.now.limit (F.pre self.now.below) (F.post self.now.below) }
        requires at { left.next < length self.now.toks.now }
        ensures { Reads (seen plain) (at_limit spec.stepped self.now.text.now self.now.toks.now self.now.limit at (seen plain left) up) result }
    {
        if !is_variable(left.tree.get()) {
            return refuse(left.next);
        }
        let depth = self.rise(left.depth, at)?;
        let next = left.next + 1;
        let form = ExprForm::Step {
            up,
            before: false,
            of: left.tree,
        };
        self.made(form, depth, at, next)
    }

    #[tactic(auto, using(crate::proofs::TokLemmas::nothing_past), unfolding(crate::specs::Parse::postfix))]
    fn postfix(&self, at: usize) -> Result<Parsed<Boxed<Expr>>, SyntaxFault>
        requires { Nests self.now.text.now self.now.toks.now self.now.limit (F.pre self.now.below) (F.post self.now.below) }
        ensures { Reads (seen plain) (at_limit spec.postfix self.now.text.now self.now.toks.now self.now.limit at) result }
    {
        let left = self.primary(at)?;
        if left.next >= self.toks.len() {
            return Ok(left);
        }
        match step_of(sort_at(self.toks, left.next)) {
            Some(up) => self.stepped(at, left, up),
            None => Ok(left),
        }
    }

    #[tactic(auto, unfolding(crate::specs::Parse::signed))]
    fn signed(&self, at: usize, op: UnOp) -> Result<Parsed<Boxed<Expr>>, SyntaxFault>
        requires nests { Nests self.now.text.now self.now.toks.now self.now.limit (F.pre self.now.below) (F.post self.now.below) }
        requires at { at < length self.now.toks.now }
        ensures { Reads (seen plain) (at_limit spec.signed self.now.text.now self.now.toks.now self.now.limit at op) result }
    {
        let inner = self.below(2, at + 1)?;
        let depth = self.rise(inner.depth, at)?;
        let Parsed { tree, next, .. } = inner;
        self.made(ExprForm::Unary { op, of: tree }, depth, at, next)
    }

    #[tactic(auto, unfolding(crate::specs::Parse::stepping))]
    fn stepping(&self, at: usize, up: bool) -> Result<Parsed<Boxed<Expr>>, SyntaxFault>
        requires nests { Nests self.now.text.now self.now.toks.now self.now.limit (F.pre self.now.below) (F.post self.now.below) }
        requires at { at < length self.now.toks.now }
        ensures { Reads (seen plain) (at_limit spec.stepping self.now.text.now self.now.toks.now self.now.limit at up) result }
    {
        let inner = self.below(2, at + 1)?;
        if !is_variable(inner.tree.get()) {
            return refuse(at);
        }
        let depth = self.rise(inner.depth, at)?;
        let Parsed { tree, next, .. } = inner;
        let form = ExprForm::Step {
            up,
            before: true,
            of: tree,
        };
        self.made(form, depth, at, next)
    }

    // A cast, by its type.
    #[tactic(auto, unfolding(crate::specs::Parse::cast_to))]
    fn cast_to(
        &self,
        at: usize,
        ty: Parsed<Boxed<TypeExpr>>,
    ) -> Result<Parsed<Boxed<Expr>>, SyntaxFault>
        requires { Nests self.now.text.now self.now.toks.now self.now.limit (F.pre self.now.below) (F.post self.now.below) }
        ensures { Reads (seen plain) (at_limit spec.cast_to self.now.text.now self.now.toks.now self.now.limit at (seen type_plain ty)) result }
    {
        let first = need(after_mark(self.toks, Mark::Close, ty.next), ty.next)?;
        if !self.may_be_cast(ty.tree.get(), first) {
            return refuse(first);
        }
        let inner = self.below(2, first)?;
        let depth = self.rise(ty.depth.max(inner.depth), at)?;
        let form = ExprForm::Cast {
            ty: ty.tree.into_inner(),
            close: from_at(self.toks, ty.next),
            of: inner.tree,
        };
        self.made(form, depth, at, inner.next)
    }

    fn may_be_cast(&self, ty: &TypeExpr, at: usize) -> bool
        ensures { result ≡ spec.may_be_cast self.now.text.now self.now.toks.now (type_plain ty.now) at }
    {
        is_primitive(ty) || !is_sign(sort_at(self.toks, at))
    }

    #[tactic(auto, unfolding(crate::specs::Parse::cast))]
    fn cast(&self, at: usize) -> Result<Parsed<Boxed<Expr>>, SyntaxFault>
        requires nests { Nests self.now.text.now self.now.toks.now self.now.limit (F.pre self.now.below) (F.post self.now.below) }
        requires at { at < length self.now.toks.now }
        ensures { Reads (seen plain) (at_limit spec.cast self.now.text.now self.now.toks.now self.now.limit at) result }
    {
        let ty = read_type(self.alloc, self.toks, self.limit, at + 1)?;
        self.cast_to(at, ty)
    }

    // Whether the type in brackets before `close` is primitive, and no array.
    fn casts_primitive(&self, at: usize, close: usize) -> bool
        requires { at < length self.now.toks.now }
        ensures { result ≡ spec.casts_primitive self.now.text.now self.now.toks.now at close }
    {
        match primitive_of(sort_at(self.toks, at + 1)) {
            Some(_) => close == at + 2,
            None => false,
        }
    }

    // Whether a type ends before `)` and an operand may stand behind it.
    fn casts_to(&self, at: usize, close: usize) -> bool
        requires { at < length self.now.toks.now }
        ensures { result ≡ spec.casts_to self.now.text.now self.now.toks.now at close }
    {
        is_mark(self.toks, Mark::Close, close)
            && (self.casts_primitive(at, close) || is_begin(sort_at(self.toks, close + 1)))
    }

    // Whether the `(` there is that of a cast.
    #[tactic(auto, unfolding(crate::specs::Parse::is_cast))]
    fn is_cast(&self, at: usize) -> bool
        requires { length self.now.toks.now < 2 ^ 32 }
        ensures { result ≡ spec.is_cast self.now.text.now self.now.toks.now at }
    {
        if !is_mark(self.toks, Mark::Open, at) {
            return false;
        }
        match type_end(self.toks, at + 1) {
            Some(close) => self.casts_to(at, close),
            None => false,
        }
    }

    #[tactic(auto, using(crate::proofs::TokLemmas::nothing_past), unfolding(crate::specs::Parse::unary))]
    fn unary(&self, at: usize) -> Result<Parsed<Boxed<Expr>>, SyntaxFault>
        requires { Nests self.now.text.now self.now.toks.now self.now.limit (F.pre self.now.below) (F.post self.now.below) }
        ensures { Reads (seen plain) (at_limit spec.unary self.now.text.now self.now.toks.now self.now.limit at) result }
    {
        if at >= self.toks.len() {
            return refuse(at);
        }
        let sort = sort_at(self.toks, at);
        if let Some(op) = prefix_of(sort) {
            return self.signed(at, op);
        }
        if let Some(up) = step_of(sort) {
            return self.stepping(at, up);
        }
        if self.is_cast(at) {
            self.cast(at)
        } else {
            self.postfix(at)
        }
    }

    #[tactic(auto, unfolding(crate::specs::Parse::joined))]
    fn joined(
        &self,
        at: usize,
        left: Parsed<Boxed<Expr>>,
        found: Standing<BinOp>,
    ) -> Result<Parsed<Boxed<Expr>>, SyntaxFault>
        requires { Nests self.now.text.now self.now.toks.now self.now.limit (F.pre self.now.below) (F.post self.now.below) }
        ensures { Reads (seen plain) (at_limit spec.joined self.now.text.now self.now.toks.now self.now.limit at (seen plain left) found) result }
    {
        let right = self.below(looseness(found.is) - 1, found.next)?;
        let depth = self.rise(left.depth.max(right.depth), at)?;
        let form = ExprForm::Binary {
            op: found.is,
            left: left.tree,
            right: right.tree,
        };
        self.made(form, depth, at, right.next)
    }

    #[tactic(auto, unfolding(crate::specs::Parse::asked))]
    fn asked(
        &self,
        at: usize,
        left: Parsed<Boxed<Expr>>,
    ) -> Result<Parsed<Boxed<Expr>>, SyntaxFault>
        requires { Nests self.now.text.now self.now.toks.now self.now.limit (F.pre self.now.below) (F.post self.now.below) }
        ensures { Reads (seen plain) (at_limit spec.asked self.now.text.now self.now.toks.now self.now.limit at (seen plain left)) result }
    {
        let first = need(
            after_keyword(self.toks, Keyword::InstanceOf, left.next),
            left.next,
        )?;
        let ty = bare_type(self.alloc, self.toks, first)?;
        if level_at(self.toks, ty.next) < 6 {
            return refuse(ty.next);
        }
        let depth = self.rise(left.depth.max(ty.depth), at)?;
        let form = ExprForm::InstanceOf {
            of: left.tree,
            ty: ty.tree.into_inner(),
        };
        self.made(form, depth, at, ty.next)
    }

    #[tactic(auto, unfolding(crate::specs::Parse::tied))]
    fn tied(&self, at: usize, left: Parsed<Boxed<Expr>>) -> Result<Parsed<Boxed<Expr>>, SyntaxFault>
        requires { Nests self.now.text.now self.now.toks.now self.now.limit (F.pre self.now.below) (F.post self.now.below) }
        ensures { Reads (seen plain) (at_limit spec.tied self.now.text.now self.now.toks.now self.now.limit at (seen plain left)) result }
    {
        match infix_at(self.toks, left.next) {
            Some(found) => self.joined(at, left, found),
            None => self.asked(at, left),
        }
    }

    #[tactic(auto, unfolding(crate::specs::Parse::climb))]
    fn climb(
        &self,
        level: u8,
        at: usize,
        left: Parsed<Boxed<Expr>>,
    ) -> Result<Parsed<Boxed<Expr>>, SyntaxFault>
        requires { Nests self.now.text.now self.now.toks.now self.now.limit (F.pre self.now.below) (F.post self.now.below) }
        ensures { Reads (seen plain) (at_limit spec.climb self.now.text.now self.now.toks.now self.now.limit level (self.now.limit + 1) at (seen plain left)) result }
    {
        let mut left = left;
        for _turn in 0..u64::from(self.limit) + 1 {
            if level < level_at(self.toks, left.next) {
                return Ok(left);
            }
            left = self.tied(at, left)?;
        }
        refuse(at)
    }

    #[tactic(auto, unfolding(crate::specs::Parse::chosen_else))]
    fn chosen_else(
        &self,
        at: usize,
        test: Parsed<Boxed<Expr>>,
        first: Parsed<Boxed<Expr>>,
    ) -> Result<Parsed<Boxed<Expr>>, SyntaxFault>
        requires { Nests self.now.text.now self.now.toks.now self.now.limit (F.pre self.now.below) (F.post self.now.below) }
        ensures { Reads (seen plain) (at_limit spec.chosen_else self.now.text.now self.now.toks.now self.now.limit at (seen plain test) (seen plain first)) result }
    {
        let behind = need(after_mark(self.toks, Mark::Colon, first.next), first.next)?;
        let second = self.below(13, behind)?;
        let depth = self.rise(test.depth.max(first.depth.max(second.depth)), at)?;
        let form = ExprForm::Cond {
            test: test.tree,
            yes: first.tree,
            no: second.tree,
        };
        self.made(form, depth, at, second.next)
    }

    #[tactic(auto, unfolding(crate::specs::Parse::chosen))]
    fn chosen(
        &self,
        at: usize,
        test: Parsed<Boxed<Expr>>,
        first: usize,
    ) -> Result<Parsed<Boxed<Expr>>, SyntaxFault>
        requires { Nests self.now.text.now self.now.toks.now self.now.limit (F.pre self.now.below) (F.post self.now.below) }
        ensures { Reads (seen plain) (at_limit spec.chosen self.now.text.now self.now.toks.now self.now.limit at (seen plain test) first) result }
    {
        let first = self.below(14, first)?;
        self.chosen_else(at, test, first)
    }

    // Where the first choice of a conditional begins.
    #[tactic(auto, unfolding(crate::specs::Parse::asks))]
    fn asks(&self, level: u8, at: usize) -> Option<usize>
        ensures { result ≡ spec.asks self.now.text.now self.now.toks.now level at }
    {
        if level > 12 {
            after_mark(self.toks, Mark::Question, at)
        } else {
            None
        }
    }

    #[tactic(auto, unfolding(crate::specs::Parse::conditional))]
    fn conditional(
        &self,
        level: u8,
        at: usize,
        left: Parsed<Boxed<Expr>>,
    ) -> Result<Parsed<Boxed<Expr>>, SyntaxFault>
        requires { Nests self.now.text.now self.now.toks.now self.now.limit (F.pre self.now.below) (F.post self.now.below) }
        ensures { Reads (seen plain) (at_limit spec.conditional self.now.text.now self.now.toks.now self.now.limit level at (seen plain left)) result }
    {
        let test = self.climb(level.min(12), at, left)?;
        match self.asks(level, test.next) {
            Some(first) => self.chosen(at, test, first),
            None => Ok(test),
        }
    }

    #[tactic(auto, unfolding(crate::specs::Parse::assigned))]
    fn assigned(
        &self,
        at: usize,
        left: Parsed<Boxed<Expr>>,
        found: Standing<Option<BinOp>>,
    ) -> Result<Parsed<Boxed<Expr>>, SyntaxFault>
        requires { Nests self.now.text.now self.now.toks.now self.now.limit (F.pre self.now.below) (F.post self.now.below) }
        ensures { Reads (seen plain) (at_limit spec.assigned self.now.text.now self.now.toks.now self.now.limit at (seen plain left) found) result }
    {
        let right = self.below(14, found.next)?;
        let depth = self.rise(left.depth.max(right.depth), at)?;
        let form = ExprForm::Assign {
            op: found.is,
            to: left.tree,
            from: right.tree,
        };
        self.made(form, depth, at, right.next)
    }

    // The assignment behind what was read.
    #[tactic(auto, unfolding(crate::specs::Parse::assigns))]
    fn assigns(&self, level: u8, left: &Parsed<Boxed<Expr>>) -> Option<Standing<Option<BinOp>>>
        ensures { result ≡ spec.assigns self.now.text.now self.now.toks.now level (seen plain left.now) }
    {
        if level <= 13 {
            return None;
        }
        let found = assign_at(self.toks, left.next)?;
        if is_variable(left.tree.get()) {
            Some(found)
        } else {
            None
        }
    }

    #[tactic(auto, unfolding(crate::specs::Parse::expression))]
    fn expression(&self, level: u8, at: usize) -> Result<Parsed<Boxed<Expr>>, SyntaxFault>
        requires { Nests self.now.text.now self.now.toks.now self.now.limit (F.pre self.now.below) (F.post self.now.below) }
        ensures { Reads (seen plain) (at_limit spec.expression self.now.text.now self.now.toks.now self.now.limit level at) result }
    {
        let left = self.unary(at)?;
        match self.assigns(level, &left) {
            Some(found) => self.assigned(at, left, found),
            None => self.conditional(level, at, left),
        }
    }

    #[tactic(auto, unfolding(crate::specs::Parse::items))]
    fn items(&self, at: usize, first: usize) -> Result<Parsed<Boxed<Expr>>, SyntaxFault>
        requires { Nests self.now.text.now self.now.toks.now self.now.limit (F.pre self.now.below) (F.post self.now.below) }
        ensures { Reads (seen plain) (at_limit spec.items self.now.text.now self.now.toks.now self.now.limit at first) result }
    {
        let Parsed { tree, depth, next } = self.all_in(Row::Items, first)?;
        self.made(ExprForm::Items(tree), depth, at, next)
    }

    // Where items begin.
    #[tactic(auto, unfolding(crate::specs::Parse::opens))]
    fn opens(&self, level: u8, at: usize) -> Option<usize>
        ensures { result ≡ spec.opens self.now.text.now self.now.toks.now level at }
    {
        if level > 14 {
            after_mark(self.toks, Mark::LeftBrace, at)
        } else {
            None
        }
    }

    #[tactic(auto, unfolding(crate::specs::Parse::level))]
    pub fn level(&self, level: u8, at: usize) -> Result<Parsed<Boxed<Expr>>, SyntaxFault>
        requires { Nests self.now.text.now self.now.toks.now self.now.limit (F.pre self.now.below) (F.post self.now.below) }
        ensures { Reads (seen plain) (at_limit spec.level self.now.text.now self.now.toks.now self.now.limit level at) result }
    {
        match self.opens(level, at) {
            Some(first) => self.items(at, first),
            None => self.expression(level, at),
        }
    }
}

/// An expression or initialiser of less than the depth `limit`, at a looseness.
pub fn parse(
    alloc: Global,
    text: &[u8],
    toks: &[Tok],
    limit: u32,
    level: u8,
    at: usize,
) -> Result<Parsed<Boxed<Expr>>, SyntaxFault>
    requires { Readable text.now toks.now }
    ensures { Reads (seen plain) (spec.parse text.now toks.now limit level at) result }
{
    if limit == 0 {
        return refuse(at);
    }
    Grammar {
        alloc,
        text,
        toks,
        limit: limit - 1,
        below: parse,
    }
    .level(level, at)
}

/// The expression or initialiser that begins at a token, of at most a depth. The looseness is 14 for expressions, 15 for
/// initialisers, and 2 for operands, as the value of a label (JLS 15, 8.3). Nodes have the number 0, and a tree's own
/// node the depth 0. It does not look at what stands behind the tree.
///
/// # Errors
///
/// `Bad` where no such tree stands before a token that ends it, and `NoMemory`.
pub fn expr_at(
    alloc: Global,
    text: &[u8],
    toks: &[Tok],
    level: u8,
    at: usize,
    depth: u32,
) -> Result<Parsed<Boxed<Expr>>, SyntaxFault>
    requires ready { Readable text.now toks.now }
    requires least { 2 ≤ level }
    requires most { level ≤ 15 }
    ensures reads { Reads (seen plain) (spec.expr_read text.now toks.now level depth at) result }
    ensures found { IfOk result (λ r. Spells text.now toks.now level (plain r.tree) at r.next × (expr_depth (plain r.tree) ≤ depth)) }
    ensures only { (e : t.Expr) (j : ℕ) → Spells text.now toks.now level e at j → expr_depth e ≤ depth → EndsAt text.now toks.now (sort_at toks.now j) → IsFound plain result e j }
{
    Grammar {
        alloc,
        text,
        toks,
        limit: depth,
        below: parse,
    }
    .level(level, at)
}
