//! Statements (JLS 14). Each rule takes the parser of lower statements as a parameter, so that each is proved by itself.

ghost use Rattle.std.specs.Prelude.{◌≡◌, ◌<◌, ◌^◌, ◌∷◌, [], Some, length, map};
ghost use Rattle.std.specs.Option.{option_map};
ghost use Rattle.java_tree.specs.View.{plain, type_plain, stmt_plain, stmt_form_plain, group_plain, catch_plain};
ghost use Rattle.java_parse_term.specs.Ready.{Readable};
ghost use Rattle.java_parse_term.specs.Seen.{Reads, same};
ghost use Rattle.java_grammar.specs.Expressions.{node_of};
ghost use Rattle.java_parse_expr.specs.Parse as spec;
ghost use Rattle.java_parse_expr.specs.Parse.{at_depth};
ghost use Rattle.java_parse_expr.specs.Seen.{seen};
ghost use Rattle.java_parse_expr.specs.Nests.{Nests};

use crate::got::{Got, unboxed};
use crate::steps::{Source, is_label_value};
use java_grammar::{Keyword, Mark, Sort, Tok, sort_at};
use java_parse_term::SyntaxFault;
use java_parse_term::marks::{after_keyword, after_mark, after_word, is_keyword, is_mark};
use java_parse_term::parsed::{need, token_number};
use java_tree::tree::{Catch, Expr, Group, Stmt, StmtForm, TypeExpr};
use java_tree::{Boxed, Items};
use std::alloc::Global;

/// Rules for statements of at most the depth `limit`; `below` reads those of less, and those of still less for an inner
/// node.
#[derive(Clone, Copy)]
pub struct Stmts<'a, F> {
    pub source: Source<'a>,
    pub limit: u32,
    pub below: F,
}

impl<
    F: Fn(Global, &[u8], &[Tok], u32, bool, bool, usize) -> Result<Got<Boxed<Stmt>>, SyntaxFault>,
> Stmts<'_, F> {
    fn below(&self, inner: bool, in_block: bool, at: usize) -> Result<Got<Boxed<Stmt>>, SyntaxFault>
        requires { Nests self.now.source.text.now self.now.source.toks.now self.now.limit (F.pre self.now.below) (F.post self.now.below) }
        ensures { Reads (seen stmt_plain) (spec.under self.now.source.text.now self.now.source.toks.now self.now.limit inner in_block at) result }
    {
        (self.below)(
            self.source.alloc,
            self.source.text,
            self.source.toks,
            self.limit,
            inner,
            in_block,
            at,
        )
    }

    fn made(&self, form: StmtForm, at: usize, next: usize) -> Result<Got<Boxed<Stmt>>, SyntaxFault>
        requires { Nests self.now.source.text.now self.now.source.toks.now self.now.limit (F.pre self.now.below) (F.post self.now.below) }
        ensures { Reads (seen stmt_plain) (Some (spec.made self.now.source.text.now self.now.source.toks.now (stmt_form_plain form) at next)) result }
    {
        let node = self.source.node(at, next);
        Ok(Got {
            tree: Boxed::new(self.source.alloc, Stmt { node, form })?,
            next,
        })
    }

    // An expression in brackets.
    #[tactic(auto, unfolding(crate::specs::Parse::parenthesized))]
    fn test(&self, at: usize) -> Result<Got<Boxed<Expr>>, SyntaxFault>
        requires { Nests self.now.source.text.now self.now.source.toks.now self.now.limit (F.pre self.now.below) (F.post self.now.below) }
        ensures { Reads (seen plain) (at_depth spec.parenthesized self.now.source.text.now self.now.source.toks.now self.now.limit at) result }
    {
        let toks = self.source.toks;
        let first = need(after_mark(toks, Mark::Open, at), at)?;
        let found = self.source.expr_under(self.limit, 14, first)?;
        let next = need(after_mark(toks, Mark::Close, found.next), found.next)?;
        let Got { tree, .. } = found;
        Ok(Got { tree, next })
    }

    // An expression or nothing before `;`.
    #[tactic(auto, unfolding(crate::specs::Parse::perhaps))]
    fn perhaps(&self, at: usize) -> Result<Got<Option<Boxed<Expr>>>, SyntaxFault>
        requires { Nests self.now.source.text.now self.now.source.toks.now self.now.limit (F.pre self.now.below) (F.post self.now.below) }
        ensures { Reads (seen (option_map plain)) (at_depth spec.perhaps self.now.source.text.now self.now.source.toks.now self.now.limit at) result }
    {
        if is_mark(self.source.toks, Mark::Semicolon, at) {
            return Ok(Got {
                tree: None,
                next: at,
            });
        }
        let Got { tree, next } = self.source.expr_under(self.limit, 14, at)?;
        Ok(Got {
            tree: Some(tree),
            next,
        })
    }

    // The statements of a block or a group.
    #[tactic(auto, unfolding(crate::specs::Parse::stmts, crate::specs::Parse::many))]
    fn stmts(&self, inner: bool, at: usize) -> Result<Got<Items<Stmt>>, SyntaxFault>
        requires { Nests self.now.source.text.now self.now.source.toks.now self.now.limit (F.pre self.now.below) (F.post self.now.below) }
        ensures { Reads (seen (map stmt_plain)) (at_depth spec.stmts self.now.source.text.now self.now.source.toks.now self.now.limit inner at) result }
    {
        let mut done = Got::none(self.source.alloc, at);
        for _turn in 0..self.source.toks.len() {
            if self.source.is_stop(done.next) {
                return Ok(done);
            }
            let one = self.below(inner, true, done.next)?;
            done.add(one)?;
        }
        Err(SyntaxFault::Bad {
            token: token_number(done.next),
        })
    }

    // A block as a part of a statement.
    #[tactic(auto, unfolding(crate::specs::Parse::block_in))]
    fn block_in(&self, inner: bool, at: usize) -> Result<Got<Boxed<Stmt>>, SyntaxFault>
        requires { Nests self.now.source.text.now self.now.source.toks.now self.now.limit (F.pre self.now.below) (F.post self.now.below) }
        ensures { Reads (seen stmt_plain) (at_depth spec.block_in self.now.source.text.now self.now.source.toks.now self.now.limit inner at) result }
    {
        if is_mark(self.source.toks, Mark::LeftBrace, at) {
            self.below(inner, false, at)
        } else {
            Err(SyntaxFault::Bad {
                token: token_number(at),
            })
        }
    }

    // A label behind `case`.
    #[tactic(auto, unfolding(crate::specs::Parse::case_label))]
    fn case_label(&self, at: usize) -> Result<Got<Boxed<Option<Expr>>>, SyntaxFault>
        requires { Nests self.now.source.text.now self.now.source.toks.now self.now.limit (F.pre self.now.below) (F.post self.now.below) }
        ensures { Reads (seen (option_map plain)) (at_depth spec.case_label self.now.source.text.now self.now.source.toks.now self.now.limit at) result }
    {
        let found = self.source.expr_under(self.limit.saturating_sub(1), 2, at)?;
        let next = need(
            after_mark(self.source.toks, Mark::Colon, found.next),
            found.next,
        )?;
        if !is_label_value(found.tree.get()) {
            return Err(SyntaxFault::Bad {
                token: token_number(at),
            });
        }
        let Got { tree, .. } = found;
        Ok(Got {
            tree: Boxed::new(self.source.alloc, Some(tree.into_inner()))?,
            next,
        })
    }

    #[tactic(auto, unfolding(crate::specs::Parse::default_label))]
    fn default_label(&self, at: usize) -> Result<Got<Boxed<Option<Expr>>>, SyntaxFault>
        requires { Nests self.now.source.text.now self.now.source.toks.now self.now.limit (F.pre self.now.below) (F.post self.now.below) }
        ensures { Reads (seen (option_map plain)) (at_depth spec.default_label self.now.source.text.now self.now.source.toks.now self.now.limit at) result }
    {
        let toks = self.source.toks;
        let colon = need(after_keyword(toks, Keyword::Default, at), at)?;
        let next = need(after_mark(toks, Mark::Colon, colon), colon)?;
        Ok(Got {
            tree: Boxed::new(self.source.alloc, None)?,
            next,
        })
    }

    #[tactic(auto, unfolding(crate::specs::Parse::label))]
    fn label(&self, at: usize) -> Result<Got<Boxed<Option<Expr>>>, SyntaxFault>
        requires { Nests self.now.source.text.now self.now.source.toks.now self.now.limit (F.pre self.now.below) (F.post self.now.below) }
        ensures { Reads (seen (option_map plain)) (at_depth spec.label self.now.source.text.now self.now.source.toks.now self.now.limit at) result }
    {
        match after_keyword(self.source.toks, Keyword::Case, at) {
            Some(first) => self.case_label(first),
            None => self.default_label(at),
        }
    }

    // Labels behind the first one.
    #[tactic(auto, unfolding(crate::specs::Parse::more_labels, crate::specs::Parse::many, crate::specs::Parse::is_no_label))]
    fn more_labels(
        &self,
        first: Got<Boxed<Option<Expr>>>,
    ) -> Result<Got<Items<Option<Expr>>>, SyntaxFault>
        requires { Nests self.now.source.text.now self.now.source.toks.now self.now.limit (F.pre self.now.below) (F.post self.now.below) }
        ensures { Reads (seen (map (option_map plain))) (at_depth spec.more_labels self.now.source.text.now self.now.source.toks.now self.now.limit (option_map plain first.tree) first.next) result }
    {
        let mut done = Got::one(self.source.alloc, first)?;
        for _turn in 0..self.source.toks.len() {
            if !self.source.is_label(done.next) {
                return Ok(done);
            }
            let one = self.label(done.next)?;
            done.add(one)?;
        }
        Err(SyntaxFault::Bad {
            token: token_number(done.next),
        })
    }

    #[tactic(auto, unfolding(crate::specs::Parse::labels))]
    fn labels(&self, at: usize) -> Result<Got<Items<Option<Expr>>>, SyntaxFault>
        requires { Nests self.now.source.text.now self.now.source.toks.now self.now.limit (F.pre self.now.below) (F.post self.now.below) }
        ensures { Reads (seen (map (option_map plain))) (at_depth spec.labels self.now.source.text.now self.now.source.toks.now self.now.limit at) result }
    {
        let first = self.label(at)?;
        self.more_labels(first)
    }

    #[tactic(auto, unfolding(crate::specs::Parse::group))]
    fn group(&self, at: usize) -> Result<Got<Boxed<Group>>, SyntaxFault>
        requires { Nests self.now.source.text.now self.now.source.toks.now self.now.limit (F.pre self.now.below) (F.post self.now.below) }
        ensures { Reads (seen group_plain) (at_depth spec.group self.now.source.text.now self.now.source.toks.now self.now.limit at) result }
    {
        let found = self.labels(at)?;
        let body = self.stmts(true, found.next)?;
        let Got { tree: labels, .. } = found;
        let Got { tree: body, next } = body;
        let group = Group {
            node: self.source.node(at, next),
            labels,
            body,
        };
        Ok(Got {
            tree: Boxed::new(self.source.alloc, group)?,
            next,
        })
    }

    #[tactic(auto, unfolding(crate::specs::Parse::groups, crate::specs::Parse::many))]
    fn groups(&self, at: usize) -> Result<Got<Items<Group>>, SyntaxFault>
        requires { Nests self.now.source.text.now self.now.source.toks.now self.now.limit (F.pre self.now.below) (F.post self.now.below) }
        ensures { Reads (seen (map group_plain)) (at_depth spec.groups self.now.source.text.now self.now.source.toks.now self.now.limit at) result }
    {
        let mut done = Got::none(self.source.alloc, at);
        for _turn in 0..self.source.toks.len() {
            if is_mark(self.source.toks, Mark::RightBrace, done.next) {
                return Ok(done);
            }
            let one = self.group(done.next)?;
            done.add(one)?;
        }
        Err(SyntaxFault::Bad {
            token: token_number(done.next),
        })
    }

    #[tactic(auto, unfolding(crate::specs::Parse::caught))]
    fn caught(&self, at: usize) -> Result<Got<Boxed<Catch>>, SyntaxFault>
        requires { Nests self.now.source.text.now self.now.source.toks.now self.now.limit (F.pre self.now.below) (F.post self.now.below) }
        ensures { Reads (seen catch_plain) (at_depth spec.caught self.now.source.text.now self.now.source.toks.now self.now.limit at) result }
    {
        let toks = self.source.toks;
        let open = need(after_keyword(toks, Keyword::Catch, at), at)?;
        let first = need(after_mark(toks, Mark::Open, open), open)?;
        let param = self.source.param(self.limit.saturating_sub(2), first)?;
        let block = need(after_mark(toks, Mark::Close, param.next), param.next)?;
        let body = self.block_in(true, block)?;
        let Got { tree: param, .. } = param;
        let Got { tree: body, next } = body;
        let caught = Catch {
            node: self.source.node(at, next),
            param: param.into_inner(),
            body,
        };
        Ok(Got {
            tree: Boxed::new(self.source.alloc, caught)?,
            next,
        })
    }

    #[tactic(auto, unfolding(crate::specs::Parse::catches, crate::specs::Parse::many, crate::specs::Parse::is_no_catch))]
    fn catches(&self, at: usize) -> Result<Got<Items<Catch>>, SyntaxFault>
        requires { Nests self.now.source.text.now self.now.source.toks.now self.now.limit (F.pre self.now.below) (F.post self.now.below) }
        ensures { Reads (seen (map catch_plain)) (at_depth spec.catches self.now.source.text.now self.now.source.toks.now self.now.limit at) result }
    {
        let mut done = Got::none(self.source.alloc, at);
        for _turn in 0..self.source.toks.len() {
            if !is_keyword(self.source.toks, Keyword::Catch, done.next) {
                return Ok(done);
            }
            let one = self.caught(done.next)?;
            done.add(one)?;
        }
        Err(SyntaxFault::Bad {
            token: token_number(done.next),
        })
    }

    #[tactic(auto, unfolding(crate::specs::Parse::block))]
    fn block(&self, at: usize) -> Result<Got<Boxed<Stmt>>, SyntaxFault>
        requires { Nests self.now.source.text.now self.now.source.toks.now self.now.limit (F.pre self.now.below) (F.post self.now.below) }
        ensures { Reads (seen stmt_plain) (at_depth spec.block self.now.source.text.now self.now.source.toks.now self.now.limit at) result }
    {
        let toks = self.source.toks;
        let first = need(after_mark(toks, Mark::LeftBrace, at), at)?;
        let found = self.stmts(false, first)?;
        let next = need(after_mark(toks, Mark::RightBrace, found.next), found.next)?;
        let Got { tree, .. } = found;
        self.made(StmtForm::Block(tree), at, next)
    }

    #[tactic(auto, unfolding(crate::specs::Parse::empty))]
    fn empty(&self, at: usize) -> Result<Got<Boxed<Stmt>>, SyntaxFault>
        requires { Nests self.now.source.text.now self.now.source.toks.now self.now.limit (F.pre self.now.below) (F.post self.now.below) }
        ensures { Reads (seen stmt_plain) (at_depth spec.empty self.now.source.text.now self.now.source.toks.now self.now.limit at) result }
    {
        let next = need(after_mark(self.source.toks, Mark::Semicolon, at), at)?;
        self.made(StmtForm::Empty, at, next)
    }

    #[tactic(auto, unfolding(crate::specs::Parse::local_stmt))]
    fn local_stmt(&self, at: usize) -> Result<Got<Boxed<Stmt>>, SyntaxFault>
        requires { Nests self.now.source.text.now self.now.source.toks.now self.now.limit (F.pre self.now.below) (F.post self.now.below) }
        ensures { Reads (seen stmt_plain) (at_depth spec.local_stmt self.now.source.text.now self.now.source.toks.now self.now.limit at) result }
    {
        let local = self.source.local(self.limit, at)?;
        let next = need(
            after_mark(self.source.toks, Mark::Semicolon, local.next),
            local.next,
        )?;
        let Got { tree, .. } = local;
        self.made(tree.into_inner(), at, next)
    }

    #[tactic(auto, unfolding(crate::specs::Parse::value))]
    fn value(&self, at: usize) -> Result<Got<Boxed<Stmt>>, SyntaxFault>
        requires { Nests self.now.source.text.now self.now.source.toks.now self.now.limit (F.pre self.now.below) (F.post self.now.below) }
        ensures { Reads (seen stmt_plain) (at_depth spec.value self.now.source.text.now self.now.source.toks.now self.now.limit at) result }
    {
        let found = self.source.performed(self.limit, at)?;
        let next = need(
            after_mark(self.source.toks, Mark::Semicolon, found.next),
            found.next,
        )?;
        let Got { tree, .. } = found;
        self.made(StmtForm::Value(tree.into_inner()), at, next)
    }

    // The branch behind `else`.
    #[tactic(auto, unfolding(crate::specs::Parse::otherwise), using(crate::proofs::Forms::form_if_else))]
    fn otherwise(
        &self,
        at: usize,
        test: Got<Boxed<Expr>>,
        yes: Got<Boxed<Stmt>>,
        first: usize,
    ) -> Result<Got<Boxed<Stmt>>, SyntaxFault>
        requires { Nests self.now.source.text.now self.now.source.toks.now self.now.limit (F.pre self.now.below) (F.post self.now.below) }
        ensures { Reads (seen stmt_plain) (at_depth spec.otherwise self.now.source.text.now self.now.source.toks.now self.now.limit at (seen plain test) (seen stmt_plain yes) first) result }
    {
        let Got { tree: no, next } = self.below(false, false, first)?;
        let form = StmtForm::If {
            test: test.tree.into_inner(),
            yes: yes.tree,
            no: Some(no),
        };
        self.made(form, at, next)
    }

    #[tactic(auto, unfolding(crate::specs::Parse::choice))]
    fn choice(&self, at: usize) -> Result<Got<Boxed<Stmt>>, SyntaxFault>
        requires { Nests self.now.source.text.now self.now.source.toks.now self.now.limit (F.pre self.now.below) (F.post self.now.below) }
        ensures { Reads (seen stmt_plain) (at_depth spec.choice self.now.source.text.now self.now.source.toks.now self.now.limit at) result }
    {
        let toks = self.source.toks;
        let open = need(after_keyword(toks, Keyword::If, at), at)?;
        let test = self.test(open)?;
        let yes = self.below(false, false, test.next)?;
        match after_keyword(toks, Keyword::Else, yes.next) {
            Some(first) => self.otherwise(at, test, yes, first),
            None => {
                let next = yes.next;
                let form = StmtForm::If {
                    test: test.tree.into_inner(),
                    yes: yes.tree,
                    no: None,
                };
                self.made(form, at, next)
            }
        }
    }

    #[tactic(auto, unfolding(crate::specs::Parse::while_stmt))]
    fn while_stmt(&self, at: usize) -> Result<Got<Boxed<Stmt>>, SyntaxFault>
        requires { Nests self.now.source.text.now self.now.source.toks.now self.now.limit (F.pre self.now.below) (F.post self.now.below) }
        ensures { Reads (seen stmt_plain) (at_depth spec.while_stmt self.now.source.text.now self.now.source.toks.now self.now.limit at) result }
    {
        let open = need(after_keyword(self.source.toks, Keyword::While, at), at)?;
        let test = self.test(open)?;
        let Got { tree: body, next } = self.below(false, false, test.next)?;
        let form = StmtForm::While {
            test: test.tree.into_inner(),
            body,
        };
        self.made(form, at, next)
    }

    #[tactic(auto, unfolding(crate::specs::Parse::do_while))]
    fn do_while(&self, at: usize) -> Result<Got<Boxed<Stmt>>, SyntaxFault>
        requires { Nests self.now.source.text.now self.now.source.toks.now self.now.limit (F.pre self.now.below) (F.post self.now.below) }
        ensures { Reads (seen stmt_plain) (at_depth spec.do_while self.now.source.text.now self.now.source.toks.now self.now.limit at) result }
    {
        let toks = self.source.toks;
        let first = need(after_keyword(toks, Keyword::Do, at), at)?;
        let body = self.below(false, false, first)?;
        let open = need(after_keyword(toks, Keyword::While, body.next), body.next)?;
        let test = self.test(open)?;
        let next = need(after_mark(toks, Mark::Semicolon, test.next), test.next)?;
        let form = StmtForm::Do {
            body: body.tree,
            test: test.tree.into_inner(),
        };
        self.made(form, at, next)
    }

    // How a `for` begins.
    #[tactic(auto, unfolding(crate::specs::Parse::start))]
    fn start(&self, at: usize) -> Result<Got<Items<Stmt>>, SyntaxFault>
        requires { Nests self.now.source.text.now self.now.source.toks.now self.now.limit (F.pre self.now.below) (F.post self.now.below) }
        ensures { Reads (seen (map stmt_plain)) (at_depth spec.start self.now.source.text.now self.now.source.toks.now self.now.limit at) result }
    {
        if is_mark(self.source.toks, Mark::Semicolon, at) {
            return Ok(Got::none(self.source.alloc, at));
        }
        let limit = self.limit.saturating_sub(1);
        if !self.source.is_declared(at) {
            return self.source.firsts(limit, at);
        }
        let found = self.source.local(limit, at)?;
        self.declared(at, found)
    }

    // A declaration as the only statement.
    fn declared(
        &self,
        at: usize,
        found: Got<Boxed<StmtForm>>,
    ) -> Result<Got<Items<Stmt>>, SyntaxFault>
        requires { Nests self.now.source.text.now self.now.source.toks.now self.now.limit (F.pre self.now.below) (F.post self.now.below) }
        ensures { Reads (seen (map stmt_plain)) (Some (record { tree = stmt_form_plain found.tree (node_of self.now.source.text.now self.now.source.toks.now at found.next) ∷ []; next = found.next })) result }
    {
        let Got { tree, next } = found;
        let made = self.made(tree.into_inner(), at, next)?;
        Ok(Got::one(self.source.alloc, made)?)
    }

    // What a `for` does after each turn.
    #[tactic(auto, unfolding(crate::specs::Parse::update))]
    fn update(&self, at: usize) -> Result<Got<Items<Expr>>, SyntaxFault>
        requires { Nests self.now.source.text.now self.now.source.toks.now self.now.limit (F.pre self.now.below) (F.post self.now.below) }
        ensures { Reads (seen (map plain)) (at_depth spec.update self.now.source.text.now self.now.source.toks.now self.now.limit at) result }
    {
        if is_mark(self.source.toks, Mark::Close, at) {
            return Ok(Got::none(self.source.alloc, at));
        }
        self.source.all_performed(self.limit, at)
    }

    #[tactic(auto, unfolding(crate::specs::Parse::counted_end))]
    fn counted_end(
        &self,
        at: usize,
        init: Got<Items<Stmt>>,
        test: Got<Option<Boxed<Expr>>>,
        first: usize,
    ) -> Result<Got<Boxed<Stmt>>, SyntaxFault>
        requires { Nests self.now.source.text.now self.now.source.toks.now self.now.limit (F.pre self.now.below) (F.post self.now.below) }
        ensures { Reads (seen stmt_plain) (at_depth spec.counted_end self.now.source.text.now self.now.source.toks.now self.now.limit at (seen (map stmt_plain) init) (seen (option_map plain) test) first) result }
    {
        let step = self.update(first)?;
        let body = need(
            after_mark(self.source.toks, Mark::Close, step.next),
            step.next,
        )?;
        let Got { tree: body, next } = self.below(false, false, body)?;
        let form = StmtForm::For {
            init: init.tree,
            test: unboxed(test.tree),
            step: step.tree,
            body,
        };
        self.made(form, at, next)
    }

    // A `for` with two `;` (JLS 14.14.1).
    #[tactic(auto, unfolding(crate::specs::Parse::counted))]
    fn counted(&self, at: usize, first: usize) -> Result<Got<Boxed<Stmt>>, SyntaxFault>
        requires { Nests self.now.source.text.now self.now.source.toks.now self.now.limit (F.pre self.now.below) (F.post self.now.below) }
        ensures { Reads (seen stmt_plain) (at_depth spec.counted self.now.source.text.now self.now.source.toks.now self.now.limit at first) result }
    {
        let toks = self.source.toks;
        let init = self.start(first)?;
        let second = need(after_mark(toks, Mark::Semicolon, init.next), init.next)?;
        let test = self.perhaps(second)?;
        let third = need(after_mark(toks, Mark::Semicolon, test.next), test.next)?;
        self.counted_end(at, init, test, third)
    }

    #[tactic(auto, unfolding(crate::specs::Parse::each_end))]
    fn each_end(
        &self,
        at: usize,
        begin: usize,
        ty: Got<Boxed<TypeExpr>>,
        first: usize,
    ) -> Result<Got<Boxed<Stmt>>, SyntaxFault>
        requires { Nests self.now.source.text.now self.now.source.toks.now self.now.limit (F.pre self.now.below) (F.post self.now.below) }
        ensures { Reads (seen stmt_plain) (at_depth spec.each_end self.now.source.text.now self.now.source.toks.now self.now.limit at begin (seen type_plain ty) first) result }
    {
        let over = self.source.expr_under(self.limit, 14, first)?;
        let body = need(
            after_mark(self.source.toks, Mark::Close, over.next),
            over.next,
        )?;
        let Got { tree: body, next } = self.below(false, false, body)?;
        let form = StmtForm::ForEach {
            is_final: is_keyword(self.source.toks, Keyword::Final, begin),
            ty: ty.tree.into_inner(),
            name: self.source.id_at(ty.next),
            over: over.tree.into_inner(),
            body,
        };
        self.made(form, at, next)
    }

    // A `for` over what an expression gives (JLS 14.14.2).
    #[tactic(auto, unfolding(crate::specs::Parse::each))]
    fn each(&self, at: usize, begin: usize) -> Result<Got<Boxed<Stmt>>, SyntaxFault>
        requires { Nests self.now.source.text.now self.now.source.toks.now self.now.limit (F.pre self.now.below) (F.post self.now.below) }
        ensures { Reads (seen stmt_plain) (at_depth spec.each self.now.source.text.now self.now.source.toks.now self.now.limit at begin) result }
    {
        let toks = self.source.toks;
        let ty = self
            .source
            .type_under(self.limit, self.source.after_final(begin))?;
        let colon = need(after_word(toks, ty.next), ty.next)?;
        let first = need(after_mark(toks, Mark::Colon, colon), colon)?;
        self.each_end(at, begin, ty, first)
    }

    #[tactic(auto, unfolding(crate::specs::Parse::for_stmt))]
    fn for_stmt(&self, at: usize) -> Result<Got<Boxed<Stmt>>, SyntaxFault>
        requires { Nests self.now.source.text.now self.now.source.toks.now self.now.limit (F.pre self.now.below) (F.post self.now.below) }
        ensures { Reads (seen stmt_plain) (at_depth spec.for_stmt self.now.source.text.now self.now.source.toks.now self.now.limit at) result }
    {
        let toks = self.source.toks;
        let open = need(after_keyword(toks, Keyword::For, at), at)?;
        let first = need(after_mark(toks, Mark::Open, open), open)?;
        if self.source.is_each(first) {
            self.each(at, first)
        } else {
            self.counted(at, first)
        }
    }

    #[tactic(auto, unfolding(crate::specs::Parse::switch_stmt))]
    fn switch_stmt(&self, at: usize) -> Result<Got<Boxed<Stmt>>, SyntaxFault>
        requires { Nests self.now.source.text.now self.now.source.toks.now self.now.limit (F.pre self.now.below) (F.post self.now.below) }
        ensures { Reads (seen stmt_plain) (at_depth spec.switch_stmt self.now.source.text.now self.now.source.toks.now self.now.limit at) result }
    {
        let toks = self.source.toks;
        let open = need(after_keyword(toks, Keyword::Switch, at), at)?;
        let test = self.test(open)?;
        let first = need(after_mark(toks, Mark::LeftBrace, test.next), test.next)?;
        let groups = self.groups(first)?;
        let next = need(after_mark(toks, Mark::RightBrace, groups.next), groups.next)?;
        let form = StmtForm::Switch {
            on: test.tree.into_inner(),
            groups: groups.tree,
        };
        self.made(form, at, next)
    }

    #[tactic(auto, unfolding(crate::specs::Parse::break_stmt))]
    fn break_stmt(&self, at: usize) -> Result<Got<Boxed<Stmt>>, SyntaxFault>
        requires { Nests self.now.source.text.now self.now.source.toks.now self.now.limit (F.pre self.now.below) (F.post self.now.below) }
        ensures { Reads (seen stmt_plain) (at_depth spec.break_stmt self.now.source.text.now self.now.source.toks.now self.now.limit at) result }
    {
        let toks = self.source.toks;
        let end = need(after_keyword(toks, Keyword::Break, at), at)?;
        let next = need(after_mark(toks, Mark::Semicolon, end), end)?;
        self.made(StmtForm::Break, at, next)
    }

    #[tactic(auto, unfolding(crate::specs::Parse::continue_stmt))]
    fn continue_stmt(&self, at: usize) -> Result<Got<Boxed<Stmt>>, SyntaxFault>
        requires { Nests self.now.source.text.now self.now.source.toks.now self.now.limit (F.pre self.now.below) (F.post self.now.below) }
        ensures { Reads (seen stmt_plain) (at_depth spec.continue_stmt self.now.source.text.now self.now.source.toks.now self.now.limit at) result }
    {
        let toks = self.source.toks;
        let end = need(after_keyword(toks, Keyword::Continue, at), at)?;
        let next = need(after_mark(toks, Mark::Semicolon, end), end)?;
        self.made(StmtForm::Continue, at, next)
    }

    #[tactic(auto, unfolding(crate::specs::Parse::return_stmt))]
    fn return_stmt(&self, at: usize) -> Result<Got<Boxed<Stmt>>, SyntaxFault>
        requires { Nests self.now.source.text.now self.now.source.toks.now self.now.limit (F.pre self.now.below) (F.post self.now.below) }
        ensures { Reads (seen stmt_plain) (at_depth spec.return_stmt self.now.source.text.now self.now.source.toks.now self.now.limit at) result }
    {
        let toks = self.source.toks;
        let first = need(after_keyword(toks, Keyword::Return, at), at)?;
        let found = self.perhaps(first)?;
        let next = need(after_mark(toks, Mark::Semicolon, found.next), found.next)?;
        let Got { tree, .. } = found;
        self.made(StmtForm::Return(unboxed(tree)), at, next)
    }

    #[tactic(auto, unfolding(crate::specs::Parse::throw_stmt))]
    fn throw_stmt(&self, at: usize) -> Result<Got<Boxed<Stmt>>, SyntaxFault>
        requires { Nests self.now.source.text.now self.now.source.toks.now self.now.limit (F.pre self.now.below) (F.post self.now.below) }
        ensures { Reads (seen stmt_plain) (at_depth spec.throw_stmt self.now.source.text.now self.now.source.toks.now self.now.limit at) result }
    {
        let toks = self.source.toks;
        let first = need(after_keyword(toks, Keyword::Throw, at), at)?;
        let found = self.source.expr_under(self.limit, 14, first)?;
        let next = need(after_mark(toks, Mark::Semicolon, found.next), found.next)?;
        let Got { tree, .. } = found;
        self.made(StmtForm::Throw(tree.into_inner()), at, next)
    }

    // A `try` with `finally`.
    #[tactic(auto, unfolding(crate::specs::Parse::with_last), using(crate::proofs::Forms::form_try_finally))]
    fn with_last(
        &self,
        at: usize,
        body: Got<Boxed<Stmt>>,
        catches: Got<Items<Catch>>,
        first: usize,
    ) -> Result<Got<Boxed<Stmt>>, SyntaxFault>
        requires { Nests self.now.source.text.now self.now.source.toks.now self.now.limit (F.pre self.now.below) (F.post self.now.below) }
        ensures { Reads (seen stmt_plain) (at_depth spec.with_last self.now.source.text.now self.now.source.toks.now self.now.limit at (seen stmt_plain body) (seen (map catch_plain) catches) first) result }
    {
        let Got { tree: last, next } = self.block_in(false, first)?;
        if self.goes_on(next) {
            return Err(SyntaxFault::Bad {
                token: token_number(next),
            });
        }
        let form = StmtForm::Try {
            body: body.tree,
            catches: catches.tree,
            last: Some(last),
        };
        self.made(form, at, next)
    }

    // Whether `catch` or `finally` stands there.
    #[tactic(auto, unfolding(crate::specs::Parse::is_try_part))]
    fn goes_on(&self, at: usize) -> bool
        ensures { result ≡ spec.is_try_part self.now.source.text.now self.now.source.toks.now at }
    {
        is_keyword(self.source.toks, Keyword::Catch, at)
            || is_keyword(self.source.toks, Keyword::Finally, at)
    }

    // A `try` without `finally`.
    #[tactic(auto, unfolding(crate::specs::Parse::without_last), using(crate::proofs::Forms::form_try))]
    fn without_last(
        &self,
        at: usize,
        body: Got<Boxed<Stmt>>,
        catches: Got<Items<Catch>>,
    ) -> Result<Got<Boxed<Stmt>>, SyntaxFault>
        requires { Nests self.now.source.text.now self.now.source.toks.now self.now.limit (F.pre self.now.below) (F.post self.now.below) }
        ensures { Reads (seen stmt_plain) (at_depth spec.without_last self.now.source.text.now self.now.source.toks.now self.now.limit at (seen stmt_plain body) (seen (map catch_plain) catches)) result }
    {
        let next = catches.next;
        if is_empty(&catches.tree) {
            return Err(SyntaxFault::Bad {
                token: token_number(next),
            });
        }
        let form = StmtForm::Try {
            body: body.tree,
            catches: catches.tree,
            last: None,
        };
        self.made(form, at, next)
    }

    #[tactic(auto, unfolding(crate::specs::Parse::try_stmt))]
    fn try_stmt(&self, at: usize) -> Result<Got<Boxed<Stmt>>, SyntaxFault>
        requires { Nests self.now.source.text.now self.now.source.toks.now self.now.limit (F.pre self.now.below) (F.post self.now.below) }
        ensures { Reads (seen stmt_plain) (at_depth spec.try_stmt self.now.source.text.now self.now.source.toks.now self.now.limit at) result }
    {
        let toks = self.source.toks;
        let first = need(after_keyword(toks, Keyword::Try, at), at)?;
        let body = self.block_in(false, first)?;
        let catches = self.catches(body.next)?;
        match after_keyword(toks, Keyword::Finally, catches.next) {
            Some(first) => self.with_last(at, body, catches, first),
            None => self.without_last(at, body, catches),
        }
    }

    #[tactic(auto, unfolding(crate::specs::Parse::this_call))]
    fn this_call(&self, at: usize) -> Result<Got<Boxed<Stmt>>, SyntaxFault>
        requires { Nests self.now.source.text.now self.now.source.toks.now self.now.limit (F.pre self.now.below) (F.post self.now.below) }
        ensures { Reads (seen stmt_plain) (at_depth spec.this_call self.now.source.text.now self.now.source.toks.now self.now.limit at) result }
    {
        let toks = self.source.toks;
        let open = need(after_keyword(toks, Keyword::This, at), at)?;
        let first = need(after_mark(toks, Mark::Open, open), open)?;
        let args = self.source.values(self.limit, first)?;
        let next = need(after_mark(toks, Mark::Semicolon, args.next), args.next)?;
        let Got { tree, .. } = args;
        self.made(StmtForm::ThisCall(tree), at, next)
    }

    #[tactic(auto, unfolding(crate::specs::Parse::super_call))]
    fn super_call(&self, at: usize) -> Result<Got<Boxed<Stmt>>, SyntaxFault>
        requires { Nests self.now.source.text.now self.now.source.toks.now self.now.limit (F.pre self.now.below) (F.post self.now.below) }
        ensures { Reads (seen stmt_plain) (at_depth spec.super_call self.now.source.text.now self.now.source.toks.now self.now.limit at) result }
    {
        let toks = self.source.toks;
        let open = need(after_keyword(toks, Keyword::Super, at), at)?;
        let first = need(after_mark(toks, Mark::Open, open), open)?;
        let args = self.source.values(self.limit, first)?;
        let next = need(after_mark(toks, Mark::Semicolon, args.next), args.next)?;
        let Got { tree, .. } = args;
        self.made(StmtForm::SuperCall(tree), at, next)
    }

    // A declaration or an expression.
    #[tactic(auto, unfolding(crate::specs::Parse::other))]
    fn other(&self, in_block: bool, at: usize) -> Result<Got<Boxed<Stmt>>, SyntaxFault>
        requires { Nests self.now.source.text.now self.now.source.toks.now self.now.limit (F.pre self.now.below) (F.post self.now.below) }
        ensures { Reads (seen stmt_plain) (at_depth spec.other self.now.source.text.now self.now.source.toks.now self.now.limit in_block at) result }
    {
        if in_block && self.source.is_declared(at) {
            self.local_stmt(at)
        } else {
            self.value(at)
        }
    }

    #[tactic(auto, unfolding(crate::specs::Parse::this_stmt))]
    fn this_stmt(&self, at: usize) -> Result<Got<Boxed<Stmt>>, SyntaxFault>
        requires { Nests self.now.source.text.now self.now.source.toks.now self.now.limit (F.pre self.now.below) (F.post self.now.below) }
        ensures { Reads (seen stmt_plain) (at_depth spec.this_stmt self.now.source.text.now self.now.source.toks.now self.now.limit at) result }
    {
        if self.source.opens_behind(at) {
            self.this_call(at)
        } else {
            self.value(at)
        }
    }

    #[tactic(auto, unfolding(crate::specs::Parse::super_stmt))]
    fn super_stmt(&self, at: usize) -> Result<Got<Boxed<Stmt>>, SyntaxFault>
        requires { Nests self.now.source.text.now self.now.source.toks.now self.now.limit (F.pre self.now.below) (F.post self.now.below) }
        ensures { Reads (seen stmt_plain) (at_depth spec.super_stmt self.now.source.text.now self.now.source.toks.now self.now.limit at) result }
    {
        if self.source.opens_behind(at) {
            self.super_call(at)
        } else {
            self.value(at)
        }
    }

    // A statement, and in a block also a declaration.
    #[tactic(auto, unfolding(crate::specs::Parse::level))]
    pub fn level(&self, in_block: bool, at: usize) -> Result<Got<Boxed<Stmt>>, SyntaxFault>
        requires { Nests self.now.source.text.now self.now.source.toks.now self.now.limit (F.pre self.now.below) (F.post self.now.below) }
        ensures { Reads (seen stmt_plain) (at_depth spec.level self.now.source.text.now self.now.source.toks.now self.now.limit in_block at) result }
    {
        match sort_at(self.source.toks, at) {
            Sort::Mark(Mark::LeftBrace) => self.block(at),
            Sort::Mark(Mark::Semicolon) => self.empty(at),
            Sort::Keyword(Keyword::If) => self.choice(at),
            Sort::Keyword(Keyword::While) => self.while_stmt(at),
            Sort::Keyword(Keyword::Do) => self.do_while(at),
            Sort::Keyword(Keyword::For) => self.for_stmt(at),
            Sort::Keyword(Keyword::Switch) => self.switch_stmt(at),
            Sort::Keyword(Keyword::Break) => self.break_stmt(at),
            Sort::Keyword(Keyword::Continue) => self.continue_stmt(at),
            Sort::Keyword(Keyword::Return) => self.return_stmt(at),
            Sort::Keyword(Keyword::Throw) => self.throw_stmt(at),
            Sort::Keyword(Keyword::Try) => self.try_stmt(at),
            Sort::Keyword(Keyword::This) => self.this_stmt(at),
            Sort::Keyword(Keyword::Super) => self.super_stmt(at),
            _ => self.other(in_block, at),
        }
    }
}

#[tactic(auto, unfolding(crate::specs::Parse::is_empty))]
fn is_empty(catches: &Items<Catch>) -> bool
    ensures { result ≡ spec.is_empty (map catch_plain catches.now) }
{
    match catches.as_slice() {
        [] => true,
        _ => false,
    }
}

/// A statement of depth less than `limit`, and for an inner node of one less; in a block also a declaration.
pub fn under(
    alloc: Global,
    text: &[u8],
    toks: &[Tok],
    limit: u32,
    inner: bool,
    in_block: bool,
    at: usize,
) -> Result<Got<Boxed<Stmt>>, SyntaxFault>
    requires { Readable text.now toks.now }
    ensures { Reads (seen stmt_plain) (spec.under text.now toks.now limit inner in_block at) result }
{
    if limit == 0 {
        return Err(SyntaxFault::Bad {
            token: token_number(at),
        });
    }
    if inner {
        return under(alloc, text, toks, limit - 1, false, in_block, at);
    }
    Stmts {
        source: Source { alloc, text, toks },
        limit: limit - 1,
        below: under,
    }
    .level(in_block, at)
}
