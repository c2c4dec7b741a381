//! Parts of statements: arguments, variables, parameters.

ghost use Rattle.std.specs.Prelude.{◌≡◌, ◌<◌, ◌^◌, ◌∷◌, [], length, map};
ghost use Rattle.std.specs.Option.{option_map};
ghost use Rattle.java_tree.specs.View.{plain, type_plain, var_plain, param_plain, stmt_plain, stmt_form_plain};
ghost use Rattle.java_parse_term.specs.Ready.{Readable};
ghost use Rattle.java_parse_term.specs.Seen.{Reads, same};
ghost use Rattle.java_parse_expr.specs.Parse as spec;
ghost use Rattle.java_parse_expr.specs.Seen.{seen};

use crate::got::{Got, unboxed};
use crate::steps::{Source, is_statement};
use java_grammar::{Keyword, Mark};
use java_parse_term::SyntaxFault;
use java_parse_term::marks::{after_mark, after_word, is_keyword};
use java_parse_term::parsed::{need, token_number};
use java_parse_term::types::brackets;
use java_tree::tree::{Expr, Param, Stmt, StmtForm, Var};
use java_tree::{Boxed, Items};

impl Source<'_> {
    // Expressions behind the first one.
    #[tactic(auto, unfolding(crate::specs::Parse::more))]
    fn more_exprs(
        &self,
        limit: u32,
        first: Got<Boxed<Expr>>,
    ) -> Result<Got<Items<Expr>>, SyntaxFault>
        requires { Readable self.now.text.now self.now.toks.now }
        ensures { Reads (seen (map plain)) (spec.more self.now.text.now self.now.toks.now (spec.expr_under self.now.text.now self.now.toks.now limit 14) (length self.now.toks.now) (plain first.tree ∷ []) first.next) result }
    {
        let mut done = Got::one(self.alloc, first)?;
        for _turn in 0..self.toks.len() {
            match after_mark(self.toks, Mark::Comma, done.next) {
                Some(next) => {
                    let one = self.expr_under(limit, 14, next)?;
                    done.add(one)?;
                }
                None => return Ok(done),
            }
        }
        Err(SyntaxFault::Bad {
            token: token_number(done.next),
        })
    }

    /// Expressions with commas between them.
    #[tactic(auto, unfolding(crate::specs::Parse::list_of))]
    fn exprs(&self, limit: u32, at: usize) -> Result<Got<Items<Expr>>, SyntaxFault>
        requires { Readable self.now.text.now self.now.toks.now }
        ensures { Reads (seen (map plain)) (spec.list_of self.now.text.now self.now.toks.now (spec.expr_under self.now.text.now self.now.toks.now limit 14) at) result }
    {
        let first = self.expr_under(limit, 14, at)?;
        self.more_exprs(limit, first)
    }

    /// The arguments of a call behind `(`, up to and with `)`.
    #[tactic(auto, unfolding(crate::specs::Parse::values))]
    pub fn values(&self, limit: u32, at: usize) -> Result<Got<Items<Expr>>, SyntaxFault>
        requires { Readable self.now.text.now self.now.toks.now }
        ensures { Reads (seen (map plain)) (spec.values self.now.text.now self.now.toks.now limit at) result }
    {
        if let Some(next) = after_mark(self.toks, Mark::Close, at) {
            return Ok(Got::none(self.alloc, next));
        }
        let found = self.exprs(limit, at)?;
        let next = need(after_mark(self.toks, Mark::Close, found.next), found.next)?;
        let Got { tree, .. } = found;
        Ok(Got { tree, next })
    }

    /// `=` with an initialiser, or nothing.
    #[tactic(auto, unfolding(crate::specs::Parse::init))]
    fn init(&self, limit: u32, at: usize) -> Result<Got<Option<Boxed<Expr>>>, SyntaxFault>
        requires { Readable self.now.text.now self.now.toks.now }
        ensures { Reads (seen (option_map plain)) (spec.init self.now.text.now self.now.toks.now limit at) result }
    {
        match self.after_equals(at) {
            Some(first) => {
                let Got { tree, next } = self.expr_under(limit, 15, first)?;
                Ok(Got {
                    tree: Some(tree),
                    next,
                })
            }
            None => Ok(Got {
                tree: None,
                next: at,
            }),
        }
    }

    #[tactic(auto, unfolding(crate::specs::Parse::var))]
    fn var(&self, limit: u32, at: usize) -> Result<Got<Boxed<Var>>, SyntaxFault>
        requires { Readable self.now.text.now self.now.toks.now }
        ensures { Reads (seen var_plain) (spec.var self.now.text.now self.now.toks.now limit at) result }
    {
        let behind = need(after_word(self.toks, at), at)?;
        let dims = brackets(self.toks, behind);
        let Got { tree, next } = self.init(limit.saturating_sub(1), dims.next)?;
        let var = Var {
            node: self.node(at, next),
            name: self.id_at(at),
            dims: dims.is,
            init: unboxed(tree),
        };
        Ok(Got {
            tree: Boxed::new(self.alloc, var)?,
            next,
        })
    }

    // Variables behind the first one.
    #[tactic(auto, unfolding(crate::specs::Parse::more))]
    fn more_vars(&self, limit: u32, first: Got<Boxed<Var>>) -> Result<Got<Items<Var>>, SyntaxFault>
        requires { Readable self.now.text.now self.now.toks.now }
        ensures { Reads (seen (map var_plain)) (spec.more self.now.text.now self.now.toks.now (spec.var self.now.text.now self.now.toks.now limit) (length self.now.toks.now) (var_plain first.tree ∷ []) first.next) result }
    {
        let mut done = Got::one(self.alloc, first)?;
        for _turn in 0..self.toks.len() {
            match after_mark(self.toks, Mark::Comma, done.next) {
                Some(next) => {
                    let one = self.var(limit, next)?;
                    done.add(one)?;
                }
                None => return Ok(done),
            }
        }
        Err(SyntaxFault::Bad {
            token: token_number(done.next),
        })
    }

    /// Variables with commas between them (JLS 8.3, 14.4).
    #[tactic(auto, unfolding(crate::specs::Parse::vars, crate::specs::Parse::list_of))]
    pub fn vars(&self, limit: u32, at: usize) -> Result<Got<Items<Var>>, SyntaxFault>
        requires { Readable self.now.text.now self.now.toks.now }
        ensures { Reads (seen (map var_plain)) (spec.vars self.now.text.now self.now.toks.now limit at) result }
    {
        let first = self.var(limit, at)?;
        self.more_vars(limit, first)
    }

    /// A local variable declaration without its `;` (JLS 14.4).
    #[tactic(auto, unfolding(crate::specs::Parse::local))]
    pub fn local(&self, limit: u32, at: usize) -> Result<Got<Boxed<StmtForm>>, SyntaxFault>
        requires { Readable self.now.text.now self.now.toks.now }
        ensures { Reads (seen stmt_form_plain) (spec.local self.now.text.now self.now.toks.now limit at) result }
    {
        let ty = self.type_under(limit, self.after_final(at))?;
        let found = self.vars(limit, ty.next)?;
        let Got { tree: ty, .. } = ty;
        let Got { tree: vars, next } = found;
        let form = StmtForm::Local {
            is_final: is_keyword(self.toks, Keyword::Final, at),
            ty: ty.into_inner(),
            vars,
        };
        Ok(Got {
            tree: Boxed::new(self.alloc, form)?,
            next,
        })
    }

    /// A parameter (JLS 8.4.1).
    #[tactic(auto, unfolding(crate::specs::Parse::param))]
    pub fn param(&self, limit: u32, at: usize) -> Result<Got<Boxed<Param>>, SyntaxFault>
        requires { Readable self.now.text.now self.now.toks.now }
        ensures { Reads (seen param_plain) (spec.param self.now.text.now self.now.toks.now limit at) result }
    {
        let Got { tree, next: name } = self.type_under(limit, self.after_final(at))?;
        let behind = need(after_word(self.toks, name), name)?;
        let dims = brackets(self.toks, behind);
        let param = Param {
            node: self.node(at, dims.next),
            is_final: is_keyword(self.toks, Keyword::Final, at),
            ty: tree.into_inner(),
            name: self.id_at(name),
            dims: dims.is,
        };
        Ok(Got {
            tree: Boxed::new(self.alloc, param)?,
            next: dims.next,
        })
    }

    /// An expression that may be a statement.
    #[tactic(auto, unfolding(crate::specs::Parse::performed))]
    pub fn performed(&self, limit: u32, at: usize) -> Result<Got<Boxed<Expr>>, SyntaxFault>
        requires { Readable self.now.text.now self.now.toks.now }
        ensures { Reads (seen plain) (spec.performed self.now.text.now self.now.toks.now limit at) result }
    {
        let found = self.expr_under(limit, 14, at)?;
        if is_statement(found.tree.get()) {
            Ok(found)
        } else {
            Err(SyntaxFault::Bad {
                token: token_number(at),
            })
        }
    }

    // The same behind the first one.
    #[tactic(auto, unfolding(crate::specs::Parse::more))]
    fn more_performed(
        &self,
        limit: u32,
        first: Got<Boxed<Expr>>,
    ) -> Result<Got<Items<Expr>>, SyntaxFault>
        requires { Readable self.now.text.now self.now.toks.now }
        ensures { Reads (seen (map plain)) (spec.more self.now.text.now self.now.toks.now (spec.performed self.now.text.now self.now.toks.now limit) (length self.now.toks.now) (plain first.tree ∷ []) first.next) result }
    {
        let mut done = Got::one(self.alloc, first)?;
        for _turn in 0..self.toks.len() {
            match after_mark(self.toks, Mark::Comma, done.next) {
                Some(next) => {
                    let one = self.performed(limit, next)?;
                    done.add(one)?;
                }
                None => return Ok(done),
            }
        }
        Err(SyntaxFault::Bad {
            token: token_number(done.next),
        })
    }

    /// Expressions that may be statements, with commas between them (JLS 14.14.1).
    #[tactic(auto, unfolding(crate::specs::Parse::list_of))]
    pub fn all_performed(&self, limit: u32, at: usize) -> Result<Got<Items<Expr>>, SyntaxFault>
        requires { Readable self.now.text.now self.now.toks.now }
        ensures { Reads (seen (map plain)) (spec.list_of self.now.text.now self.now.toks.now (spec.performed self.now.text.now self.now.toks.now limit) at) result }
    {
        let first = self.performed(limit, at)?;
        self.more_performed(limit, first)
    }

    // Such an expression as a statement without a `;`.
    #[tactic(auto, unfolding(crate::specs::Parse::first))]
    fn first(&self, limit: u32, at: usize) -> Result<Got<Boxed<Stmt>>, SyntaxFault>
        requires { Readable self.now.text.now self.now.toks.now }
        ensures { Reads (seen stmt_plain) (spec.first self.now.text.now self.now.toks.now limit at) result }
    {
        let Got { tree, next } = self.performed(limit, at)?;
        let stmt = Stmt {
            node: self.node(at, next),
            form: StmtForm::Value(tree.into_inner()),
        };
        Ok(Got {
            tree: Boxed::new(self.alloc, stmt)?,
            next,
        })
    }

    // The same behind the first one.
    #[tactic(auto, unfolding(crate::specs::Parse::more))]
    fn more_firsts(
        &self,
        limit: u32,
        first: Got<Boxed<Stmt>>,
    ) -> Result<Got<Items<Stmt>>, SyntaxFault>
        requires { Readable self.now.text.now self.now.toks.now }
        ensures { Reads (seen (map stmt_plain)) (spec.more self.now.text.now self.now.toks.now (spec.first self.now.text.now self.now.toks.now limit) (length self.now.toks.now) (stmt_plain first.tree ∷ []) first.next) result }
    {
        let mut done = Got::one(self.alloc, first)?;
        for _turn in 0..self.toks.len() {
            match after_mark(self.toks, Mark::Comma, done.next) {
                Some(next) => {
                    let one = self.first(limit, next)?;
                    done.add(one)?;
                }
                None => return Ok(done),
            }
        }
        Err(SyntaxFault::Bad {
            token: token_number(done.next),
        })
    }

    /// Statements without `;`, with commas between them, with which a `for` begins (JLS 14.14.1).
    #[tactic(auto, unfolding(crate::specs::Parse::list_of))]
    pub fn firsts(&self, limit: u32, at: usize) -> Result<Got<Items<Stmt>>, SyntaxFault>
        requires { Readable self.now.text.now self.now.toks.now }
        ensures { Reads (seen (map stmt_plain)) (spec.list_of self.now.text.now self.now.toks.now (spec.first self.now.text.now self.now.toks.now limit) at) result }
    {
        let first = self.first(limit, at)?;
        self.more_firsts(limit, first)
    }
}
