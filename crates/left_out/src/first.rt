//! The first token that breaks a rule.

ghost use Rattle.std.specs.Prelude.{◌≡◌, ℕ, None, IfSome};
ghost use Rattle.java_lexer.specs.Lexing.{Lexes};
ghost use Rattle.left_out.specs.Rules.{rule_of, IsFirst};

use crate::before::Before;
use crate::rule::token_rule;
use java_lexer::text_of;
use java_tree::tree::Token;

/// A token, by its place in the list of tokens, and the number of the rule among S1 to S9 that it breaks.
#[derive(Clone, Copy, Debug, PartialEq, Eq)]
pub struct LeftOut {
    pub token: usize,
    pub rule: u8,
}

/// The first token of a text that breaks one of the rules S1 to S9, if there is one.
pub fn first_left_out(text: &[u8], tokens: &[Token]) -> Option<LeftOut>
    requires { Lexes text.now tokens.now }
    ensures found { IfSome result (λ l. IsFirst text.now tokens.now l.token l.rule) }
    ensures none { result ≡ None → (i : ℕ) → rule_of text.now tokens.now i ≡ None }
{
    let mut before = Before {
        opened: 0,
        closed: 0,
        dot: false,
    };
    for (i, token) in tokens.iter().enumerate() {
        let word = text_of(text, token.span);
        if let Some(rule) = token_rule(token.kind, word, before.nests()) {
            return Some(LeftOut { token: i, rule });
        }
        before = before.with(token.kind, word);
    }
    None
}
