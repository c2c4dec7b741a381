//! The rule that a token breaks.

ghost use Rattle.std.specs.Prelude.{◌≡◌};
ghost use Rattle.left_out.specs.Rules as spec;

use java_tree::tree::Kind;

fn keyword_rule(word: &str) -> Option<u8>
    ensures { result ≡ spec.rule_in spec.keywords word.now }
{
    match word {
        "synchronized" | "volatile" => Some(1),
        "native" | "strictfp" | "transient" | "const" | "goto" => Some(2),
        "enum" => Some(3),
        "assert" => Some(4),
        "float" | "double" => Some(7),
        "byte" | "short" => Some(8),
        _ => None,
    }
}

fn operator_rule(word: &str) -> Option<u8>
    ensures { result ≡ spec.rule_in spec.operators word.now }
{
    match word {
        "@" => Some(6),
        "..." => Some(9),
        _ => None,
    }
}

fn is_declaration(word: &str) -> bool
    ensures { result ≡ spec.is_declaration word.now }
{
    word == "class" || word == "interface"
}

/// The rule that a token breaks. `nests` says that a type which it declares is declared within another.
#[tactic(auto, unfolding(crate::specs::Rules::token_rule))]
pub fn token_rule(kind: Kind, word: &str, nests: bool) -> Option<u8>
    ensures { result ≡ spec.token_rule kind word.now nests }
{
    match kind {
        Kind::Keyword if nests && is_declaration(word) => Some(5),
        Kind::Keyword => keyword_rule(word),
        Kind::Float => Some(7),
        Kind::Op => operator_rule(word),
        Kind::Word | Kind::Int | Kind::Long | Kind::Char | Kind::Text => None,
    }
}
