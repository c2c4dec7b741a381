//! The sorts of words and operators, by their texts.

ghost use Rattle.std.specs.Prelude.{◌≡◌, drop};
ghost use Rattle.java_grammar.specs.Sorts as spec;

use crate::token::{Keyword, Mark, Sort};
use java_tree::tree::{BinOp, Kind};

// A list is gone through in stretches, each by a function that leaves the rest to the next: the proof of a match grows with the square of its arms.

/// The sort of a word that is no identifier.
fn keyword_sort(word: &str) -> Sort
    ensures { result ≡ spec.sort_in spec.keywords word.now }
{
    let keyword = match word {
        "abstract" => Keyword::Abstract,
        "boolean" => Keyword::Boolean,
        "break" => Keyword::Break,
        "case" => Keyword::Case,
        "catch" => Keyword::Catch,
        "char" => Keyword::Char,
        "class" => Keyword::Class,
        "continue" => Keyword::Continue,
        "default" => Keyword::Default,
        "do" => Keyword::Do,
        _ => return sort_past_do(word),
    };
    Sort::Keyword(keyword)
}

/// The sort of such a word that stands behind `do` in the list.
fn sort_past_do(word: &str) -> Sort
    ensures { result ≡ spec.sort_in (drop 10 spec.keywords) word.now }
{
    let keyword = match word {
        "else" => Keyword::Else,
        "extends" => Keyword::Extends,
        "false" => Keyword::False,
        "final" => Keyword::Final,
        "finally" => Keyword::Finally,
        "for" => Keyword::For,
        "if" => Keyword::If,
        "implements" => Keyword::Implements,
        "import" => Keyword::Import,
        "instanceof" => Keyword::InstanceOf,
        _ => return sort_past_instanceof(word),
    };
    Sort::Keyword(keyword)
}

/// The sort of one behind `instanceof`.
fn sort_past_instanceof(word: &str) -> Sort
    ensures { result ≡ spec.sort_in (drop 20 spec.keywords) word.now }
{
    let keyword = match word {
        "int" => Keyword::Int,
        "interface" => Keyword::Interface,
        "long" => Keyword::Long,
        "new" => Keyword::New,
        "null" => Keyword::Null,
        "package" => Keyword::Package,
        "private" => Keyword::Private,
        "protected" => Keyword::Protected,
        "public" => Keyword::Public,
        "return" => Keyword::Return,
        _ => return sort_past_return(word),
    };
    Sort::Keyword(keyword)
}

/// The sort of one behind `return`.
fn sort_past_return(word: &str) -> Sort
    ensures { result ≡ spec.sort_in (drop 30 spec.keywords) word.now }
{
    let keyword = match word {
        "static" => Keyword::Static,
        "super" => Keyword::Super,
        "switch" => Keyword::Switch,
        "this" => Keyword::This,
        "throw" => Keyword::Throw,
        "throws" => Keyword::Throws,
        "true" => Keyword::True,
        "try" => Keyword::Try,
        "void" => Keyword::Void,
        "while" => Keyword::While,
        _ => return Sort::Other,
    };
    Sort::Keyword(keyword)
}

/// The sort of an operator or separator.
fn operator_sort(word: &str) -> Sort
    ensures { result ≡ spec.sort_in spec.operators word.now }
{
    match word {
        "(" => Sort::Mark(Mark::Open),
        ")" => Sort::Mark(Mark::Close),
        "{" => Sort::Mark(Mark::LeftBrace),
        "}" => Sort::Mark(Mark::RightBrace),
        "[" => Sort::Mark(Mark::LeftBracket),
        "]" => Sort::Mark(Mark::RightBracket),
        ";" => Sort::Mark(Mark::Semicolon),
        "," => Sort::Mark(Mark::Comma),
        "." => Sort::Mark(Mark::Dot),
        _ => sort_past_separators(word),
    }
}

/// The sort of an operator.
fn sort_past_separators(word: &str) -> Sort
    ensures { result ≡ spec.sort_in (drop 9 spec.operators) word.now }
{
    match word {
        "?" => Sort::Mark(Mark::Question),
        ":" => Sort::Mark(Mark::Colon),
        "!" => Sort::Mark(Mark::Not),
        "~" => Sort::Mark(Mark::Invert),
        "++" => Sort::Step(true),
        "--" => Sort::Step(false),
        _ => sort_past_steps(word),
    }
}

/// The sort of an infix operator or an assignment.
fn sort_past_steps(word: &str) -> Sort
    ensures { result ≡ spec.sort_in (drop 15 spec.operators) word.now }
{
    match word {
        "||" => Sort::Infix(BinOp::LogicOr),
        "&&" => Sort::Infix(BinOp::LogicAnd),
        "|" => Sort::Infix(BinOp::BitOr),
        "^" => Sort::Infix(BinOp::BitXor),
        "&" => Sort::Infix(BinOp::BitAnd),
        "==" => Sort::Infix(BinOp::Equal),
        "!=" => Sort::Infix(BinOp::NotEqual),
        _ => sort_past_equality(word),
    }
}

/// The sort of one from the comparisons by size on.
fn sort_past_equality(word: &str) -> Sort
    ensures { result ≡ spec.sort_in (drop 22 spec.operators) word.now }
{
    match word {
        "<" => Sort::Infix(BinOp::Less),
        ">" => Sort::Infix(BinOp::Greater),
        "<=" => Sort::Infix(BinOp::LessEqual),
        ">=" => Sort::Infix(BinOp::GreaterEqual),
        "<<" => Sort::Infix(BinOp::ShiftLeft),
        "+" => Sort::Infix(BinOp::Add),
        "-" => Sort::Infix(BinOp::Sub),
        "*" => Sort::Infix(BinOp::Mul),
        "/" => Sort::Infix(BinOp::Div),
        "%" => Sort::Infix(BinOp::Rem),
        _ => assignment_sort(word),
    }
}

/// The sort of an assignment.
fn assignment_sort(word: &str) -> Sort
    ensures { result ≡ spec.sort_in (drop 32 spec.operators) word.now }
{
    match word {
        "=" => Sort::Assign(None),
        "|=" => Sort::Assign(Some(BinOp::BitOr)),
        "^=" => Sort::Assign(Some(BinOp::BitXor)),
        "&=" => Sort::Assign(Some(BinOp::BitAnd)),
        "<<=" => Sort::Assign(Some(BinOp::ShiftLeft)),
        "+=" => Sort::Assign(Some(BinOp::Add)),
        "-=" => Sort::Assign(Some(BinOp::Sub)),
        "*=" => Sort::Assign(Some(BinOp::Mul)),
        "/=" => Sort::Assign(Some(BinOp::Div)),
        "%=" => Sort::Assign(Some(BinOp::Rem)),
        _ => Sort::Other,
    }
}

/// The sort of a token, by its kind and its text.
pub fn sort_of(kind: Kind, word: &str) -> Sort
    ensures { result ≡ spec.sort_of kind word.now }
{
    match kind {
        Kind::Word => Sort::Word,
        Kind::Keyword => keyword_sort(word),
        Kind::Int => Sort::Number(false),
        Kind::Long => Sort::Number(true),
        Kind::Float => Sort::Other,
        Kind::Char => Sort::Char,
        Kind::Text => Sort::Text,
        Kind::Op => operator_sort(word),
    }
}
