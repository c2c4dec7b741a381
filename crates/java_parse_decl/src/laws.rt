//! What is so of all files. The functions do nothing: their contracts are the laws.

ghost use Rattle.std.specs.Prelude.{◌≡◌, ℕ, List};
ghost use Rattle.java_tree.specs.Plain as t;
ghost use Rattle.java_grammar.specs.declared.token.Tok.{Tok};
ghost use Rattle.unit_grammar.specs.Declarations.{SpellsUnit};

/// Tokens are one file, however deep.
pub fn one_unit()
    ensures { (text : List ℕ) (ts : List Tok) (x y : t.SourceUnit) → SpellsUnit text ts x → SpellsUnit text ts y → x ≡ y }
{}
