//! What is so of all files. The functions do nothing: their contracts are the laws.

ghost use Rattle.std.specs.Prelude.{◌≡◌, ◌+◌, ◌≤◌, ℕ, List, length};
ghost use Rattle.java_tree.specs.Plain.{SourceUnit};
ghost use Rattle.java_grammar.specs.declared.token.Tok.{Tok};
ghost use Rattle.unit_grammar.specs.Numbers as numbers;
ghost use Rattle.unit_grammar.specs.Sizes as size;
ghost use Rattle.unit_grammar.specs.Depths as depths;
ghost use Rattle.unit_grammar.specs.Declarations.{SpellsUnit};

/// A file takes as many numbers as it has nodes, from whatever number on.
pub fn as_many_unit_nodes()
    ensures { (x : SourceUnit) (first : ℕ) → (numbers.unit x first).1 ≡ first + size.unit x }
{}

/// A file has at most one node more than tokens: an empty text has its one node.
pub fn as_many_unit_tokens()
    ensures { (text : List ℕ) (ts : List Tok) (x : SourceUnit) → SpellsUnit text ts x → size.unit x ≤ length ts + 1 }
{}
