//! What is so of all spelled trees. The functions do nothing: their contracts are the laws.

ghost use Rattle.std.specs.Prelude.{◌≡◌, ◌-◌, ◌<◌, ◌≤◌, ◌+◌, ℕ, Bool, List, length};
ghost use Rattle.java_tree.specs.Names.{AreDistinct, IsFront};
ghost use Rattle.java_tree.specs.Plain as t;
ghost use Rattle.tree_numbers.specs.Sizes as size;
ghost use Rattle.java_grammar.specs.Sorts.{AreToks};
ghost use Rattle.java_grammar.specs.Expressions.{SpellsType, Spells};
ghost use Rattle.java_grammar.specs.Statements.{SpellsStmt};
ghost use Rattle.java_grammar.specs.Reads.{sort_at};
ghost use Rattle.java_grammar.specs.Carried as carried;
ghost use Rattle.java_grammar.specs.Carried.{Agrees};

use crate::token::Tok;
use java_tree::tree::Token;

/// Tokens are one list of the grammar's, by a table of names, as long as they are. It stays where the table grows.
pub fn one_list_of_tokens()
    ensures one { (text : List ℕ) (names : List (List ℕ)) (tokens : List Token) (ts us : List Tok)
        → AreDistinct names → AreToks text names tokens ts → AreToks text names tokens us → ts ≡ us }
    ensures as_many { (text : List ℕ) (names : List (List ℕ)) (tokens : List Token) (ts : List Tok) → AreToks text names tokens ts → length ts ≡ length tokens }
    ensures kept { (text : List ℕ) (old new : List (List ℕ)) (tokens : List Token) (ts : List Tok)
        → IsFront old new → AreToks text old tokens ts → AreToks text new tokens ts }
{}

/// A tree has at most as many nodes as tokens.
pub fn as_many_tokens()
    ensures types { (text : List ℕ) (ts : List Tok) (x : t.TypeExpr) (i j : ℕ) → SpellsType text ts x i j → (i < j) × (i + size.type x ≤ j) }
    ensures expressions { (text : List ℕ) (ts : List Tok) (k : ℕ) (e : t.Expr) (i j : ℕ) → Spells text ts k e i j → (i < j) × (i + size.expr e ≤ j) }
    ensures statements { (text : List ℕ) (ts : List Tok) (in_block : Bool) (x : t.Stmt) (i j : ℕ) → SpellsStmt text ts in_block x i j → (i < j) × (i + size.stmt x ≤ j) }
{}

/// A tree's spelling looks at the tree's own tokens: where the same tokens stand, they spell the tree with its places carried.
pub fn spelled_elsewhere()
    ensures types { (g : ℕ → ℕ) (text : List ℕ) (ts : List Tok) (other : List ℕ) (us : List Tok) (x : t.TypeExpr) (i j at : ℕ)
        → Agrees g text ts other us i j at → SpellsType text ts x i j → SpellsType other us (carried.type g x) at (at + (j - i)) }
    ensures expressions { (g : ℕ → ℕ) (text : List ℕ) (ts : List Tok) (other : List ℕ) (us : List Tok) (k : ℕ) (e : t.Expr) (i j at : ℕ)
        → Agrees g text ts other us i j at → Spells text ts k e i j → Spells other us k (carried.expr g e) at (at + (j - i)) }

    // A statement looks at the sort of the token behind it too.
    ensures statements { (g : ℕ → ℕ) (text : List ℕ) (ts : List Tok) (other : List ℕ) (us : List Tok) (in_block : Bool) (x : t.Stmt) (i j at : ℕ)
        → Agrees g text ts other us i j at → sort_at us (at + (j - i)) ≡ sort_at ts j
        → SpellsStmt text ts in_block x i j → SpellsStmt other us in_block (carried.stmt g x) at (at + (j - i)) }
{}
