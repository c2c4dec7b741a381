//! Laws of the grammar, which parsing shows.

ghost use Rattle.std.specs.Prelude.{◌≡◌, ◌≤◌, ℕ, List};
ghost use Rattle.java_tree.specs.Plain.{TypeExpr, Expr};
ghost use Rattle.java_grammar.specs.declared.token.Tok.{Tok};
ghost use Rattle.java_grammar.specs.Reads.{sort_at};
ghost use Rattle.java_grammar.specs.Expressions.{SpellsType, GoesOn, Spells, EndsAt};

/// Tokens have one type up to where none goes on.
pub fn one_type()
    ensures { (text : List ℕ) (ts : List Tok) (x y : TypeExpr) (i j l : ℕ) → SpellsType text ts x i j → (GoesOn text ts (sort_at ts j) → ⊥)
        → SpellsType text ts y i l → (GoesOn text ts (sort_at ts l) → ⊥) → (x ≡ y) × (j ≡ l) }
{}

/// Tokens have one expression, at each looseness, up to where one ends.
pub fn one_expression()
    ensures { (text : List ℕ) (ts : List Tok) (k : ℕ) (e f : Expr) (i j l : ℕ) → 2 ≤ k → k ≤ 15 → Spells text ts k e i j → EndsAt text ts (sort_at ts j)
        → Spells text ts k f i l → EndsAt text ts (sort_at ts l) → (e ≡ f) × (j ≡ l) }
{}
