//! What is so of all numberings. The functions do nothing: their contracts are the laws.

ghost use Rattle.std.specs.Prelude.{◌≡◌, ◌+◌, ℕ};
ghost use Rattle.java_tree.specs.Plain as t;
ghost use Rattle.tree_numbers.specs.Numbers as numbers;
ghost use Rattle.tree_numbers.specs.Sizes as size;

/// A tree takes as many numbers as it has nodes, from whatever number on.
pub fn as_many_as_nodes()
    ensures types { (x : t.TypeExpr) (first : ℕ) → (numbers.type x first).1 ≡ first + size.type x }
    ensures expressions { (e : t.Expr) (first : ℕ) → (numbers.expr e first).1 ≡ first + size.expr e }
    ensures statements { (x : t.Stmt) (first : ℕ) → (numbers.stmt x first).1 ≡ first + size.stmt x }
{}
