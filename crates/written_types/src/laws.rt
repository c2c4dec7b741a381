//! A law of the definitions.

ghost use Rattle.java_tree.specs.Plain as t;
ghost use Rattle.written_types.specs.Places.{Place};
ghost use Rattle.written_types.specs.Breaks.{IsTypedWhereNamed};

/// A written type says a type exactly where neither it nor a type within it breaks DR1.
pub fn typed_where_named()
    ensures { (p : Place) (x : t.TypeExpr) → IsTypedWhereNamed p x }
{}
