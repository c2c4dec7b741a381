//! Laws of what `build` answers. The functions do nothing: their contracts are the laws.

ghost use Rattle.std.specs.Prelude.{◌≡◌, ℕ, List};
ghost use Rattle.java_tree.specs.declared.fault.Broken as spec_fault;
ghost use Rattle.java_tree.specs.Names.{AreDistinct};
ghost use Rattle.java_tree.specs.Plain as t;
ghost use Rattle.class_world.specs.declared.world.World as spec_world;
ghost use Rattle.decl_table.specs.Program.{Program, IsRefusal, IsProgramWorld};
ghost use Rattle.decl_table.specs.Judged.{IsProgram};

/// Files are one program, where no text has two numbers.
pub fn one_program()
    ensures { (names : List (List ℕ)) (user lib : List t.SourceUnit) (p q : Program) → AreDistinct names → IsProgram names user lib p → IsProgram names user lib q → p ≡ q }
{}

/// One broken rule at most refuses a program.
pub fn one_refusal()
    ensures { (names : List (List ℕ)) (p : Program) (b c : spec_fault.Broken) → IsRefusal names p b → IsRefusal names p c → b ≡ c }
{}

/// A program that is refused has no world.
pub fn refused_or_declared()
    ensures { (names : List (List ℕ)) (p : Program) (b : spec_fault.Broken) (w : spec_world.World) → IsRefusal names p b → IsProgramWorld names p w → ⊥ }
{}
